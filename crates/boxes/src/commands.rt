//! The decision on a desk command.
ghost use Rattle.std.specs.Prelude.{◌≡◌, ◌≤◌, ◌↔◌, IsTrue, IsFalse};
ghost use Rattle.boxes.specs.Sound.{IsSound};
ghost use Rattle.boxes.specs.Rows.{key_of};
ghost use Rattle.boxes.specs.State.{State};
ghost use Rattle.boxes.specs.Changes.{command_of};
ghost use Rattle.boxes.specs.Views.{IsDeskViewOf};
ghost use Rattle.boxes.specs.Deciding.{DecidesCommand};
ghost use Rattle.boxes.specs.Steps.{CanLimit, IsPossible};

use crate::change::Command;
use crate::rows::{KeyRow, Role};
use crate::view::DeskView;
use sigtext::Refusal;

// Whether the key may be revoked, if there are `clerks` unrevoked clerk's keys.
fn may_be_revoked(key: &KeyRow, clerks: u64) -> bool
    ensures { IsTrue result ↔ (IsFalse key.now.revoked × (key.now.role ≡ Role.Clerk → 2 ≤ clerks)) }
{
    !key.revoked
        && match key.role {
            Role::Clerk => clerks >= 2,
            Role::Link => true,
        }
}

// Whether the key may be limited to boxes.
fn may_be_limited(key: &KeyRow) -> bool
    ensures { IsTrue result ↔ CanLimit (key_of key.now) }
{
    !key.revoked && matches!(key.role, Role::Link)
}

// Whether the command is possible, from the keeper's answers.
fn is_possible(view: &DeskView, command: &Command<'_>) -> bool
    ensures { (s : State) → IsSound s → IsDeskViewOf s (command_of command.now) view.now
        → IsTrue result ↔ IsPossible s (command_of command.now) }
{
    match command {
        Command::AddKey { .. } => view.key.is_none(),
        Command::RevokeKey { .. } => match &view.key {
            Some(key) => may_be_revoked(key, view.clerks),
            None => false,
        },
        Command::AddBox { .. } => !view.has_box,
        Command::CloseBox { .. } => view.has_box,
        Command::DropFile { .. } => view.has_file,
        Command::LimitKey { .. } => match &view.key {
            Some(key) => may_be_limited(key) && view.has_box && !view.has_limit,
            None => false,
        },
        Command::SetAllowance { .. } => true,
    }
}

/// Decides a desk command from the keeper's answers: it is possible, or it is refused with number 36. Takes no memory.
pub fn desk(view: &DeskView, command: &Command<'_>) -> Result<(), Refusal>
    ensures { (s : State) → IsSound s → IsDeskViewOf s (command_of command.now) view.now
        → DecidesCommand s (command_of command.now) result }
{
    if is_possible(view, command) {
        Ok(())
    } else {
        Err(Refusal::CommandNotPossible)
    }
}
