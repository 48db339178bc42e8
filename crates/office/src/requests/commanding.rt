//! Desk commands.

ghost use Rattle.std.specs.Prelude.{◌≡◌};

use super::places::decoded_path;
use crate::office::Office;
use boxes::{Change, Command, DeskView, KeepFault, Keeper, KeyRow, desk as decide, law_of_changes};
use links::{LinkParts, read_command};
use sigtext::Refusal;
use thiserror::Error;
use wire::Reply;

/// The name of the query parameter that holds a command.
pub const DESK: &[u8] = b"desk";

/// Why a desk line was not done. The state is then unchanged.
#[derive(Clone, Copy, Debug, PartialEq, Eq, Error)]
pub enum DeskFault {
    /// The line is not a command, or something that it names is malformed.
    #[error("the desk command is malformed")]
    Malformed,
    /// The office's state does not allow the command.
    #[error("the desk command is not possible")]
    NotPossible,
    /// The keeper failed, or memory was refused.
    #[error("{0}")]
    Kept(KeepFault),
}

// A view of this key, for which nothing else was asked.
fn key_view(key: Option<KeyRow>) -> DeskView
    ensures { result.key ≡ key }
{
    DeskView {
        key,
        clerks: 0,
        has_box: false,
        has_file: false,
        has_limit: false,
    }
}

impl<K: Keeper> Office<K> {
    ghost use Rattle.std.specs.Prelude.{◌≡◌, ◌≢◌, ◌↔◌, ◌⊎◌, ℕ, Err, IfErr, IfOk, IsErrAnd, IsSome, IsTrue, OnErr, OnOk, option_map};
    ghost use Rattle.std.specs.FinMap.{get};
    ghost use Rattle.sigtext.specs.Counts.{Rose};
    ghost use Rattle.boxes.specs.Changes.{command_of, IsObeyed};
    ghost use Rattle.boxes.specs.Commands.{HasForm};
    ghost use Rattle.boxes.specs.Clerks.{clerks};
    ghost use Rattle.boxes.specs.Limits.{IsLimitedTo};
    ghost use Rattle.boxes.specs.Rows.{key_of};
    ghost use Rattle.boxes.specs.State.{State};
    ghost use Rattle.boxes.specs.Steps.{IsPossible};
    ghost use Rattle.boxes.specs.Views.{IsDeskViewOf};
    ghost use Rattle.boxes.specs.Bound.{StaysBy};
    ghost use Rattle.boxes.specs.Keeping.{KeepsStaged};
    ghost use Rattle.links.specs.LinkReadings.{IsLinkOf};
    ghost use Rattle.links.specs.WellFormed.{LinkValues};
    ghost use Rattle.links.specs.CommandLines.{HasListedRule};
    ghost use Rattle.office.specs.Admitted.{ReachesBoxes};
    ghost use Rattle.office.specs.Crashes.{Endures, IsToldBy, UndoneLasts};
    ghost use Rattle.office.specs.DeskLines.{IsKeepers, IsObeyedBy};
    ghost use Rattle.office.specs.Frames.{Replies};
    ghost use Rattle.office.specs.Premise.{HoldsUnless, IsLeft, StaysUnstaged, WasKept};
    ghost use Rattle.office.specs.Rules.{IsPost};

    // Asks the keeper whether a box with this name exists.
    fn has_box(&mut self, name: &[u8]) -> Result<bool, KeepFault>
        ensures value { (s : State) → WasKept K.Keeper self.old.keeper self.new.keeper s
            → IfOk result (λ there. IsTrue there ↔ IsSome (get s.boxes name.now)) }
        ensures staged { KeepsStaged K.stages self.old.keeper self.new.keeper }
        ensures rest { StaysBy K.Keeper self.old.keeper self.new.keeper result }
    {
        Ok(self.keeper.box_row(name)?.is_some())
    }

    // Asks the keeper for the key of this id.
    fn view_key(&mut self, id: &[u8]) -> Result<DeskView, KeepFault>
        ensures view { (s : State) → WasKept K.Keeper self.old.keeper self.new.keeper s
            → IfOk result (λ v. option_map key_of v.key ≡ get s.keys id.now) }
        ensures staged { KeepsStaged K.stages self.old.keeper self.new.keeper }
        ensures rest { StaysBy K.Keeper self.old.keeper self.new.keeper result }
    {
        Ok(key_view(self.keeper.key(id)?))
    }

    // Asks the keeper for the key of this id, and for the number of unrevoked clerk's keys.
    fn view_clerks(&mut self, id: &[u8]) -> Result<DeskView, KeepFault>
        ensures view { (s : State) → WasKept K.Keeper self.old.keeper self.new.keeper s
            → IfOk result (λ v. (option_map key_of v.key ≡ get s.keys id.now)
            × (v.clerks ≡ clerks s)) }
        ensures staged { KeepsStaged K.stages self.old.keeper self.new.keeper }
        ensures rest { StaysBy K.Keeper self.old.keeper self.new.keeper result }
    {
        let key = self.keeper.key(id)?;
        let clerks = self.keeper.clerks()?;
        Ok(DeskView {
            clerks,
            ..key_view(key)
        })
    }

    // Asks the keeper whether the box of this name exists.
    fn view_box(&mut self, name: &[u8]) -> Result<DeskView, KeepFault>
        ensures view { (s : State) → WasKept K.Keeper self.old.keeper self.new.keeper s
            → IfOk result (λ v. IsTrue v.has_box ↔ IsSome (get s.boxes name.now)) }
        ensures staged { KeepsStaged K.stages self.old.keeper self.new.keeper }
        ensures rest { StaysBy K.Keeper self.old.keeper self.new.keeper result }
    {
        let has_box = self.has_box(name)?;
        Ok(DeskView {
            has_box,
            ..key_view(None)
        })
    }

    // Asks the keeper whether the file of this box and name exists.
    fn view_file(&mut self, in_box: &[u8], name: &[u8]) -> Result<DeskView, KeepFault>
        ensures view { (s : State) → WasKept K.Keeper self.old.keeper self.new.keeper s
            → IfOk result (λ v. IsTrue v.has_file
            ↔ IsSome (get s.files (record { box = in_box.now; name = name.now }))) }
        ensures staged { KeepsStaged K.stages self.old.keeper self.new.keeper }
        ensures rest { StaysBy K.Keeper self.old.keeper self.new.keeper result }
    {
        let has_file = self.keeper.file(in_box, name)?.is_some();
        Ok(DeskView {
            has_file,
            ..key_view(None)
        })
    }

    // Asks the keeper for the key of this id, the box of this name, and whether the key is limited to it.
    fn view_limit(&mut self, id: &[u8], in_box: &[u8]) -> Result<DeskView, KeepFault>
        ensures view { (s : State) → WasKept K.Keeper self.old.keeper self.new.keeper s
            → IfOk result (λ v. (option_map key_of v.key ≡ get s.keys id.now)
            × (IsTrue v.has_box ↔ IsSome (get s.boxes in_box.now))
            × (IsTrue v.has_limit ↔ IsLimitedTo s id.now in_box.now)) }
        ensures staged { KeepsStaged K.stages self.old.keeper self.new.keeper }
        ensures rest { StaysBy K.Keeper self.old.keeper self.new.keeper result }
    {
        let key = self.keeper.key(id)?;
        let has_box = self.has_box(in_box)?;
        let has_limit = self.keeper.has_limit(id, in_box)?;
        Ok(DeskView {
            has_box,
            has_limit,
            ..key_view(key)
        })
    }

    // Asks the keeper for what the rule of a command depends on.
    fn look_at(&mut self, command: &Command<'_>) -> Result<DeskView, KeepFault>
        ensures view { (s : State) → WasKept K.Keeper self.old.keeper self.new.keeper s
            → IfOk result (IsDeskViewOf s (command_of command.now)) }
        ensures staged { KeepsStaged K.stages self.old.keeper self.new.keeper }
        ensures rest { StaysBy K.Keeper self.old.keeper self.new.keeper result }
    {
        match command {
            Command::AddKey { id, .. } => self.view_key(id),
            Command::RevokeKey { id } => self.view_clerks(id),
            Command::AddBox { name, .. } => self.view_box(name),
            Command::CloseBox { name, .. } => self.view_box(name),
            Command::DropFile { in_box, name } => self.view_file(in_box, name),
            Command::LimitKey { id, in_box } => self.view_limit(id, in_box),
            Command::SetAllowance { .. } => Ok(key_view(None)),
        }
    }

    // Does a well-formed command, if it is possible.
    fn obey(&mut self, command: &Command<'_>) -> Result<(), DeskFault>
        ensures does { (s : State) → WasKept K.Keeper self.old.keeper self.new.keeper s
            → HasForm (command_of command.now)
            → OnOk result ((after : State) × IsObeyed s (command_of command.now) after
            × IsLeft (Endures K.Keeper self.old.keeper self.new.keeper s) after) }
        ensures refused { (s : State) → WasKept K.Keeper self.old.keeper self.new.keeper s
            → result ≡ Err DeskFault.NotPossible → IsPossible s (command_of command.now) → ⊥ }
        ensures formed { result ≢ Err DeskFault.Malformed }
        ensures room { (s : State) → WasKept K.Keeper self.old.keeper self.new.keeper s
            → HasForm (command_of command.now)
            → result ≢ Err (DeskFault.Kept KeepFault.Full) }
        ensures kept { IfErr result (λ f. IsKeepers f
            → Rose (K.faults self.old.keeper) (K.faults self.new.keeper)) }
        ensures store { result ≡ Err (DeskFault.Kept KeepFault.Store) → K.has_store }
        ensures same { (s : State) → K.means self.old.keeper s
            → OnErr result (K.means self.new.keeper s) }
        ensures crash { (s : State) → WasKept K.Keeper self.old.keeper self.new.keeper s
            → HasForm (command_of command.now)
            → UndoneLasts K.Keeper self.old.keeper self.new.keeper s
            (IsObeyed s (command_of command.now)) result }
        ensures unstaged { StaysUnstaged K.Keeper self.old.keeper self.new.keeper }
        ensures rest { HoldsUnless K.Keeper self.old.keeper self.new.keeper
            (IsErrAnd result IsKeepers) }
    {
        law_of_changes();
        let view = match self.look_at(command) {
            Ok(view) => view,
            Err(fault) => return Err(DeskFault::Kept(fault)),
        };
        if decide(&view, command).is_err() {
            return Err(DeskFault::NotPossible);
        }
        match self.keeper.apply(&Change::Desk(*command)) {
            Ok(()) => Ok(()),
            Err(fault) => Err(DeskFault::Kept(fault)),
        }
    }

    /// Does what a desk line says; for the forms see `links::read_command`. What was done survives a crash. A
    /// keeper that was open stays open, unless its own fault is the error.
    ///
    /// # Errors
    ///
    /// After an error the state is unchanged. `Malformed` if the line is not a command. `NotPossible` if the
    /// office's state does not allow the command. `Kept` if the keeper failed, or if memory was refused for
    /// the rule of a box. A crash after `Kept` may leave the state with the line done in full.
    pub fn desk(&mut self, line: &[u8]) -> Result<(), DeskFault>
        ensures obeys { (s : State) → WasKept K.Keeper self.old.keeper self.new.keeper s
            → IsObeyedBy (Endures K.Keeper self.old.keeper self.new.keeper s) s line.now result }
        ensures kept { IfErr result (λ f. IsKeepers f
            → Rose (K.faults self.old.keeper) (K.faults self.new.keeper) ⊎ HasListedRule line.now) }
        ensures store { result ≡ Err (DeskFault.Kept KeepFault.Store) → K.has_store }
        ensures same { (s : State) → K.means self.old.keeper s
            → OnErr result (K.means self.new.keeper s) }
        ensures crash { (s : State) → WasKept K.Keeper self.old.keeper self.new.keeper s
            → UndoneLasts K.Keeper self.old.keeper self.new.keeper s (IsToldBy s line.now) result }
        ensures unstaged { StaysUnstaged K.Keeper self.old.keeper self.new.keeper }
        ensures rest { HoldsUnless K.Keeper self.old.keeper self.new.keeper
            (IsErrAnd result IsKeepers) }
    {
        match read_command(self.alloc, line) {
            Ok(Some(read)) => self.obey(&read.command()),
            Ok(None) => Err(DeskFault::Malformed),
            Err(_) => Err(DeskFault::Kept(KeepFault::Memory)),
        }
    }

    // Does or refuses the command of a message whose link is admitted and whose form is right.
    pub(crate) fn post(&mut self, link: &LinkParts<'_>) -> Result<Reply, Refusal>
        ensures replies { (now : ℕ) → Replies K.Keeper self.old.keeper self.new.keeper now result
            (λ s r. (p : LinkValues) × IsLinkOf link.now r p × IsPost r × ReachesBoxes s r now p) }
        ensures unstaged { StaysUnstaged K.Keeper self.old.keeper self.new.keeper }
    {
        let Ok(path) = decoded_path(self.alloc, link) else {
            return Err(Refusal::TryAgain);
        };
        if path.as_slice() != b"/".as_slice() {
            return Err(Refusal::CommandMalformed);
        }
        let line = match link.param(self.alloc, DESK) {
            Ok(Some(line)) => line,
            Ok(None) => return Err(Refusal::CommandMalformed),
            Err(_) => return Err(Refusal::TryAgain),
        };
        match self.desk(&line) {
            Ok(()) => Ok(Reply::Done),
            Err(DeskFault::Malformed) => Err(Refusal::CommandMalformed),
            Err(DeskFault::NotPossible) => Err(Refusal::CommandNotPossible),
            Err(DeskFault::Kept(_)) => Err(Refusal::TryAgain),
        }
    }
}
