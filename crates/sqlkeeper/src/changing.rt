//! What a change does, inside its transaction: it asks for what is there, and writes.

ghost use Rattle.std.specs.Prelude.{◌≡◌, IsTrue, OnOk};
ghost use Rattle.boxes.specs.State.{State};
ghost use Rattle.boxes.specs.Steps.{DropFile};
ghost use Rattle.boxes.specs.Sound.{IsSound};
ghost use Rattle.boxes.specs.Changes.{IsFileSet, IsObeyed, IsChangeOf, command_of};
ghost use Rattle.sqltables.specs.Schema.{Version, IsVersion, v2};
ghost use Rattle.sqltables.specs.Tables.{placed, tables_of};
ghost use Rattle.sqltables.specs.Inside.{seen, GoesOnBegun};
ghost use Rattle.sqltables.specs.Means.{Pends};
ghost use Rattle.sqltables.specs.Staging.{held};

use boxes::{Change, Command, NewFile};
use sqlchanges::changes::{
    add_box, add_key, close_box, limit_key, revoke_key, set_allowance, take_rows, write_file,
};
use sqlite::Error;
use sqlquestions::questions::totals;
use sqlquestions::standing::standing_size;
use sqltables::calls::Ledger;
use sqltables::reading::text_of;
use sqltables::staging::Pieces;

/// Sets a file to these bytes, and adds its receipt.
fn set_file<T: Ledger>(tx: &mut T, file: &NewFile<'_>, bytes: &Pieces) -> Result<(), Error>
    ensures done { (v : Version) (s after : State) → IsVersion v
        → Pends v (seen T.view tx.old) (tables_of s) → IsSound s
        → IsFileSet s file.now (held bytes.now) after
        → IsTrue (seen T.view tx.old).in_transaction
        → OnOk result (Pends v (seen T.view tx.new) (tables_of after)) }
    ensures rest { GoesOnBegun T.view tx.old tx.new result }
{
    let in_box = text_of(file.in_box)?;
    let name = text_of(file.name)?;
    let old = standing_size(tx, in_box, name)?;
    let held = totals(tx, in_box)?.set(old, bytes.len() as u64);
    write_file(tx, file, in_box, name, bytes, old.is_some(), held)
}

/// Deletes a file. Its receipt stays.
fn drop_file<T: Ledger>(tx: &mut T, in_box: &[u8], name: &[u8]) -> Result<(), Error>
    ensures done { (v : Version) (s after : State) → IsVersion v
        → Pends v (seen T.view tx.old) (tables_of s) → IsSound s
        → IsObeyed s (DropFile (placed in_box.now name.now)) after
        → IsTrue (seen T.view tx.old).in_transaction
        → OnOk result (Pends v (seen T.view tx.new) (tables_of after)) }
    ensures rest { GoesOnBegun T.view tx.old tx.new result }
{
    let in_box = text_of(in_box)?;
    let name = text_of(name)?;
    let Some(size) = standing_size(tx, in_box, name)? else {
        return Err(Error::QueryReturnedNoRows);
    };
    let left = totals(tx, in_box)?.take_out(size);
    take_rows(tx, in_box, name, left)
}

/// Carries out a command of the desk.
fn obey<T: Ledger>(tx: &mut T, command: &Command<'_>) -> Result<(), Error>
    ensures done { (s after : State) → Pends v2 (seen T.view tx.old) (tables_of s) → IsSound s
        → IsObeyed s (command_of command.now) after
        → IsTrue (seen T.view tx.old).in_transaction
        → OnOk result (Pends v2 (seen T.view tx.new) (tables_of after)) }
    ensures rest { GoesOnBegun T.view tx.old tx.new result }
{
    match command {
        Command::AddKey { id, role, secret } => add_key(tx, id, *role, secret),
        Command::RevokeKey { id } => revoke_key(tx, id),
        Command::AddBox { name, row } => add_box(tx, name, row),
        Command::CloseBox { name, moment } => close_box(tx, name, *moment),
        Command::DropFile { in_box, name } => drop_file(tx, in_box, name),
        Command::LimitKey { id, in_box } => limit_key(tx, id, in_box),
        Command::SetAllowance { seconds } => set_allowance(tx, *seconds),
    }
}

/// Writes the change, given the staged bytes.
pub(crate) fn write_change<T: Ledger>(
    tx: &mut T,
    change: &Change<'_>,
    staged: &Pieces,
) -> Result<(), Error>
    ensures done { (s after : State) → Pends v2 (seen T.view tx.old) (tables_of s) → IsSound s
        → IsChangeOf (λ bytes. held staged.now ≡ bytes) s change.now after → IsTrue (seen T.view tx.old).in_transaction
        → OnOk result (Pends v2 (seen T.view tx.new) (tables_of after)) }
    ensures rest { GoesOnBegun T.view tx.old tx.new result }
{
    match change {
        Change::SetFile(file) => set_file(tx, file, staged),
        Change::Desk(command) => obey(tx, command),
    }
}
