//! Single statements, each inside a transaction.

ghost use Rattle.std.specs.Prelude.{⊤, ◌≡◌, ◌≤◌, ◌+◌, ℕ, length, pos, None, Some, true, false, OnOk};
ghost use Rattle.boxes.specs.State.{Key, Receipt};
ghost use Rattle.sqltables.specs.Schema.{Version, IsVersion, v2};
ghost use Rattle.sqltables.specs.Tables.{Tables, Box, placed};
ghost use Rattle.sqltables.specs.Changes.{with_key, with_limit, with_allowance, closing_at, without_file, with_receipt, without_pieces, with_totals, with_box, with_bytes, with_file, NoPieces, AddsPiece};
ghost use Rattle.sqltables.specs.Inside.{seen, GoesOnInside, GoesOnWhere, Turns};
ghost use Rattle.sqltables.specs.Means.{Pends, IsRunning};
ghost use Rattle.sqltables.specs.Staging.{held};

use crate::running::run;
use boxes::Role;
use sqlite::{Error, params};
use sqltables::calls::Ledger;
use sqltables::staging::Pieces;

/// Inserts a receipt.
pub(crate) fn insert_receipt<T: Ledger>(
    tx: &mut T,
    number: u32,
    box_name: &str,
    name: &str,
    length: u32,
    digest: &[u8],
    moment: i64,
    key: &str,
) -> Result<(), Error>
    ensures done { (v : Version) (tables : Tables) (at : ℕ) (r : Receipt) → IsVersion v
        → Pends v (seen T.view tx.old) tables → tables.receipt at ≡ None
        → number ≡ at + 1 → r.box ≡ box_name.now → r.name ≡ name.now → r.size ≡ length
        → r.digest ≡ digest.now → pos r.moment ≡ moment → r.key ≡ key.now
        → OnOk result (Pends v (seen T.view tx.new) (with_receipt tables at r)) }
    ensures rest { GoesOnInside T.view tx.old tx.new result }
{
    run(
        tx,
        "INSERT INTO receipts VALUES (?1, ?2, ?3, ?4, ?5, ?6, ?7)",
        params![number, box_name, name, length, digest, moment, key],
    )
}

/// Inserts a piece of a file.
pub(crate) fn insert_piece<T: Ledger>(
    tx: &mut T,
    box_name: &str,
    name: &str,
    part: u32,
    bytes: &[u8],
) -> Result<(), Error>
    ensures done { (v : Version) (tables after : Tables) → IsVersion v
        → Pends v (seen T.view tx.old) tables
        → AddsPiece tables after
        (record { place = placed box_name.now name.now; at = part }) bytes.now
        → OnOk result (Pends v (seen T.view tx.new) after) }
    ensures rest { GoesOnInside T.view tx.old tx.new result }
{
    run(
        tx,
        "INSERT INTO pieces VALUES (?1, ?2, ?3, ?4)",
        params![box_name, name, part, bytes],
    )
}

/// Deletes the pieces of a file.
pub(crate) fn delete_pieces<T: Ledger>(tx: &mut T, box_name: &str, name: &str) -> Result<(), Error>
    ensures done { Turns T.view tx.old tx.new result
        (λ tables. without_pieces tables (placed box_name.now name.now)) }
    ensures rest { GoesOnInside T.view tx.old tx.new result }
{
    run(
        tx,
        "DELETE FROM pieces WHERE box = ?1 AND name = ?2",
        params![box_name, name],
    )
}

/// Updates the totals of a box.
pub(crate) fn update_totals<T: Ledger>(
    tx: &mut T,
    name: &str,
    used: i64,
    count: u32,
) -> Result<(), Error>
    ensures done { (v : Version) (tables : Tables) (b : Box) (sum : ℕ) → IsVersion v
        → Pends v (seen T.view tx.old) tables → tables.box name.now ≡ Some b → pos sum ≡ used
        → OnOk result (Pends v (seen T.view tx.new)
        (with_box tables name.now (with_totals sum count b))) }
    ensures rest { GoesOnInside T.view tx.old tx.new result }
{
    run(
        tx,
        "UPDATE boxes SET used = ?2, count = ?3 WHERE name = ?1",
        params![name, used, count],
    )
}

/// Inserts all pieces of a file that has none.
pub(crate) fn insert_pieces<T: Ledger>(
    tx: &mut T,
    box_name: &str,
    name: &str,
    bytes: &Pieces,
) -> Result<(), Error>
    requires short { length (held bytes.now) ≤ 8388608 }
    ensures done { (v : Version) (tables : Tables) → IsVersion v → Pends v (seen T.view tx.old) tables
        → NoPieces tables (placed box_name.now name.now)
        → OnOk result (Pends v (seen T.view tx.new)
        (with_bytes tables (placed box_name.now name.now) (held bytes.now))) }
    ensures rest { GoesOnWhere (IsRunning (seen T.view tx.old)) ⊤ T.view tx.old tx.new result }
{
    let mut part = 0;
    while let Some(piece) = bytes.piece(part) {
        insert_piece(tx, box_name, name, part, piece)?;
        part += 1;
    }
    Ok(())
}

/// Inserts a file under a name that had none, without its pieces.
pub(crate) fn insert_file<T: Ledger>(
    tx: &mut T,
    box_name: &str,
    name: &str,
    receipt: u32,
) -> Result<(), Error>
    ensures done { (v : Version) (tables : Tables) → IsVersion v → Pends v (seen T.view tx.old) tables
        → tables.file (placed box_name.now name.now) ≡ None
        → OnOk result (Pends v (seen T.view tx.new)
        (with_file tables (placed box_name.now name.now) receipt)) }
    ensures rest { GoesOnInside T.view tx.old tx.new result }
{
    run(
        tx,
        "INSERT INTO files VALUES (?1, ?2, ?3)",
        params![box_name, name, receipt],
    )
}

/// Updates the receipt of an existing file.
pub(crate) fn update_file<T: Ledger>(
    tx: &mut T,
    box_name: &str,
    name: &str,
    receipt: u32,
) -> Result<(), Error>
    ensures done { (v : Version) (tables : Tables) (was : ℕ) → IsVersion v
        → Pends v (seen T.view tx.old) tables → tables.file (placed box_name.now name.now) ≡ Some was
        → OnOk result (Pends v (seen T.view tx.new)
        (with_file tables (placed box_name.now name.now) receipt)) }
    ensures rest { GoesOnInside T.view tx.old tx.new result }
{
    run(
        tx,
        "UPDATE files SET receipt = ?3 WHERE box = ?1 AND name = ?2",
        params![box_name, name, receipt],
    )
}

/// Inserts an unrevoked key.
pub(crate) fn insert_key<T: Ledger>(
    tx: &mut T,
    id: &str,
    role: Role,
    secret: &[u8],
) -> Result<(), Error>
    ensures done { (v : Version) (tables : Tables) → IsVersion v
        → Pends v (seen T.view tx.old) tables → tables.key id.now ≡ None
        → OnOk result (Pends v (seen T.view tx.new)
        (with_key tables id.now (record { role = role; secret = secret.now; revoked = false }))) }
    ensures rest { GoesOnInside T.view tx.old tx.new result }
{
    let number: i32 = match role {
        Role::Link => 0,
        Role::Clerk => 1,
    };
    run(
        tx,
        "INSERT INTO keys VALUES (?1, ?2, ?3, 0)",
        params![id, number, secret],
    )
}

/// Revokes a key.
pub(crate) fn update_revoked<T: Ledger>(tx: &mut T, id: &str) -> Result<(), Error>
    ensures done { (v : Version) (tables : Tables) (key : Key) → IsVersion v
        → Pends v (seen T.view tx.old) tables → tables.key id.now ≡ Some key
        → OnOk result (Pends v (seen T.view tx.new)
        (with_key tables id.now (record key { revoked = true }))) }
    ensures rest { GoesOnInside T.view tx.old tx.new result }
{
    run(tx, "UPDATE keys SET revoked = 1 WHERE id = ?1", params![id])
}

/// Updates the moment at which a box closes for good, in seconds since 1970-01-01T00:00:00Z.
pub(crate) fn update_closes<T: Ledger>(tx: &mut T, name: &str, moment: i64) -> Result<(), Error>
    ensures done { (v : Version) (tables : Tables) (b : Box) (second : ℕ) → IsVersion v
        → Pends v (seen T.view tx.old) tables → tables.box name.now ≡ Some b → pos second ≡ moment
        → OnOk result (Pends v (seen T.view tx.new)
        (with_box tables name.now (closing_at second b))) }
    ensures rest { GoesOnInside T.view tx.old tx.new result }
{
    run(
        tx,
        "UPDATE boxes SET closes = ?2 WHERE name = ?1",
        params![name, moment],
    )
}

/// Deletes the row of a file. Its pieces were deleted before.
pub(crate) fn delete_file<T: Ledger>(tx: &mut T, in_box: &str, name: &str) -> Result<(), Error>
    ensures done { Turns T.view tx.old tx.new result
        (λ tables. without_file tables (placed in_box.now name.now)) }
    ensures rest { GoesOnInside T.view tx.old tx.new result }
{
    run(
        tx,
        "DELETE FROM files WHERE box = ?1 AND name = ?2",
        params![in_box, name],
    )
}

/// Inserts a box that a key is limited to.
pub(crate) fn insert_limit<T: Ledger>(tx: &mut T, id: &str, in_box: &str) -> Result<(), Error>
    ensures done { (tables : Tables) → Pends v2 (seen T.view tx.old) tables
        → tables.limit (record { key = id.now; box = in_box.now }) ≡ None
        → OnOk result (Pends v2 (seen T.view tx.new)
        (with_limit tables (record { key = id.now; box = in_box.now }))) }
    ensures rest { GoesOnInside T.view tx.old tx.new result }
{
    run(
        tx,
        "INSERT INTO key_box VALUES (?1, ?2)",
        params![id, in_box],
    )
}

/// Updates how many seconds early a link may begin.
pub(crate) fn update_allowance<T: Ledger>(tx: &mut T, seconds: u32) -> Result<(), Error>
    ensures done { (tables : Tables) → Pends v2 (seen T.view tx.old) tables
        → OnOk result (Pends v2 (seen T.view tx.new) (with_allowance tables seconds)) }
    ensures rest { GoesOnInside T.view tx.old tx.new result }
{
    run(tx, "UPDATE rules SET allowance = ?1", params![seconds])
}
