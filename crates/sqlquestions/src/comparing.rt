//! Compares the pieces of a file with the staged pieces, inside a transaction.

ghost use Rattle.std.specs.Prelude.{◌≡◌, ◌↔◌, ℕ, List, length, Some, IsTrue, IfOk};
ghost use Rattle.sqlite.specs.State.{HasCleanDisk};
ghost use Rattle.sqlite.specs.Held.{state};
ghost use Rattle.sqltables.specs.Schema.{Version, IsVersion};
ghost use Rattle.sqltables.specs.Tables.{Tables, piece_of, placed};
ghost use Rattle.sqltables.specs.Inside.{seen, GoesOnWhere, GoesOnBegun, Still, FindsIn};
ghost use Rattle.sqltables.specs.Means.{Pends, IsRunning};
ghost use Rattle.sqltables.specs.Staging.{held};

use sqlite::{Error, ErrorCode};
use sqltables::calls::Ledger;
use sqltables::pieces::read_piece;
use sqltables::staging::Pieces;

/// Whether this piece of a file exists with exactly these bytes.
fn is_piece<T: Ledger>(
    tx: &mut T,
    in_box: &str,
    name: &str,
    part: u32,
    bytes: &[u8],
) -> Result<bool, Error>
    ensures found { FindsIn T.view tx.old tx.new result
        (λ tables is. IsTrue is
        ↔ tables.piece (record { place = placed in_box.now name.now; at = part }) ≡ Some bytes.now) }
    ensures still { Still T.view tx.old tx.new result }
    ensures rest { GoesOnBegun T.view tx.old tx.new result }
{
    match read_piece(tx, in_box, name, part)? {
        Some(piece) => Ok(piece.as_slice() == bytes),
        None => Ok(false),
    }
}

/// Whether the pieces of a file equal these bytes, given that the file is as long as these bytes. Only one piece that was read
/// is held at a time.
pub(crate) fn has_pieces<T: Ledger>(
    tx: &mut T,
    in_box: &str,
    name: &str,
    bytes: &Pieces,
) -> Result<bool, Error>
    ensures found { (v : Version) (tables : Tables) (there : List ℕ) → IsVersion v
        → Pends v (seen T.view tx.old) tables → length there ≡ length (held bytes.now)
        → ((at : ℕ) → tables.piece (record { place = placed in_box.now name.now; at = at })
        ≡ piece_of there at)
        → IsTrue (seen T.view tx.old).in_transaction → HasCleanDisk (seen T.view tx.new)
        → IfOk result (λ same. IsTrue same ↔ there ≡ held bytes.now) }
    ensures still { Still T.view tx.old tx.new result }
    ensures rest { GoesOnWhere (IsRunning (seen T.view tx.old))
        (IsTrue (seen T.view tx.old).in_transaction) T.view tx.old tx.new result }
{
    let mut part: u32 = 0;
    while let Some(piece) = bytes.piece(part) {
        if !is_piece(tx, in_box, name, part, piece)? {
            return Ok(false);
        }
        match part.checked_add(1) {
            Some(next) => part = next,
            None => return Err(Error::SqliteFailure(ErrorCode::TooBig)),
        }
    }
    Ok(true)
}
