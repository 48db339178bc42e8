//! The list of an office's keys.
ghost use Rattle.std.specs.Prelude.{◌≡◌, ◌∷◌, [], Some, IfErr, IfOk, IfSome, map, option_map};
ghost use Rattle.std.specs.FinMap.{entries, get};
ghost use Rattle.std.specs.List.{join_with_byte};
ghost use Rattle.sigtext.specs.Bytes.{bytes_cmp};
ghost use Rattle.sigtext.specs.Counts.{CountsErrors};
ghost use Rattle.boxes.specs.Rows.{key_of};
ghost use Rattle.boxes.specs.Sound.{IsSound};
ghost use Rattle.boxes.specs.State.{State};
ghost use Rattle.boxes.specs.Bound.{StaysBy};
ghost use Rattle.boxes.specs.Next.{IsKey, IsNext};
ghost use Rattle.lists.specs.Asking.{Meant};
ghost use Rattle.lists.specs.Lists.{line, by_keeper, by_writer, IsOfAnswering, IsOfManifest};
ghost use Rattle.links.specs.CommandTexts.{role_word};
ghost use Rattle.lists.specs.Keys.{answer_word, keys_head, AreLimits, IsKeyLine, IsLast};
ghost use Rattle.lists.specs.Written.{SendsLines, WritesList};

use crate::words::{answer_text, joined, role_text};
use crate::{ListFault, line_of, send_line, send_text};
use boxes::{KeyRow, Rolls};
use std::alloc::Global;
use std::io::Write;
use wire::Counted;

/// The header line of a list of keys.
const KEYS_HEAD: [&[u8]; 4] = [b"key", b"role", b"revoked", b"boxes"];

/// A key in the list.
#[derive(Drop)]
struct ListedKey {
    id: Vec<u8>,
    row: KeyRow,
    /// The names of the boxes that it is limited to, ascending.
    boxes: Vec<Vec<u8>>,
}

// The last text, or the empty text if there is none.
fn last_of(texts: &[Vec<u8>]) -> &[u8]
    ensures { IsLast (map (λ t. t.items) texts.now) result.now }
{
    match texts.last() {
        Some(last) => last,
        None => b"",
    }
}

// The names of the boxes that the key of this id is limited to, ascending.
fn boxes_of<K: Rolls>(alloc: Global, keeper: &mut K, id: &[u8]) -> Result<Vec<Vec<u8>>, ListFault>
    ensures value { (s : State) → Meant K.Keeper keeper.old keeper.new s
        → IfOk result (λ boxes. AreLimits s id.now (map (λ b. b.items) boxes.items)) }
    ensures stays { StaysBy K.Keeper keeper.old keeper.new (by_keeper result) }
    ensures fault { IfErr result IsOfAnswering }
{
    let mut boxes = Vec::new(alloc);
    'boxes: for _ in 0..u64::MAX {
        let next = match keeper.limit_after(id, last_of(&boxes)) {
            Ok(Some(next)) => next,
            Ok(None) => return Ok(boxes),
            Err(fault) => return Err(ListFault::Keep(fault)),
        };
        let Ok(()) = boxes.push(next) else {
            return Err(ListFault::Memory);
        };
    }
    Err(ListFault::Memory)
}

// The first key after this id.
fn next_key<K: Rolls>(
    alloc: Global,
    keeper: &mut K,
    after: &[u8],
) -> Result<Option<ListedKey>, ListFault>
    ensures next { (s : State) → Meant K.Keeper keeper.old keeper.new s → IfOk result (λ found.
        IsNext bytes_cmp (IsKey s) after.now (option_map (λ k. k.id.items) found)) }
    ensures row { (s : State) → Meant K.Keeper keeper.old keeper.new s → IfOk result (λ found.
        IfSome found (λ k. Some (key_of k.row) ≡ get s.keys k.id.items)) }
    ensures limits { (s : State) → Meant K.Keeper keeper.old keeper.new s → IfOk result (λ found.
        IfSome found (λ k. AreLimits s k.id.items (map (λ b. b.items) k.boxes.items))) }
    ensures stays { StaysBy K.Keeper keeper.old keeper.new (by_keeper result) }
    ensures fault { IfErr result IsOfAnswering }
{
    let id = match keeper.key_after(after) {
        Ok(Some(id)) => id,
        Ok(None) => return Ok(None),
        Err(fault) => return Err(ListFault::Keep(fault)),
    };
    let row = match keeper.key(&id) {
        Ok(Some(row)) => row,
        Ok(None) => return Err(ListFault::Memory),
        Err(fault) => return Err(ListFault::Keep(fault)),
    };
    let boxes = boxes_of(alloc, keeper, &id)?;
    Ok(Some(ListedKey { id, row, boxes }))
}

// The line of a key, without its secret.
fn key_line(alloc: Global, key: &ListedKey) -> Result<Vec<u8>, ListFault>
    ensures line { IfOk result (λ text. text.items ≡ line (key.now.id.items
        ∷ role_word key.now.row.role ∷ answer_word key.now.row.revoked
        ∷ join_with_byte 32 (map (λ b. b.items) key.now.boxes.items) ∷ [])) }
    ensures memory { IfErr result (λ f. f ≡ ListFault.Memory) }
{
    let Ok(boxes) = joined(alloc, &key.boxes, b' ') else {
        return Err(ListFault::Memory);
    };
    let fields: [&[u8]; 4] = [
        &key.id,
        role_text(key.row.role),
        answer_text(key.row.revoked),
        &boxes,
    ];
    line_of(alloc, &fields)
}

// Writes the lines of the keys.
fn send_keys<K: Rolls, W: Write>(
    alloc: Global,
    keeper: &mut K,
    out: &mut Counted<W>,
) -> Result<(), ListFault>
    ensures sent { (s : State) → Meant K.Keeper keeper.old keeper.new s
        → SendsLines (IsKeyLine s) (entries s.keys)
        (W.contents out.old.inner) (W.contents out.new.inner) result }
    ensures stays { StaysBy K.Keeper keeper.old keeper.new (by_keeper result) }
    ensures count { CountsErrors out.old.faults out.new.faults (by_writer result) }
    ensures fault { IfErr result IsOfManifest }
{
    let mut after = Vec::new(alloc);
    'keys: for _ in 0..u64::MAX {
        let Some(key) = next_key(alloc, keeper, &after)? else {
            return Ok(());
        };
        let text = key_line(alloc, &key)?;
        send_text(&text, out)?;
        after = key.id;
    }
    Err(ListFault::Memory)
}

/// Writes the keys of an office as CSV, sorted by id. The header line is `key,role,revoked,boxes`: the id, `clerk` or `link`,
/// `yes` or `no`, and the names of the boxes that the key is limited to, sorted and separated by a space. The last field is
/// empty if the key has no limit. Secrets are not written.
///
/// # Errors
///
/// `Keep` if the keeper failed, `Write` if a write failed, `Memory` if memory ran out. The output is then a beginning of the
/// list.
pub fn list_keys<K: Rolls, W: Write>(
    alloc: Global,
    keeper: &mut K,
    out: &mut Counted<W>,
) -> Result<(), ListFault>
    ensures writes { (s : State) → K.means keeper.old s → IsSound s → K.is_honest keeper.new
        → WritesList keys_head (IsKeyLine s) (entries s.keys)
        (W.contents out.old.inner) (W.contents out.new.inner) result }
    ensures stays { StaysBy K.Keeper keeper.old keeper.new (by_keeper result) }
    ensures count { CountsErrors out.old.faults out.new.faults (by_writer result) }
    ensures fault { IfErr result IsOfManifest }
{
    send_line(alloc, &KEYS_HEAD, out)?;
    send_keys(alloc, keeper, out)
}
