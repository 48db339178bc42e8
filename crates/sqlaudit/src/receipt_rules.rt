//! Converts the lines of the receipts to receipts, given the keys and boxes.

ghost use Rattle.std.specs.Prelude.{◌≡◌, ◌≢◌, ◌↔◌, ℕ, ◌+◌, ◌≤ℤ◌, pos, List, slice_get, Some, None, IsTrue, IsSomeAnd, MatchBool, MatchOption, ⊤};
ghost use Rattle.std.specs.FinMap.{FinMap, get};
ghost use Rattle.sigtext.specs.Bytes.{bytes_cmp};
ghost use Rattle.boxes.specs.State.{Key, Receipt};
ghost use Rattle.boxes.specs.Opening.{Fits};
ghost use Rattle.boxes.specs.Sound.{IsDigest};
ghost use Rattle.sqltables.specs.Schema.{v1};
ghost use Rattle.sqltables.specs.Tables.{Box};
ghost use Rattle.sqlaudit.specs.Formats.{version_of};
ghost use Rattle.sqlaudit.specs.Opened.{most_first_body, AreShortLines};
ghost use Rattle.sqlaudit.specs.Outlines.{AreEntries, IsReceiptEntry, IsReceiptRule};
ghost use Rattle.sqlaudit.specs.Sorting.{AreRising, HoldsBoxes, HoldsKeys, HoldsReceipts, HasReceiptForms, IsGiven, given_in};

use crate::box_rules::Boxes;
use crate::formats::Format;
use crate::key_rules::Keys;
use crate::lines::ReceiptLine;
use boxes::{Command, has_form, name_fits};
use sigtext::MOST_BODY;

/// A receipt, as given by its line.
#[derive(Clone, Copy)]
pub(crate) struct ReceiptEntry<'a> {
    pub(crate) in_box: &'a [u8],
    pub(crate) name: &'a [u8],
    pub(crate) size: u64,
    pub(crate) digest: &'a [u8],
    pub(crate) moment: u64,
    pub(crate) key: &'a [u8],
}

const DIGEST_BYTES: usize = 32;

/// The maximum length of a file in version 1, in bytes.
const MOST_FIRST_BODY: i64 = 1_048_576;

/// Whether version 1 allows a file of this length.
fn is_short(line: &ReceiptLine) -> bool
    ensures { IsTrue result ↔ line.now.length ≤ℤ pos most_first_body }
{
    line.length <= MOST_FIRST_BODY
}

/// Whether version 1 allows files of all these lengths.
fn are_short(lines: &[ReceiptLine]) -> bool
    ensures { IsTrue result ↔ AreShortLines lines.now }
{
    for line in lines {
        if !is_short(line) {
            return false;
        }
    }
    true
}

/// Whether this version allows files of all these lengths. For version 2 the rules of a receipt check the length.
pub(crate) fn fit_version(lines: &[ReceiptLine], format: Format) -> bool
    ensures { IsTrue result ↔ (version_of format ≡ v1 → AreShortLines lines.now) }
{
    match format {
        Format::First => are_short(lines),
        Format::Second => true,
    }
}

/// The number, if it is not below 0.
pub(crate) fn natural(number: i64) -> Option<u64>
    ensures { MatchOption result ((n : ℕ) → number ≡ pos n → ⊥) (λ n. number ≡ pos n) }
{
    if number < 0 {
        return None;
    }
    Some(number as u64)
}

/// The number minus one, if it is above 0.
pub(crate) fn place_of(number: i64) -> Option<u64>
    ensures { MatchOption result ((n : ℕ) → number ≡ pos (n + 1) → ⊥) (λ n. number ≡ pos (n + 1)) }
{
    if number < 1 {
        return None;
    }
    Some((number - 1) as u64)
}

/// The receipt of a line with its place, if its numbers are those of a receipt.
fn entry_of(line: &ReceiptLine) -> Option<(u64, ReceiptEntry<'_>)>
    ensures { MatchOption result ((at : ℕ) (r : Receipt) → IsReceiptEntry line.now at r → ⊥)
        (λ e. IsReceiptEntry line.now e.0 (given_in e.1)) }
{
    let (Some(at), Some(size), Some(moment)) = (
        place_of(line.number),
        natural(line.length),
        natural(line.moment),
    ) else {
        return None;
    };
    Some((
        at,
        ReceiptEntry {
            in_box: &line.in_box,
            name: &line.name,
            size,
            digest: &line.digest,
            moment,
            key: &line.key,
        },
    ))
}

/// Whether the bytes have the length of a digest.
fn is_digest(bytes: &[u8]) -> bool
    ensures { IsTrue result ↔ IsDigest bytes.now }
{
    bytes.len() == DIGEST_BYTES
}

/// Whether the texts and numbers of a receipt have their required forms.
fn has_forms(entry: &ReceiptEntry<'_>) -> bool
    ensures { IsTrue result ↔ HasReceiptForms (given_in entry.now) }
{
    let (in_box, name) = (entry.in_box, entry.name);
    let moment = entry.moment;
    if !has_form(&Command::DropFile { in_box, name }) {
        return false;
    }
    if !has_form(&Command::CloseBox {
        name: in_box,
        moment,
    }) {
        return false;
    }
    entry.size <= MOST_BODY as u64 && is_digest(entry.digest)
}

/// Whether the box exists and accepts the name.
fn takes<'a>(boxes: &Boxes<'a>, in_box: &'a [u8], name: &[u8]) -> bool
    ensures { (bs : FinMap bytes_cmp Box) → HoldsBoxes boxes.now bs
        → IsTrue result ↔ IsSomeAnd (get bs in_box.now) (λ b. Fits b.settings.rule name.now) }
{
    match boxes.get(&in_box) {
        Some(entry) => name_fits(&entry.row.rule, name),
        None => false,
    }
}

/// Whether the key exists.
fn has_key<'a>(keys: &Keys<'a>, id: &'a [u8]) -> bool
    ensures { (ks : FinMap bytes_cmp Key) → HoldsKeys keys.now ks
        → IsTrue result ↔ IsSomeAnd (get ks id.now) (λ k. ⊤) }
{
    keys.contains_key(&id)
}

/// Whether the receipt is valid for these keys and boxes.
fn is_receipt<'a>(entry: &ReceiptEntry<'a>, keys: &Keys<'a>, boxes: &Boxes<'a>) -> bool
    ensures { (ks : FinMap bytes_cmp Key) (bs : FinMap bytes_cmp Box) → HoldsKeys keys.now ks
        → HoldsBoxes boxes.now bs → IsTrue result ↔ IsReceiptRule ks bs (given_in entry.now) }
{
    if !has_forms(entry) {
        return false;
    }
    has_key(keys, entry.key) && takes(boxes, entry.in_box, entry.name)
}

/// The receipt of a line with its place, if it is valid for these keys and boxes.
fn receipt_of<'a>(
    line: &'a ReceiptLine,
    keys: &Keys<'a>,
    boxes: &Boxes<'a>,
) -> Option<(u64, ReceiptEntry<'a>)>
    ensures { (ks : FinMap bytes_cmp Key) (bs : FinMap bytes_cmp Box) → HoldsKeys keys.now ks
        → HoldsBoxes boxes.now bs
        → MatchOption result ((at : ℕ) (r : Receipt) → IsGiven ks bs line.now at r → ⊥)
        (λ e. IsGiven ks bs line.now e.0 (given_in e.1)) }
{
    let (at, entry) = entry_of(line)?;
    if !is_receipt(&entry, keys, boxes) {
        return None;
    }
    Some((at, entry))
}

/// Whether the line at this place is a valid receipt for these keys and boxes. The receipt with number 1 has place 0.
fn stands_at<'a>(at: usize, line: &'a ReceiptLine, keys: &Keys<'a>, boxes: &Boxes<'a>) -> bool
    ensures { (ks : FinMap bytes_cmp Key) (bs : FinMap bytes_cmp Box) → HoldsKeys keys.now ks
        → HoldsBoxes boxes.now bs → MatchBool result ((r : Receipt) × IsGiven ks bs line.now at r)
        ((place : ℕ) (r : Receipt) → IsGiven ks bs line.now place r → place ≢ at) }
{
    match receipt_of(line, keys, boxes) {
        Some((place, _)) => place == at as u64,
        None => false,
    }
}

/// Whether the number of each line is below that of the next.
pub(crate) fn are_rising(lines: &[ReceiptLine]) -> bool
    ensures { IsTrue result → AreRising lines.now }
{
    lines.is_sorted_by(|a, b| a.number < b.number)
}

/// Whether each line is a valid receipt for these keys and boxes, the first has number 1, and none is missing.
pub(crate) fn are_receipts<'a>(lines: &'a [ReceiptLine], keys: &Keys<'a>, boxes: &Boxes<'a>) -> bool
    ensures taken { (ks : FinMap bytes_cmp Key) (bs : FinMap bytes_cmp Box) → HoldsKeys keys.now ks
        → HoldsBoxes boxes.now bs → IsTrue result → (receipts : List Receipt)
        × HoldsReceipts lines.now receipts
        × AreEntries (IsGiven ks bs) (slice_get receipts) lines.now }
    ensures refused { (ks : FinMap bytes_cmp Key) (bs : FinMap bytes_cmp Box)
        → HoldsKeys keys.now ks → HoldsBoxes boxes.now bs → AreRising lines.now
        → (receipts : List Receipt) → AreEntries (IsGiven ks bs) (slice_get receipts) lines.now
        → IsTrue result }
{
    for (at, line) in lines.iter().enumerate() {
        if !stands_at(at, line, keys, boxes) {
            return false;
        }
    }
    true
}

/// The line of the receipt at this place.
pub(crate) fn receipt_at(lines: &[ReceiptLine], at: u64) -> Option<&ReceiptLine>
    ensures { MatchOption result (slice_get lines.now at ≡ None)
        (λ line. slice_get lines.now at ≡ Some line.now) }
{
    lines.get(at as usize)
}

/// The length in a receipt's line.
pub(crate) fn length_in(line: &ReceiptLine) -> Option<u64>
    ensures { MatchOption result ((n : ℕ) → line.now.length ≡ pos n → ⊥)
        (λ n. line.now.length ≡ pos n) }
{
    let length = line.length;
    natural(length)
}
