//! Comparing a manifest with the files that the office has.
ghost use Rattle.std.specs.Prelude.{◌≡◌, ◌≢◌, ◌↔◌, IsTrue, IfErr, IfOk, IfSome, IfNone, Err, Option, length};
ghost use Rattle.std.proofs.Common.{refl, ◌∙◌};
ghost use Rattle.csv.specs.Records.{fields_of};
ghost use Rattle.sigtext.specs.Counts.{CountsErrors};
ghost use Rattle.boxes.specs.Rows.{file_of, IsFileAt};
ghost use Rattle.boxes.specs.Sound.{IsSound};
ghost use Rattle.boxes.specs.State.{State};
ghost use Rattle.boxes.specs.Bound.{StaysBy};
ghost use Rattle.lists.specs.Asking.{stays_joined, stays_unasked, Meant};
ghost use Rattle.lists.specs.Lists.{line, by_keeper, by_reader, by_writer, AnswersList};
ghost use Rattle.lists.specs.Manifests as said;
ghost use Rattle.lists.specs.Manifests.{entry_of, findings_head, manifest_head, texts_with, word_of, IsEntry, IsComparison, IsComparisonLine, IsManifestRow};

use crate::answerer::{Answerer, Heads};
use crate::answering::answer_list;
use crate::lines::line_of;
use crate::list_end::ListEnd;
use crate::list_fault::ListFault;
use crate::manifests::MANIFEST_HEAD;
use crate::records::{are_texts, read_fields};
use boxes::{FileRow, Keeper};
use csv::ByteRecord;
use links::{is_hex_digest, read_number};
use sigv4::Sha;
use std::alloc::Global;
use std::io::{Read, Write};
use wire::{Counted, hex_digits};

/// The head of the list of results.
const FINDINGS_HEAD: [&[u8]; 4] = [b"receipt", b"box", b"name", b"state"];

/// The most digits of a receipt's number.
const MOST_NUMBER_DIGITS: usize = 10;

/// The most digits of a length.
const MOST_LENGTH_DIGITS: usize = 7;

/// How a manifest's entry compares with the files of the office.
#[derive(Clone, Copy)]
pub(crate) enum Comparison {
    /// The file is as the manifest says.
    Standing,
    /// The file at this place has this receipt, but another length or digest.
    Differs,
    /// No file at this place has this receipt.
    Gone,
}

impl Comparison {
    fn word(self) -> &'static [u8]
        ensures { result.now ≡ word_of self }
    {
        match self {
            Comparison::Standing => b"standing",
            Comparison::Differs => b"differs",
            Comparison::Gone => b"gone",
        }
    }
}

/// What a record of a manifest says of a file.
#[derive(Clone, Copy)]
pub(crate) struct Entry<'a> {
    number_text: &'a [u8],
    number: u64,
    in_box: &'a [u8],
    name: &'a [u8],
    size: u64,
    /// SHA-256, in 64 digits.
    digest: &'a [u8],
}

// The entry in this record, if the record is well formed.
fn read_entry(row: &ByteRecord) -> Option<Entry<'_>>
    ensures some { IfSome result (λ e. (is : IsEntry (fields_of row.now) (entry_of e))
        × (is.number ≡ e.number_text.now)) }
    ensures none { IfNone result (IsManifestRow (fields_of row.now) → ⊥) }
{
    let mut texts = [b"".as_slice(); 7];
    if !read_fields(row, &mut texts) {
        return None;
    }
    let [number_text, in_box, name, size_text, digest, _, _] = texts;
    if !are_texts(&texts) || !is_hex_digest(digest) {
        return None;
    }
    if number_text.len() > MOST_NUMBER_DIGITS || size_text.len() > MOST_LENGTH_DIGITS {
        return None;
    }
    let number = read_number(number_text)?;
    let size = read_number(size_text)?;
    if number == 0 {
        return None;
    }
    Some(Entry {
        number_text,
        number,
        in_box,
        name,
        size,
        digest,
    })
}

// Whether the file is as the manifest says.
fn is_same(entry: &Entry<'_>, file: &FileRow) -> bool
    ensures { IsTrue result ↔ said.IsSame (entry_of entry.now) (file_of file.now) }
{
    file.bytes.len() as u64 == entry.size
        && hex_digits(Sha::digest(&file.bytes)).as_slice() == entry.digest
}

// Compares an entry with the file at its place, if there is one.
fn find(entry: &Entry<'_>, standing: &Option<FileRow>) -> Comparison
    ensures { (s : State) → IsFileAt s (entry_of entry.now).place standing.now
        → IsComparison s (entry_of entry.now) result }
{
    match standing {
        Some(file) if file.receipt.number == entry.number => {
            if is_same(entry, file) {
                Comparison::Standing
            } else {
                Comparison::Differs
            }
        }
        _ => Comparison::Gone,
    }
}

// The line that gives this word for an entry.
fn entry_line<'a>(alloc: Global, entry: &Entry<'a>, word: &'a [u8]) -> Result<Vec<u8>, ListFault>
    ensures line { IfOk result (λ text. text.items ≡ line (texts_with entry.now word.now)) }
    ensures memory { IfErr result (λ f. f ≡ ListFault.Memory) }
{
    line_of(alloc, &[entry.number_text, entry.in_box, entry.name, word])
}

/// Answers each entry of a manifest with its state.
#[derive(Drop)]
struct Comparer<'k, K> {
    keeper: &'k mut K,
}

impl<K: Keeper> Answerer for Comparer<'_, K> {
    ghost World = { State };

    ghost has_form = { IsManifestRow };

    ghost knows = { λ c s. K.means c.keeper.now s × IsSound s };

    ghost is_honest = { λ c. K.is_honest c.keeper.now };

    ghost is_line = { λ c s fields text. IsComparisonLine s fields text };

    ghost stays = { λ c d r. (d.keeper.ghost_name ≡ c.keeper.ghost_name)
        × StaysBy K.Keeper c.keeper.now d.keeper.now r };

    fn answer(&mut self, alloc: Global, row: &ByteRecord) -> Result<Option<Vec<u8>>, ListFault> {
        let Some(entry) = read_entry(row) else {
            return Ok(None);
        };
        let found = match self.keeper.file(entry.in_box, entry.name) {
            Ok(standing) => find(&entry, &standing),
            Err(fault) => return Err(ListFault::Keep(fault)),
        };
        Ok(Some(entry_line(alloc, &entry, found.word())?))
    }

    ghost unasked = { λ a. (refl, stays_unasked a.keeper.now) };

    ghost joins = { λ a b c r p q. (q.0 ∙ p.0, stays_joined _ _ _ _ p.1 q.1) };

    ghost same = { λ a b s r p h. (p.1.same s h.0, h.1) };

    ghost honest = { λ a b r p h. p.1.honest h };

    ghost steady = { λ a b r s fields text p l. l };
}

impl<'k, K: Keeper> Comparer<'k, K> {
    // Gives the keeper back.
    fn into_keeper(self) -> &'k mut K
        ensures same { result.ghost_name ≡ self.entry.keeper.ghost_name }
        ensures now { result.now ≡ self.entry.keeper.now }
    {
        self.keeper
    }
}

/// Compares a manifest with the files of the office. The list in CSV begins with the head of a manifest. In
/// each later row all seven texts are UTF-8. The receipt has 1 to 10 digits and is not 0. The length has 1 to
/// 7 digits. Neither has a leading zero, except a length of `0`. The digest has 64 lower-case hexadecimal
/// digits. The output begins with the head `receipt,box,name,state`, and has one row for each row of the
/// manifest, in order. Its state is one of:
///
/// - `standing`: the file with this box and name has this receipt, length and digest;
/// - `differs`: it has this receipt, but another length or digest;
/// - `gone`: there is no such file, or it has another receipt.
///
/// The reader is returned with the number of its reads that failed.
///
/// # Errors
///
/// `Head` if the first row is another or missing. Nothing was written then. `Row` with the number of the
/// first malformed row, counted without the head. The head and the answers to the rows before it were written
/// then. `Keep` if the keeper failed, `Read` if a read failed, `Write` if a write failed, `Memory` if memory
/// was refused. A prefix of the answers' text was written then.
pub fn compare<R: Read, K: Keeper, W: Write>(
    alloc: Global,
    input: R,
    keeper: &mut K,
    out: &mut Counted<W>,
) -> ListEnd<R>
    ensures answers { AnswersList manifest_head findings_head IsManifestRow
        (Meant K.Keeper keeper.old keeper.new) IsComparisonLine
        (R.remaining input) (W.contents out.old.inner) (W.contents out.new.inner) result.end }
    ensures stays { StaysBy K.Keeper keeper.old keeper.new (by_keeper result.end) }
    ensures reads { CountsErrors 0 result.reader.faults (by_reader result.end) }
    ensures count { CountsErrors out.old.faults out.new.faults (by_writer result.end) }
    ensures order { result.end ≢ Err ListFault.Order }
{
    let mut comparer = Comparer { keeper };
    let heads = Heads {
        read: &MANIFEST_HEAD,
        written: &FINDINGS_HEAD,
    };
    let compared = answer_list(alloc, input, heads, &mut comparer, out);
    comparer.into_keeper();
    compared
}
