//! The list of an office's files.
ghost use Rattle.std.specs.Prelude.{◌≡◌, IfErr, IfOk, IfSome, option_map, Some};
ghost use Rattle.std.specs.FinMap.{entries};
ghost use Rattle.sigtext.specs.Counts.{CountsErrors};
ghost use Rattle.boxes.specs.Rows.{numbered_receipt};
ghost use Rattle.boxes.specs.Sound.{IsMoment, IsSound};
ghost use Rattle.boxes.specs.State.{place_cmp, State};
ghost use Rattle.boxes.specs.Views.{IsReceiptAt};
ghost use Rattle.boxes.specs.Bound.{StaysBy};
ghost use Rattle.boxes.specs.Next.{IsFile, IsNext};
ghost use Rattle.lists.specs.Asking.{Meant};
ghost use Rattle.lists.specs.Lists.{by_keeper, by_writer, IsOfAnswering, IsOfManifest};
ghost use Rattle.lists.specs.Files.{files_head, IsFileLine, IsPlacedLine};
ghost use Rattle.lists.specs.Places.{place_in};
ghost use Rattle.lists.specs.Written.{SendsLines, WritesList};

use crate::places::{FilePlace, next_file};
use crate::{ListFault, line_of, moment_text, send_line, send_text};
use boxes::{ReceiptRow, Rolls};
use itoa::Buffer;
use std::alloc::Global;
use std::io::Write;
use wire::{Counted, hex_digits};

/// The header line of a list of files.
const FILES_HEAD: [&[u8]; 7] = [
    b"box", b"name", b"length", b"sha256", b"receipt", b"moment", b"key",
];

/// A file in the list.
#[derive(Drop)]
struct ListedFile {
    place: FilePlace,
    receipt: ReceiptRow,
}

// The first file after this place.
fn next_listed<K: Rolls>(
    alloc: Global,
    keeper: &mut K,
    after: &FilePlace,
) -> Result<Option<ListedFile>, ListFault>
    ensures next { (s : State) → Meant K.Keeper keeper.old keeper.new s → IfOk result (λ found.
        IsNext place_cmp (IsFile s) (place_in after.now)
        (option_map (λ f. place_in f.place) found)) }
    ensures receipt { (s : State) → Meant K.Keeper keeper.old keeper.new s → IfOk result (λ found.
        IfSome found (λ f. IsReceiptAt s (place_in f.place) (Some f.receipt))) }
    ensures stays { StaysBy K.Keeper keeper.old keeper.new (by_keeper result) }
    ensures fault { IfErr result IsOfAnswering }
{
    let Some(place) = next_file(alloc, keeper, &after.in_box, &after.name)? else {
        return Ok(None);
    };
    match keeper.file_receipt(&place.in_box, &place.name) {
        Ok(Some(receipt)) => Ok(Some(ListedFile { place, receipt })),
        Ok(None) => Err(ListFault::Memory),
        Err(fault) => Err(ListFault::Keep(fault)),
    }
}

// The line of a file.
fn file_line(alloc: Global, file: &ListedFile) -> Result<Vec<u8>, ListFault>
    ensures line { IsMoment file.now.receipt.moment
        → IfOk result (λ text. IsPlacedLine (place_in file.now.place)
        (numbered_receipt file.now.receipt) text.items) }
    ensures memory { IfErr result (λ f. f ≡ ListFault.Memory) }
{
    let receipt = &file.receipt;
    let mut size = Buffer::new();
    let mut number = Buffer::new();
    let fields: [&[u8]; 7] = [
        &file.place.in_box,
        &file.place.name,
        size.format(receipt.size).as_bytes(),
        &hex_digits(receipt.digest),
        number.format(receipt.number).as_bytes(),
        &moment_text(receipt.moment),
        &receipt.key,
    ];
    line_of(alloc, &fields)
}

// Writes the lines of the files.
fn send_files<K: Rolls, W: Write>(
    alloc: Global,
    keeper: &mut K,
    out: &mut Counted<W>,
) -> Result<(), ListFault>
    ensures sent { (s : State) → Meant K.Keeper keeper.old keeper.new s
        → SendsLines (IsFileLine s) (entries s.files)
        (W.contents out.old.inner) (W.contents out.new.inner) result }
    ensures stays { StaysBy K.Keeper keeper.old keeper.new (by_keeper result) }
    ensures count { CountsErrors out.old.faults out.new.faults (by_writer result) }
    ensures fault { IfErr result IsOfManifest }
{
    let mut after = FilePlace {
        in_box: Vec::new(alloc),
        name: Vec::new(alloc),
    };
    'files: for _ in 0..u64::MAX {
        let Some(file) = next_listed(alloc, keeper, &after)? else {
            return Ok(());
        };
        let text = file_line(alloc, &file)?;
        send_text(&text, out)?;
        after = file.place;
    }
    Err(ListFault::Memory)
}

/// Writes the current files of an office as CSV, sorted by box and then by name. The header line is
/// `box,name,length,sha256,receipt,moment,key`: the box, the name, the length in bytes, the digest in 64 lower-case hex digits,
/// the receipt's number, the receipt's moment like `20130524T000000Z`, and the id of the key that uploaded the file.
///
/// # Errors
///
/// `Keep` if the keeper failed, `Write` if a write failed, `Memory` if memory ran out. The output is then a beginning of the
/// list.
pub fn list_files<K: Rolls, W: Write>(
    alloc: Global,
    keeper: &mut K,
    out: &mut Counted<W>,
) -> Result<(), ListFault>
    ensures writes { (s : State) → K.means keeper.old s → IsSound s → K.is_honest keeper.new
        → WritesList files_head (IsFileLine s) (entries s.files)
        (W.contents out.old.inner) (W.contents out.new.inner) result }
    ensures stays { StaysBy K.Keeper keeper.old keeper.new (by_keeper result) }
    ensures count { CountsErrors out.old.faults out.new.faults (by_writer result) }
    ensures fault { IfErr result IsOfManifest }
{
    send_line(alloc, &FILES_HEAD, out)?;
    send_files(alloc, keeper, out)
}
