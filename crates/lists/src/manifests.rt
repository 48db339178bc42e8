//! The manifest of an office: the list of its receipts.
ghost use Rattle.std.specs.Prelude.{◌≡◌, ℕ, ◌+◌, List, Some, length, map, IfErr, IfOk, OnOk};
ghost use Rattle.std.specs.List.{AllByRecursion};
ghost use Rattle.std.specs.Io.KnownBytes.{Appends};
ghost use Rattle.sigtext.specs.Counts.{CountsErrors};
ghost use Rattle.sigv4.specs.Dates.{WritesMoment};
ghost use Rattle.boxes.specs.Rows.{numbered_receipt};
ghost use Rattle.boxes.specs.Sound.{IsMoment, IsSound};
ghost use Rattle.boxes.specs.State.{State};
ghost use Rattle.boxes.specs.Bound.{StaysBy};
ghost use Rattle.boxes.specs.Keeping.{KeepsStaged};
ghost use Rattle.lists.specs.Lists.{by_keeper, by_writer, written_by, AreLines, IsClean, IsOfManifest};
ghost use Rattle.lists.specs.Manifests.{HasMoment, IsReceiptLine, SendsReceipts, WritesManifest};

use crate::lines::{send_line, send_text, text_of, write_line};
use crate::list_fault::ListFault;
use boxes::{Keeper, ReceiptRow};
use csv::{Writer, WriterBuilder};
use itoa::Buffer;
use sigv4::Moment;
use std::alloc::Global;
use std::io::Write;
use wire::{Counted, hex_digits};

/// The head of a manifest.
pub(crate) const MANIFEST_HEAD: [&[u8]; 7] = [
    b"receipt", b"box", b"name", b"length", b"sha256", b"moment", b"key",
];

/// How many receipts are held in memory at a time.
const PORTION: u16 = 256;

/// The text of the last possible moment.
const LAST_MOMENT: &[u8; 16] = b"99991231T235959Z";

/// The text of a moment, given in seconds since 1970-01-01T00:00:00Z. A moment past the last possible one
/// gets the text of the last one.
pub fn moment_text(seconds: u64) -> [u8; 16]
    ensures { IsMoment seconds → WritesMoment result seconds }
{
    match Moment::new(seconds) {
        Some(moment) => moment.text(),
        None => *LAST_MOMENT,
    }
}

// Writes the record of a receipt.
fn write_receipt(receipt: &ReceiptRow, writer: &mut Writer<Vec<u8>>) -> Result<(), ListFault>
    requires { IsClean writer.old }
    ensures clean { OnOk result (IsClean writer.new) }
    ensures written { IsMoment receipt.now.moment → OnOk result ((text : List ℕ)
        × IsReceiptLine (numbered_receipt receipt.now) text
        × Appends (written_by writer.old) (written_by writer.new) text) }
    ensures memory { IfErr result (λ f. f ≡ ListFault.Memory) }
{
    let mut number = Buffer::new();
    let mut size = Buffer::new();
    let fields: [&[u8]; 7] = [
        number.format(receipt.number).as_bytes(),
        &receipt.in_box,
        &receipt.name,
        size.format(receipt.size).as_bytes(),
        &hex_digits(receipt.digest),
        &moment_text(receipt.moment),
        &receipt.key,
    ];
    write_line(&fields, writer)
}

/// The lines of these receipts in a manifest, without the head.
///
/// # Errors
///
/// `Memory` if memory was refused.
pub fn receipts_text(alloc: Global, receipts: &[ReceiptRow]) -> Result<Vec<u8>, ListFault>
    ensures lines { AllByRecursion HasMoment (map numbered_receipt receipts.now)
        → IfOk result (λ text. AreLines IsReceiptLine (map numbered_receipt receipts.now) text.items) }
    ensures memory { IfErr result (λ f. f ≡ ListFault.Memory) }
{
    let mut writer = WriterBuilder::new().from_writer(Vec::new(alloc));
    'receipts: for receipt in receipts {
        write_receipt(receipt, &mut writer)?;
    }
    text_of(writer)
}

// Writes the lines of all receipts with numbers below `end`.
fn send_receipts<K: Keeper, W: Write>(
    alloc: Global,
    keeper: &mut K,
    end: u64,
    out: &mut Counted<W>,
) -> Result<(), ListFault>
    ensures sent { (s : State) → K.means keeper.old s → IsSound s → K.is_honest keeper.new
        → end ≡ length s.receipts + 1 → SendsReceipts s (W.contents out.old.inner) (W.contents out.new.inner) result }
    ensures stays { StaysBy K.Keeper keeper.old keeper.new (by_keeper result) }
    ensures staged { KeepsStaged K.stages keeper.old keeper.new }
    ensures count { CountsErrors out.old.faults out.new.faults (by_writer result) }
    ensures fault { IfErr result IsOfManifest }
{
    let mut from: u64 = 1;
    'portions: while from < end {
        let receipts = match keeper.receipts(from, usize::from(PORTION)) {
            Ok(receipts) => receipts,
            Err(fault) => return Err(ListFault::Keep(fault)),
        };
        let text = receipts_text(alloc, &receipts)?;
        send_text(&text, out)?;
        from = from.saturating_add(u64::from(PORTION));
    }
    Ok(())
}

/// Writes the receipts of an office as a list in CSV, in order from the first. The head is
/// `receipt,box,name,length,sha256,moment,key`: the receipt's number; the file's box, name and length in
/// bytes; its digest in 64 lower-case digits; the moment, like `20130524T000000Z`; the key's id. At most 256
/// receipts are held in memory at a time.
///
/// # Errors
///
/// `Keep` if the keeper failed, `Write` if a write failed, `Memory` if memory was refused. A prefix of the
/// list was written then.
pub fn manifest<K: Keeper, W: Write>(
    alloc: Global,
    keeper: &mut K,
    out: &mut Counted<W>,
) -> Result<(), ListFault>
    ensures writes { (s : State) → K.means keeper.old s → IsSound s → K.is_honest keeper.new
        → WritesManifest s (W.contents out.old.inner) (W.contents out.new.inner) result }
    ensures stays { StaysBy K.Keeper keeper.old keeper.new (by_keeper result) }
    ensures staged { KeepsStaged K.stages keeper.old keeper.new }
    ensures count { CountsErrors out.old.faults out.new.faults (by_writer result) }
    ensures fault { IfErr result IsOfManifest }
{
    send_line(alloc, &MANIFEST_HEAD, out)?;
    let end = match keeper.next_number() {
        Ok(end) => end,
        Err(fault) => return Err(ListFault::Keep(fault)),
    };
    send_receipts(alloc, keeper, end, out)
}
