//! Lists that are answered record by record.
ghost use Rattle.std.specs.Prelude.{◌≡◌, ◌≢◌, ℕ, List, Option, option_map, Result, Ok, Err};
ghost use Rattle.csv.specs.Reading.{reader_state, source_of, strip_bom};
ghost use Rattle.csv.specs.declared.parser.State.TheVariants as State;
ghost use Rattle.sigtext.specs.Counts.{CountsErrors};
ghost use Rattle.lists.specs.Answering.{failed_reads, left_in, AnswersListBy, AnswersRestBy};
ghost use Rattle.lists.specs.Lists.{by_keeper, by_reader, by_writer, IsReading};

use crate::answerer::{Answerer, Heads};
use crate::lines::{send_line, send_text};
use crate::list_end::ListEnd;
use crate::list_fault::ListFault;
use crate::records::{is_record, next_record};
use csv::{ByteRecord, Reader, ReaderBuilder};
use std::alloc::Global;
use std::io::{Read, Write};
use wire::Counted;

/// Answers the remaining records in order.
fn answer_records<R: Read, W: Write, A: Answerer>(
    alloc: Global,
    reader: &mut Reader<Counted<R>>,
    row: &mut ByteRecord,
    answerer: &mut A,
    out: &mut Counted<W>,
) -> Result<(), ListFault>
    requires reading { IsReading reader.old }
    requires sound { failed_reads reader.old ≡ 0 }
    ensures answers { AnswersRestBy A.Answerer answerer.old answerer.new R.remaining reader.old
        (W.contents out.old.inner) (W.contents out.new.inner) result }
    ensures stays { A.stays answerer.old answerer.new (by_keeper result) }
    ensures reads { CountsErrors 0 (failed_reads reader.new) (by_reader result) }
    ensures count { CountsErrors out.old.faults out.new.faults (by_writer result) }
    ensures order { result ≢ Err ListFault.Order }
    ensures head { result ≢ Err ListFault.Head }
{
    'records: for i in 0..u64::MAX {
        if !next_record(reader, row)? {
            return Ok(());
        }
        let Some(text) = answerer.answer(alloc, row)? else {
            return Err(ListFault::Row(i + 1));
        };
        send_text(&text, out)?;
    }
    Err(ListFault::Memory)
}

// Answers a whole list from a reader at its start.
fn answer_read<R: Read, W: Write, A: Answerer>(
    alloc: Global,
    reader: &mut Reader<Counted<R>>,
    row: &mut ByteRecord,
    heads: Heads<'_>,
    answerer: &mut A,
    out: &mut Counted<W>,
) -> Result<(), ListFault>
    requires reading { IsReading reader.old }
    requires begins { reader_state reader.old ≡ State.StartRecord }
    ensures answers { (read : Option (List ℕ))
        → source_of (left_in R.remaining) reader.old ≡ option_map strip_bom read
        → AnswersListBy A.Answerer answerer.old answerer.new heads.entry read
        (W.contents out.old.inner) (W.contents out.new.inner) result }
    ensures stays { A.stays answerer.old answerer.new (by_keeper result) }
    ensures reads { CountsErrors 0 (failed_reads reader.new) (by_reader result) }
    ensures count { CountsErrors out.old.faults out.new.faults (by_writer result) }
    ensures order { result ≢ Err ListFault.Order }
{
    if !next_record(reader, row)? {
        return Err(ListFault::Head);
    }
    if !is_record(row, heads.read) {
        return Err(ListFault::Head);
    }
    send_line(alloc, heads.written, out)?;
    answer_records(alloc, reader, row, answerer, out)
}

/// Answers a list. If it begins with the expected head, writes the other head, then the answer to each
/// record.
pub(crate) fn answer_list<R: Read, W: Write, A: Answerer>(
    alloc: Global,
    input: R,
    heads: Heads<'_>,
    answerer: &mut A,
    out: &mut Counted<W>,
) -> ListEnd<R>
    ensures answers { AnswersListBy A.Answerer answerer.old answerer.new heads.entry
        (R.remaining input) (W.contents out.old.inner) (W.contents out.new.inner) result.end }
    ensures stays { A.stays answerer.old answerer.new (by_keeper result.end) }
    ensures reads { CountsErrors 0 result.reader.faults (by_reader result.end) }
    ensures count { CountsErrors out.old.faults out.new.faults (by_writer result.end) }
    ensures order { result.end ≢ Err ListFault.Order }
{
    let mut reader = ReaderBuilder::new()
        .has_headers(false)
        .flexible(true)
        .from_reader(alloc, Counted::new(input));
    let mut row = ByteRecord::new(alloc);
    let end = answer_read(alloc, &mut reader, &mut row, heads, answerer, out);
    ListEnd {
        end,
        reader: reader.into_inner(),
    }
}
