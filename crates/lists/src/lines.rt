//! Writing the lines of a list.
ghost use Rattle.std.specs.Prelude.{◌≡◌, Some, map, OnOk, IfOk, IfErr};
ghost use Rattle.std.specs.Io.KnownBytes.{Appends};
ghost use Rattle.sigtext.specs.Counts.{CountsErrors};
ghost use Rattle.wire.specs.Sending.{Sends};
ghost use Rattle.lists.specs.Lists.{line, by_writer, written_by, IsClean, IsOfWriting};

use crate::list_fault::ListFault;
use csv::{Writer, WriterBuilder};
use std::alloc::Global;
use std::io::Write;
use wire::{Counted, send};

/// Writes the line of a record to memory.
pub fn write_line(fields: &[&[u8]], writer: &mut Writer<Vec<u8>>) -> Result<(), ListFault>
    requires { IsClean writer.old }
    ensures clean { OnOk result (IsClean writer.new) }
    ensures written { OnOk result (Appends (written_by writer.old) (written_by writer.new)
        (line (map (λ f. f.now) fields.now))) }
    ensures memory { IfErr result (λ f. f ≡ ListFault.Memory) }
{
    match writer.write_fields(fields) {
        Ok(()) => Ok(()),
        Err(_) => Err(ListFault::Memory),
    }
}

/// The text that was written to memory.
pub fn text_of(writer: Writer<Vec<u8>>) -> Result<Vec<u8>, ListFault>
    ensures text { IfOk result (λ text. Some text.items ≡ written_by writer) }
    ensures memory { IfErr result (λ f. f ≡ ListFault.Memory) }
{
    match writer.into_inner() {
        Ok(text) => Ok(text),
        Err(_) => Err(ListFault::Memory),
    }
}

/// The line of a record, as a new text.
pub fn line_of(alloc: Global, fields: &[&[u8]]) -> Result<Vec<u8>, ListFault>
    ensures line { IfOk result (λ text. text.items ≡ line (map (λ f. f.now) fields.now)) }
    ensures memory { IfErr result (λ f. f ≡ ListFault.Memory) }
{
    let mut writer = WriterBuilder::new().from_writer(Vec::new(alloc));
    write_line(fields, &mut writer)?;
    text_of(writer)
}

/// Writes a text. After a failed write only a prefix of it was written.
pub fn send_text<W: Write>(text: &[u8], out: &mut Counted<W>) -> Result<(), ListFault>
    ensures sent { Sends text.now (W.contents out.old.inner) (W.contents out.new.inner) result }
    ensures count { CountsErrors out.old.faults out.new.faults (by_writer result) }
    ensures fault { IfErr result (λ f. f ≡ ListFault.Write) }
{
    match send(text, out) {
        Ok(()) => Ok(()),
        Err(_) => Err(ListFault::Write),
    }
}

/// Writes the line of a record. After a failure only a prefix of it was written.
pub fn send_line<W: Write>(
    alloc: Global,
    fields: &[&[u8]],
    out: &mut Counted<W>,
) -> Result<(), ListFault>
    ensures sent { Sends (line (map (λ f. f.now) fields.now))
        (W.contents out.old.inner) (W.contents out.new.inner) result }
    ensures count { CountsErrors out.old.faults out.new.faults (by_writer result) }
    ensures fault { IfErr result IsOfWriting }
{
    let text = line_of(alloc, fields)?;
    send_text(&text, out)
}
