//! Reading the records of a list.
ghost use Rattle.std.specs.Prelude.{◌≡◌, ◌↔◌, map, true, length, IsTrue, IfOk, IfErr, OnOk};
ghost use Rattle.csv.specs.Records.{fields_of, AllText};
ghost use Rattle.csv.specs.Reading.{ReadRecord};
ghost use Rattle.sigtext.specs.Counts.{CountsErrors};
ghost use Rattle.lists.specs.Answering.{failed_reads, left_in};
ghost use Rattle.lists.specs.Lists.{by_reader, IsReading, IsOfReading};

use crate::list_fault::ListFault;
use csv::{ByteRecord, Reader};
use std::io::Read;
use std::str;
use wire::Counted;

/// Reads the next record. Returns whether there was one. The reader's count tells whether a read failed.
pub(crate) fn next_record<R: Read>(
    reader: &mut Reader<Counted<R>>,
    row: &mut ByteRecord,
) -> Result<bool, ListFault>
    requires { IsReading reader.old }
    ensures record { IfOk result (λ found.
        ReadRecord (left_in R.remaining) reader.old reader.new found (fields_of row.new)) }
    ensures goes_on { OnOk result (IsReading reader.new) }
    ensures fault { IfErr result IsOfReading }
    ensures reads { CountsErrors 0 (failed_reads reader.new) (by_reader result) }
{
    let read = reader.read_byte_record(row);
    if reader.get_ref().faults() > 0 {
        return Err(ListFault::Read);
    }
    match read {
        Ok(found) => Ok(found),
        Err(_) => Err(ListFault::Memory),
    }
}

/// Reads the fields of a record into `texts`. Returns false if their numbers differ.
pub(crate) fn read_fields<'a>(row: &'a ByteRecord, texts: &mut [&'a [u8]]) -> bool
    ensures found { IsTrue result ↔ (length (fields_of row.now) ≡ length texts.old) }
    ensures are { IsTrue result → map (λ t. t.now) texts.new ≡ fields_of row.now }
{
    if row.len() != texts.len() {
        return false;
    }
    'fields: for i in 0..texts.len() {
        let Some(field) = row.get(i) else {
            return false;
        };
        texts[i] = field;
    }
    true
}

/// Whether the record has these fields.
pub(crate) fn is_record(row: &ByteRecord, fields: &[&[u8]]) -> bool
    ensures { IsTrue result ↔ (fields_of row.now ≡ map (λ f. f.now) fields.now) }
{
    if row.len() != fields.len() {
        return false;
    }
    'fields: for i in 0..fields.len() {
        let Some(field) = row.get(i) else {
            return false;
        };
        if field != fields[i] {
            return false;
        }
    }
    true
}

/// Whether each field is UTF-8.
pub(crate) fn are_texts(fields: &[&[u8]]) -> bool
    ensures { IsTrue result ↔ AllText (map (λ f. f.now) fields.now) }
{
    fields.iter().all(|field| str::from_utf8(field).is_ok())
}
