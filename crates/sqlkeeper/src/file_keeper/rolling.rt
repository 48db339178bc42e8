//! Walks through an office file: the keeper tells what comes next.

ghost use Rattle.std.specs.Prelude.{◌≡◌, IfOk, IfErr, IsUtf8};
ghost use Rattle.sigtext.specs.Counts.{CountsErrors};

use super::SqlKeeper;
use crate::following::{BoxAfter, FileAfter, KeyAfter, LimitAfter};
use boxes::{KeepFault, Rolls};
use sqlite::Alter;
use std::str;

// The bytes of a query as a text. Bytes that are not UTF-8 are a fault, which is counted: the file contains none.
fn counted_text<'a>(faults: &mut u64, bytes: &'a [u8]) -> Result<&'a str, KeepFault>
    ensures value { IfOk result (λ text. text.now ≡ bytes.now) }
    ensures fault { IfErr result (λ f. IsUtf8 bytes.now → ⊥) }
    ensures store { IfErr result (λ f. f ≡ KeepFault.Store) }
    ensures count { CountsErrors faults.old faults.new result }
{
    match str::from_utf8(bytes) {
        Ok(text) => Ok(text),
        Err(_) => {
            *faults = faults.saturating_add(1);
            Err(KeepFault::Store)
        }
    }
}

impl<S: Alter> Rolls for SqlKeeper<S> {
    fn key_after(&mut self, after: &[u8]) -> Result<Option<Vec<u8>>, KeepFault> {
        let after = counted_text(&mut self.faults, after)?;
        self.answer(&KeyAfter { after })
    }

    fn box_after(&mut self, after: &[u8]) -> Result<Option<Vec<u8>>, KeepFault> {
        let after = counted_text(&mut self.faults, after)?;
        self.answer(&BoxAfter { after })
    }

    fn file_after(&mut self, in_box: &[u8], after: &[u8]) -> Result<Option<Vec<u8>>, KeepFault> {
        let in_box = counted_text(&mut self.faults, in_box)?;
        let after = counted_text(&mut self.faults, after)?;
        self.answer(&FileAfter { in_box, after })
    }

    fn limit_after(&mut self, id: &[u8], after: &[u8]) -> Result<Option<Vec<u8>>, KeepFault> {
        let id = counted_text(&mut self.faults, id)?;
        let after = counted_text(&mut self.faults, after)?;
        self.answer(&LimitAfter { id, after })
    }
}
