//! The trait of what answers each record of a list.
ghost use Rattle.std.specs.Prelude.{ℕ, List, ⊤, Result, Ok, IfOk, IfErr, IfNone};
ghost use Rattle.csv.specs.Records.{fields_of};
ghost use Rattle.boxes.specs.declared.keep.KeepFault.{KeepFault};
ghost use Rattle.links.specs.Finds.{IfFound};
ghost use Rattle.lists.specs.Lists.{by_keeper, IsOfAnswering};

use crate::list_fault::ListFault;
use csv::ByteRecord;
use std::alloc::Global;

/// The head of the list that is read, and that of the list that is written.
#[derive(Clone, Copy)]
pub(crate) struct Heads<'a> {
    pub(crate) read: &'a [&'a [u8]],
    pub(crate) written: &'a [&'a [u8]],
}

/// Answers each record of a list.
pub(crate) trait Answerer {
    /// What an answer may depend on besides the record.
    ghost World: { Type 0 };

    /// The record has the right form.
    ghost has_form: { List (List ℕ) → Type 0 };

    /// The answerer knows this world before a call.
    ghost knows: { Self → World → Type 0 };

    /// All answers so far are true of that world.
    ghost is_honest: { Self → Type 0 };

    /// The line answers the record in this world.
    ghost is_line: { Self → World → List (List ℕ) → List ℕ → Type 0 };

    /// What calls leave unchanged, whatever they answer. The result is that of the keeper below.
    ghost stays: { Self → Self → Result ⊤ KeepFault → Type 0 };

    /// The line that answers a record; `None` if the record does not have the right form.
    fn answer(&mut self, alloc: Global, row: &ByteRecord) -> Result<Option<Vec<u8>>, ListFault>
        ensures line { (w : World) → knows self.old w → is_honest self.new
            → IfFound result (λ text. is_line self.old w (fields_of row.now) text.items) }
        ensures some { IfFound result (λ text. has_form (fields_of row.now)) }
        ensures none { IfOk result (λ a. IfNone a (has_form (fields_of row.now) → ⊥)) }
        ensures stays { stays self.old self.new (by_keeper result) }
        ensures fault { IfErr result IsOfAnswering };

    /// This holds if nothing was asked.
    ghost unasked: { (a : Self) → stays a a (Ok tt) };

    /// Two calls in a row.
    ghost joins: { (a b c : Self) (r : Result ⊤ KeepFault)
        → stays a b (Ok tt) → stays b c r → stays a c r };

    /// The world stays the same.
    ghost same: { (a b : Self) (w : World) (r : Result ⊤ KeepFault)
        → stays a b r → knows a w → knows b w };

    /// An answerer that is honest after a call was honest before it.
    ghost honest: { (a b : Self) (r : Result ⊤ KeepFault)
        → stays a b r → is_honest b → is_honest a };

    /// The answer to a record does not change over time.
    ghost steady: { (a b : Self) (r : Result ⊤ KeepFault)
        → (w : World) (fields : List (List ℕ)) (text : List ℕ) → stays a b r
        → is_line b w fields text → is_line a w fields text };
}
