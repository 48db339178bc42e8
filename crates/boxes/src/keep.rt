//! The trait that every keeper implements.
ghost use Rattle.std.specs.Prelude.{◌≡◌, ◌↔◌, ◌≤◌, ℕ, ◌+◌, ◌⊎◌, List, [], ◌++◌, length, map, option_map, IsTrue, IfErr, OnOk, OnErr, IsErrOf};
ghost use Rattle.std.specs.FinMap.{get};
ghost use Rattle.sigtext.specs.Counts.{CountsErrors};
ghost use Rattle.boxes.specs.State.{State};
ghost use Rattle.boxes.specs.Views.{AreTotals, IsReceiptAt};
ghost use Rattle.boxes.specs.Clerks.{clerks};
ghost use Rattle.boxes.specs.Limits.{IsLimitedTo, MayUse};
ghost use Rattle.boxes.specs.Rows.{IsOfficeOf, key_of, settings_of, IsFileAt, receipts_from, numbered_receipt};
ghost use Rattle.boxes.specs.Rules.{HasBytes};
ghost use Rattle.boxes.specs.Sound.{IsSound};
ghost use Rattle.boxes.specs.Changes.{IsChangeOf, IsPastFull, TakesStaged};
ghost use Rattle.boxes.specs.Keeping.{Answers, Stays, StaysSure, KeepsGroup, KeepsStaged, LeavesAlone, LeavesEither, LosesGroup, RestsSettled, Settles};

use crate::{BoxRow, Change, FileRow, KeyRow, OfficeRow, ReceiptRow, Totals};
use thiserror::Error;

/// Why a keeper could not answer.
#[derive(Clone, Copy, Debug, PartialEq, Eq, Error)]
pub enum KeepFault {
    /// An allocation was refused.
    #[error("out of memory")]
    Memory,
    /// The store refused.
    #[error("the store refused")]
    Store,
    /// The office has its greatest number of receipts.
    #[error("the office is full")]
    Full,
}

/// Keeps the state of an office, and counts the calls that fail. The count stops at its greatest value. An error
/// of any call but `settle` leaves the state unchanged. Answers are promised only for sound states.
///
/// Changes may be kept in a group, which `gather` begins and `settle` ends. Within a group the keeper answers as if its
/// changes were kept. `settle` keeps all of them at once, or none. A crash before it loses all of them.
pub trait Keeper {
    /// What is kept means this state. This is a relation, because a store that is shut shows nothing.
    ghost means: { Self → State → Type 0 };

    /// These bytes are staged in addition to the state: none at first. This holds for no bytes while the staged bytes are
    /// unknown: after an error, until the next `stage_begin` that succeeds.
    ghost stages: { Self → List ℕ → Type 0 };

    /// The store has so far returned what was written. Memory is always honest.
    ghost is_honest: { Self → Type 0 };

    /// What is kept can be seen. A store shuts itself after a fault. Memory is always open.
    ghost is_open: { Self → Type 0 };

    /// How many calls failed.
    ghost faults: { Self → ℕ };

    /// A crash may leave this state once the changes of the group are kept. For memory this has no meaning.
    ghost leaves: { Self → State → Type 0 };

    /// Whatever a crash leaves then means a state.
    ghost leaves_whole: { Self → Type 0 };

    /// A crash now may leave this state. Outside a group this is `leaves`.
    ghost rests: { Self → State → Type 0 };

    /// Whatever a crash now leaves means a state.
    ghost rests_whole: { Self → Type 0 };

    /// No group has begun: a change is kept when `apply` returns.
    ghost is_alone: { Self → Type 0 };

    /// The second keeper is in a group that began when it was the first.
    ghost gathers: { Self → Self → Type 0 };

    /// There is a store below, which may refuse any call. Memory has none.
    ghost has_store: { Type 0 };

    /// The settings of the office. Takes no memory.
    fn settings(&mut self) -> Result<OfficeRow, KeepFault>
        ensures value { Answers means is_honest self.old self.new result IsOfficeOf }
        ensures rest { Stays means is_honest is_open faults leaves leaves_whole has_store
            is_alone gathers self.old self.new result }
        ensures staged { KeepsStaged stages self.old self.new }
        ensures sure { OnErr result has_store };

    /// The key of this id.
    fn key(&mut self, id: &[u8]) -> Result<Option<KeyRow>, KeepFault>
        ensures value { Answers means is_honest self.old self.new result
            (λ s k. option_map key_of k ≡ get s.keys id.now) }
        ensures rest { Stays means is_honest is_open faults leaves leaves_whole has_store
            is_alone gathers self.old self.new result }
        ensures staged { KeepsStaged stages self.old self.new };

    /// Whether the key of this id may use the box of this name: the key is not limited, or this box is one of those that it
    /// is limited to. Neither the key nor the box need exist. Takes no memory.
    fn may_use(&mut self, id: &[u8], in_box: &[u8]) -> Result<bool, KeepFault>
        ensures value { Answers means is_honest self.old self.new result
            (λ s b. IsTrue b ↔ MayUse s id.now in_box.now) }
        ensures rest { Stays means is_honest is_open faults leaves leaves_whole has_store
            is_alone gathers self.old self.new result }
        ensures staged { KeepsStaged stages self.old self.new }
        ensures sure { OnErr result has_store };

    /// Whether this box is one of those that the key of this id is limited to. Takes no memory.
    fn has_limit(&mut self, id: &[u8], in_box: &[u8]) -> Result<bool, KeepFault>
        ensures value { Answers means is_honest self.old self.new result
            (λ s b. IsTrue b ↔ IsLimitedTo s id.now in_box.now) }
        ensures rest { Stays means is_honest is_open faults leaves leaves_whole has_store
            is_alone gathers self.old self.new result }
        ensures staged { KeepsStaged stages self.old self.new }
        ensures sure { OnErr result has_store };

    /// The box of this name.
    fn box_row(&mut self, name: &[u8]) -> Result<Option<BoxRow>, KeepFault>
        ensures value { Answers means is_honest self.old self.new result
            (λ s b. option_map settings_of b ≡ get s.boxes name.now) }
        ensures rest { Stays means is_honest is_open faults leaves leaves_whole has_store
            is_alone gathers self.old self.new result }
        ensures staged { KeepsStaged stages self.old self.new };

    /// The file of this box and name, with its receipt.
    fn file(&mut self, in_box: &[u8], name: &[u8]) -> Result<Option<FileRow>, KeepFault>
        ensures value { Answers means is_honest self.old self.new result
            (λ s f. IsFileAt s (record { box = in_box.now; name = name.now }) f) }
        ensures rest { Stays means is_honest is_open faults leaves leaves_whole has_store
            is_alone gathers self.old self.new result }
        ensures staged { KeepsStaged stages self.old self.new };

    /// The receipt of the file of this box and name.
    fn file_receipt(&mut self, in_box: &[u8], name: &[u8]) -> Result<Option<ReceiptRow>, KeepFault>
        ensures value { Answers means is_honest self.old self.new result
            (λ s r. IsReceiptAt s (record { box = in_box.now; name = name.now }) r) }
        ensures rest { Stays means is_honest is_open faults leaves leaves_whole has_store
            is_alone gathers self.old self.new result }
        ensures staged { KeepsStaged stages self.old self.new };

    /// The totals of the box of this name. They are zero if it does not exist. Takes no memory.
    fn sizes(&mut self, in_box: &[u8]) -> Result<Totals, KeepFault>
        ensures value { Answers means is_honest self.old self.new result
            (λ s t. AreTotals s in_box.now t) }
        ensures rest { Stays means is_honest is_open faults leaves leaves_whole has_store
            is_alone gathers self.old self.new result }
        ensures staged { KeepsStaged stages self.old self.new }
        ensures sure { OnErr result has_store };

    /// The number of unrevoked clerk's keys. Takes no memory.
    fn clerks(&mut self) -> Result<u64, KeepFault>
        ensures value { Answers means is_honest self.old self.new result (λ s n. n ≡ clerks s) }
        ensures rest { Stays means is_honest is_open faults leaves leaves_whole has_store
            is_alone gathers self.old self.new result }
        ensures staged { KeepsStaged stages self.old self.new }
        ensures sure { OnErr result has_store };

    /// The number of the next receipt. Takes no memory.
    fn next_number(&mut self) -> Result<u64, KeepFault>
        ensures value { Answers means is_honest self.old self.new result
            (λ s n. n ≡ length s.receipts + 1) }
        ensures rest { Stays means is_honest is_open faults leaves leaves_whole has_store
            is_alone gathers self.old self.new result }
        ensures staged { KeepsStaged stages self.old self.new }
        ensures sure { OnErr result has_store };

    /// The receipts numbered `from` or more, ascending, at most `most`.
    fn receipts(&mut self, from: u64, most: usize) -> Result<Vec<ReceiptRow>, KeepFault>
        ensures value { Answers means is_honest self.old self.new result
            (λ s rs. map numbered_receipt rs.items ≡ receipts_from s from most) }
        ensures rest { Stays means is_honest is_open faults leaves leaves_whole has_store
            is_alone gathers self.old self.new result }
        ensures staged { KeepsStaged stages self.old self.new };

    /// Begins staging, with no bytes staged. Takes no memory.
    fn stage_begin(&mut self) -> Result<(), KeepFault>
        ensures rest { Stays means is_honest is_open faults leaves leaves_whole has_store
            is_alone gathers self.old self.new result }
        ensures empty { OnOk result (stages self.new []) }
        ensures sure { OnErr result has_store };

    /// Appends these bytes, 1 to 65536, to the staged bytes.
    fn stage(&mut self, bytes: &[u8]) -> Result<(), KeepFault>
        requires some { 1 ≤ length bytes.now }
        requires short { length bytes.now ≤ 65536 }
        ensures rest { Stays means is_honest is_open faults leaves leaves_whole has_store
            is_alone gathers self.old self.new result }
        ensures added { (staged : List ℕ) → stages self.old staged
            → OnOk result (stages self.new (staged ++ bytes.now)) };

    /// Whether the file of this box and name exists and has exactly the staged bytes.
    fn staged_equals(&mut self, in_box: &[u8], name: &[u8]) -> Result<bool, KeepFault>
        ensures value { (staged : List ℕ) → stages self.old staged
            → Answers means is_honest self.old self.new result
            (λ s b. IsTrue b ↔ HasBytes s (record { box = in_box.now; name = name.now }) staged) }
        ensures rest { Stays means is_honest is_open faults leaves leaves_whole has_store
            is_alone gathers self.old self.new result }
        ensures staged { OnOk result (KeepsStaged stages self.old self.new) };

    /// Moves the staged bytes out. Then no bytes are staged. Takes no memory.
    fn stage_take(&mut self) -> Vec<u8>
        ensures sure { StaysSure means is_honest is_open faults leaves leaves_whole self.old self.new }
        ensures group { KeepsGroup is_alone gathers self.old self.new }
        ensures bytes { (staged : List ℕ) → stages self.old staged → result.items ≡ staged }
        ensures empty { stages self.new [] };

    /// Moves these bytes in, in the place of the staged bytes. Takes no memory.
    fn stage_put(&mut self, bytes: Vec<u8>)
        ensures sure { StaysSure means is_honest is_open faults leaves leaves_whole self.old self.new }
        ensures group { KeepsGroup is_alone gathers self.old self.new }
        ensures staged { stages self.new bytes.items };

    /// Drops the staged bytes. Takes no memory.
    fn stage_drop(&mut self) -> Result<(), KeepFault>
        ensures rest { Stays means is_honest is_open faults leaves leaves_whole has_store
            is_alone gathers self.old self.new result }
        ensures empty { OnOk result (stages self.new []) }
        ensures sure { OnErr result has_store };

    /// Makes a change that the rules allow in the state, completely or not at all. Outside a group it is kept when the call
    /// returns `Ok`. A file is set to the staged bytes, and
    /// then nothing is staged; both are one change. If the office has its greatest number of receipts and the change would
    /// add one, no change is made: the error is `Full` or the store's own. Otherwise `Full` is never returned.
    fn apply(&mut self, change: &Change<'_>) -> Result<(), KeepFault>
        ensures made { (s after : State) → means self.old s → IsSound s
            → IsChangeOf (stages self.old) s change.now after → OnOk result (means self.new after) }
        ensures group { KeepsGroup is_alone gathers self.old self.new }
        ensures emptied { TakesStaged change.now → OnOk result (stages self.new []) }
        ensures staged { (TakesStaged change.now → ⊥)
            → OnOk result (KeepsStaged stages self.old self.new) }
        ensures same { (s : State) → means self.old s → OnErr result (means self.new s) }
        ensures honest { is_honest self.new → is_honest self.old }
        ensures opened { is_honest self.new → OnOk result (is_open self.new) }
        ensures count { CountsErrors (faults self.old) (faults self.new) result }
        ensures full { (s after : State) → means self.old s → IsSound s
            → IsChangeOf (stages self.old) s change.now after → IsErrOf result KeepFault.Full
            → IsPastFull s change.now }
        ensures room { (s after : State) → means self.old s → IsSound s
            → IsChangeOf (stages self.old) s change.now after → OnOk result (IsPastFull s change.now → ⊥) }
        ensures first { (s after : State) → means self.old s → IsSound s
            → IsChangeOf (stages self.old) s change.now after → IsPastFull s change.now
            → IfErr result (λ f. (f ≡ KeepFault.Full) ⊎ has_store) }
        ensures store { IsErrOf result KeepFault.Store → has_store }
        ensures durable { (s after : State) → means self.old s → IsSound s
            → IsChangeOf (stages self.old) s change.now after → is_honest self.new
            → OnOk result (LeavesAlone leaves leaves_whole self.new after) }
        ensures crash { (s after : State) → means self.old s → IsSound s
            → IsChangeOf (stages self.old) s change.now after → is_honest self.new
            → OnErr result (LeavesEither leaves leaves_whole self.old self.new s after) };

    /// Begins a group. In a group nothing is done. Takes no memory.
    fn gather(&mut self)
        ensures sure { StaysSure means is_honest is_open faults leaves leaves_whole self.old self.new }
        ensures staged { KeepsStaged stages self.old self.new }
        ensures begun { is_alone self.old → gathers self.old self.new }
        ensures group { (first : Self) → gathers first self.old → gathers first self.new };

    /// Ends the group. Its changes are kept when the call returns `Ok`. After an error the state is the one when the group began;
    /// a crash may still leave all of the group, until a later change is kept. A call that failed within the group may have
    /// undone it; then this fails. Outside a group nothing is done. What is staged stays so.
    fn settle(&mut self) -> Result<(), KeepFault>
        ensures settles { Settles means is_honest is_open faults leaves leaves_whole has_store
            is_alone gathers self.old self.new result }
        ensures staged { KeepsStaged stages self.old self.new };

    /// An honest keeper that is open means at most one state.
    ghost one: { (k : Self) (s t : State) → is_honest k → is_open k → means k s → means k t
        → s ≡ t };

    /// An honest keeper that is open stages at most one text.
    ghost one_staged: { (k : Self) (a b : List ℕ) → is_honest k → is_open k → stages k a
        → stages k b → a ≡ b };

    /// A keeper without a store is honest and open at all times.
    ghost always: { (has_store → ⊥) → (k : Self) → is_honest k × is_open k };

    /// Outside a group `rests` is `leaves`.
    ghost settled: { (k : Self) → is_alone k → RestsSettled leaves leaves_whole rests rests_whole k };

    /// A crash within a group loses all of its changes. A keeper without a store leaves nothing at a crash.
    ghost lost: { has_store → (first k : Self) (s : State) → gathers first k → is_honest k → means first s
        → LosesGroup leaves leaves_whole rests rests_whole first k s };
}
