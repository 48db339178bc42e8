//! A keeper that counts the calls to another keeper and their faults, and can refuse one call.
ghost use Rattle.std.specs.Prelude.{◌≡◌, IfErr};
ghost use Rattle.sigtext.specs.Counts.{CountsErrors};

use boxes::{BoxRow, Change, FileRow, KeepFault, Keeper, KeyRow, OfficeRow, ReceiptRow, Totals};

/// Passes each call on, except the one that it refuses. Its contract claims no state. What is staged, and whether a group has
/// begun, is as in the inner keeper.
#[derive(Drop)]
pub struct Watched<K> {
    pub inner: K,
    /// Calls since the last `refuse`.
    pub calls: u64,
    /// Calls of `stage` since then.
    pub pieces: u64,
    /// Calls of `stage_drop` since then that were not refused.
    pub drops: u64,
    /// Calls that failed.
    pub faults: u64,
    // The number of the call to refuse, or 0.
    refused: u64,
}

impl<K> Watched<K> {
    /// A keeper that refuses no call.
    pub fn new(inner: K) -> Watched<K> {
        Watched {
            inner,
            calls: 0,
            pieces: 0,
            drops: 0,
            faults: 0,
            refused: 0,
        }
    }

    /// Resets the counters, and refuses the call of this number from now on, counted from 1.
    pub fn refuse(&mut self, call: u64) {
        self.calls = 0;
        self.pieces = 0;
        self.drops = 0;
        self.refused = call;
    }

    // Counts a call, and refuses it if it is the one.
    fn enter(&mut self) -> Result<(), KeepFault>
        ensures kind { IfErr result (λ f. f ≡ KeepFault.Store) }
        ensures count { CountsErrors self.old.faults self.new.faults result }
        ensures inner { self.new.inner ≡ self.old.inner }
    {
        self.calls = self.calls.saturating_add(1);
        if self.calls != self.refused {
            return Ok(());
        }
        self.faults = self.faults.saturating_add(1);
        Err(KeepFault::Store)
    }

    // Returns the inner keeper's answer, and counts an error.
    fn leave<T>(&mut self, outcome: Result<T, KeepFault>) -> Result<T, KeepFault>
        ensures same { result ≡ outcome }
        ensures count { CountsErrors self.old.faults self.new.faults result }
        ensures inner { self.new.inner ≡ self.old.inner }
    {
        if outcome.is_err() {
            self.faults = self.faults.saturating_add(1);
        }
        outcome
    }
}

impl<K: Keeper> Keeper for Watched<K> {
    ghost means = { λ _ _. ⊥ };

    ghost stages = { λ k b. K.stages k.inner b };

    ghost is_honest = { λ _. ⊥ };

    ghost is_open = { λ _. Unit {0} };

    ghost faults = { λ k. k.faults };

    ghost leaves = { λ _ _. ⊥ };

    ghost leaves_whole = { λ _. Unit {0} };

    ghost rests = { λ _ _. ⊥ };

    ghost rests_whole = { λ _. Unit {0} };

    ghost is_alone = { λ k. K.is_alone k.inner };

    ghost gathers = { λ first k. K.gathers first.inner k.inner };

    ghost has_store = { Unit {0} };

    fn settings(&mut self) -> Result<OfficeRow, KeepFault> {
        self.enter()?;
        let outcome = self.inner.settings();
        self.leave(outcome)
    }

    fn key(&mut self, id: &[u8]) -> Result<Option<KeyRow>, KeepFault> {
        self.enter()?;
        let outcome = self.inner.key(id);
        self.leave(outcome)
    }

    fn may_use(&mut self, id: &[u8], in_box: &[u8]) -> Result<bool, KeepFault> {
        self.enter()?;
        let outcome = self.inner.may_use(id, in_box);
        self.leave(outcome)
    }

    fn has_limit(&mut self, id: &[u8], in_box: &[u8]) -> Result<bool, KeepFault> {
        self.enter()?;
        let outcome = self.inner.has_limit(id, in_box);
        self.leave(outcome)
    }

    fn box_row(&mut self, name: &[u8]) -> Result<Option<BoxRow>, KeepFault> {
        self.enter()?;
        let outcome = self.inner.box_row(name);
        self.leave(outcome)
    }

    fn file(&mut self, in_box: &[u8], name: &[u8]) -> Result<Option<FileRow>, KeepFault> {
        self.enter()?;
        let outcome = self.inner.file(in_box, name);
        self.leave(outcome)
    }

    fn file_receipt(
        &mut self,
        in_box: &[u8],
        name: &[u8],
    ) -> Result<Option<ReceiptRow>, KeepFault> {
        self.enter()?;
        let outcome = self.inner.file_receipt(in_box, name);
        self.leave(outcome)
    }

    fn sizes(&mut self, in_box: &[u8]) -> Result<Totals, KeepFault> {
        self.enter()?;
        let outcome = self.inner.sizes(in_box);
        self.leave(outcome)
    }

    fn clerks(&mut self) -> Result<u64, KeepFault> {
        self.enter()?;
        let outcome = self.inner.clerks();
        self.leave(outcome)
    }

    fn next_number(&mut self) -> Result<u64, KeepFault> {
        self.enter()?;
        let outcome = self.inner.next_number();
        self.leave(outcome)
    }

    fn receipts(&mut self, from: u64, most: usize) -> Result<Vec<ReceiptRow>, KeepFault> {
        self.enter()?;
        let outcome = self.inner.receipts(from, most);
        self.leave(outcome)
    }

    fn stage_begin(&mut self) -> Result<(), KeepFault> {
        self.enter()?;
        let outcome = self.inner.stage_begin();
        self.leave(outcome)
    }

    fn stage(&mut self, bytes: &[u8]) -> Result<(), KeepFault> {
        self.pieces = self.pieces.saturating_add(1);
        self.enter()?;
        let outcome = self.inner.stage(bytes);
        self.leave(outcome)
    }

    fn staged_equals(&mut self, in_box: &[u8], name: &[u8]) -> Result<bool, KeepFault> {
        self.enter()?;
        let outcome = self.inner.staged_equals(in_box, name);
        self.leave(outcome)
    }

    fn stage_take(&mut self) -> Vec<u8> {
        self.inner.stage_take()
    }

    fn stage_put(&mut self, bytes: Vec<u8>) {
        self.inner.stage_put(bytes);
    }

    fn stage_drop(&mut self) -> Result<(), KeepFault> {
        self.enter()?;
        self.drops = self.drops.saturating_add(1);
        let outcome = self.inner.stage_drop();
        self.leave(outcome)
    }

    fn apply(&mut self, change: &Change<'_>) -> Result<(), KeepFault> {
        self.enter()?;
        let outcome = self.inner.apply(change);
        self.leave(outcome)
    }

    fn gather(&mut self) {
        self.inner.gather();
    }

    // It is never refused: a group ends in any case.
    fn settle(&mut self) -> Result<(), KeepFault> {
        let outcome = self.inner.settle();
        self.leave(outcome)
    }

    ghost one = { λ k s t honest opened a b. absurd a };

    ghost one_staged = { λ k a b honest opened p q. absurd honest };

    ghost always = { λ none k. absurd (none tt) };

    ghost settled = { λ k alone. record { same = λ t. (λ left. left, λ left. left); whole = (λ whole. whole, λ whole. whole) } };

    ghost lost = { λ store first k s in_group honest meant. absurd honest };
}
