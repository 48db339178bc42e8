//! The keeper in memory implements the trait.
ghost use Rattle.std.specs.Prelude.{◌≡◌, [], pos, neg_ℤ, ◌≤ℤ◌, IfOk, IfErr};
ghost use Rattle.sigv4.specs.Credential.{IsKeyId, IsSecret};
ghost use Rattle.boxes.specs.FirstState.{first_state};
ghost use Rattle.boxes.specs.Sound.{IsSound};
ghost use Rattle.shelf.specs.Shelves.{Holds};
ghost use Rattle.shelf.specs.OneState.{one_state, one_text};

use crate::shelf::Shelf;
use crate::shelving::new_key;
use boxes::{
    BoxRow, Change, FileRow, KeepFault, Keeper, KeyRow, OfficeRow, ReceiptRow, Role, Totals,
};
use std::alloc::Global;
use std::collections::BTreeMap;
use std::mem;

impl Keeper for Shelf {
    ghost means = { Holds };

    ghost stages = { λ k b. k.staged.items ≡ b };

    ghost is_honest = { λ _. Unit {0} };

    ghost is_open = { λ _. Unit {0} };

    ghost faults = { λ k. k.faults };

    ghost leaves = { Holds };

    ghost leaves_whole = { λ _. Unit {0} };

    ghost rests = { Holds };

    ghost rests_whole = { λ _. Unit {0} };

    ghost is_alone = { λ _. Unit {0} };

    ghost gathers = { λ _ _. Unit {0} };

    ghost has_store = { ⊥ };

    fn settings(&mut self) -> Result<OfficeRow, KeepFault> {
        Ok(self.office)
    }

    fn key(&mut self, id: &[u8]) -> Result<Option<KeyRow>, KeepFault> {
        self.find_key(id)
    }

    fn may_use(&mut self, id: &[u8], in_box: &[u8]) -> Result<bool, KeepFault> {
        Ok(self.allows(id, in_box))
    }

    fn has_limit(&mut self, id: &[u8], in_box: &[u8]) -> Result<bool, KeepFault> {
        Ok(self.is_limited_to(id, in_box))
    }

    fn box_row(&mut self, name: &[u8]) -> Result<Option<BoxRow>, KeepFault> {
        self.find_box(name)
    }

    fn file(&mut self, in_box: &[u8], name: &[u8]) -> Result<Option<FileRow>, KeepFault> {
        self.find_file(in_box, name)
    }

    fn file_receipt(
        &mut self,
        in_box: &[u8],
        name: &[u8],
    ) -> Result<Option<ReceiptRow>, KeepFault> {
        self.find_file_receipt(in_box, name)
    }

    fn sizes(&mut self, in_box: &[u8]) -> Result<Totals, KeepFault> {
        Ok(self.totals_of(in_box))
    }

    fn clerks(&mut self) -> Result<u64, KeepFault> {
        Ok(self.clerks)
    }

    fn next_number(&mut self) -> Result<u64, KeepFault> {
        Ok(self.receipts.as_slice().len() as u64 + 1)
    }

    fn receipts(&mut self, from: u64, most: usize) -> Result<Vec<ReceiptRow>, KeepFault> {
        self.find_receipts(from, most)
    }

    fn stage_begin(&mut self) -> Result<(), KeepFault> {
        self.staged = Vec::new(self.alloc);
        Ok(())
    }

    fn stage(&mut self, bytes: &[u8]) -> Result<(), KeepFault> {
        match self.staged.extend_from_slice(bytes) {
            Ok(()) => Ok(()),
            Err(_) => Err(self.count()),
        }
    }

    fn staged_equals(&mut self, in_box: &[u8], name: &[u8]) -> Result<bool, KeepFault> {
        self.has_staged(in_box, name)
    }

    fn stage_take(&mut self) -> Vec<u8> {
        mem::replace(&mut self.staged, Vec::new(self.alloc))
    }

    fn stage_put(&mut self, bytes: Vec<u8>) {
        self.staged = bytes;
    }

    fn stage_drop(&mut self) -> Result<(), KeepFault> {
        self.staged = Vec::new(self.alloc);
        Ok(())
    }

    fn apply(&mut self, change: &Change<'_>) -> Result<(), KeepFault> {
        match change {
            Change::SetFile(file) => self.set_staged(file),
            Change::Desk(command) => self.obey(command),
        }
    }

    fn gather(&mut self) {}

    fn settle(&mut self) -> Result<(), KeepFault> {
        Ok(())
    }

    ghost one = { λ k s t honest opened a b. one_state k s t a b };

    ghost one_staged = { λ k a b honest opened x y. one_text k a b x y };

    ghost always = { λ none k. (tt, tt) };

    ghost settled = { λ k alone. record { same = λ t. (λ left. left, λ left. left); whole = (λ whole. whole, λ whole. whole) } };

    ghost lost = { λ store. absurd store };
}

impl Shelf {
    /// The keeper of a new office, with one clerk's key that has this id and secret.
    ///
    /// # Errors
    ///
    /// `Memory` if memory was refused.
    pub fn new(
        alloc: Global,
        office: OfficeRow,
        id: &[u8],
        secret: &[u8],
    ) -> Result<Shelf, KeepFault>
        ensures means { IfOk result (λ k. ⟦<Shelf as Keeper>⟧.means k
            (first_state office.east office.allowance id.now secret.now)) }
        ensures sound { neg_ℤ (pos 840) ≤ℤ office.east → office.east ≤ℤ pos 840 → IsKeyId id.now
            → IsSecret secret.now
            → IsSound (first_state office.east office.allowance id.now secret.now) }
        ensures honest { IfOk result ⟦<Shelf as Keeper>⟧.is_honest }
        ensures opened { IfOk result ⟦<Shelf as Keeper>⟧.is_open }
        ensures staged { IfOk result (λ k. ⟦<Shelf as Keeper>⟧.stages k []) }
        ensures none { IfOk result (λ k. ⟦<Shelf as Keeper>⟧.faults k ≡ 0) }
        ensures no_store { ⟦<Shelf as Keeper>⟧.has_store → ⊥ }
        ensures fault { IfErr result (λ f. f ≡ KeepFault.Memory) }
    {
        // The contract of this call gives the greatest value of an allowance.
        let _ = office.allowance.seconds();
        let Ok((id, row)) = new_key(alloc, id, Role::Clerk, secret) else {
            return Err(KeepFault::Memory);
        };
        let mut keys = BTreeMap::new(alloc);
        match keys.insert(id, row) {
            Ok(_) => Ok(Shelf {
                office,
                keys,
                boxes: BTreeMap::new(alloc),
                files: BTreeMap::new(alloc),
                limits: BTreeMap::new(alloc),
                receipts: Vec::new(alloc),
                staged: Vec::new(alloc),
                clerks: 1,
                faults: 0,
                alloc,
            }),
            Err(_) => Err(KeepFault::Memory),
        }
    }
}
