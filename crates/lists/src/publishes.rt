//! `Publisher` implements `Keeper`.
ghost use Rattle.std.specs.Prelude.{◌≡◌, IsTrue, None};
ghost use Rattle.boxes.specs.Sound.{IsSound};
ghost use Rattle.lists.specs.Published.{HoldsSince, IsBegun, IsPublished, with_held};

use crate::publisher::Publisher;
use crate::sheet::Sheet;
use boxes::{BoxRow, Change, FileRow, KeepFault, Keeper, KeyRow, OfficeRow, ReceiptRow, Totals};
use std::io::Write;

impl<K: Keeper, S: Sheet + Drop, E: Write + Drop> Keeper for Publisher<K, S, E> {
    ghost means = { λ p s. K.means p.keeper s
        × (K.is_honest p.keeper → IsSound s → IsBegun s (S.text p.sheet)
        × (IsTrue p.is_whole → IsPublished s (with_held p.held (S.text p.sheet)))) };

    ghost stages = { λ p bytes. K.stages p.keeper bytes };

    ghost is_honest = { λ p. K.is_honest p.keeper };

    ghost is_open = { λ p. K.is_open p.keeper };

    ghost faults = { λ p. K.faults p.keeper };

    ghost leaves = { λ p s. K.leaves p.keeper s };

    ghost leaves_whole = { λ p. K.leaves_whole p.keeper };

    ghost rests = { λ p s. K.rests p.keeper s };

    ghost rests_whole = { λ p. K.rests_whole p.keeper };

    ghost is_alone = { λ p. K.is_alone p.keeper × (p.held ≡ None) };

    ghost gathers = { λ first p. HoldsSince K.Keeper first p };

    ghost has_store = { K.has_store };

    fn settings(&mut self) -> Result<OfficeRow, KeepFault> {
        self.keeper.settings()
    }

    fn key(&mut self, id: &[u8]) -> Result<Option<KeyRow>, KeepFault> {
        self.keeper.key(id)
    }

    fn may_use(&mut self, id: &[u8], in_box: &[u8]) -> Result<bool, KeepFault> {
        self.keeper.may_use(id, in_box)
    }

    fn has_limit(&mut self, id: &[u8], in_box: &[u8]) -> Result<bool, KeepFault> {
        self.keeper.has_limit(id, in_box)
    }

    fn box_row(&mut self, name: &[u8]) -> Result<Option<BoxRow>, KeepFault> {
        self.keeper.box_row(name)
    }

    fn file(&mut self, in_box: &[u8], name: &[u8]) -> Result<Option<FileRow>, KeepFault> {
        self.keeper.file(in_box, name)
    }

    fn file_receipt(
        &mut self,
        in_box: &[u8],
        name: &[u8],
    ) -> Result<Option<ReceiptRow>, KeepFault> {
        self.keeper.file_receipt(in_box, name)
    }

    fn sizes(&mut self, in_box: &[u8]) -> Result<Totals, KeepFault> {
        self.keeper.sizes(in_box)
    }

    fn clerks(&mut self) -> Result<u64, KeepFault> {
        self.keeper.clerks()
    }

    fn next_number(&mut self) -> Result<u64, KeepFault> {
        self.keeper.next_number()
    }

    fn receipts(&mut self, from: u64, most: usize) -> Result<Vec<ReceiptRow>, KeepFault> {
        self.keeper.receipts(from, most)
    }

    fn stage_begin(&mut self) -> Result<(), KeepFault> {
        self.keeper.stage_begin()
    }

    fn stage(&mut self, bytes: &[u8]) -> Result<(), KeepFault> {
        self.keeper.stage(bytes)
    }

    fn staged_equals(&mut self, in_box: &[u8], name: &[u8]) -> Result<bool, KeepFault> {
        self.keeper.staged_equals(in_box, name)
    }

    fn stage_take(&mut self) -> Vec<u8> {
        self.keeper.stage_take()
    }

    fn stage_put(&mut self, bytes: Vec<u8>) {
        self.keeper.stage_put(bytes);
    }

    fn stage_drop(&mut self) -> Result<(), KeepFault> {
        self.keeper.stage_drop()
    }

    fn apply(&mut self, change: &Change<'_>) -> Result<(), KeepFault> {
        let done = self.keeper.apply(change);
        if done.is_ok() {
            self.note(change);
        }
        done
    }

    fn gather(&mut self) {
        self.keeper.gather();
        if self.held.is_none() {
            self.held = Some(Vec::new(self.alloc));
        }
    }

    fn settle(&mut self) -> Result<(), KeepFault> {
        let done = self.keeper.settle();
        let held = self.held.take();
        if done.is_ok() {
            self.put_held(held);
        }
        done
    }

    ghost one = { λ p s t honest opened a b. K.one p.keeper s t honest opened a.0 b.0 };

    ghost one_staged = { λ p a b honest opened x y. K.one_staged p.keeper a b honest opened x y };

    ghost always = { λ none p. K.always none p.keeper };

    ghost settled = { λ p alone. let it = K.settled p.keeper alone.0 in record { same = it.same; whole = it.whole } };

    ghost lost = { λ store first p s in_group honest meant. let it = K.lost store first.keeper p.keeper s in_group.inner honest meant.0 in record { either = it.either; whole = it.whole } };
}
