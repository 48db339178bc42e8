//! `CachedKeeper` implements `Keeper`.
ghost use Rattle.boxes.specs.Sound.{IsSound};
ghost use Rattle.shelf.specs.Recalled.{Recalls};

use crate::cached_keeper::{CachedKeeper, or_forget};
use boxes::{BoxRow, Change, FileRow, KeepFault, Keeper, KeyRow, OfficeRow, ReceiptRow, Totals};

impl<K: Keeper> Keeper for CachedKeeper<K> {
    ghost means = { λ c s. K.means c.keeper s
        × (K.is_honest c.keeper → IsSound s → Recalls c.cache s) };

    ghost stages = { λ c bytes. K.stages c.keeper bytes };

    ghost is_honest = { λ c. K.is_honest c.keeper };

    ghost is_open = { λ c. K.is_open c.keeper };

    ghost faults = { λ c. K.faults c.keeper };

    ghost leaves = { λ c s. K.leaves c.keeper s };

    ghost leaves_whole = { λ c. K.leaves_whole c.keeper };

    ghost rests = { λ c s. K.rests c.keeper s };

    ghost rests_whole = { λ c. K.rests_whole c.keeper };

    ghost is_alone = { λ c. K.is_alone c.keeper };

    ghost gathers = { λ first c. K.gathers first.keeper c.keeper };

    ghost has_store = { K.has_store };

    fn settings(&mut self) -> Result<OfficeRow, KeepFault> {
        if let Some(office) = self.cache.office() {
            return Ok(office);
        }
        let office = or_forget(&mut self.cache, self.keeper.settings())?;
        self.cache.keep_office(&office);
        Ok(office)
    }

    fn key(&mut self, id: &[u8]) -> Result<Option<KeyRow>, KeepFault> {
        if let Some(key) = self.cache.key(id) {
            return Ok(Some(key));
        }
        let key = or_forget(&mut self.cache, self.keeper.key(id))?;
        self.cache.keep_key(id, &key);
        Ok(key)
    }

    fn may_use(&mut self, id: &[u8], in_box: &[u8]) -> Result<bool, KeepFault> {
        if self.cache.knows_use(id, in_box) {
            return Ok(true);
        }
        let answer = or_forget(&mut self.cache, self.keeper.may_use(id, in_box));
        self.cache.keep_use(id, in_box, &answer);
        answer
    }

    fn has_limit(&mut self, id: &[u8], in_box: &[u8]) -> Result<bool, KeepFault> {
        or_forget(&mut self.cache, self.keeper.has_limit(id, in_box))
    }

    fn box_row(&mut self, name: &[u8]) -> Result<Option<BoxRow>, KeepFault> {
        if let Some(row) = self.cache.box_row(name) {
            return Ok(Some(row));
        }
        let row = or_forget(&mut self.cache, self.keeper.box_row(name))?;
        self.cache.keep_box(name, &row);
        Ok(row)
    }

    fn file(&mut self, in_box: &[u8], name: &[u8]) -> Result<Option<FileRow>, KeepFault> {
        or_forget(&mut self.cache, self.keeper.file(in_box, name))
    }

    fn file_receipt(
        &mut self,
        in_box: &[u8],
        name: &[u8],
    ) -> Result<Option<ReceiptRow>, KeepFault> {
        let receipt = or_forget(&mut self.cache, self.keeper.file_receipt(in_box, name))?;
        self.cache.keep_size(in_box, name, &receipt);
        Ok(receipt)
    }

    fn sizes(&mut self, in_box: &[u8]) -> Result<Totals, KeepFault> {
        if let Some(totals) = self.cache.totals(in_box) {
            return Ok(totals);
        }
        let totals = or_forget(&mut self.cache, self.keeper.sizes(in_box))?;
        self.cache.keep_totals(in_box, totals);
        Ok(totals)
    }

    fn clerks(&mut self) -> Result<u64, KeepFault> {
        or_forget(&mut self.cache, self.keeper.clerks())
    }

    fn next_number(&mut self) -> Result<u64, KeepFault> {
        if let Some(number) = self.cache.next_number() {
            return Ok(number);
        }
        let number = or_forget(&mut self.cache, self.keeper.next_number())?;
        self.cache.keep_next_number(number);
        Ok(number)
    }

    fn receipts(&mut self, from: u64, most: usize) -> Result<Vec<ReceiptRow>, KeepFault> {
        or_forget(&mut self.cache, self.keeper.receipts(from, most))
    }

    fn stage_begin(&mut self) -> Result<(), KeepFault> {
        or_forget(&mut self.cache, self.keeper.stage_begin())
    }

    fn stage(&mut self, bytes: &[u8]) -> Result<(), KeepFault> {
        or_forget(&mut self.cache, self.keeper.stage(bytes))
    }

    fn staged_equals(&mut self, in_box: &[u8], name: &[u8]) -> Result<bool, KeepFault> {
        or_forget(&mut self.cache, self.keeper.staged_equals(in_box, name))
    }

    fn stage_take(&mut self) -> Vec<u8> {
        self.keeper.stage_take()
    }

    fn stage_put(&mut self, bytes: Vec<u8>) {
        self.keeper.stage_put(bytes);
    }

    fn stage_drop(&mut self) -> Result<(), KeepFault> {
        or_forget(&mut self.cache, self.keeper.stage_drop())
    }

    fn apply(&mut self, change: &Change<'_>) -> Result<(), KeepFault> {
        self.cache.follow(change);
        or_forget(&mut self.cache, self.keeper.apply(change))
    }

    fn gather(&mut self) {
        self.keeper.gather();
    }

    fn settle(&mut self) -> Result<(), KeepFault> {
        or_forget(&mut self.cache, self.keeper.settle())
    }

    ghost one = { λ c s t honest opened a b. K.one c.keeper s t honest opened a.0 b.0 };

    ghost one_staged = { λ c a b honest opened x y. K.one_staged c.keeper a b honest opened x y };

    ghost always = { λ none c. K.always none c.keeper };

    ghost settled = { λ c alone. let it = K.settled c.keeper alone in record { same = it.same; whole = it.whole } };

    ghost lost = { λ store first c s in_group honest meant. let it = K.lost store first.keeper c.keeper s in_group honest meant.0 in record { either = it.either; whole = it.whole } };
}
