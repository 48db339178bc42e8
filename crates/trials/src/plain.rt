//! A keeper whose calls promise nothing. A test compares their answers itself, and its proof is short.
ghost use Rattle.std.specs.Prelude.{◌≤◌, length};

use boxes::{BoxRow, Change, FileRow, KeepFault, Keeper, KeyRow, OfficeRow, ReceiptRow, Totals};

/// Passes each call on.
#[derive(Drop)]
pub struct Plain<K> {
    pub inner: K,
}

impl<K: Keeper> Plain<K> {
    /// See `Keeper::settings`.
    pub fn settings(&mut self) -> Result<OfficeRow, KeepFault> {
        self.inner.settings()
    }

    /// See `Keeper::key`.
    pub fn key(&mut self, id: &[u8]) -> Result<Option<KeyRow>, KeepFault> {
        self.inner.key(id)
    }

    /// See `Keeper::may_use`.
    pub fn may_use(&mut self, id: &[u8], in_box: &[u8]) -> Result<bool, KeepFault> {
        self.inner.may_use(id, in_box)
    }

    /// See `Keeper::has_limit`.
    pub fn has_limit(&mut self, id: &[u8], in_box: &[u8]) -> Result<bool, KeepFault> {
        self.inner.has_limit(id, in_box)
    }

    /// See `Keeper::box_row`.
    pub fn box_row(&mut self, name: &[u8]) -> Result<Option<BoxRow>, KeepFault> {
        self.inner.box_row(name)
    }

    /// See `Keeper::file`.
    pub fn file(&mut self, in_box: &[u8], name: &[u8]) -> Result<Option<FileRow>, KeepFault> {
        self.inner.file(in_box, name)
    }

    /// See `Keeper::file_receipt`.
    pub fn file_receipt(
        &mut self,
        in_box: &[u8],
        name: &[u8],
    ) -> Result<Option<ReceiptRow>, KeepFault> {
        self.inner.file_receipt(in_box, name)
    }

    /// See `Keeper::sizes`.
    pub fn sizes(&mut self, in_box: &[u8]) -> Result<Totals, KeepFault> {
        self.inner.sizes(in_box)
    }

    /// See `Keeper::clerks`.
    pub fn clerks(&mut self) -> Result<u64, KeepFault> {
        self.inner.clerks()
    }

    /// See `Keeper::next_number`.
    pub fn next_number(&mut self) -> Result<u64, KeepFault> {
        self.inner.next_number()
    }

    /// See `Keeper::receipts`.
    pub fn receipts(&mut self, from: u64, most: usize) -> Result<Vec<ReceiptRow>, KeepFault> {
        self.inner.receipts(from, most)
    }

    /// See `Keeper::stage_begin`.
    pub fn stage_begin(&mut self) -> Result<(), KeepFault> {
        self.inner.stage_begin()
    }

    /// See `Keeper::stage`.
    pub fn stage(&mut self, bytes: &[u8]) -> Result<(), KeepFault>
        requires some { 1 ≤ length bytes.now }
        requires short { length bytes.now ≤ 65536 }
    {
        self.inner.stage(bytes)
    }

    /// See `Keeper::staged_equals`.
    pub fn staged_equals(&mut self, in_box: &[u8], name: &[u8]) -> Result<bool, KeepFault> {
        self.inner.staged_equals(in_box, name)
    }

    /// See `Keeper::stage_drop`.
    pub fn stage_drop(&mut self) -> Result<(), KeepFault> {
        self.inner.stage_drop()
    }

    /// See `Keeper::apply`.
    pub fn apply(&mut self, change: &Change<'_>) -> Result<(), KeepFault> {
        self.inner.apply(change)
    }
}
