//! A keeper in memory, and its queries.
ghost use Rattle.std.specs.Prelude.{◌≡◌, ℕ, ◌+◌, ◌-◌, ◌≤◌, ◌↔◌, map, take, drop, cond, slice_get, option_map, IsTrue, IfSome, IfOk};
ghost use Rattle.std.specs.FinMap.{get};
ghost use Rattle.sigtext.specs.Counts.{Rose};
ghost use Rattle.boxes.specs.State.{State};
ghost use Rattle.boxes.specs.Sound.{IsSound};
ghost use Rattle.boxes.specs.Clerks.{is_acting};
ghost use Rattle.boxes.specs.Limits.{IsLimitedTo, MayUse};
ghost use Rattle.boxes.specs.Rules.{HasBytes};
ghost use Rattle.boxes.specs.Rows.{key_of, settings_of, receipts_from, numbered_receipt, IsFileAt};
ghost use Rattle.boxes.specs.Views.{AreTotals, IsReceiptAt};
ghost use Rattle.boxes.specs.Changes.{most_receipts};
ghost use Rattle.shelf.specs.Shelves.{Holds, Looks, place_of};

use crate::copies::{copy_box, copy_key, copy_receipt, copy_receipts};
use boxes::{BoxRow, FileRow, KeepFault, KeyRow, OfficeRow, ReceiptRow, Role, Totals};
use std::alloc::{AllocError, Global};
use std::collections::{BTreeMap, BTreeSet};

/// A box and its totals.
#[derive(Drop)]
pub struct ShelvedBox {
    pub row: BoxRow,
    pub totals: Totals,
}

/// A file, and the number of its receipt.
#[derive(Drop)]
pub struct StoredFile {
    pub bytes: Vec<u8>,
    pub number: u64,
}

/// An office in ordered maps. A look-up takes time logarithmic in what is kept. What is returned or set is copied, but the
/// staged bytes are moved into the file that is set.
#[derive(Drop)]
pub struct Shelf {
    pub(crate) office: OfficeRow,
    pub(crate) keys: BTreeMap<Vec<u8>, KeyRow>,
    pub(crate) boxes: BTreeMap<Vec<u8>, ShelvedBox>,
    pub(crate) files: BTreeMap<(Vec<u8>, Vec<u8>), StoredFile>,
    // The boxes that a key is limited to, by the key's id. No set is empty.
    pub(crate) limits: BTreeMap<Vec<u8>, BTreeSet<Vec<u8>>>,
    pub(crate) receipts: Vec<ReceiptRow>,
    // The bytes that are staged.
    pub(crate) staged: Vec<u8>,
    pub(crate) clerks: u64,
    pub(crate) faults: u64,
    pub(crate) alloc: Global,
}

/// Whether there is room for a receipt with this number.
pub fn has_room(next: u64) -> bool
    ensures { IsTrue result ↔ (next ≤ most_receipts) }
{
    next <= MOST_RECEIPTS
}

const MOST_RECEIPTS: u64 = 4_000_000_000;

/// 1 for an unrevoked clerk's key, otherwise 0.
pub(crate) fn acting(key: &KeyRow) -> u64
    ensures { result ≡ cond (is_acting (key_of key.now)) 1 0 }
{
    match key.role {
        Role::Clerk if !key.revoked => 1,
        _ => 0,
    }
}

/// The place of a file: its box and name.
pub(crate) fn new_place(
    alloc: Global,
    in_box: &[u8],
    name: &[u8],
) -> Result<(Vec<u8>, Vec<u8>), AllocError>
    ensures { IfOk result (λ p. place_of p ≡ record { box = in_box.now; name = name.now }) }
{
    Ok((
        Vec::from_slice(alloc, in_box)?,
        Vec::from_slice(alloc, name)?,
    ))
}

/// A copy of a file and its receipt.
fn copy_file(
    alloc: Global,
    stored: &StoredFile,
    receipt: &ReceiptRow,
) -> Result<FileRow, AllocError>
    ensures { IfOk result (λ f. (f.bytes.items ≡ stored.now.bytes.items)
        × (numbered_receipt f.receipt ≡ numbered_receipt receipt.now)) }
{
    Ok(FileRow {
        bytes: Vec::from_slice(alloc, &stored.bytes)?,
        receipt: copy_receipt(alloc, receipt)?,
    })
}

/// The receipt at the position for this number.
fn numbered_of(receipts: &[ReceiptRow], number: u64) -> Option<&ReceiptRow>
    ensures there { IfSome result (λ r. (at : ℕ) × (number ≡ at + 1)
        × (slice_get receipts.now at ≡ Some r.now)) }
{
    if number == 0 {
        return None;
    }
    receipts.get(number as usize - 1)
}

/// The receipts from the position for this number on, at most `most` of them.
fn stretch(receipts: &[ReceiptRow], from: u64, most: usize) -> &[ReceiptRow]
    ensures { result.now ≡ take most (drop (from - 1) receipts.now) }
{
    let before = (from.saturating_sub(1) as usize).min(receipts.len());
    let rest = &receipts[before..];
    let end = most.min(rest.len());
    &rest[..end]
}

impl Shelf {
    /// Counts an error.
    pub(crate) fn count(&mut self) -> KeepFault
        ensures result { result ≡ KeepFault.Memory }
        ensures rose { Rose self.old.faults self.new.faults }
        ensures staged { self.new.staged ≡ self.old.staged }
        ensures same { (s : State) → Holds self.old s → Holds self.new s }
    {
        self.faults = self.faults.saturating_add(1);
        KeepFault::Memory
    }

    /// The key of this id.
    pub(crate) fn find_key(&mut self, id: &[u8]) -> Result<Option<KeyRow>, KeepFault>
        ensures value { (s : State) → Holds self.old s
            → IfOk result (λ k. option_map key_of k ≡ get s.keys id.now) }
        ensures rest { Looks self.old self.new result }
    {
        let Some(key) = self.keys.get(id) else {
            return Ok(None);
        };
        match copy_key(self.alloc, key) {
            Ok(copy) => Ok(Some(copy)),
            Err(_) => Err(self.count()),
        }
    }

    /// Whether the key of this id may use the box of this name.
    pub(crate) fn allows(&self, id: &[u8], in_box: &[u8]) -> bool
        ensures { (s : State) → Holds self.now s → IsTrue result ↔ MayUse s id.now in_box.now }
    {
        match self.limits.get(id) {
            Some(boxes) => boxes.contains(in_box),
            None => true,
        }
    }

    /// Whether this box is one of those that the key of this id is limited to.
    pub(crate) fn is_limited_to(&self, id: &[u8], in_box: &[u8]) -> bool
        ensures { (s : State) → Holds self.now s → IsTrue result ↔ IsLimitedTo s id.now in_box.now }
    {
        let boxes = self.limits.get(id);
        boxes.is_some_and(|own| own.contains(in_box))
    }

    /// The box of this name.
    pub(crate) fn find_box(&mut self, name: &[u8]) -> Result<Option<BoxRow>, KeepFault>
        ensures value { (s : State) → Holds self.old s
            → IfOk result (λ b. option_map settings_of b ≡ get s.boxes name.now) }
        ensures rest { Looks self.old self.new result }
    {
        let Some(shelved) = self.boxes.get(name) else {
            return Ok(None);
        };
        match copy_box(self.alloc, &shelved.row) {
            Ok(copy) => Ok(Some(copy)),
            Err(_) => Err(self.count()),
        }
    }

    /// The file of this box and name.
    pub(crate) fn find_file(
        &mut self,
        in_box: &[u8],
        name: &[u8],
    ) -> Result<Option<FileRow>, KeepFault>
        ensures value { (s : State) → Holds self.old s → IsSound s
            → IfOk result (λ f. IsFileAt s (record { box = in_box.now; name = name.now }) f) }
        ensures rest { Looks self.old self.new result }
    {
        let Ok(place) = new_place(self.alloc, in_box, name) else {
            return Err(self.count());
        };
        let Some(stored) = self.files.get(&place) else {
            return Ok(None);
        };
        let Some(receipt) = numbered_of(&self.receipts, stored.number) else {
            return Err(self.count());
        };
        match copy_file(self.alloc, stored, receipt) {
            Ok(copy) => Ok(Some(copy)),
            Err(_) => Err(self.count()),
        }
    }

    /// The receipt of the file of this box and name.
    pub(crate) fn find_file_receipt(
        &mut self,
        in_box: &[u8],
        name: &[u8],
    ) -> Result<Option<ReceiptRow>, KeepFault>
        ensures value { (s : State) → Holds self.old s → IsSound s
            → IfOk result (IsReceiptAt s (record { box = in_box.now; name = name.now })) }
        ensures rest { Looks self.old self.new result }
    {
        let Ok(place) = new_place(self.alloc, in_box, name) else {
            return Err(self.count());
        };
        let Some(stored) = self.files.get(&place) else {
            return Ok(None);
        };
        let Some(receipt) = numbered_of(&self.receipts, stored.number) else {
            return Err(self.count());
        };
        match copy_receipt(self.alloc, receipt) {
            Ok(copy) => Ok(Some(copy)),
            Err(_) => Err(self.count()),
        }
    }

    /// Whether the file of this box and name has the bytes that are staged.
    pub(crate) fn has_staged(&mut self, in_box: &[u8], name: &[u8]) -> Result<bool, KeepFault>
        ensures value { (s : State) → Holds self.old s
            → IfOk result (λ b. IsTrue b ↔ HasBytes s (record { box = in_box.now; name = name.now })
            self.old.staged.items) }
        ensures rest { Looks self.old self.new result }
    {
        let Ok(place) = new_place(self.alloc, in_box, name) else {
            return Err(self.count());
        };
        let Some(stored) = self.files.get(&place) else {
            return Ok(false);
        };
        Ok(stored.bytes.as_slice() == self.staged.as_slice())
    }

    /// The totals of the box of this name.
    pub(crate) fn totals_of(&self, in_box: &[u8]) -> Totals
        ensures { (s : State) → Holds self.now s → IsSound s → AreTotals s in_box.now result }
    {
        match self.boxes.get(in_box) {
            Some(shelved) => shelved.totals,
            None => Totals { used: 0, count: 0 },
        }
    }

    /// The receipts numbered `from` or more, at most `most`.
    pub(crate) fn find_receipts(
        &mut self,
        from: u64,
        most: usize,
    ) -> Result<Vec<ReceiptRow>, KeepFault>
        ensures value { (s : State) → Holds self.old s
            → IfOk result (λ rs. map numbered_receipt rs.items ≡ receipts_from s from most) }
        ensures rest { Looks self.old self.new result }
    {
        match copy_receipts(self.alloc, stretch(&self.receipts, from, most)) {
            Ok(copies) => Ok(copies),
            Err(_) => Err(self.count()),
        }
    }
}
