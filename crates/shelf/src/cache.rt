//! The cached answers about an office.
ghost use Rattle.std.specs.Prelude.{◌≡◌, ◌⊎◌, ◌↔◌, ◌+◌, ℕ, List, [], None, Some, length, option_map, IfOk, IfSome, IsTrue};
ghost use Rattle.std.specs.FinMap.{get};
ghost use Rattle.boxes.specs.Limits.{MayUse};
ghost use Rattle.boxes.specs.Rows.{IsOfficeOf, key_of, settings_of};
ghost use Rattle.boxes.specs.State.{State};
ghost use Rattle.boxes.specs.Views.{AreTotals};
ghost use Rattle.shelf.specs.Shelves.{has_box};
ghost use Rattle.shelf.specs.Recalled.{IsPart, IsPut, HasTotals, Recalls, RecallsBoxes, RecallsKeys};

use crate::copies::{copy_box, copy_key};
use crate::last_size::LastSize;
use boxes::{BoxRow, KeepFault, KeyRow, OfficeRow, Totals};
use std::alloc::{AllocError, Global};
use std::collections::{BTreeMap, BTreeSet};

/// The most cached keys, and the most cached boxes. A full map is emptied before the next entry is added.
const MOST_KEPT: usize = 8192;

/// The most cached boxes per key. For any other box the inner keeper is asked each time.
const MOST_USES: usize = 16;

/// A key, and boxes that it may use.
#[derive(Drop)]
pub struct CachedKey {
    pub(crate) row: KeyRow,
    pub(crate) uses: BTreeSet<Vec<u8>>,
}

/// A box, and its totals if they are known.
#[derive(Drop)]
pub struct CachedBox {
    pub(crate) row: BoxRow,
    pub(crate) totals: Option<Totals>,
}

/// Keys by their ids.
pub(crate) type Keys = BTreeMap<Vec<u8>, CachedKey>;

/// Boxes by their names.
pub(crate) type Boxes = BTreeMap<Vec<u8>, CachedBox>;

/// The cached answers about an office. A missing entry was never asked for, or was forgotten.
#[derive(Drop)]
pub struct Cache {
    pub(crate) office: Option<OfficeRow>,
    pub(crate) next_number: Option<u64>,
    pub(crate) keys: Keys,
    pub(crate) boxes: Boxes,
    pub(crate) last_size: Option<LastSize>,
    pub(crate) alloc: Global,
}

/// A key without known boxes.
fn new_key(alloc: Global, id: &[u8], row: &KeyRow) -> Result<(Vec<u8>, CachedKey), AllocError>
    ensures { IfOk result (λ k. (k.0.items ≡ id.now) × (key_of k.1.row ≡ key_of row.now)
        × (k.1.uses.keys ≡ [])) }
{
    Ok((
        Vec::from_slice(alloc, id)?,
        CachedKey {
            row: copy_key(alloc, row)?,
            uses: BTreeSet::new(alloc),
        },
    ))
}

/// A box without known totals.
fn new_box(alloc: Global, name: &[u8], row: &BoxRow) -> Result<(Vec<u8>, CachedBox), AllocError>
    ensures { IfOk result (λ b. (b.0.items ≡ name.now) × (settings_of b.1.row ≡ settings_of row.now)
        × (b.1.totals ≡ None)) }
{
    Ok((
        Vec::from_slice(alloc, name)?,
        CachedBox {
            row: copy_box(alloc, row)?,
            totals: None,
        },
    ))
}

/// Empties a map that is full.
fn make_room<X: Drop>(alloc: Global, kept: &mut BTreeMap<Vec<u8>, X>)
    ensures { IsPart kept.old.entries kept.new.entries }
{
    if kept.len() >= MOST_KEPT {
        *kept = BTreeMap::new(alloc);
    }
}

/// Inserts a value under a name. Without memory the map stays as it is: the inner keeper is asked again.
fn put<X: Drop>(kept: &mut BTreeMap<Vec<u8>, X>, name: Vec<u8>, known: X)
    ensures { IsPut name.items known kept.old.entries kept.new.entries }
{
    let _ = kept.insert(name, known);
}

/// Inserts a key, if there is memory.
fn put_key(alloc: Global, keys: &mut Keys, id: &[u8], row: &KeyRow)
    ensures { (s : State) → RecallsKeys s keys.old.entries → get s.keys id.now ≡ Some (key_of row.now)
        → RecallsKeys s keys.new.entries }
{
    make_room(alloc, keys);
    if let Ok((id, known)) = new_key(alloc, id, row) {
        put(keys, id, known);
    }
}

/// Inserts a box, if there is memory.
fn put_box(alloc: Global, boxes: &mut Boxes, name: &[u8], row: &BoxRow)
    ensures { (s : State) → RecallsBoxes s boxes.old.entries
        → get s.boxes name.now ≡ Some (settings_of row.now) → RecallsBoxes s boxes.new.entries }
{
    make_room(alloc, boxes);
    if let Ok((name, known)) = new_box(alloc, name, row) {
        put(boxes, name, known);
    }
}

/// Adds a box to a key's set, if there is room and memory.
fn add_use(alloc: Global, uses: &mut BTreeSet<Vec<u8>>, in_box: &[u8])
    ensures { (box : List ℕ) → IsTrue (has_box uses.new box)
        → IsTrue (has_box uses.old box) ⊎ (box ≡ in_box.now) }
{
    if uses.len() >= MOST_USES {
        return;
    }
    if let Ok(name) = Vec::from_slice(alloc, in_box) {
        let _ = uses.insert(name);
    }
}

/// Adds a box that the key of this id may use, if the key is cached and there is memory.
fn put_use(alloc: Global, keys: &mut Keys, id: &[u8], in_box: &[u8])
    ensures { (s : State) → RecallsKeys s keys.old.entries → MayUse s id.now in_box.now
        → RecallsKeys s keys.new.entries }
{
    if let Some(known) = keys.get_mut(id) {
        add_use(alloc, &mut known.uses, in_box);
    }
}

/// Sets the known totals of the box of this name, if the box is cached.
pub(crate) fn set_totals(boxes: &mut Boxes, name: &[u8], totals: Option<Totals>)
    ensures { HasTotals name.now totals boxes.old.entries boxes.new.entries }
{
    if let Some(known) = boxes.get_mut(name) {
        known.totals = totals;
    }
}

impl Cache {
    /// An empty cache.
    pub(crate) fn new(alloc: Global) -> Cache
        ensures { (s : State) → Recalls result s }
    {
        Cache {
            office: None,
            next_number: None,
            keys: BTreeMap::new(alloc),
            boxes: BTreeMap::new(alloc),
            last_size: None,
            alloc,
        }
    }

    /// The office's settings, if cached.
    pub(crate) fn office(&self) -> Option<OfficeRow>
        ensures { (s : State) → Recalls self.now s → IfSome result (IsOfficeOf s) }
    {
        self.office
    }

    /// The number of the next receipt, if cached.
    pub(crate) fn next_number(&self) -> Option<u64>
        ensures { (s : State) → Recalls self.now s
            → IfSome result (λ n. n ≡ length s.receipts + 1) }
    {
        self.next_number
    }

    /// The key of this id, if cached. `None` also if there is no memory for the copy.
    pub(crate) fn key(&self, id: &[u8]) -> Option<KeyRow>
        ensures { (s : State) → Recalls self.now s
            → IfSome result (λ k. get s.keys id.now ≡ Some (key_of k)) }
    {
        match self.keys.get(id) {
            Some(known) => copy_key(self.alloc, &known.row).ok(),
            None => None,
        }
    }

    /// Whether the key of this id is known to be allowed to use this box.
    pub(crate) fn knows_use(&self, id: &[u8], in_box: &[u8]) -> bool
        ensures { (s : State) → Recalls self.now s → IsTrue result → MayUse s id.now in_box.now }
    {
        match self.keys.get(id) {
            Some(known) => known.uses.contains(in_box),
            None => false,
        }
    }

    /// The box of this name, if cached. `None` also if there is no memory for the copy.
    pub(crate) fn box_row(&self, name: &[u8]) -> Option<BoxRow>
        ensures { (s : State) → Recalls self.now s
            → IfSome result (λ b. get s.boxes name.now ≡ Some (settings_of b)) }
    {
        match self.boxes.get(name) {
            Some(known) => copy_box(self.alloc, &known.row).ok(),
            None => None,
        }
    }

    /// The totals of the box of this name, if cached.
    pub(crate) fn totals(&self, name: &[u8]) -> Option<Totals>
        ensures { (s : State) → Recalls self.now s → IfSome result (AreTotals s name.now) }
    {
        self.boxes.get(name)?.totals
    }

    /// Caches the office's settings.
    pub(crate) fn keep_office(&mut self, office: &OfficeRow)
        ensures { (s : State) → Recalls self.old s → IsOfficeOf s office.now → Recalls self.new s }
    {
        self.office = Some(*office);
    }

    /// Caches the number of the next receipt.
    pub(crate) fn keep_next_number(&mut self, number: u64)
        ensures { (s : State) → Recalls self.old s → number ≡ length s.receipts + 1
            → Recalls self.new s }
    {
        self.next_number = Some(number);
    }

    /// Caches the key, if there is one.
    pub(crate) fn keep_key(&mut self, id: &[u8], key: &Option<KeyRow>)
        ensures { (s : State) → Recalls self.old s → option_map key_of key.now ≡ get s.keys id.now
            → Recalls self.new s }
    {
        if let Some(row) = key {
            put_key(self.alloc, &mut self.keys, id, row);
        }
    }

    /// Caches the box, if there is one.
    pub(crate) fn keep_box(&mut self, name: &[u8], in_box: &Option<BoxRow>)
        ensures { (s : State) → Recalls self.old s
            → option_map settings_of in_box.now ≡ get s.boxes name.now → Recalls self.new s }
    {
        if let Some(row) = in_box {
            put_box(self.alloc, &mut self.boxes, name, row);
        }
    }

    /// Caches that the key of this id may use this box, if the answer says so.
    pub(crate) fn keep_use(&mut self, id: &[u8], in_box: &[u8], answer: &Result<bool, KeepFault>)
        ensures { (s : State) → Recalls self.old s
            → IfOk answer.now (λ may. IsTrue may ↔ MayUse s id.now in_box.now)
            → Recalls self.new s }
    {
        if let Ok(may) = answer {
            if *may {
                put_use(self.alloc, &mut self.keys, id, in_box);
            }
        }
    }

    /// Caches the totals of the box of this name, if the box is cached.
    pub(crate) fn keep_totals(&mut self, name: &[u8], totals: Totals)
        ensures { (s : State) → Recalls self.old s → AreTotals s name.now totals
            → Recalls self.new s }
    {
        set_totals(&mut self.boxes, name, Some(totals));
    }
}
