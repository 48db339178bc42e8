//! A keeper that adds each receipt to a manifest.
ghost use Rattle.std.specs.Prelude.{◌≡◌, ◌↔◌, ◌≤◌, ◌⊎◌, ℕ, List, [], ◌∷◌, Some, None, IfOk, IsFalse, IsSome, IsTrue, false, ⊤, Result};
ghost use Rattle.boxes.specs.Changes.{MayChange};
ghost use Rattle.boxes.specs.Rows.{numbered_receipt};
ghost use Rattle.boxes.specs.Sound.{IsMoment, IsSound};
ghost use Rattle.boxes.specs.State.{State};
ghost use Rattle.boxes.specs.Bound.{StaysBy};
ghost use Rattle.boxes.specs.Keeping.{KeepsStaged};
ghost use Rattle.shelf.specs.Shelves.{set_receipt};
ghost use Rattle.boxes.specs.declared.keep.KeepFault.{KeepFault};
ghost use Rattle.lists.specs.Lists.{by_keeper, AreLines};
ghost use Rattle.lists.specs.Manifests.{IsReceiptLine};
ghost use Rattle.lists.specs.Published.{Adds, AddsAll, HoldsNoLine, IsBegun, IsBlank, IsPublished, with_held};

use crate::list_fault::ListFault;
use crate::manifests::{manifest, receipts_text};
use crate::sheet::Sheet;
use boxes::{Change, Keeper, NewFile, ReceiptRow};
use std::alloc::{AllocError, Global};
use std::io::Write;
use wire::Counted;

/// Passes each call on to a keeper, and adds the receipt of each upload to a manifest on a sheet. The receipts of a group are
/// added when it is settled. If the sheet fails, one line on `err` says so, and the keeper goes on without the manifest.
#[derive(Drop)]
pub struct Publisher<K, S: Drop, E: Drop> {
    pub(crate) keeper: K,
    pub(crate) sheet: S,
    pub(crate) err: E,
    // Whether the manifest is complete so far: on the sheet, and in what is held.
    pub(crate) is_whole: bool,
    // The lines of the group's receipts, which are not on the sheet yet. None outside a group.
    pub(crate) held: Option<Vec<u8>>,
    pub(crate) alloc: Global,
}

impl<K: Keeper, S: Sheet + Drop, E: Write + Drop> Publisher<K, S, E> {
    /// Writes the manifest of the keeper's office to an empty sheet. The whole manifest is held in memory meanwhile. If the
    /// keeper or the sheet fails, or memory runs out, a line on `err` says so, and the manifest is not complete. The keeper is
    /// only asked: it means and stages what it did before. In the clauses, `told` says whether the keeper failed.
    pub fn begin(alloc: Global, mut keeper: K, sheet: S, err: E) -> Publisher<K, S, E>
        ensures means { (s : State) → K.means keeper s → IsBlank (S.text sheet)
            → ⟦<Publisher<K, S, E> as Keeper>⟧.means result s }
        ensures meant { (s : State) → ⟦<Publisher<K, S, E> as Keeper>⟧.means result s
            → K.means result.keeper s }
        ensures stays { (told : Result ⊤ KeepFault) × StaysBy K.Keeper keeper result.keeper told
            × (IsTrue result.is_whole → told ≡ Ok tt) }
        ensures staged { KeepsStaged K.stages keeper result.keeper }
        ensures never_less { K.faults keeper ≤ ⟦<Publisher<K, S, E> as Keeper>⟧.faults result }
        ensures honest { ⟦<Publisher<K, S, E> as Keeper>⟧.is_honest result ↔ K.is_honest result.keeper }
        ensures opened { ⟦<Publisher<K, S, E> as Keeper>⟧.is_open result ↔ K.is_open result.keeper }
        ensures count { ⟦<Publisher<K, S, E> as Keeper>⟧.faults result ≡ K.faults result.keeper }
        ensures store { ⟦<Publisher<K, S, E> as Keeper>⟧.has_store ↔ K.has_store }
        ensures stages { (bytes : List ℕ) → (⟦<Publisher<K, S, E> as Keeper>⟧.stages result bytes
            ↔ K.stages result.keeper bytes) }
        ensures leaves { (t : State) → (⟦<Publisher<K, S, E> as Keeper>⟧.leaves result t
            ↔ K.leaves result.keeper t) }
        ensures whole { ⟦<Publisher<K, S, E> as Keeper>⟧.leaves_whole result
            ↔ K.leaves_whole result.keeper }
        ensures rests { (t : State) → (⟦<Publisher<K, S, E> as Keeper>⟧.rests result t
            ↔ K.rests result.keeper t) }
        ensures rests_whole { ⟦<Publisher<K, S, E> as Keeper>⟧.rests_whole result
            ↔ K.rests_whole result.keeper }
        ensures alone { K.is_alone keeper → ⟦<Publisher<K, S, E> as Keeper>⟧.is_alone result }
    {
        let text = manifest_text(alloc, &mut keeper);
        let mut publisher = Publisher {
            keeper,
            sheet,
            err,
            is_whole: true,
            held: None,
            alloc,
        };
        match text {
            Ok(text) => publisher.put(&text),
            Err(_) => publisher.give_up(),
        }
        publisher
    }

    /// Gives the inner keeper back. It is in no group if the publisher is in none.
    pub fn into_inner(self) -> K
        ensures same { result ≡ self.keeper }
        ensures alone { ⟦<Publisher<K, S, E> as Keeper>⟧.is_alone self → K.is_alone result }
        ensures rests { (t : State) → (⟦<Publisher<K, S, E> as Keeper>⟧.rests self t ↔ K.rests result t) }
        ensures rests_whole { ⟦<Publisher<K, S, E> as Keeper>⟧.rests_whole self ↔ K.rests_whole result }
    {
        self.keeper
    }

    /// Whether the sheet holds the manifest of the keeper's office, and no line of a group is held back. If not, it holds a
    /// beginning of it.
    pub fn is_whole(&self) -> bool
        ensures whole { IsTrue result ↔ (IsTrue self.now.is_whole × HoldsNoLine self.now.held) }
        ensures published { (s : State)
            → ⟦<Publisher<K, S, E> as Keeper>⟧.means self.now s → IsSound s
            → ⟦<Publisher<K, S, E> as Keeper>⟧.is_honest self.now → IsTrue result
            → IsPublished s (S.text self.now.sheet) }
        ensures begun { (s : State)
            → ⟦<Publisher<K, S, E> as Keeper>⟧.means self.now s → IsSound s
            → ⟦<Publisher<K, S, E> as Keeper>⟧.is_honest self.now
            → IsBegun s (S.text self.now.sheet) }
    {
        self.is_whole && self.holds_no_line()
    }

    // Whether no line is held.
    fn holds_no_line(&self) -> bool
        ensures { IsTrue result ↔ HoldsNoLine self.now.held }
    {
        match &self.held {
            Some(held) => held.is_empty(),
            None => true,
        }
    }

    /// Gives the manifest up and says so on `err`. No more lines are added.
    pub fn give_up(&mut self)
        ensures sheet { self.new.sheet ≡ self.old.sheet }
        ensures held { self.new.held ≡ self.old.held }
        ensures none { self.new.is_whole ≡ false }
        ensures keeper { self.new.keeper ≡ self.old.keeper }
        ensures means { (s : State) → ⟦<Publisher<K, S, E> as Keeper>⟧.means self.old s
            → ⟦<Publisher<K, S, E> as Keeper>⟧.means self.new s }
    {
        self.is_whole = false;
        let _ = writeln!(self.err, "drop: cannot write the manifest");
    }

    // Adds a text to the sheet.
    fn put(&mut self, text: &[u8])
        ensures keeper { self.new.keeper ≡ self.old.keeper }
        ensures held { self.new.held ≡ self.old.held }
        ensures whole { IsTrue self.new.is_whole → IsTrue self.old.is_whole }
        ensures added { IsTrue self.new.is_whole
            → AddsAll text.now (S.text self.old.sheet) (S.text self.new.sheet) }
        ensures front { Adds {T = ⊤} {E = ⊤} text.now
            (S.text self.old.sheet) (S.text self.new.sheet) (Err tt) }
    {
        if self.sheet.add(text).is_err() {
            self.give_up();
        }
    }

    // Adds a text to the sheet, or within a group to what is held.
    fn put_or_hold(&mut self, text: &[u8])
        ensures keeper { self.new.keeper ≡ self.old.keeper }
        ensures whole { IsTrue self.new.is_whole → IsTrue self.old.is_whole }
        ensures alone { (self.old.held ≡ None) → (self.new.held ≡ None) }
        ensures group { IsSome self.old.held → IsSome self.new.held × (self.new.sheet ≡ self.old.sheet) }
        ensures added { IsTrue self.new.is_whole
            → AddsAll text.now (with_held self.old.held (S.text self.old.sheet))
            (with_held self.new.held (S.text self.new.sheet)) }
        ensures front { (S.text self.new.sheet ≡ S.text self.old.sheet) ⊎ ((self.old.held ≡ None)
            × Adds {T = ⊤} {E = ⊤} text.now
            (S.text self.old.sheet) (S.text self.new.sheet) (Err tt)) }
    {
        match &mut self.held {
            Some(held) => {
                if held.extend_from_slice(text).is_err() {
                    self.give_up();
                }
            }
            None => self.put(text),
        }
    }

    // Adds what was held to the sheet, unless the manifest was given up.
    pub(crate) fn put_held(&mut self, held: Option<Vec<u8>>)
        ensures keeper { self.new.keeper ≡ self.old.keeper }
        ensures held { self.new.held ≡ self.old.held }
        ensures whole { IsTrue self.new.is_whole → IsTrue self.old.is_whole }
        ensures published { (s : State) → IsPublished s (with_held held (S.text self.old.sheet))
            → IsTrue self.new.is_whole → IsPublished s (S.text self.new.sheet) }
        ensures begun { (s : State)
            → (IsTrue self.old.is_whole → IsPublished s (with_held held (S.text self.old.sheet)))
            → IsBegun s (S.text self.old.sheet) → IsBegun s (S.text self.new.sheet) }
    {
        let Some(text) = held else {
            return;
        };
        if self.is_whole {
            self.put(&text);
        }
    }

    // Adds the line of the change's receipt, if the change made one. Within a group the line is held.
    pub(crate) fn note(&mut self, change: &Change<'_>)
        ensures keeper { self.new.keeper ≡ self.old.keeper }
        ensures whole { IsTrue self.new.is_whole → IsTrue self.old.is_whole }
        ensures alone { (self.old.held ≡ None) → (self.new.held ≡ None) }
        ensures group { IsSome self.old.held → IsSome self.new.held × (self.new.sheet ≡ self.old.sheet) }
        ensures idle { IsFalse self.old.is_whole → self.new.sheet ≡ self.old.sheet }
        ensures published { (s after : State) → MayChange s change.now after
            → IsPublished s (with_held self.old.held (S.text self.old.sheet))
            → IsTrue self.new.is_whole
            → IsPublished after (with_held self.new.held (S.text self.new.sheet)) }
        ensures begun { (s after : State) → MayChange s change.now after
            → (IsTrue self.old.is_whole
            → IsPublished s (with_held self.old.held (S.text self.old.sheet)))
            → IsBegun s (S.text self.old.sheet) → IsBegun after (S.text self.new.sheet) }
    {
        match change {
            Change::SetFile(file) => self.add(file),
            Change::Desk(_) => {}
        }
    }

    // Adds the line of a file's receipt, or holds it.
    fn add(&mut self, file: &NewFile<'_>)
        ensures keeper { self.new.keeper ≡ self.old.keeper }
        ensures whole { IsTrue self.new.is_whole → IsTrue self.old.is_whole }
        ensures alone { (self.old.held ≡ None) → (self.new.held ≡ None) }
        ensures group { IsSome self.old.held → IsSome self.new.held × (self.new.sheet ≡ self.old.sheet) }
        ensures idle { IsFalse self.old.is_whole → self.new.sheet ≡ self.old.sheet }
        ensures added { IsMoment file.now.moment → IsTrue self.new.is_whole → (text : List ℕ)
            × AreLines IsReceiptLine (set_receipt file.now ∷ []) text
            × AddsAll text (with_held self.old.held (S.text self.old.sheet))
            (with_held self.new.held (S.text self.new.sheet)) }
        ensures front { IsMoment file.now.moment → (S.text self.new.sheet ≡ S.text self.old.sheet)
            ⊎ ((text : List ℕ) × IsTrue self.old.is_whole
            × AreLines IsReceiptLine (set_receipt file.now ∷ []) text × (self.old.held ≡ None)
            × Adds {T = ⊤} {E = ⊤} text (S.text self.old.sheet) (S.text self.new.sheet) (Err tt)) }
    {
        if !self.is_whole {
            return;
        }
        match receipt_text(self.alloc, file) {
            Ok(text) => self.put_or_hold(&text),
            Err(_) => self.give_up(),
        }
    }
}

// The manifest of the keeper's office.
fn manifest_text<K: Keeper>(alloc: Global, keeper: &mut K) -> Result<Vec<u8>, ListFault>
    ensures text { (s : State) → K.means keeper.old s → IsSound s → K.is_honest keeper.new
        → IfOk result (λ text. IsPublished s (Some text.items)) }
    ensures stays { StaysBy K.Keeper keeper.old keeper.new (by_keeper result) }
    ensures staged { KeepsStaged K.stages keeper.old keeper.new }
{
    let mut writer = Counted::new(Vec::new(alloc));
    manifest(alloc, keeper, &mut writer)?;
    Ok(writer.inner)
}

// The line of a file's receipt.
fn receipt_text(alloc: Global, file: &NewFile<'_>) -> Result<Vec<u8>, ListFault>
    ensures { IsMoment file.now.moment → IfOk result
        (λ text. AreLines IsReceiptLine (set_receipt file.now ∷ []) text.items) }
{
    match new_receipt(alloc, file) {
        Ok(receipt) => receipts_text(alloc, &[receipt]),
        Err(_) => Err(ListFault::Memory),
    }
}

// The receipt of a file.
fn new_receipt(alloc: Global, file: &NewFile<'_>) -> Result<ReceiptRow, AllocError>
    ensures { IfOk result (λ r. numbered_receipt r ≡ set_receipt file.now) }
{
    Ok(ReceiptRow {
        number: file.number,
        in_box: Vec::from_slice(alloc, file.in_box)?,
        name: Vec::from_slice(alloc, file.name)?,
        size: file.size,
        digest: file.digest,
        moment: file.moment,
        key: Vec::from_slice(alloc, file.key)?,
    })
}
