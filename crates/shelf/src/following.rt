//! Updates of the cache by changes.
ghost use Rattle.std.specs.Prelude.{◌≡◌, ℕ, List, length, option_map, IfSome};
ghost use Rattle.std.specs.FinMap.{get};
ghost use Rattle.boxes.specs.Changes.{IsFileSet, IsObeyed, MayChange, command_of};
ghost use Rattle.boxes.specs.Sound.{IsSound};
ghost use Rattle.boxes.specs.State.{State};
ghost use Rattle.boxes.specs.Views.{AreTotals, IsReceiptAt};
ghost use Rattle.shelf.specs.Recalled.{Lacks, Recalls};

use crate::cache::{Boxes, Cache, Keys, set_totals};
use crate::last_size::{LastSize, told_size};
use boxes::{Change, Command, NewFile, ReceiptRow, Totals};

/// Forgets the key of this id.
fn forget_key(keys: &mut Keys, id: &[u8])
    ensures { Lacks id.now keys.old.entries keys.new.entries }
{
    let _ = keys.remove(id);
}

/// Forgets the box of this name.
fn forget_box(boxes: &mut Boxes, name: &[u8])
    ensures { Lacks name.now boxes.old.entries boxes.new.entries }
{
    let _ = boxes.remove(name);
}

impl Cache {
    /// Remembers the size of this file, as its receipt states it, if there is memory. It replaces the size remembered before.
    pub(crate) fn keep_size(&mut self, in_box: &[u8], name: &[u8], receipt: &Option<ReceiptRow>)
        ensures { (s : State) → IsSound s → Recalls self.old s
            → IsReceiptAt s (record { box = in_box.now; name = name.now }) receipt.now
            → Recalls self.new s }
    {
        self.last_size = LastSize::new(self.alloc, in_box, name, told_size(receipt)).ok();
    }

    /// The size of this file in bytes, if it is remembered. The inner `None` means that there is no such file.
    fn size_of(&self, in_box: &[u8], name: &[u8]) -> Option<Option<u64>>
        ensures { (s : State) → Recalls self.now s → IfSome result
            (λ size. size ≡ option_map (λ f. length f.bytes)
            (get s.files (record { box = in_box.now; name = name.now }))) }
    {
        let last = self.last_size.as_ref()?;
        if last.in_box.as_slice() == in_box && last.name.as_slice() == name {
            Some(last.size)
        } else {
            None
        }
    }

    /// The totals of the file's box after the file is set, if they are known.
    fn totals_with(&self, file: &NewFile<'_>) -> Option<Totals>
        ensures { (s after : State) (bytes : List ℕ) → IsSound s → IsFileSet s file.now bytes after
            → Recalls self.now s → IfSome result (AreTotals after file.now.in_box.now) }
    {
        let held = self.totals(file.in_box)?;
        let stood = self.size_of(file.in_box, file.name)?;
        Some(held.set(stood, file.size))
    }

    /// Updates the cache after the file is set and its receipt is added.
    fn follow_file(&mut self, file: &NewFile<'_>)
        ensures { (s after : State) (bytes : List ℕ) → IsSound s → IsFileSet s file.now bytes after
            → Recalls self.old s → Recalls self.new after }
    {
        let totals = self.totals_with(file);
        set_totals(&mut self.boxes, file.in_box, totals);
        self.next_number = file.number.checked_add(1);
        self.last_size = None;
    }

    /// Updates the cache after a desk command: forgets what the command may affect.
    fn follow_command(&mut self, command: &Command<'_>)
        ensures { (s after : State) → IsObeyed s (command_of command.now) after
            → Recalls self.old s → Recalls self.new after }
    {
        match command {
            Command::AddKey { .. } => {}
            Command::AddBox { .. } => {}
            Command::RevokeKey { id } => forget_key(&mut self.keys, id),
            Command::LimitKey { id, .. } => forget_key(&mut self.keys, id),
            Command::CloseBox { name, .. } => forget_box(&mut self.boxes, name),
            Command::DropFile { in_box, .. } => {
                set_totals(&mut self.boxes, in_box, None);
                self.last_size = None;
            }
            Command::SetAllowance { .. } => self.office = None,
        }
    }

    /// Updates the cache for a change. An upload updates the totals and the next receipt number. Any other change makes the
    /// cache forget what it may affect. If the change fails, the caller must empty the cache.
    pub(crate) fn follow(&mut self, change: &Change<'_>)
        ensures { (s after : State) → IsSound s → MayChange s change.now after → Recalls self.old s
            → Recalls self.new after }
    {
        match change {
            Change::SetFile(file) => self.follow_file(file),
            Change::Desk(command) => self.follow_command(command),
        }
    }
}
