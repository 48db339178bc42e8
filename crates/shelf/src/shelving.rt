//! The changes of a keeper in memory. Memory is allocated first, and the change is made last.
ghost use Rattle.std.specs.Prelude.{◌≡◌, ◌≤◌, ◌<◌, ◌⊎◌, [], Some, true, length, cond, option_map, IfOk, IfErr, OnOk, OnErr};
ghost use Rattle.std.specs.FinMap.{FinMap, insert};
ghost use Rattle.sigtext.specs.Bytes.{bytes_cmp};
ghost use Rattle.sigtext.specs.Counts.{CountsErrors};
ghost use Rattle.boxes.specs.State.{State, limit_cmp};
ghost use Rattle.boxes.specs.Steps.{AddKey, RevokeKey, AddBox, CloseBox, DropFile, LimitKey, SetAllowance};
ghost use Rattle.boxes.specs.Sound.{IsSound};
ghost use Rattle.boxes.specs.Clerks.{is_acting};
ghost use Rattle.boxes.specs.Rows.{key_of, settings_of, numbered_receipt};
ghost use Rattle.boxes.specs.Changes.{IsFileSet, IsObeyed, command_of, most_receipts};
ghost use Rattle.boxes.specs.declared.rows.KeyRow.{KeyRow};
ghost use Rattle.shelf.specs.declared.shelf.ShelvedBox.{ShelvedBox};
ghost use Rattle.shelf.specs.Maps.{found, Sets};
ghost use Rattle.shelf.specs.Shelves.{Holds, LimitsMean, bytes_of, place_of, shelved_settings, stored_file, added_key, set_receipt};

use crate::copies::copy_box;
use crate::shelf::{Shelf, ShelvedBox, StoredFile, acting, has_room, new_place};
use boxes::{BoxRow, Command, KeepFault, KeyRow, NewFile, ReceiptRow, Role, Totals};
use sigv4::Allowance;
use std::alloc::{AllocError, Global};
use std::collections::{BTreeMap, BTreeSet};
use std::mem;

/// A new key, as it is kept.
pub(crate) fn new_key(
    alloc: Global,
    id: &[u8],
    role: Role,
    secret: &[u8],
) -> Result<(Vec<u8>, KeyRow), AllocError>
    ensures { IfOk result (λ k. (k.0.items ≡ id.now) × (key_of k.1 ≡ added_key role secret.now)) }
{
    Ok((
        Vec::from_slice(alloc, id)?,
        KeyRow {
            role,
            secret: Vec::from_slice(alloc, secret)?,
            revoked: false,
        },
    ))
}

/// A new box, as it is kept. It holds nothing.
fn new_box(alloc: Global, name: &[u8], row: &BoxRow) -> Result<(Vec<u8>, ShelvedBox), AllocError>
    ensures { IfOk result (λ b. (b.0.items ≡ name.now)
        × (shelved_settings b.1 ≡ settings_of row.now)
        × (b.1.totals ≡ record { used = 0; count = 0 })) }
{
    Ok((
        Vec::from_slice(alloc, name)?,
        ShelvedBox {
            row: copy_box(alloc, row)?,
            totals: Totals { used: 0, count: 0 },
        },
    ))
}

/// A new file and its receipt, as they are kept. The bytes are moved.
fn new_file(
    alloc: Global,
    file: &NewFile<'_>,
    bytes: Vec<u8>,
) -> Result<((Vec<u8>, Vec<u8>), StoredFile, ReceiptRow), AllocError>
    ensures { IfOk result
        (λ f. (place_of f.0 ≡ record { box = file.now.in_box.now; name = file.now.name.now })
        × (stored_file f.1 ≡ record { bytes = bytes.items; receipt = file.now.number })
        × (numbered_receipt f.2 ≡ set_receipt file.now)) }
{
    Ok((
        new_place(alloc, file.in_box, file.name)?,
        StoredFile {
            bytes,
            number: file.number,
        },
        ReceiptRow {
            number: file.number,
            in_box: Vec::from_slice(alloc, file.in_box)?,
            name: Vec::from_slice(alloc, file.name)?,
            size: file.size,
            digest: file.digest,
            moment: file.moment,
            key: Vec::from_slice(alloc, file.key)?,
        },
    ))
}

/// Limits the key of this id to this box too.
fn add_limit(
    alloc: Global,
    limits: &mut BTreeMap<Vec<u8>, BTreeSet<Vec<u8>>>,
    id: &[u8],
    in_box: &[u8],
) -> Result<(), AllocError>
    ensures made { (m : FinMap limit_cmp (Unit {0})) → LimitsMean limits.old.entries m
        → OnOk result (LimitsMean limits.new.entries
        (insert m (record { key = id.now; box = in_box.now }) tt)) }
    ensures same { (m : FinMap limit_cmp (Unit {0})) → LimitsMean limits.old.entries m
        → OnErr result (LimitsMean limits.new.entries m) }
{
    let name = Vec::from_slice(alloc, in_box)?;
    if let Some(boxes) = limits.get_mut(id) {
        boxes.insert(name)?;
        return Ok(());
    }
    let mut boxes = BTreeSet::new(alloc);
    boxes.insert(name)?;
    limits.insert(Vec::from_slice(alloc, id)?, boxes)?;
    Ok(())
}

/// The length of a file, if there is one.
fn length_of(file: &Option<StoredFile>) -> Option<u64>
    ensures { result ≡ option_map (λ f. length f.bytes.items) file.now }
{
    match file {
        Some(stored) => Some(stored.bytes.len() as u64),
        None => None,
    }
}

/// 1 if this id has an unrevoked clerk's key, otherwise 0.
fn acting_at(keys: &BTreeMap<Vec<u8>, KeyRow>, id: &[u8]) -> u64
    ensures { (k : KeyRow) → found bytes_cmp bytes_of keys.now.entries id.now ≡ Some k
        → result ≡ cond (is_acting (key_of k)) 1 0 }
{
    match keys.get(id) {
        Some(key) => acting(key),
        None => 0,
    }
}

/// Marks the key of this id revoked.
fn mark_revoked(keys: &mut BTreeMap<Vec<u8>, KeyRow>, id: &[u8])
    ensures set { (k : KeyRow) → found bytes_cmp bytes_of keys.old.entries id.now ≡ Some k
        → Sets bytes_cmp bytes_of id.now (Some
        (record k { revoked = true })) keys.old.entries keys.new.entries }
    ensures len { length keys.new.entries ≡ length keys.old.entries }
{
    if let Some(key) = keys.get_mut(id) {
        key.revoked = true;
    }
}

/// Sets the second at which the box of this name closes permanently.
fn set_closing(boxes: &mut BTreeMap<Vec<u8>, ShelvedBox>, name: &[u8], moment: u64)
    ensures { (b : ShelvedBox) → found bytes_cmp bytes_of boxes.old.entries name.now ≡ Some b
        → Sets bytes_cmp bytes_of name.now (Some
        (record b { row = record b.row { closes = moment } })) boxes.old.entries boxes.new.entries }
{
    if let Some(shelved) = boxes.get_mut(name) {
        shelved.row.closes = moment;
    }
}

/// Sets the totals of the box of this name.
fn set_totals(boxes: &mut BTreeMap<Vec<u8>, ShelvedBox>, name: &[u8], totals: Totals)
    ensures { (b : ShelvedBox) → found bytes_cmp bytes_of boxes.old.entries name.now ≡ Some b
        → Sets bytes_cmp bytes_of name.now (Some
        (record b { totals = totals })) boxes.old.entries boxes.new.entries }
{
    if let Some(shelved) = boxes.get_mut(name) {
        shelved.totals = totals;
    }
}

impl Shelf {
    /// Sets a file to these bytes and adds its receipt.
    fn set_file(&mut self, file: &NewFile<'_>, bytes: Vec<u8>) -> Result<(), KeepFault>
        ensures made { (s after : State) → Holds self.old s → IsSound s
            → IsFileSet s file.now bytes.items after → OnOk result (Holds self.new after) }
        ensures same { (s : State) → Holds self.old s → OnErr result (Holds self.new s) }
        ensures count { CountsErrors self.old.faults self.new.faults result }
        ensures fault { IfErr result
            (λ f. ((f ≡ KeepFault.Memory) × (file.now.number ≤ most_receipts))
            ⊎ ((f ≡ KeepFault.Full) × (most_receipts < file.now.number))) }
        ensures room { OnOk result (file.now.number ≤ most_receipts) }
        ensures staged { self.new.staged ≡ self.old.staged }
    {
        if !has_room(file.number) {
            self.faults = self.faults.saturating_add(1);
            return Err(KeepFault::Full);
        }
        let totals = self.totals_of(file.in_box);
        let size = bytes.len() as u64;
        let Ok((place, stored, receipt)) = new_file(self.alloc, file, bytes) else {
            return Err(self.count());
        };
        let Ok(()) = self.receipts.reserve(1) else {
            return Err(self.count());
        };
        match self.files.insert(place, stored) {
            Ok(old) => {
                let _ = self.receipts.push(receipt);
                let totals = totals.set(length_of(&old), size);
                set_totals(&mut self.boxes, file.in_box, totals);
                Ok(())
            }
            Err(_) => Err(self.count()),
        }
    }

    /// Sets a file to the staged bytes and adds its receipt. Afterwards nothing is staged, even after an error.
    pub(crate) fn set_staged(&mut self, file: &NewFile<'_>) -> Result<(), KeepFault>
        ensures made { (s after : State) → Holds self.old s → IsSound s
            → IsFileSet s file.now self.old.staged.items after → OnOk result (Holds self.new after) }
        ensures same { (s : State) → Holds self.old s → OnErr result (Holds self.new s) }
        ensures count { CountsErrors self.old.faults self.new.faults result }
        ensures fault { IfErr result
            (λ f. ((f ≡ KeepFault.Memory) × (file.now.number ≤ most_receipts))
            ⊎ ((f ≡ KeepFault.Full) × (most_receipts < file.now.number))) }
        ensures room { OnOk result (file.now.number ≤ most_receipts) }
        ensures emptied { self.new.staged.items ≡ [] }
    {
        let staged = mem::replace(&mut self.staged, Vec::new(self.alloc));
        self.set_file(file, staged)
    }

    /// Adds a key.
    fn add_key(&mut self, id: &[u8], role: Role, secret: &[u8]) -> Result<(), KeepFault>
        ensures made { (s after : State) → Holds self.old s
            → IsObeyed s (AddKey id.now role secret.now) after
            → OnOk result (Holds self.new after) }
        ensures same { (s : State) → Holds self.old s → OnErr result (Holds self.new s) }
        ensures count { CountsErrors self.old.faults self.new.faults result }
        ensures staged { self.new.staged ≡ self.old.staged }
        ensures fault { IfErr result (λ f. f ≡ KeepFault.Memory) }
    {
        let most = self.keys.len() as u64 + 1;
        let Ok((id, row)) = new_key(self.alloc, id, role, secret) else {
            return Err(self.count());
        };
        let clerks = self.clerks.saturating_add(acting(&row)).min(most);
        match self.keys.insert(id, row) {
            Ok(_) => {
                self.clerks = clerks;
                Ok(())
            }
            Err(_) => Err(self.count()),
        }
    }

    /// Revokes a key. Takes no memory.
    fn revoke_key(&mut self, id: &[u8])
        ensures made { (s after : State) → Holds self.old s → IsObeyed s (RevokeKey id.now) after
            → Holds self.new after }
        ensures faults { self.new.faults ≡ self.old.faults }
        ensures staged { self.new.staged ≡ self.old.staged }
    {
        let gone = acting_at(&self.keys, id);
        mark_revoked(&mut self.keys, id);
        self.clerks = self.clerks.saturating_sub(gone);
    }

    /// Adds a box.
    fn add_box(&mut self, name: &[u8], row: &BoxRow) -> Result<(), KeepFault>
        ensures made { (s after : State) → Holds self.old s → IsSound s
            → IsObeyed s (AddBox name.now (settings_of row.now)) after
            → OnOk result (Holds self.new after) }
        ensures same { (s : State) → Holds self.old s → OnErr result (Holds self.new s) }
        ensures count { CountsErrors self.old.faults self.new.faults result }
        ensures staged { self.new.staged ≡ self.old.staged }
        ensures fault { IfErr result (λ f. f ≡ KeepFault.Memory) }
    {
        let Ok((name, shelved)) = new_box(self.alloc, name, row) else {
            return Err(self.count());
        };
        match self.boxes.insert(name, shelved) {
            Ok(_) => Ok(()),
            Err(_) => Err(self.count()),
        }
    }

    /// Sets when a box closes permanently. Takes no memory.
    fn close_box(&mut self, name: &[u8], moment: u64)
        ensures made { (s after : State) → Holds self.old s
            → IsObeyed s (CloseBox name.now moment) after → Holds self.new after }
        ensures faults { self.new.faults ≡ self.old.faults }
        ensures staged { self.new.staged ≡ self.old.staged }
    {
        set_closing(&mut self.boxes, name, moment);
    }

    /// Removes a file. Its receipt stays.
    fn drop_file(&mut self, in_box: &[u8], name: &[u8]) -> Result<(), KeepFault>
        ensures made { (s after : State) → Holds self.old s → IsSound s
            → IsObeyed s (DropFile (record { box = in_box.now; name = name.now })) after
            → OnOk result (Holds self.new after) }
        ensures same { (s : State) → Holds self.old s → OnErr result (Holds self.new s) }
        ensures count { CountsErrors self.old.faults self.new.faults result }
        ensures staged { self.new.staged ≡ self.old.staged }
        ensures fault { IfErr result (λ f. f ≡ KeepFault.Memory) }
    {
        let Ok(place) = new_place(self.alloc, in_box, name) else {
            return Err(self.count());
        };
        let totals = self.totals_of(in_box);
        if let Some(stored) = self.files.remove(&place) {
            let totals = totals.take_out(stored.bytes.len() as u64);
            set_totals(&mut self.boxes, in_box, totals);
        }
        Ok(())
    }

    /// Limits a key to this box too.
    fn limit_key(&mut self, id: &[u8], in_box: &[u8]) -> Result<(), KeepFault>
        ensures made { (s after : State) → Holds self.old s
            → IsObeyed s (LimitKey id.now in_box.now) after → OnOk result (Holds self.new after) }
        ensures same { (s : State) → Holds self.old s → OnErr result (Holds self.new s) }
        ensures count { CountsErrors self.old.faults self.new.faults result }
        ensures staged { self.new.staged ≡ self.old.staged }
        ensures fault { IfErr result (λ f. f ≡ KeepFault.Memory) }
    {
        match add_limit(self.alloc, &mut self.limits, id, in_box) {
            Ok(()) => Ok(()),
            Err(_) => Err(self.count()),
        }
    }

    /// Sets how many seconds early a link may begin. Takes no memory.
    fn set_allowance(&mut self, seconds: u64)
        ensures made { (s after : State) → Holds self.old s
            → IsObeyed s (SetAllowance seconds) after → Holds self.new after }
        ensures faults { self.new.faults ≡ self.old.faults }
        ensures staged { self.new.staged ≡ self.old.staged }
    {
        if let Some(allowance) = Allowance::new(seconds) {
            self.office.allowance = allowance;
        }
    }

    /// Carries out a desk command.
    pub(crate) fn obey(&mut self, command: &Command<'_>) -> Result<(), KeepFault>
        ensures made { (s after : State) → Holds self.old s → IsSound s
            → IsObeyed s (command_of command.now) after → OnOk result (Holds self.new after) }
        ensures same { (s : State) → Holds self.old s → OnErr result (Holds self.new s) }
        ensures count { CountsErrors self.old.faults self.new.faults result }
        ensures staged { self.new.staged ≡ self.old.staged }
        ensures fault { IfErr result (λ f. f ≡ KeepFault.Memory) }
    {
        match command {
            Command::AddKey { id, role, secret } => self.add_key(id, *role, secret),
            Command::RevokeKey { id } => {
                self.revoke_key(id);
                Ok(())
            }
            Command::AddBox { name, row } => self.add_box(name, row),
            Command::CloseBox { name, moment } => {
                self.close_box(name, *moment);
                Ok(())
            }
            Command::DropFile { in_box, name } => self.drop_file(in_box, name),
            Command::LimitKey { id, in_box } => self.limit_key(id, in_box),
            Command::SetAllowance { seconds } => {
                self.set_allowance(*seconds);
                Ok(())
            }
        }
    }
}
