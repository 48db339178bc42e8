//! The decision on an upload.
ghost use Rattle.std.specs.Prelude.{◌≡◌, ◌↔◌, ◌+◌, ◌-◌, ◌^◌, ◌<◌, ◌≤◌, length, Some, IsTrue, MatchResult, option_map};
ghost use Rattle.std.specs.FinMap.{get};
ghost use Rattle.boxes.specs.Changes.{IsBrought};
ghost use Rattle.boxes.specs.Rules.{Upload, NewBytesRule};
ghost use Rattle.boxes.specs.Rows.{settings_of};
ghost use Rattle.boxes.specs.Sound.{IsSound};
ghost use Rattle.boxes.specs.State.{Place, State};
ghost use Rattle.boxes.specs.Views.{AreBytesOf, IsReceiptAt, IsUploadViewOf};
ghost use Rattle.boxes.specs.Deciding.{DecidesUpload, IsLeastToFail};
ghost use Rattle.sigtext.specs.declared.refusal.Refusal as refusal;

use crate::change::NewFile;
use crate::opening::open_at;
use crate::places::box_for;
use crate::rows::{BoxRow, Mode, ReceiptRow};
use crate::view::UploadView;
use sigtext::Refusal;
use sigv4::Moment;

/// What is known of the bytes of an upload.
#[derive(Clone, Copy)]
pub struct NewBytes {
    /// Their number.
    pub length: u64,
    /// Their SHA-256 digest.
    pub digest: [u8; 32],
    /// Whether they equal those stored under the box and name.
    pub stand: bool,
}

/// The decision on an upload.
#[derive(Clone, Copy)]
pub enum Uploading<'a> {
    /// It is refused with a number from 27 to 33.
    Refused(Refusal),
    /// Its bytes are already stored. This is their receipt, and nothing changes.
    Again(&'a ReceiptRow),
    /// It is accepted: this file is to be set to its bytes.
    Taken(NewFile<'a>),
}

// Whether the quota holds after `size` bytes replace the `stood` stored ones.
fn is_within_quota(used: u64, stood: u64, size: u64, quota: u64) -> bool
    ensures { quota < 2 ^ 64 - 1 → IsTrue result ↔ (used - stood + size ≤ quota) }
{
    used.saturating_sub(stood).saturating_add(size) <= quota
}

// The length of the stored file, as its receipt gives it.
fn standing_size(view: &UploadView) -> Option<u64>
    ensures { (s : State) (place : Place) → IsSound s → IsReceiptAt s place view.now.standing
        → result ≡ option_map (λ f. length f.bytes) (get s.files place) }
{
    view.standing.as_ref().map(|receipt| receipt.size)
}

// Checks rules 30 to 32, which bytes that are not already stored must obey. This does not check the quota. The error is
// the lowest rule that fails. `stood` is the length of the stored file.
fn check_place(
    view: &UploadView,
    row: &BoxRow,
    now: Moment,
    stood: Option<u64>,
) -> Result<(), Refusal>
    ensures { (s : State) (u : Upload) → IsUploadViewOf s u.place view.now → u.now ≡ now
        → stood ≡ option_map (λ f. length f.bytes) (get s.files u.place)
        → MatchResult result
        (λ done. NewBytesRule Refusal.BoxClosed s (settings_of row.now) u
        × NewBytesRule Refusal.OtherBytesKept s (settings_of row.now) u
        × NewBytesRule Refusal.TooManyFiles s (settings_of row.now) u)
        (λ q. IsLeastToFail (λ r. NewBytesRule r s (settings_of row.now) u) q) }
{
    if !open_at(row, view.office.east, now) {
        return Err(Refusal::BoxClosed);
    }
    if stood.is_some() && row.mode == Mode::Keep {
        return Err(Refusal::OtherBytesKept);
    }
    if stood.is_none() && view.totals.count >= row.max_files {
        return Err(Refusal::TooManyFiles);
    }
    Ok(())
}

// Checks rules 30 to 33, which bytes that are not already stored must obey. The error is the lowest rule that fails.
fn check_new_bytes(view: &UploadView, row: &BoxRow, now: Moment, size: u64) -> Result<(), Refusal>
    ensures { (s : State) (u : Upload) → IsSound s → IsUploadViewOf s u.place view.now
        → get s.boxes u.place.box ≡ Some (settings_of row.now) → u.now ≡ now → length u.bytes ≡ size
        → MatchResult result
        (λ done. (r : refusal.Refusal) → NewBytesRule r s (settings_of row.now) u)
        (λ q. IsLeastToFail (λ r. NewBytesRule r s (settings_of row.now) u) q) }
{
    let stood = standing_size(view);
    check_place(view, row, now, stood)?;
    if is_within_quota(view.totals.used, stood.unwrap_or(0), size, row.quota) {
        Ok(())
    } else {
        Err(Refusal::QuotaPassed)
    }
}

/// Decides an upload by a key to a box and a name at a moment, from the keeper's answers and from what is known of the
/// bytes. Takes no memory.
pub fn upload<'a>(
    view: &'a UploadView,
    now: Moment,
    key: &'a [u8],
    in_box: &'a [u8],
    name: &'a [u8],
    bytes: &NewBytes,
) -> Uploading<'a>
    ensures { (s : State) (u : Upload) → IsSound s → IsBrought s u
        → IsUploadViewOf s u.place view.entry.now → AreBytesOf s u bytes.now
        → u.now ≡ now → u.key ≡ key.entry.now
        → u.place ≡ record { box = in_box.entry.now; name = name.entry.now }
        → DecidesUpload s u result }
{
    let row = match box_for(&view.in_box, name) {
        Ok(row) => row,
        Err(refusal) => return Uploading::Refused(refusal),
    };
    if bytes.stand
        && let Some(receipt) = &view.standing
    {
        return Uploading::Again(receipt);
    }
    if let Err(refusal) = check_new_bytes(view, row, now, bytes.length) {
        return Uploading::Refused(refusal);
    }
    Uploading::Taken(NewFile {
        number: view.next_number,
        in_box,
        name,
        size: bytes.length,
        digest: bytes.digest,
        moment: now.seconds(),
        key,
    })
}
