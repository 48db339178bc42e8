//! Uploads with a staged body.
ghost use Rattle.std.specs.Prelude.{◌≡◌, IsTrue};
ghost use Rattle.boxes.specs.Rules.{Stands, Upload};
ghost use Rattle.boxes.specs.Sound.{IsSound};
ghost use Rattle.boxes.specs.State.{State};
ghost use Rattle.boxes.specs.Views.{IsReceiptAt};
ghost use Rattle.sigv4.specs.Hmac.{sha256};
ghost use Rattle.std.specs.Prelude.{length};

use super::foreseeing::Body;
use super::places::{FilePlace, read_place};
use crate::office::Office;
use boxes::{
    BoxRow, Change, KeepFault, Keeper, NewBytes, NewFile, OfficeRow, ReceiptRow, Totals,
    UploadView, Uploading, law_of_changes, upload,
};
use links::LinkParts;
use sigtext::Refusal;
use sigv4::Moment;
use wire::Reply;

// What the keeper says about an upload, and whether its bytes are already stored.
#[derive(Drop)]
struct Standing {
    view: UploadView,
    stand: bool,
}

// The reply that tells a receipt.
fn reply_of(receipt: &ReceiptRow) -> Reply
    ensures { result ≡ Reply.Kept receipt.now.number receipt.now.size receipt.now.digest }
{
    let digest = receipt.digest;
    Reply::Kept {
        number: receipt.number,
        size: receipt.size,
        digest,
    }
}

// Whether the stored file's receipt is one that these bytes would have. If not, the bytes are not stored
// there.
fn may_stand(receipt: &Option<ReceiptRow>, body: &Body) -> bool
    ensures { (s : State) (u : Upload) → IsSound s → IsReceiptAt s u.place receipt.now
        → body.now.length ≡ length u.bytes → body.now.digest ≡ sha256 u.bytes → Stands s u
        → IsTrue result }
{
    match receipt {
        Some(receipt) => receipt.size == body.length && receipt.digest == body.digest,
        None => false,
    }
}

impl<K: Keeper> Office<K> {
    ghost use Rattle.std.specs.Prelude.{◌≡◌, ◌≢◌, ◌↔◌, ℕ, ◌+◌, List, length, Err, IsTrue, IfErr, IfOk, OnErr, OnOk, option_map};
    ghost use Rattle.std.specs.FinMap.{get};
    ghost use Rattle.boxes.specs.Changes.{IsFileSet};
    ghost use Rattle.boxes.specs.Rows.{IsOfficeOf, settings_of};
    ghost use Rattle.boxes.specs.Rules.{Stands, Upload};
    ghost use Rattle.boxes.specs.State.{State};
    ghost use Rattle.boxes.specs.Views.{AreTotals, IsReceiptAt, IsUploadViewOf};
    ghost use Rattle.boxes.specs.Bound.{StaysBy};
    ghost use Rattle.boxes.specs.Keeping.{KeepsStaged, LeavesEither};
    ghost use Rattle.links.specs.LinkReadings.{IsLinkOf};
    ghost use Rattle.links.specs.WellFormed.{LinkValues};
    ghost use Rattle.office.specs.Admitted.{ReachesBoxes};
    ghost use Rattle.office.specs.Crashes.{Endures};
    ghost use Rattle.office.specs.Foreseeing.{AreStaged};
    ghost use Rattle.office.specs.Frames.{Quiet, Replies};
    ghost use Rattle.office.specs.Places.{place_at};
    ghost use Rattle.office.specs.Premise.{EndsUnstaged, HoldsUnless, IsGivenUp, IsLeft, WasKept};
    ghost use Rattle.office.specs.Replying.{IsReceiptFor};
    ghost use Rattle.office.specs.Rules.{IsPut, place_of};

    // Asks the keeper whether the staged bytes are already stored at the place, which has this receipt.
    fn stand(
        &mut self,
        place: FilePlace<'_>,
        receipt: &Option<ReceiptRow>,
        body: &Body,
    ) -> Result<bool, KeepFault>
        ensures value { (s : State) (u : Upload)
            → WasKept K.Keeper self.old.keeper self.new.keeper s
            → u.place ≡ place_at place.entry → IsReceiptAt s u.place receipt.now
            → AreStaged K.Keeper self.old.keeper u.bytes body.now
            → IfOk result (λ b. IsTrue b ↔ Stands s u) }
        ensures staged { OnOk result (KeepsStaged K.stages self.old.keeper self.new.keeper) }
        ensures rest { StaysBy K.Keeper self.old.keeper self.new.keeper result }
    {
        if !may_stand(receipt, body) {
            return Ok(false);
        }
        self.keeper.staged_equals(place.in_box, place.name)
    }

    // Asks the keeper for the settings, for the totals of the box of this name, and for the number of the
    // next receipt.
    fn ask_office(&mut self, in_box: &[u8]) -> Result<(OfficeRow, Totals, u64), KeepFault>
        ensures value { (s : State) → WasKept K.Keeper self.old.keeper self.new.keeper s
            → IfOk result (λ p. IsOfficeOf s p.0 × AreTotals s in_box.now p.1
            × (p.2 ≡ length s.receipts + 1)) }
        ensures staged { KeepsStaged K.stages self.old.keeper self.new.keeper }
        ensures rest { StaysBy K.Keeper self.old.keeper self.new.keeper result }
    {
        let office = self.keeper.settings()?;
        let totals = self.keeper.sizes(in_box)?;
        let next_number = self.keeper.next_number()?;
        Ok((office, totals, next_number))
    }

    // Asks the keeper for the receipt of the file at the place, and whether the staged bytes are already
    // stored there.
    fn ask_place(
        &mut self,
        place: FilePlace<'_>,
        body: &Body,
    ) -> Result<(Option<ReceiptRow>, bool), KeepFault>
        ensures standing { (s : State) → WasKept K.Keeper self.old.keeper self.new.keeper s
            → IfOk result (λ p. IsReceiptAt s (place_at place.entry) p.0) }
        ensures stand { (s : State) (u : Upload)
            → WasKept K.Keeper self.old.keeper self.new.keeper s
            → u.place ≡ place_at place.entry
            → AreStaged K.Keeper self.old.keeper u.bytes body.now
            → IfOk result (λ p. IsTrue p.1 ↔ Stands s u) }
        ensures staged { OnOk result (KeepsStaged K.stages self.old.keeper self.new.keeper) }
        ensures rest { StaysBy K.Keeper self.old.keeper self.new.keeper result }
    {
        let standing = self.keeper.file_receipt(place.in_box, place.name)?;
        let stand = self.stand(place, &standing, body)?;
        Ok((standing, stand))
    }

    // Asks the keeper what an upload of the staged bytes to the place needs. The box was asked for before.
    fn look_up(
        &mut self,
        place: FilePlace<'_>,
        in_box: Option<BoxRow>,
        body: &Body,
    ) -> Result<Standing, KeepFault>
        ensures view { (s : State) → WasKept K.Keeper self.old.keeper self.new.keeper s
            → option_map settings_of in_box ≡ get s.boxes (place_at place.entry).box
            → IfOk result (λ l. IsUploadViewOf s (place_at place.entry) l.view) }
        ensures stand { (s : State) (u : Upload)
            → WasKept K.Keeper self.old.keeper self.new.keeper s
            → u.place ≡ place_at place.entry
            → AreStaged K.Keeper self.old.keeper u.bytes body.now
            → IfOk result (λ l. IsTrue l.stand ↔ Stands s u) }
        ensures staged { OnOk result (KeepsStaged K.stages self.old.keeper self.new.keeper) }
        ensures rest { StaysBy K.Keeper self.old.keeper self.new.keeper result }
    {
        let (office, totals, next_number) = self.ask_office(place.in_box)?;
        let (standing, stand) = self.ask_place(place, body)?;
        let view = UploadView {
            office,
            in_box,
            standing,
            totals,
            next_number,
        };
        Ok(Standing { view, stand })
    }

    // Sets a file to the staged bytes. The answer needs no more memory after that.
    fn set_file(&mut self, file: NewFile<'_>) -> Result<Reply, Refusal>
        ensures sets { (s after : State) (bytes : List ℕ)
            → WasKept K.Keeper self.old.keeper self.new.keeper s
            → K.stages self.old.keeper bytes → IsFileSet s file.entry bytes after
            → OnOk result (IsLeft (Endures K.Keeper self.old.keeper self.new.keeper s) after) }
        ensures receipt { IfOk result (IsReceiptFor file.entry) }
        ensures again { IfErr result (λ q. q ≡ Refusal.TryAgain) }
        ensures same { (s : State) → K.means self.old.keeper s
            → OnErr result (K.means self.new.keeper s) }
        ensures crash { (s after : State) (bytes : List ℕ)
            → WasKept K.Keeper self.old.keeper self.new.keeper s
            → K.stages self.old.keeper bytes → IsFileSet s file.entry bytes after
            → OnErr result (LeavesEither K.leaves K.leaves_whole
            self.old.keeper self.new.keeper s after) }
        ensures unstaged { EndsUnstaged K.Keeper self.old.keeper self.new.keeper }
        ensures rest { HoldsUnless K.Keeper self.old.keeper self.new.keeper (IsGivenUp result) }
    {
        law_of_changes();
        let digest = file.digest;
        let reply = Reply::Kept {
            number: file.number,
            size: file.size,
            digest,
        };
        match self.keeper.apply(&Change::SetFile(file)) {
            Ok(()) => Ok(reply),
            Err(_) => Err(Refusal::TryAgain),
        }
    }

    // Returns this reply once nothing is staged any more, or refusal 40 if the keeper counted a fault.
    pub(crate) fn let_go(&mut self, reply: Result<Reply, Refusal>) -> Result<Reply, Refusal>
        ensures gives { (result ≢ Err Refusal.TryAgain) → result ≡ reply }
        ensures unstaged { EndsUnstaged K.Keeper self.old.keeper self.new.keeper }
        ensures quiet { Quiet K.Keeper self.old.keeper self.new.keeper (IsGivenUp result) }
    {
        match self.keeper.stage_drop() {
            Ok(()) => reply,
            Err(_) => Err(Refusal::TryAgain),
        }
    }

    // Takes or refuses an upload whose body is staged and whose link is admitted.
    pub(crate) fn put(
        &mut self,
        link: &LinkParts<'_>,
        path: &[u8],
        in_box: Option<BoxRow>,
        body: &Body,
        now: Moment,
    ) -> Result<Reply, Refusal>
        ensures replies { Replies K.Keeper self.old.keeper self.new.keeper now result (λ s r. (p : LinkValues)
            × IsLinkOf link.now r p × IsPut r × ReachesBoxes s r now p × (path.now ≡ p.path)
            × (option_map settings_of in_box ≡ get s.boxes (place_of p.path).box)
            × AreStaged K.Keeper self.old.keeper r.body body.now) }
        ensures unstaged { EndsUnstaged K.Keeper self.old.keeper self.new.keeper }
    {
        let place = read_place(path);
        let Ok(Standing { view, stand }) = self.look_up(place, in_box, body) else {
            return self.let_go(Err(Refusal::TryAgain));
        };
        let digest = body.digest;
        let bytes = NewBytes {
            length: body.length,
            digest,
            stand,
        };
        match upload(&view, now, link.key_id(), place.in_box, place.name, &bytes) {
            Uploading::Refused(refusal) => {
                drop(view);
                self.let_go(Err(refusal))
            }
            Uploading::Again(receipt) => {
                let reply = reply_of(receipt);
                drop(view);
                self.let_go(Ok(reply))
            }
            Uploading::Taken(file) => {
                let reply = self.set_file(file);
                drop(view);
                reply
            }
        }
    }
}
