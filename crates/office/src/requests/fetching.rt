//! Fetches.
use super::places::{FilePlace, decoded_path, read_place};
use crate::office::Office;
use boxes::{FetchView, KeepFault, Keeper, fetch};
use links::LinkParts;
use sigtext::Refusal;
use wire::Reply;

impl<K: Keeper> Office<K> {
    ghost use Rattle.std.specs.Prelude.{ℕ, Err, IfOk};
    ghost use Rattle.sigtext.specs.Request.{Request};
    ghost use Rattle.boxes.specs.State.{State};
    ghost use Rattle.boxes.specs.Views.{IsFetchViewOf};
    ghost use Rattle.boxes.specs.Bound.{StaysBy};
    ghost use Rattle.boxes.specs.Keeping.{KeepsStaged};
    ghost use Rattle.links.specs.LinkReadings.{IsLinkOf};
    ghost use Rattle.links.specs.WellFormed.{LinkValues};
    ghost use Rattle.office.specs.Admitted.{ReachesBoxes};
    ghost use Rattle.office.specs.Crashes.{Endures};
    ghost use Rattle.office.specs.Frames.{Looks};
    ghost use Rattle.office.specs.Places.{place_at};
    ghost use Rattle.office.specs.Premise.{IsGivenUp, WasKept};
    ghost use Rattle.office.specs.Replying.{IsReplied, IsNoRefusal};
    ghost use Rattle.office.specs.Rules.{IsFetch};

    // Asks the keeper for what a fetch from the place needs.
    fn look_for(&mut self, place: FilePlace<'_>) -> Result<FetchView, KeepFault>
        ensures view { (s : State) → WasKept K.Keeper self.old.keeper self.new.keeper s
            → IfOk result (IsFetchViewOf s (place_at place.entry)) }
        ensures staged { KeepsStaged K.stages self.old.keeper self.new.keeper }
        ensures rest { StaysBy K.Keeper self.old.keeper self.new.keeper result }
    {
        let in_box = self.keeper.box_row(place.in_box)?;
        let file = self.keeper.file(place.in_box, place.name)?;
        Ok(FetchView { in_box, file })
    }

    // Returns or refuses the file of a fetch whose link is admitted and whose form is right.
    pub(crate) fn fetch(&mut self, link: &LinkParts<'_>) -> Result<Reply, Refusal>
        ensures replies { (s : State) (r : Request) (p : LinkValues) (now : ℕ)
            → WasKept K.Keeper self.old.keeper self.new.keeper s
            → IsLinkOf link.now r p → IsFetch r → ReachesBoxes s r now p
            → IsReplied (Endures K.Keeper self.old.keeper self.new.keeper s) s r now result }
        ensures plain { IfOk result IsNoRefusal }
        ensures looks { Looks K.Keeper self.old.keeper self.new.keeper (IsGivenUp result) }
    {
        let Ok(path) = decoded_path(self.alloc, link) else {
            return Err(Refusal::TryAgain);
        };
        let place = read_place(&path);
        let Ok(view) = self.look_for(place) else {
            return Err(Refusal::TryAgain);
        };
        match fetch(view, place.name) {
            Ok(file) => {
                let digest = file.receipt.digest;
                Ok(Reply::Found {
                    number: file.receipt.number,
                    digest,
                    bytes: file.bytes,
                })
            }
            Err(refusal) => Err(refusal),
        }
    }
}
