//! The decision on a fetch.
ghost use Rattle.std.specs.Prelude.{List, ℕ};
ghost use Rattle.boxes.specs.Sound.{IsSound};
ghost use Rattle.boxes.specs.State.{State};
ghost use Rattle.boxes.specs.Views.{IsFetchViewOf};
ghost use Rattle.boxes.specs.Deciding.{DecidesFetch};

use crate::places::box_for;
use crate::rows::FileRow;
use crate::view::FetchView;
use sigtext::Refusal;

/// Decides a fetch of a name from a box, from the keeper's answers. Returns the stored file, or a refusal with a number
/// from 27 to 29 or 34. Takes no memory.
pub fn fetch(view: FetchView, name: &[u8]) -> Result<FileRow, Refusal>
    ensures { (s : State) (in_box : List ℕ) → IsSound s
        → IsFetchViewOf s (record { box = in_box; name = name.now }) view
        → DecidesFetch s (record { box = in_box; name = name.now }) result }
{
    box_for(&view.in_box, name)?;
    view.file.ok_or(Refusal::NoSuchFile)
}
