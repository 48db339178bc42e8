//! The rules that every request on a file must obey: 27 to 29.
ghost use Rattle.std.specs.Prelude.{◌≡◌, ◌↔◌, Some, IsTrue, option_map, MatchResult};
ghost use Rattle.std.specs.FinMap.{get};
ghost use Rattle.boxes.specs.State.{Place, State};
ghost use Rattle.boxes.specs.Rows.{settings_of};
ghost use Rattle.boxes.specs.Rules.{IsName, PlaceRule};
ghost use Rattle.boxes.specs.Deciding.{IsLeastToFail};
ghost use Rattle.sigtext.specs.declared.refusal.Refusal as refusal;

use crate::opening::name_fits;
use crate::rows::BoxRow;
use sigtext::Refusal;
use std::str;

pub(crate) const MOST_NAME_BYTES: usize = 1024;

// Whether the text may be the name of a file: not empty, UTF-8, no byte below 0x20 and no 0x7F.
pub(crate) fn is_name(name: &[u8]) -> bool
    ensures { IsTrue result ↔ IsName name.now }
{
    if name.is_empty() || str::from_utf8(name).is_err() {
        return false;
    }
    name.iter().all(|byte| *byte >= 0x20 && *byte != 0x7F)
}

/// Tells, before the body, whether an upload may go to its place: the box and the name must obey rules 27 to 29.
/// Otherwise the upload is refused with the lowest rule that fails. Takes no memory.
pub fn place(in_box: &Option<BoxRow>, name: &[u8]) -> Result<(), Refusal>
    ensures { (s : State) (place : Place)
        → option_map settings_of in_box.now ≡ get s.boxes place.box → place.name ≡ name.now
        → MatchResult result (λ done. (r : refusal.Refusal) → PlaceRule r s place)
        (λ q. IsLeastToFail (λ r. PlaceRule r s place) q) }
{
    box_for(in_box, name)?;
    Ok(())
}

/// The box, if the box and the name obey rules 27 to 29. Otherwise the lowest rule that fails. Takes no memory.
pub fn box_for<'a>(in_box: &'a Option<BoxRow>, name: &[u8]) -> Result<&'a BoxRow, Refusal>
    ensures { (s : State) (place : Place)
        → option_map settings_of in_box.entry.now ≡ get s.boxes place.box → place.name ≡ name.now
        → MatchResult result
        (λ b. ((r : refusal.Refusal) → PlaceRule r s place) × (in_box.entry.now ≡ Some b.now))
        (λ q. IsLeastToFail (λ r. PlaceRule r s place) q) }
{
    let Some(row) = in_box else {
        return Err(Refusal::NoSuchBox);
    };
    if name.len() > MOST_NAME_BYTES {
        return Err(Refusal::NameTooLong);
    }
    if !is_name(name) || !name_fits(&row.rule, name) {
        return Err(Refusal::NameNotAllowed);
    }
    Ok(row)
}
