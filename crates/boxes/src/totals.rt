//! The totals of a box, updated at each change.
ghost use Rattle.std.specs.Prelude.{◌≡◌, ◌<◌, ◌^◌, ◌+◌, length, Some, option_map};
ghost use Rattle.std.specs.FinMap.{get, insert, remove};
ghost use Rattle.boxes.specs.State.{File, Place, State};
ghost use Rattle.boxes.specs.Totals.{used, count};

/// The total length of a box's files, in bytes, and their number.
#[derive(Clone, Copy, PartialEq, Eq)]
pub struct Totals {
    /// In bytes.
    pub used: u64,
    /// In files.
    pub count: u64,
}

impl Totals {
    ghost use Rattle.boxes.specs.Views.{AreTotals};

    /// The totals after a file of length `new` was set. It replaced a file of length `old`, if there was one.
    pub fn set(self, old: Option<u64>, new: u64) -> Totals
        ensures { (s : State) (place : Place) (f : File) → AreTotals s place.box self
            → length f.bytes ≡ new
            → old ≡ option_map (λ g. length g.bytes) (get s.files place)
            → used s place.box + new < 2 ^ 64 → count s place.box + 1 < 2 ^ 64
            → AreTotals (record s { files = insert s.files place f }) place.box result }
    {
        let used = self
            .used
            .saturating_sub(old.unwrap_or(0))
            .saturating_add(new);
        let count = match old {
            Some(_) => self.count,
            None => self.count.saturating_add(1),
        };
        Totals { used, count }
    }

    /// The totals after a file of this length was removed.
    pub fn take_out(self, old: u64) -> Totals
        ensures { (s : State) (place : Place) (f : File) → AreTotals s place.box self
            → get s.files place ≡ Some f → length f.bytes ≡ old
            → AreTotals (record s { files = remove s.files place }) place.box result }
    {
        Totals {
            used: self.used.saturating_sub(old),
            count: self.count.saturating_sub(1),
        }
    }
}
