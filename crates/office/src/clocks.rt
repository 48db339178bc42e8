//! Clocks.
ghost use Rattle.std.specs.Prelude.{◌≡◌, ℕ};

use sigv4::Moment;

/// A clock that tells moments.
pub trait Clock {
    /// The moment that a call may tell, and the clock after it.
    ghost now_gives: { Self → ℕ → Self → Type 0 };

    /// The current moment.
    fn now(&mut self) -> Moment
        ensures { now_gives self.old result self.new };
}

/// A clock that stands still.
#[derive(Clone, Copy)]
pub struct FixedClock {
    moment: Moment,
}

impl FixedClock {
    ghost use Rattle.std.specs.Prelude.{◌≡◌, ℕ, List, length, replicate};
    ghost use Rattle.office.specs.Connections.{TellsMoments};

    /// A clock that always tells this moment.
    pub fn new(moment: Moment) -> FixedClock
        ensures { (moments : List ℕ) (later : FixedClock)
            → TellsMoments ⟦<FixedClock as Clock>⟧.now_gives result moments later
            → moments ≡ replicate (length moments) moment }
    {
        FixedClock { moment }
    }
}

impl Clock for FixedClock {
    ghost use Rattle.std.specs.Prelude.{◌≡◌};

    ghost now_gives = { λ c m d. (m ≡ c.moment) × (d ≡ c) };

    fn now(&mut self) -> Moment {
        self.moment
    }
}

/// A clock that tells the moments of a list in order and repeats the last.
#[derive(Clone, Copy)]
pub struct ListedClock<'a> {
    // The next moment.
    first: Moment,
    // The moments after it.
    others: &'a [Moment],
}

impl<'a> ListedClock<'a> {
    ghost use Rattle.std.specs.Prelude.{◌≡◌, ℕ, List, length};
    ghost use Rattle.office.specs.Clocks.{listed};
    ghost use Rattle.office.specs.Connections.{TellsMoments};

    /// A clock that tells the first moment, then the others in order, and then the last one forever.
    pub fn new(first: Moment, others: &'a [Moment]) -> ListedClock<'a>
        ensures { (moments : List ℕ) (later : ListedClock)
            → TellsMoments ⟦<ListedClock<'a> as Clock>⟧.now_gives result moments later
            → moments ≡ listed (length moments) first others.entry.now }
    {
        ListedClock { first, others }
    }
}

impl Clock for ListedClock<'_> {
    ghost use Rattle.office.specs.Clocks.{TellsNext};

    ghost now_gives = { TellsNext };

    fn now(&mut self) -> Moment {
        let moment = self.first;
        if !self.others.is_empty() {
            self.first = self.others[0];
            self.others = &self.others[1..];
        }
        moment
    }
}
