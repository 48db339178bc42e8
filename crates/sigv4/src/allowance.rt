//! The allowance: how early a link may begin.
ghost use Rattle.std.specs.Prelude.{◌≡◌, ◌≤◌, ℕ, SomeIff};
ghost use Rattle.sigv4.specs.Allowances.{most_allowance};

use std::marker::Model;

// A quarter of an hour.
const MOST_SECONDS: u64 = 900;

/// How many seconds early a link may begin, for senders whose clocks run ahead: 0 to 900.
#[derive(Clone, Copy, PartialEq, Eq)]
pub struct Allowance {
    seconds: u64,
}

impl Model for Allowance {
    ghost Value = { ℕ };

    ghost view = { λ a. a.seconds };

    ghost invariant = { λ a. a.seconds ≤ most_allowance };

    ghost inverse = { λ n. record { seconds = n } };
}

impl Allowance {
    /// An allowance of this many seconds, if they are at most 900.
    pub fn new(seconds: u64) -> Option<Allowance>
        ensures { SomeIff result (seconds ≤ most_allowance) seconds }
    {
        if seconds <= MOST_SECONDS {
            Some(Allowance { seconds })
        } else {
            None
        }
    }

    /// The allowance of offices that tolerate no clock skew: 0 seconds.
    pub fn none() -> Allowance
        ensures { result ≡ 0 }
    {
        Allowance { seconds: 0 }
    }

    /// The allowance in seconds.
    pub fn seconds(&self) -> u64
        ensures value { result ≡ self.now }
        ensures bound { result ≤ most_allowance }
    {
        self.seconds
    }
}
