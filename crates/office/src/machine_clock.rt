//! The clock of the machine that runs the program.
ghost use Rattle.std.specs.Prelude.{◌≡◌, min};

use crate::clocks::Clock;
use sigv4::Moment;
use std::time;
use std::time::SystemTime;

/// 9999-12-31T23:59:59Z, in seconds since 1970.
const LAST_SECOND: u64 = 253_402_300_799;

/// The machine's clock, in whole seconds of UTC. It tells the first moment before 1970 or if the clock can't
/// be read, and the last moment after 9999.
#[derive(Clone, Copy)]
pub struct MachineClock<'a, R: time::Clock> {
    rt: &'a R,
}

impl<'a, R: time::Clock> MachineClock<'a, R> {
    /// The clock of the machine that runs the program.
    pub fn new(rt: &'a R) -> MachineClock<'a, R> {
        MachineClock { rt }
    }
}

impl<R: time::Clock> Clock for MachineClock<'_, R> {
    ghost use Rattle.std.specs.Prelude.{◌≡◌};

    // It may tell any moment.
    ghost now_gives = { λ c m d. d ≡ c };

    fn now(&mut self) -> Moment {
        moment_at(seconds_of(self.rt))
    }
}

// The machine's seconds since 1970; 0 before 1970 or if its clock can't be read.
fn seconds_of<R: time::Clock>(rt: &R) -> u64 {
    let Ok(time) = SystemTime::now(rt) else {
        return 0;
    };
    match time.duration_since(SystemTime::UNIX_EPOCH) {
        Ok(since) => since.as_secs(),
        Err(_) => 0,
    }
}

// The moment with these seconds, at most the last moment.
fn moment_at(seconds: u64) -> Moment
    ensures { result ≡ min seconds 253402300799 }
{
    match Moment::new(seconds.min(LAST_SECOND)) {
        Some(moment) => moment,
        None => unreachable!(),
    }
}
