//! Watches the office file while it is served. A file that has outgrown the memory would not open at the next start.
ghost use Rattle.std.specs.Prelude.{◌↔◌, ◌<◌, ◌*◌, IsTrue};

use crate::memory::{memory_bound, memory_taken};
use office::{Clock, MachineClock};
use sigv4::Moment;
use std::alloc::AllocError;
use std::fs::Files;
use std::{fs, time};

/// The bytes of 1 MB.
const MEGABYTE: u64 = 1_000_000;

/// The machine's clock. It checks the length of the office file whenever the second has changed since the last call. Once
/// opening the file would take over half of the memory limit, one line on standard error says so.
#[derive(Drop)]
pub struct WatchingClock<'a, R: time::Clock> {
    rt: &'a R,
    clock: MachineClock<'a, R>,
    file: String,
    // The memory limit. `None` if it is not known, or after the line was written.
    memory: Option<u64>,
    // The memory that opening the file took beyond the file's length.
    more: u64,
    // The moment of the last call.
    last: Option<Moment>,
}

impl<'a, R: time::Clock + Files + AllocGlobal + Eprint> WatchingClock<'a, R> {
    /// The clock for a file that the program has just opened as its first work. Checks the length at once.
    pub(crate) fn new(rt: &'a R, file: &str) -> Result<WatchingClock<'a, R>, AllocError> {
        let length = length_of(rt, file).unwrap_or(0);
        let mut clock = WatchingClock {
            rt,
            clock: MachineClock::new(rt),
            file: format!(in rt.alloc(); "{}", file)?,
            memory: memory_bound(rt),
            more: memory_taken(rt).saturating_sub(length),
            last: None,
        };
        clock.look();
        Ok(clock)
    }

    // Checks the length of the file. Each further byte takes at least one byte of memory.
    fn look(&mut self) {
        let Some(memory) = self.memory else {
            return;
        };
        let Some(length) = length_of(self.rt, self.file.as_str()) else {
            return;
        };
        let needed = length.saturating_add(self.more);
        if is_over_half(needed, memory) {
            warn(self.rt, length, needed, memory);
            self.memory = None;
        }
    }
}

impl<R: time::Clock + Files + AllocGlobal + Eprint> Clock for WatchingClock<'_, R> {
    ghost use Rattle.std.specs.Prelude.{⊤};

    // It may return any moment.
    ghost now_gives = { λ _ _ _. ⊤ };

    fn now(&mut self) -> Moment {
        let moment = self.clock.now();
        if self.last != Some(moment) {
            self.last = Some(moment);
            self.look();
        }
        moment
    }
}

// The length of a file.
fn length_of<R: Files>(rt: &R, file: &str) -> Option<u64> {
    let found = fs::metadata(rt, file).ok()?;
    Some(found.len())
}

// Whether `needed` is over half of `memory`.
fn is_over_half(needed: u64, memory: u64) -> bool
    ensures { IsTrue result ↔ memory < needed * 2 }
{
    memory / 2 < needed
}

// Warns that opening the office file takes over half of the memory. All amounts are in bytes. A failed write is ignored.
fn warn<R: Eprint>(rt: &R, length: u64, needed: u64, memory: u64) {
    let (length, needed, memory) = (length / MEGABYTE, needed / MEGABYTE, memory / MEGABYTE);
    let _ = eprintln!(rt;
        "\
drop: the office file of {length} MB takes {needed} MB of memory to open, over half of the {memory} MB that the server may have: \
a larger one may not open at the next start. Give the server more memory, or go on in a second office (docs/DEPLOY.md, 10)"
    );
}
