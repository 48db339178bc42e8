//! Turns that are due. A connection has at most one in each round, and a round at most one that takes long.
use std::alloc::{AllocError, Global};
use std::mem;

/// The slots whose turn is due, oldest first.
#[derive(Drop)]
pub(crate) struct Rounds {
    // The slots of this round.
    now: Vec<usize>,
    // How many of them had their turn.
    at: usize,
    // The slots of the next round.
    later: Vec<usize>,
    // The slots whose turn takes long, oldest first. Each round has one of them, last.
    long: Vec<usize>,
}

impl Rounds {
    /// No turn is due. Memory is taken for this many.
    pub(crate) fn with_capacity(alloc: Global, most: usize) -> Result<Rounds, AllocError> {
        Ok(Rounds {
            now: Vec::with_capacity(alloc, most)?,
            at: 0,
            later: Vec::with_capacity(alloc, most)?,
            long: Vec::with_capacity(alloc, most)?,
        })
    }

    /// Schedules a turn of the slot in the next round. The error means that memory was refused.
    pub(crate) fn push(&mut self, index: usize) -> Result<(), AllocError> {
        self.later.push(index)?;
        Ok(())
    }

    /// Schedules a turn of the slot that takes long. The error means that memory was refused.
    pub(crate) fn push_long(&mut self, index: usize) -> Result<(), AllocError> {
        self.long.push(index)?;
        Ok(())
    }

    /// Schedules a turn of the slot in this round. The error means that memory was refused.
    pub(crate) fn push_now(&mut self, index: usize) -> Result<(), AllocError> {
        self.now.push(index)?;
        Ok(())
    }

    /// The next slot of this round, if one is left.
    pub(crate) fn pop(&mut self) -> Option<usize> {
        let index = *self.now.get(self.at)?;
        self.at = self.at.saturating_add(1);
        Some(index)
    }

    /// Whether the next round is empty.
    pub(crate) fn is_idle(&self) -> bool {
        self.later.is_empty() && self.long.is_empty()
    }

    /// Begins the next round.
    pub(crate) fn begin(&mut self) {
        self.now.clear();
        self.at = 0;
        mem::swap(&mut self.now, &mut self.later);
        if !self.long.is_empty() && self.now.push(self.long[0]).is_ok() {
            self.long.remove(0);
        }
    }
}
