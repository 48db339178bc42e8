//! Readers and writers that block or fail at given calls.
use std::alloc::Global;
use std::io;
use std::io::{ErrorKind, Read, Write};

/// The result of a read or a write.
#[derive(Clone, Copy)]
pub(crate) enum Turn {
    /// At most this many bytes are moved.
    Moves(usize),
    /// An error of this kind.
    Fails(ErrorKind),
}

/// Answers its first calls with these turns, and later calls move up to 4096 bytes. Reads give the remaining bytes, and written
/// bytes are kept. Counts its calls.
#[derive(Drop)]
pub(crate) struct Slow<'a> {
    turns: &'a [Turn],
    rest: &'a [u8],
    pub(crate) calls: usize,
    pub(crate) taken: Vec<u8>,
}

impl<'a> Slow<'a> {
    pub(crate) fn new(alloc: Global, turns: &'a [Turn], rest: &'a [u8]) -> Slow<'a> {
        Slow {
            turns,
            rest,
            calls: 0,
            taken: Vec::new(alloc),
        }
    }

    // The most bytes that this call moves.
    fn most(&mut self) -> io::Result<usize> {
        let turn = self.turns.get(self.calls).copied();
        self.calls = self.calls.saturating_add(1);
        match turn {
            Some(Turn::Moves(most)) => Ok(most),
            Some(Turn::Fails(kind)) => Err(io::Error::from(kind)),
            None => Ok(4096),
        }
    }
}

impl Read for Slow<'_> {
    fn read(&mut self, buf: &mut [u8]) -> io::Result<usize> {
        let count = self.most()?.min(buf.len()).min(self.rest.len());
        buf[..count].copy_from_slice(&self.rest[..count]);
        self.rest = &self.rest[count..];
        Ok(count)
    }
}

impl Write for Slow<'_> {
    fn write(&mut self, buf: &[u8]) -> io::Result<usize> {
        let count = self.most()?.min(buf.len());
        self.taken.extend_from_slice(&buf[..count])?;
        Ok(count)
    }

    fn flush(&mut self) -> io::Result<()> {
        Ok(())
    }
}

/// Whether the call failed with this kind of error.
pub(crate) fn fails(call: io::Result<usize>, kind: ErrorKind) -> bool {
    call.is_err_and(|error| error.kind() == kind)
}
