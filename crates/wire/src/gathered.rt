//! A reader whose bytes are read ahead, without waiting.
ghost use Rattle.std.specs.Prelude.{◌≡◌, ◌≢◌, ◌↔◌, ◌⊎◌, ◌<◌, ◌≤◌, ◌+◌, ◌++◌, [], false, length, take, vec_capacity, vec_len, IfErr, IfOk, IfSome, IsErr, IsFalse, IsOk, IsSome, IsTrue, List, None, Some, ℕ};
ghost use Rattle.std.specs.Io.{ReadsAtMost};
ghost use Rattle.std.specs.Io.KnownBytes.{Consumes, IsAtEnd, Keeps, ReadConsumes, prepend_known};
ghost use Rattle.std.specs.IoError.{error_kind};

use crate::shifting::drop_front;
use std::alloc::{AllocError, Global};
use std::io;
use std::io::{ErrorKind, Read};

/// Gives the bytes that were read ahead, then those of its reader. A read that would only wait has not failed.
#[derive(Drop)]
pub struct Gathered<S> {
    /// The reader. Its bytes follow those that were read ahead.
    pub inner: S,
    alloc: Global,
    bytes: Vec<u8>,
    // The number of bytes that were already given.
    start: usize,
    health: Health,
    ghost within: { start ≤ vec_len bytes },
}

/// Whether reads fail.
#[derive(Clone, Copy, Debug)]
pub enum Health {
    /// No read failed.
    Hale,
    /// A read failed with this error. So does each later one, once the bytes that were read ahead are given.
    Failed(io::Error),
    /// `fail` was called. Each read fails at once, with this error: the bytes that were read ahead are given no
    /// more.
    Cut(io::Error),
}

impl Health {
    ghost use Rattle.wire.specs.Gathering.{cut_by, error_of};

    // The error with which reads fail, if they do.
    fn error(self) -> Option<io::Error>
        ensures { result ≡ error_of self }
    {
        match self {
            Health::Hale => None,
            Health::Failed(error) | Health::Cut(error) => Some(error),
        }
    }

    // The error with which each read fails at once, if it does.
    fn cut(self) -> Option<io::Error>
        ensures { result ≡ cut_by self }
    {
        match self {
            Health::Hale | Health::Failed(_) => None,
            Health::Cut(error) => Some(error),
        }
    }
}

/// The result of reading ahead.
#[derive(Clone, Copy, Debug, PartialEq, Eq)]
pub enum Gathering {
    /// Bytes came.
    Came,
    /// No bytes are there now: a read would wait.
    Waits,
    /// The reader is at its end.
    Ended,
    /// A read failed.
    Failed,
}

// Reads once into the buffer, from index `at` on. Returns how many bytes came.
fn read_from<S: Read>(bytes: &mut [u8], at: usize, reader: &mut S) -> io::Result<usize>
    requires { at ≤ length bytes.old }
    ensures came { IfOk result (λ n. (came : List ℕ) × (length came ≡ n) × (at + n ≤ length bytes.new)
        × (take (at + n) bytes.new ≡ take at bytes.old ++ came)
        × Consumes (S.remaining reader.old) (S.remaining reader.new) came) }
    ensures end { IfOk result (λ n. n ≡ 0 → at < length bytes.old → IsAtEnd (S.remaining reader.new)) }
    ensures kept { IfErr result (λ e. (take at bytes.new ≡ take at bytes.old)
        × Keeps (S.remaining reader.old) (S.remaining reader.new)) }
{
    match reader.read(&mut bytes[at..]) {
        Ok(n) => Ok(n),
        Err(error) => Err(error),
    }
}

// Reads once, at most so many bytes, and appends those that came. There is memory for them. Returns how many
// came.
fn read_behind<S: Read>(bytes: &mut Vec<u8>, most: usize, reader: &mut S) -> io::Result<usize>
    requires { vec_len bytes.old + most ≤ vec_capacity bytes.old }
    ensures came { IfOk result (λ n. (came : List ℕ) × (length came ≡ n) × (n ≤ most)
        × (bytes.new.items ≡ bytes.old.items ++ came)
        × Consumes (S.remaining reader.old) (S.remaining reader.new) came) }
    ensures end { IfOk result (λ n. n ≡ 0 → 0 < most → IsAtEnd (S.remaining reader.new)) }
    ensures kept { IfErr result (λ e. (bytes.new.items ≡ bytes.old.items)
        × Keeps (S.remaining reader.old) (S.remaining reader.new)) }
{
    let len = bytes.len();
    if bytes.resize(len + most, 0).is_err() {
        unreachable!();
    }
    match read_from(bytes, len, reader) {
        Ok(n) => {
            bytes.truncate(len + n);
            Ok(n)
        }
        Err(error) => {
            bytes.truncate(len);
            Err(error)
        }
    }
}

impl<S: Read> Gathered<S> {
    ghost use Rattle.wire.specs.Gathering.{Gathers, HasFailed, HasRoomFor, IsCut, KeepsError, KeepsHealth, ahead_in, error_of};

    /// Nothing was read ahead, and no memory is taken.
    pub fn new(alloc: Global, inner: S) -> Gathered<S>
        ensures inner { result.inner ≡ inner }
        ensures ahead { ahead_in result ≡ [] }
        ensures hale { result.health ≡ Health.Hale }
    {
        Gathered {
            inner,
            alloc,
            bytes: Vec::new(alloc),
            start: 0,
            health: Health::Hale,
        }
    }

    /// The bytes that were read ahead and not given yet.
    pub fn ahead(&self) -> &[u8]
        ensures { result.now ≡ ahead_in self.now }
    {
        &self.bytes[self.start..]
    }

    /// Reads once, at most so many bytes, from a reader that does not wait. The bytes that came go behind those
    /// that are ahead. After a failed read it reads no more.
    ///
    /// # Errors
    ///
    /// Memory was refused for as many bytes as may come. Nothing was read then.
    pub fn gather(&mut self, most: usize) -> Result<Gathering, AllocError>
        ensures gathers { Gathers S.remaining self.old self.new result }
        ensures room { HasRoomFor most self.old → IsOk result }
        ensures most { length (ahead_in self.new) ≤ length (ahead_in self.old) + most }
    {
        if self.has_failed() {
            return Ok(Gathering::Failed);
        }
        self.move_to_front();
        self.bytes.reserve_exact(most)?;
        match read_behind(&mut self.bytes, most, &mut self.inner) {
            Ok(0) => Ok(if most == 0 {
                Gathering::Waits
            } else {
                Gathering::Ended
            }),
            Ok(_) => Ok(Gathering::Came),
            Err(error) => {
                if error.kind() == ErrorKind::WouldBlock {
                    return Ok(Gathering::Waits);
                }
                self.note(error);
                Ok(Gathering::Failed)
            }
        }
    }

    /// Whether a read failed or `fail` was called. Each read fails then: once the bytes that were read ahead are
    /// given, or at once after `fail`.
    pub fn has_failed(&self) -> bool
        ensures { IsTrue result ↔ HasFailed self.now }
    {
        self.health.error().is_some()
    }

    /// Whether `fail` was called. Each read fails at once then.
    pub fn is_cut(&self) -> bool
        ensures { IsTrue result ↔ IsCut self.now }
    {
        self.health.cut().is_some()
    }

    /// Makes each read fail at once, with this error or an earlier one: the bytes that were read ahead are given
    /// no more.
    pub fn fail(&mut self, error: io::Error)
        ensures failed { IsCut self.new }
        ensures told { ¬ HasFailed self.old → error_of self.new.health ≡ Some error }
        ensures first { HasFailed self.old → KeepsError self.old self.new }
        ensures ahead { ahead_in self.new ≡ ahead_in self.old }
        ensures inner { self.new.inner ≡ self.old.inner }
    {
        self.health = Health::Cut(self.health.error().unwrap_or(error));
    }

    // Makes each read fail with this error, once the bytes that were read ahead are given. An earlier error
    // stays.
    fn note(&mut self, error: io::Error)
        ensures failed { HasFailed self.new }
        ensures told { ¬ HasFailed self.old → self.new.health ≡ Health.Failed error }
        ensures first { HasFailed self.old → KeepsHealth self.old self.new }
        ensures uncut { IsCut self.new → IsCut self.old }
        ensures ahead { ahead_in self.new ≡ ahead_in self.old }
        ensures inner { self.new.inner ≡ self.old.inner }
    {
        if let Health::Hale = self.health {
            self.health = Health::Failed(error);
        }
    }

    // Keeps the error of a failed read, unless the read would only wait. An earlier error stays.
    fn keep(&mut self, error: io::Error)
        ensures kept { HasFailed self.new ⊎ (error_kind error ≡ ErrorKind.WouldBlock) }
        ensures waits { error_kind error ≡ ErrorKind.WouldBlock → KeepsHealth self.old self.new }
        ensures told { ¬ HasFailed self.old → HasFailed self.new → error_of self.new.health ≡ Some error }
        ensures first { HasFailed self.old → KeepsHealth self.old self.new }
        ensures uncut { IsCut self.new → IsCut self.old }
        ensures ahead { ahead_in self.new ≡ ahead_in self.old }
        ensures inner { self.new.inner ≡ self.old.inner }
    {
        if error.kind() != ErrorKind::WouldBlock {
            self.note(error);
        }
    }

    // Moves the bytes that were not given yet to the front.
    fn move_to_front(&mut self)
        ensures start { self.new.start ≡ 0 }
        ensures capacity { vec_capacity self.new.bytes ≡ vec_capacity self.old.bytes }
        ensures ahead { ahead_in self.new ≡ ahead_in self.old }
        ensures inner { self.new.inner ≡ self.old.inner }
        ensures health { KeepsHealth self.old self.new }
    {
        drop_front(&mut self.bytes, self.start);
        self.start = 0;
    }

    /// Frees the memory if no bytes are ahead.
    pub fn let_go(&mut self)
        ensures ahead { ahead_in self.new ≡ ahead_in self.old }
        ensures inner { self.new.inner ≡ self.old.inner }
        ensures health { KeepsHealth self.old self.new }
    {
        if self.ahead().is_empty() {
            self.bytes = Vec::new(self.alloc);
            self.start = 0;
        }
    }

    // Puts bytes in front of those that were read ahead, if no more than these were given since. Returns
    // whether it did.
    pub(crate) fn put_back(&mut self, bytes: &[u8]) -> bool
        ensures put { IsTrue result → ahead_in self.new ≡ bytes.now ++ ahead_in self.old }
        ensures kept { IsFalse result → ahead_in self.new ≡ ahead_in self.old }
        ensures inner { self.new.inner ≡ self.old.inner }
        ensures health { KeepsHealth self.old self.new }
    {
        if bytes.len() > self.start {
            return false;
        }
        let at = self.start - bytes.len();
        self.bytes[at..self.start].copy_from_slice(bytes);
        self.start = at;
        true
    }

    // Gives the first bytes that were read ahead, as many as fit. Returns how many.
    fn give(&mut self, buf: &mut [u8]) -> usize
        ensures bound { result ≤ length buf.new }
        ensures given { ahead_in self.old ≡ take result buf.new ++ ahead_in self.new }
        ensures some { ahead_in self.old ≢ [] → 0 < length buf.new → 0 < result }
        ensures inner { self.new.inner ≡ self.old.inner }
        ensures health { KeepsHealth self.old self.new }
    {
        let n = self.ahead().len().min(buf.len());
        buf[..n].copy_from_slice(&self.ahead()[..n]);
        self.start += n;
        n
    }
}

impl<S: Read> Read for Gathered<S> {
    ghost use Rattle.wire.specs.Gathering.{HasFailed, IsCut, KeepsHealth, ahead_in, error_of};

    ghost remaining = { λ gathered. prepend_known (ahead_in gathered) (S.remaining gathered.inner) };

    fn read(&mut self, buf: &mut [u8]) -> io::Result<usize>
        ensures bound { ReadsAtMost result buf.new }
        ensures bytes { ReadConsumes (prepend_known (ahead_in self.old) (S.remaining self.old.inner))
            (prepend_known (ahead_in self.new) (S.remaining self.new.inner)) result buf.new }
        ensures cut { IsCut self.old → IsErr result }
        ensures first { ¬ IsCut self.old → ahead_in self.old ≢ [] → IsOk result }
        ensures then { ahead_in self.old ≡ [] → HasFailed self.old → IsErr result }
        ensures failed { HasFailed self.old → KeepsHealth self.old self.new }
        ensures uncut { IsCut self.new → IsCut self.old }
        ensures kept { IfErr result (λ e. HasFailed self.new ⊎ (error_kind e ≡ ErrorKind.WouldBlock)) }
        ensures waits { IfErr result (λ e. error_kind e ≡ ErrorKind.WouldBlock → KeepsHealth self.old self.new) }
        ensures hale { IsOk result → KeepsHealth self.old self.new }
        ensures same { IfErr result (λ e. HasFailed self.new → error_of self.new.health ≡ Some e) }
    {
        if let Some(error) = self.health.cut() {
            return Err(error);
        }
        if !self.ahead().is_empty() {
            return Ok(self.give(buf));
        }
        if let Some(error) = self.health.error() {
            return Err(error);
        }
        let read = self.inner.read(buf);
        if let Err(error) = read {
            self.keep(error);
        }
        read
    }
}
