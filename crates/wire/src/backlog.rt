//! A buffer of bytes that were read ahead.
ghost use Rattle.std.specs.Prelude.{◌≡◌, ◌↔◌, ◌≤◌, ◌<◌, ◌-◌, ◌+◌, ℕ, List, [], ◌++◌, true, false, length, take, drop, option_map, vec_len, IfOk, IfErr, IsTrue, None, OnErr, OnOk};
ghost use Rattle.std.specs.Io.KnownBytes.{Consumes, IsAtEnd, Keeps, prepend_known};
ghost use Rattle.sigtext.specs.Limits.{most_head};
ghost use Rattle.sigtext.specs.Counts.{CountsErrors};
ghost use Rattle.wire.specs.Feeding.{CountsReads};

use crate::counted::Counted;
use crate::fault::WireFault;
use crate::feed::Step;
use crate::head::head_end_behind;
use sigtext::Refusal;
use std::alloc::{AllocError, Global};
use std::io::Read;

/// The size of the buffer in bytes: enough for a head and a piece.
pub const ROOM: usize = 73_728;

/// The greatest length of a head, in bytes.
pub const MOST_HEAD: usize = 8192;

/// A buffer. The bytes from `start` to `end` were read and not taken yet.
#[derive(Drop)]
pub struct Backlog {
    bytes: Vec<u8>,
    start: usize,
    end: usize,
    // How many more bytes may be read now; without end if `None`.
    most: Option<usize>,
    ghost ordered: { start ≤ end },
    ghost within: { end ≤ vec_len bytes },
}

impl Backlog {
    ghost use Rattle.wire.specs.Waiting.{Shows, taken, waiting, AddsFrom, FailsToAdd, IsFree, IsOfReading, SpendsFrom, StaysFree};

    /// An empty backlog without a buffer.
    pub fn new(alloc: Global) -> Backlog
        ensures waiting { waiting result ≡ [] }
        ensures free { IsFree result }
    {
        Backlog {
            bytes: Vec::new(alloc),
            start: 0,
            end: 0,
            most: None,
        }
    }

    /// An empty backlog with a buffer.
    pub fn with_room(alloc: Global) -> Result<Backlog, AllocError>
        ensures waiting { IfOk result (λ b. waiting b ≡ []) }
        ensures room { IfOk result (λ b. vec_len b.bytes ≡ ROOM) }
    {
        Ok(Backlog {
            bytes: vec![in alloc; 0; ROOM]?,
            start: 0,
            end: 0,
            most: None,
        })
    }

    /// Sets how many more bytes may be read now; without end if `None`.
    pub fn allow(&mut self, most: Option<usize>)
        ensures waiting { waiting self.new ≡ waiting self.old }
        ensures room { vec_len self.new.bytes ≡ vec_len self.old.bytes }
        ensures most { self.new.most ≡ most }
    {
        self.most = most;
    }

    /// Allocates the buffer if there is none.
    pub fn make_room(&mut self, alloc: Global) -> Result<(), AllocError>
        requires { waiting self.old ≡ [] }
        ensures waiting { waiting self.new ≡ [] }
        ensures room { OnOk result (vec_len self.new.bytes ≡ ROOM) }
        ensures most { self.new.most ≡ self.old.most }
    {
        if !self.has_room() {
            let most = self.most;
            *self = Backlog::with_room(alloc)?;
            self.allow(most);
        }
        Ok(())
    }

    /// Whether there is a buffer.
    pub fn has_room(&self) -> bool
        ensures { IsTrue result ↔ (vec_len self.now.bytes ≡ ROOM) }
    {
        self.bytes.len() == ROOM
    }

    /// The bytes that were read and not taken yet.
    pub fn waiting(&self) -> &[u8]
        ensures { result.now ≡ waiting self.now }
    {
        &self.bytes[self.start..self.end]
    }

    // The first 8192 waiting bytes, or all of them if there are fewer.
    fn window(&self) -> &[u8]
        ensures { result.now ≡ take most_head (waiting self.now) }
    {
        let waiting = self.waiting();
        &waiting[..waiting.len().min(MOST_HEAD)]
    }

    /// Takes the first n waiting bytes.
    pub fn take(&mut self, n: usize)
        requires { n ≤ length (waiting self.old) }
        ensures taken { taken self.new n ≡ take n (waiting self.old) }
        ensures within { n ≤ self.new.start }
        ensures rest { waiting self.new ≡ drop n (waiting self.old) }
        ensures room { vec_len self.new.bytes ≡ vec_len self.old.bytes }
        ensures most { self.new.most ≡ self.old.most }
    {
        let end = self.end;
        prove!(self.start <= end);
        self.start += n;
    }

    /// Takes all waiting bytes.
    pub fn take_all(&mut self)
        ensures waiting { waiting self.new ≡ [] }
        ensures room { vec_len self.new.bytes ≡ vec_len self.old.bytes }
    {
        let n = self.waiting().len();
        self.take(n);
    }

    /// The n bytes that were taken last.
    pub fn taken(&self, n: usize) -> &[u8]
        requires { n ≤ self.now.start }
        ensures { result.now ≡ taken self.now n }
    {
        &self.bytes[self.start - n..self.start]
    }

    /// Reads once and appends to the waiting bytes. Returns whether any bytes came.
    ///
    /// # Errors
    ///
    /// `Read` if a read failed. `Waits` if no more bytes may be read now; nothing is read then.
    pub fn read_more<R: Read>(&mut self, reader: &mut Counted<R>) -> Result<bool, WireFault>
        requires { length (waiting self.old) < vec_len self.old.bytes }
        ensures came { IfOk result (λ more. AddsFrom R.remaining more self.old self.new reader.old reader.new) }
        ensures fault { IfErr result (λ f. FailsToAdd R.remaining f self.old self.new reader.old reader.new) }
        ensures count { CountsReads result reader.old.faults reader.new.faults }
        ensures free { StaysFree self.old self.new result }
        ensures spends { SpendsFrom R.remaining self.old self.new reader.old reader.new result }
        ensures room { vec_len self.new.bytes ≡ vec_len self.old.bytes }
    {
        if matches!(self.most, Some(0)) {
            return Err(WireFault::Waits);
        }
        self.move_to_front();
        self.read_behind(reader)
    }

    // Moves the waiting bytes to the front of the buffer.
    fn move_to_front(&mut self)
        ensures start { self.new.start ≡ 0 }
        ensures kept { waiting self.new ≡ waiting self.old }
        ensures room { vec_len self.new.bytes ≡ vec_len self.old.bytes }
        ensures most { self.new.most ≡ self.old.most }
    {
        if self.start == 0 {
            return;
        }
        self.bytes.copy_within(self.start..self.end, 0);
        self.end -= self.start;
        self.start = 0;
    }

    // Reads once, after the waiting bytes at the front of the buffer.
    fn read_behind<R: Read>(&mut self, reader: &mut Counted<R>) -> Result<bool, WireFault>
        requires front { self.old.start ≡ 0 }
        requires room { length (waiting self.old) < vec_len self.old.bytes }
        ensures came { IfOk result (λ more. AddsFrom R.remaining more self.old self.new reader.old reader.new) }
        ensures fault { IfErr result (λ f. FailsToAdd R.remaining f self.old self.new reader.old reader.new) }
        ensures count { CountsReads result reader.old.faults reader.new.faults }
        ensures free { StaysFree self.old self.new result }
        ensures spends { SpendsFrom R.remaining self.old self.new reader.old reader.new result }
        ensures room { vec_len self.new.bytes ≡ vec_len self.old.bytes }
    {
        match read_at(&mut self.bytes, self.end, reader) {
            Ok(n) => {
                self.end += n;
                self.most = lessened(self.most, n);
                Ok(n > 0)
            }
            Err(fault) => Err(fault),
        }
    }

    /// Reads until the waiting bytes show where the first head ends, or that there is none. Returns one of
    /// these: the number of bytes through the first CR LF CR LF; refusal 2 if no head ends in the first 8192
    /// bytes; the end of the stream, with no waiting bytes or with less than a head.
    ///
    /// # Errors
    ///
    /// `Read` if a read failed, `Waits` if no more bytes may be read now. The waiting bytes are then less than a
    /// head.
    pub fn read_head<R: Read>(&mut self, reader: &mut Counted<R>) -> Result<Step<usize>, WireFault>
        requires { vec_len self.old.bytes ≡ ROOM }
        ensures shows { Shows result (waiting self.new) (R.remaining reader.new.inner) }
        ensures kept { Keeps (prepend_known (waiting self.old) (R.remaining reader.old.inner))
            (prepend_known (waiting self.new) (R.remaining reader.new.inner)) }
        ensures fault { IfErr result IsOfReading }
        ensures count { CountsReads result reader.old.faults reader.new.faults }
        ensures free { StaysFree self.old self.new result }
        ensures spends { SpendsFrom R.remaining self.old self.new reader.old reader.new result }
        ensures room { vec_len self.new.bytes ≡ ROOM }
    {
        let mut searched = 0;
        'reads: loop {
            if let Some(size) = head_end_behind(self.window(), searched) {
                return Ok(Step::Head(size));
            }
            searched = self.waiting().len();
            if searched >= MOST_HEAD {
                return Ok(Step::Refused(Refusal::HeadTooLong));
            }
            match self.read_more(reader) {
                Ok(true) => {}
                Ok(false) => {
                    return Ok(if searched == 0 {
                        Step::End
                    } else {
                        Step::Truncated
                    });
                }
                Err(fault) => return Err(fault),
            }
        }
    }
}

// How many more bytes may be read after n more were read.
fn lessened(most: Option<usize>, n: usize) -> Option<usize>
    ensures free { most ≡ None → result ≡ None }
    ensures less { result ≡ option_map (λ m. m - n) most }
{
    match most {
        Some(most) => Some(most.saturating_sub(n)),
        None => None,
    }
}

// Reads once into the buffer, from index `at` on.
fn read_at<R: Read>(
    bytes: &mut [u8],
    at: usize,
    reader: &mut Counted<R>,
) -> Result<usize, WireFault>
    requires { at ≤ length bytes.old }
    ensures within { IfOk result (λ n. at + n ≤ length bytes.new) }
    ensures came { IfOk result
        (λ n. (came : List ℕ) × (length came ≡ n)
        × (take (at + n) bytes.new ≡ take at bytes.old ++ came)
        × Consumes (R.remaining reader.old.inner) (R.remaining reader.new.inner) came) }
    ensures end { IfOk result
        (λ n. n ≡ 0 → at < length bytes.old → IsAtEnd (R.remaining reader.new.inner)) }
    ensures fault { IfErr result
        (λ f. (f ≡ WireFault.Read)
        × Keeps (R.remaining reader.old.inner) (R.remaining reader.new.inner)) }
    ensures kept { OnErr result (take at bytes.new ≡ take at bytes.old) }
    ensures count { CountsErrors reader.old.faults reader.new.faults result }
{
    match reader.read(&mut bytes[at..]) {
        Ok(n) => Ok(n),
        Err(_) => Err(WireFault::Read),
    }
}
