//! A writer that is never waited for. Bytes that it does not take yet wait in memory.
ghost use Rattle.std.specs.Prelude.{◌≡◌, ◌≢◌, ◌↔◌, ◌≤◌, ◌<◌, ◌++◌, ◌⊎◌, ℕ, List, [], length, take, vec_len, IsErr, IfErr, IfNone, IfOk, IfSome, IsTrue, OnErr, OnOk};
ghost use Rattle.std.specs.Io.{WritesAtMost};
ghost use Rattle.std.specs.Io.KnownBytes.{Appends, Keeps, WriteAppends, append_known};
ghost use Rattle.std.specs.IoError.{error_kind};
ghost use Rattle.std.specs.Option.{ForSome};
ghost use Rattle.wire.specs.Passing.{MayPass};

use crate::shifting::drop_front;
use std::alloc::{AllocError, Global};
use std::io;
use std::io::{ErrorKind, Write};

/// Takes bytes for a writer that may not accept them now. These wait in memory, and `send` sends them. A
/// write that fails, or takes nothing of a non-empty buffer, ends the writing: its error is kept, and each
/// later write returns it.
#[derive(Drop)]
pub struct Outbox<S> {
    /// The writer. The waiting bytes follow those that it holds.
    pub inner: S,
    alloc: Global,
    bytes: Vec<u8>,
    // The number of bytes that were already sent.
    start: usize,
    fault: Option<io::Error>,
    ghost within: { start ≤ vec_len bytes },
    ghost lasting: { ForSome fault (λ e. ¬ MayPass (error_kind e)) },
}

/// The state of an outbox.
#[derive(Clone, Copy, Debug, PartialEq, Eq)]
pub enum Sending {
    /// All bytes were sent.
    Sent,
    /// Some bytes wait. The writer may take them later.
    Waits,
    /// A write failed, or took nothing of a non-empty buffer.
    Failed,
}

impl<S: Write> Outbox<S> {
    ghost use Rattle.wire.specs.Outgoing.{NoneFailed, WriteFailed, handed_over, waits_out};

    /// Nothing waits, and no memory is taken.
    pub fn new(alloc: Global, inner: S) -> Outbox<S>
        ensures inner { result.inner ≡ inner }
        ensures waiting { waits_out result ≡ [] }
        ensures hale { NoneFailed result }
    {
        Outbox {
            inner,
            alloc,
            bytes: Vec::new(alloc),
            start: 0,
            fault: None,
        }
    }

    /// The bytes that were accepted and not sent yet.
    pub fn waiting(&self) -> &[u8]
        ensures { result.now ≡ waits_out self.now }
    {
        &self.bytes[self.start..]
    }

    /// Whether a write failed, or took nothing of a non-empty buffer. The waiting bytes are then never sent.
    pub fn has_failed(&self) -> bool
        ensures { IsTrue result ↔ WriteFailed self.now }
    {
        self.fault.is_some()
    }

    /// Offers the waiting bytes, if there are any, to the writer once. Frees the memory if no bytes wait any
    /// more.
    pub fn send(&mut self) -> Sending
        ensures sent { result ≡ Sending.Sent ↔ ((waits_out self.new ≡ []) × NoneFailed self.new) }
        ensures failed { result ≡ Sending.Failed ↔ WriteFailed self.new }
        ensures takes { (bytes : List ℕ) × (waits_out self.old ≡ bytes ++ waits_out self.new)
            × Appends (S.contents self.old.inner) (S.contents self.new.inner) bytes }
        ensures contents { Keeps (handed_over S.contents self.old) (handed_over S.contents self.new) }
        ensures kept { WriteFailed self.old → WriteFailed self.new }
    {
        if self.fault.is_some() {
            return Sending::Failed;
        }
        let waiting = &self.bytes[self.start..];
        if waiting.is_empty() {
            return self.settle();
        }
        match offer(&mut self.inner, waiting) {
            Ok(Some(n)) => {
                self.start += n;
                self.settle()
            }
            Ok(None) => Sending::Waits,
            Err(error) => {
                self.fault = Some(error);
                Sending::Failed
            }
        }
    }

    // The state if no write failed. Frees the memory if no bytes wait.
    fn settle(&mut self) -> Sending
        ensures sent { result ≡ Sending.Sent ↔ (waits_out self.old ≡ []) }
        ensures hale { result ≢ Sending.Failed }
        ensures waiting { waits_out self.new ≡ waits_out self.old }
        ensures inner { self.new.inner ≡ self.old.inner }
        ensures fault { self.new.fault ≡ self.old.fault }
    {
        if !self.waiting().is_empty() {
            return Sending::Waits;
        }
        self.bytes = Vec::new(self.alloc);
        self.start = 0;
        Sending::Sent
    }

    // Appends the bytes to those that wait.
    fn keep(&mut self, bytes: &[u8]) -> Result<(), AllocError>
        ensures kept { OnOk result (waits_out self.new ≡ waits_out self.old ++ bytes.now) }
        ensures refused { OnErr result (waits_out self.new ≡ waits_out self.old) }
        ensures inner { self.new.inner ≡ self.old.inner }
        ensures fault { self.new.fault ≡ self.old.fault }
    {
        drop_front(&mut self.bytes, self.start);
        self.start = 0;
        self.bytes.extend_from_slice(bytes)
    }
}

impl<S: Write> Write for Outbox<S> {
    ghost use Rattle.wire.specs.Outgoing.{WriteFailed, handed_over, waits_out};

    ghost contents = { λ outbox. append_known (S.contents outbox.inner) (waits_out outbox) };

    /// If no bytes wait, offers these to the writer once and returns how many it took. If it takes none now,
    /// or others wait, all of these wait too.
    ///
    /// # Errors
    ///
    /// The error that ended the writing, at that write and each later one; `WriteZero` if the writer took
    /// nothing of a non-empty buffer. `OutOfMemory` if memory was refused for bytes that would wait: none of
    /// them was taken then, and the writing has not ended.
    fn write(&mut self, buf: &[u8]) -> io::Result<usize>
        ensures bound { WritesAtMost result buf.now }
        ensures bytes { WriteAppends (handed_over S.contents self.old)
            (handed_over S.contents self.new) result buf.now }
        ensures some { IfOk result (λ n. 0 < length buf.now → 0 < n) }
        ensures failed { WriteFailed self.old → (IsErr result × WriteFailed self.new) }
        ensures kept { IfErr result
            (λ e. WriteFailed self.new ⊎ (error_kind e ≡ ErrorKind.OutOfMemory)) }
        ensures lasting { IfErr result (λ e. ¬ MayPass (error_kind e)) }
        ensures refused { OnErr result (waits_out self.new ≡ waits_out self.old) }
    {
        if let Some(error) = self.fault {
            return Err(error);
        }
        if self.waiting().is_empty() {
            match offer(&mut self.inner, buf) {
                Ok(Some(n)) => return Ok(n),
                Ok(None) => {}
                Err(error) => {
                    self.fault = Some(error);
                    return Err(error);
                }
            }
        }
        self.keep(buf)?;
        Ok(buf.len())
    }

    /// Sends nothing. Returns the error that ended the writing, if one did.
    fn flush(&mut self) -> io::Result<()>
        ensures bytes { Keeps (handed_over S.contents self.old) (handed_over S.contents self.new) }
        ensures failed { WriteFailed self.old ↔ IsErr result }
        ensures same { self.new ≡ self.old }
    {
        match self.fault {
            Some(error) => Err(error),
            None => Ok(()),
        }
    }
}

// Offers the bytes to a writer once. Returns how many it took, or `None` if it takes none now. Any other
// error is returned, and `WriteZero` if it took nothing of a non-empty buffer.
fn offer<S: Write>(writer: &mut S, bytes: &[u8]) -> io::Result<Option<usize>>
    ensures some { IfOk result (λ taken. IfSome taken (λ n. 0 < length bytes.now → 0 < n)) }
    ensures taken { IfOk result (λ taken. IfSome taken (λ n. (n ≤ length bytes.now)
        × Appends (S.contents writer.old) (S.contents writer.new) (take n bytes.now))) }
    ensures none { IfOk result (λ taken. IfNone taken
        (Keeps (S.contents writer.old) (S.contents writer.new))) }
    ensures lasting { IfErr result (λ e. ¬ MayPass (error_kind e)) }
    ensures err { OnErr result (Keeps (S.contents writer.old) (S.contents writer.new)) }
{
    match writer.write(bytes) {
        Ok(0) if !bytes.is_empty() => Err(io::Error::from(ErrorKind::WriteZero)),
        Ok(n) => Ok(Some(n)),
        Err(error) if is_passing(error.kind()) => Ok(None),
        Err(error) => Err(error),
    }
}

// Whether a write may succeed later after this kind of error.
fn is_passing(kind: ErrorKind) -> bool
    ensures { IsTrue result ↔ MayPass kind }
{
    matches!(kind, ErrorKind::WouldBlock | ErrorKind::Interrupted)
}
