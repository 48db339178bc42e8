//! The interface to a listener and to the two ends of each of its connections.
ghost use Rattle.std.specs.Prelude.{◌≡◌, ◌++◌, ◌∷◌, [], IfErr, IfOk, IfSome, List, is_some, map, true};
ghost use Rattle.wire.specs.Crowds.{those_of};
ghost use Rattle.sockets.specs.Listening.{Event, accepted, closed, missed, opened, unready};

use std::alloc::{AllocError, Global};
use std::io;
use std::io::{ErrorKind, Read, Write};
use std::net::{Shutdown, TcpListener, TcpStream};
use std::os::fd::{AsRawFd, OwnedFd, RawFd};
use std::rc::Rc;
use wire::{Gathered, Outbox, Seat};

/// One end of a connection, for reading from the peer or for writing to it. Neither waits.
pub trait End: Read + Write + Drop {
    /// The file descriptor of its socket.
    fn raw_fd(&self) -> RawFd;

    /// Tells the peer that no more is written. Later writes fail.
    ///
    /// # Errors
    ///
    /// The connection does not exist any more.
    fn end_writes(&self) -> io::Result<()>;

    /// Reads once, through the buffer, from a connection whose session has ended, and discards the bytes.
    /// Returns how many bytes came, or 0 at the end.
    ///
    /// # Errors
    ///
    /// The read failed. `WouldBlock` means that nothing is there now.
    fn throw_away(seat: &Seat<Gathered<Self>, Outbox<Self>>, buf: &mut [u8]) -> io::Result<usize>
        requires { is_some seat.now.end ≡ true };
}

/// A connection whose ends could not be made.
#[derive(Drop)]
pub struct Unready<S> {
    /// The connection, if it still exists.
    pub stream: Option<S>,
    /// The reason.
    pub error: io::Error,
}

/// A listener whose connections are served.
pub trait Listener: AsRawFd + Drop {
    /// A connection, as it was accepted.
    type Stream: Drop;

    /// One end of a connection.
    type End: End;

    /// What the listener did so far, in order.
    ghost told: { Self → List (Event Self.Stream Self.End) → Type 0 };

    /// The two ends of a connection: the first is read, the second is written to.
    ghost are_ends: { Self.Stream → Self.End → Self.End → Type 0 };

    /// Sets whether `accept` returns at once when no connection is there.
    ///
    /// # Errors
    ///
    /// The system refused it.
    fn set_nonblocking(&self, nonblocking: bool) -> io::Result<()>;

    /// Accepts a connection. `None` if none is there now.
    ///
    /// # Errors
    ///
    /// A connection could not be accepted.
    fn accept(&mut self) -> io::Result<Option<Self::Stream>>
        ensures came { IfOk result (λ found. (log : List (Event Self.Stream Self.End))
            → told self.old log → told self.new (log ++ map accepted (those_of found))) }
        ensures missed { IfErr result (λ e. (log : List (Event Self.Stream Self.End))
            → told self.old log → told self.new (log ++ missed e ∷ [])) };

    /// Returns the two ends of a connection. Its reads and writes do not wait from now on.
    ///
    /// # Errors
    ///
    /// Memory was refused, or the system refused it.
    fn open(
        &mut self,
        alloc: Global,
        stream: Self::Stream,
    ) -> Result<(Self::End, Self::End), Unready<Self::Stream>>
        ensures ends { IfOk result (λ ends. are_ends stream ends.0 ends.1) }
        ensures opened { IfOk result (λ ends. (log : List (Event Self.Stream Self.End))
            → told self.old log → told self.new (log ++ opened ends.0 ends.1 ∷ [])) }
        ensures back { IfErr result (λ e. IfSome e.stream (λ same. same ≡ stream)) }
        ensures unready { IfErr result (λ e. (log : List (Event Self.Stream Self.End))
            → told self.old log → told self.new (log ++ unready e.stream e.error ∷ [])) };

    /// Takes back a connection and closes it.
    fn close(&mut self, seat: Seat<Gathered<Self::End>, Outbox<Self::End>>)
        ensures closed { (log : List (Event Self.Stream Self.End))
            → told self.old log → told self.new (log ++ closed seat ∷ []) };
}

/// One end of a TCP connection. The socket is closed when both ends are dropped.
#[derive(Drop)]
pub struct TcpEnd {
    stream: Rc<TcpStream>,
    // Whether a read found the end of the stream. No read follows it.
    has_ended: bool,
}

impl TcpEnd {
    // An end of this connection, of which nothing was read yet.
    fn new(stream: Rc<TcpStream>) -> TcpEnd
        ensures { result.stream ≡ stream }
    {
        TcpEnd {
            stream,
            has_ended: false,
        }
    }
}

impl Read for TcpEnd {
    fn read(&mut self, buf: &mut [u8]) -> io::Result<usize> {
        if self.has_ended {
            return Ok(0);
        }
        let mut stream: &TcpStream = &self.stream;
        let count = stream.read(buf)?;
        self.has_ended = count == 0 && !buf.is_empty();
        Ok(count)
    }
}

impl Write for TcpEnd {
    fn write(&mut self, buf: &[u8]) -> io::Result<usize> {
        let mut stream: &TcpStream = &self.stream;
        stream.write(buf)
    }

    fn flush(&mut self) -> io::Result<()> {
        Ok(())
    }
}

impl End for TcpEnd {
    fn raw_fd(&self) -> RawFd {
        self.stream.as_raw_fd()
    }

    fn end_writes(&self) -> io::Result<()> {
        self.stream.shutdown(Shutdown::Write)
    }

    fn throw_away(
        seat: &Seat<Gathered<TcpEnd>, Outbox<TcpEnd>>,
        buf: &mut [u8],
    ) -> io::Result<usize> {
        let mut stream: &TcpStream = &seat.reader.inner.inner.stream;
        stream.read(buf)
    }
}

/// Turns off Nagle's algorithm (`TCP_NODELAY`) for the connections that the listener accepts from now on.
///
/// # Errors
///
/// The system refused it, or descriptors are short.
pub fn send_at_once(listener: &TcpListener) -> io::Result<()> {
    // On Linux an accepted socket inherits this setting from its listener.
    let same = TcpStream::from(OwnedFd::from(listener.try_clone()?));
    same.set_nodelay(true)
}

// Makes two ends that own the stream together. If memory is refused, returns the stream if it still exists.
fn share(alloc: Global, stream: TcpStream) -> Result<(TcpEnd, TcpEnd), Option<TcpStream>>
    ensures ends { IfOk result (λ ends. (ends.0.stream.value ≡ stream) × (ends.1.stream.value ≡ stream)) }
    ensures back { IfErr result (λ back. IfSome back (λ same. same ≡ stream)) }
{
    let first = match Rc::new(alloc, stream) {
        Ok(first) => first,
        Err(failed) => return Err(Some(failed.value)),
    };
    match first.clone() {
        Ok(second) => Ok((TcpEnd::new(first), TcpEnd::new(second))),
        Err(AllocError) => Err(None),
    }
}

impl Listener for TcpListener {
    type Stream = TcpStream;

    type End = TcpEnd;

    ghost use Rattle.std.specs.Prelude.{◌≡◌, List, ⊤};
    ghost use Rattle.sockets.specs.Listening.{Event};

    ghost told = { λ _ _. ⊤ };

    ghost are_ends = { λ stream one other. (one.stream.value ≡ stream) × (other.stream.value ≡ stream) };

    fn set_nonblocking(&self, nonblocking: bool) -> io::Result<()> {
        TcpListener::set_nonblocking(self, nonblocking)
    }

    fn accept(&mut self) -> io::Result<Option<TcpStream>> {
        match TcpListener::accept(self) {
            Ok((stream, _)) => Ok(Some(stream)),
            Err(error) if error.kind() == ErrorKind::WouldBlock => Ok(None),
            Err(error) => Err(error),
        }
    }

    fn open(
        &mut self,
        alloc: Global,
        stream: TcpStream,
    ) -> Result<(TcpEnd, TcpEnd), Unready<TcpStream>> {
        if let Err(error) = stream.set_nonblocking(true) {
            let stream = Some(stream);
            return Err(Unready { stream, error });
        }
        match share(alloc, stream) {
            Ok(ends) => Ok(ends),
            Err(stream) => {
                let error = io::Error::from(ErrorKind::OutOfMemory);
                Err(Unready { stream, error })
            }
        }
    }

    fn close(&mut self, seat: Seat<Gathered<TcpEnd>, Outbox<TcpEnd>>)
        ensures closed { (log : List (Event TcpStream TcpEnd)) → ⊤ → ⊤ }
    {
        drop(seat);
    }
}
