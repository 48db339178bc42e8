//! Feeds that were set aside, and the buffers that they share.
ghost use Rattle.std.specs.Prelude.{◌≡◌, ◌≢◌, [], IfOk, vec_len};
ghost use Rattle.wire.specs.Waiting.{waiting};
ghost use Rattle.wire.specs.declared.feed.Place.TheVariants as stands;

use crate::backlog::{Backlog, MOST_HEAD};
use crate::feed::Place;
use crate::gathered::Gathered;
use http_server::Log;
use std::alloc::{AllocError, Global};
use std::io::Read;
use std::mem;

/// A buffer of 73,728 bytes. Each feed uses it in turn while it is served.
#[derive(Drop)]
pub struct Buffer {
    backlog: Backlog,
    ghost empty: { waiting backlog ≡ [] },
    ghost whole: { vec_len backlog.bytes ≡ 73728 },
}

impl Buffer {
    /// Allocates a buffer. The error means that memory was refused.
    pub fn new(alloc: Global) -> Result<Buffer, AllocError> {
        Ok(Buffer {
            backlog: Backlog::with_room(alloc)?,
        })
    }

    // The buffer of this backlog, in which no bytes wait; `None` if it has none.
    fn of(backlog: Backlog) -> Option<Buffer>
        requires { waiting backlog ≡ [] }
    {
        if backlog.has_room() {
            Some(Buffer { backlog })
        } else {
            None
        }
    }
}

/// A block for the text of a head, of `MOST_HEAD` bytes.
pub type HeadBlock = Box<[u8; 8192]>;

/// What a turn takes beside its connection: a buffer, and a block for the text of a head. Either may be
/// missing after a turn.
#[derive(Drop)]
pub struct Spare {
    /// The buffer.
    pub buffer: Option<Buffer>,
    /// The block.
    pub text: Option<HeadBlock>,
}

impl Spare {
    /// Nothing.
    pub fn none() -> Spare {
        Spare {
            buffer: None,
            text: None,
        }
    }

    /// Takes this buffer back, if there is one.
    pub fn take_back(&mut self, buffer: Option<Buffer>) {
        if buffer.is_some() {
            self.buffer = buffer;
        }
    }

    /// Takes over what the other one has.
    pub fn take_over(&mut self, other: Spare) {
        let Spare { buffer, text } = other;
        self.take_back(buffer);
        if text.is_some() {
            self.text = text;
        }
    }

    /// Takes memory for what is missing. The error means that memory was refused.
    pub fn fill(&mut self, alloc: Global) -> Result<(), AllocError> {
        if self.buffer.is_none() {
            self.buffer = Some(Buffer::new(alloc)?);
        }
        if self.text.is_none() {
            self.text = Some(Box::new(alloc, [0; MOST_HEAD])?);
        }
        Ok(())
    }
}

/// A feed that was set aside: where it stands, and the bytes that it read and did not take. It has a buffer
/// only while such bytes wait.
#[derive(Drop)]
pub struct Standing {
    alloc: Global,
    backlog: Backlog,
    place: Place,
    // The pieces of the open body that were given so far.
    given: Log<Backlog, usize>,
    ghost fresh: { place ≡ stands.Fresh → waiting backlog ≡ [] },
    ghost reserved: { place ≢ stands.Over → waiting backlog ≢ [] → vec_len backlog.bytes ≡ 73728 },
}

/// The parts of a feed that is resumed.
#[derive(Drop)]
pub(crate) struct Joined {
    pub(crate) alloc: Global,
    pub(crate) place: Place,
    pub(crate) backlog: Backlog,
    pub(crate) given: Log<Backlog, usize>,
}

impl Standing {
    ghost use Rattle.std.specs.Prelude.{◌++◌, IsSome};
    ghost use Rattle.wire.specs.Feeds.{ahead_of, given_before, pieces_in, stood_at};
    ghost use Rattle.wire.specs.Gathering.{KeepsHealth, ahead_in};

    /// A feed that has read nothing yet. It takes no memory.
    pub fn new(alloc: Global) -> Standing
        ensures place { stood_at result ≡ Place.Fresh }
        ensures ahead { ahead_of result ≡ [] }
        ensures given { given_before result ≡ [] }
    {
        Standing {
            alloc,
            backlog: Backlog::new(alloc),
            place: Place::Fresh,
            given: Log::new(),
        }
    }

    /// Where the feed stands.
    pub fn place(&self) -> Place
        ensures { result ≡ stood_at self.now }
    {
        self.place
    }

    /// The bytes that were read and not taken.
    pub fn ahead(&self) -> &[u8]
        ensures { result.now ≡ ahead_of self.now }
    {
        self.backlog.waiting()
    }

    /// Returns the bytes that were read and not taken to the reader, in front of those that the reader has
    /// ahead, and returns the buffer. It does nothing if they are more than the reader gave since.
    pub fn give_back<S: Read>(&mut self, reader: &mut Gathered<S>) -> Option<Buffer>
        ensures place { stood_at self.new ≡ stood_at self.old }
        ensures given { given_before self.new ≡ given_before self.old }
        ensures kept { ahead_of self.new ++ ahead_in reader.new ≡ ahead_of self.old ++ ahead_in reader.old }
        ensures back { IsSome result → ahead_of self.new ≡ [] }
        ensures inner { reader.new.inner ≡ reader.old.inner }
        ensures health { KeepsHealth reader.old reader.new }
    {
        if !reader.put_back(self.backlog.waiting()) {
            return None;
        }
        self.let_go()
    }

    /// Discards the bytes that were read and not taken. Returns the buffer, if there is one.
    pub fn let_go(&mut self) -> Option<Buffer>
        ensures place { stood_at self.new ≡ stood_at self.old }
        ensures given { given_before self.new ≡ given_before self.old }
        ensures ahead { ahead_of self.new ≡ [] }
    {
        let mut backlog = mem::replace(&mut self.backlog, Backlog::new(self.alloc));
        backlog.take_all();
        Buffer::of(backlog)
    }

    // A feed that stands at `place` with this backlog, and has given these pieces of the open body. The buffer
    // is returned if no bytes wait in it.
    pub(crate) fn parted(
        alloc: Global,
        place: Place,
        backlog: Backlog,
        given: Log<Backlog, usize>,
    ) -> (Standing, Option<Buffer>)
        requires fresh { place ≡ stands.Fresh → waiting backlog ≡ [] }
        requires reserved { place ≢ stands.Over → waiting backlog ≢ [] → vec_len backlog.bytes ≡ 73728 }
        ensures place { stood_at result.0 ≡ place }
        ensures ahead { ahead_of result.0 ≡ waiting backlog }
        ensures given { given_before result.0 ≡ pieces_in given }
    {
        if !backlog.waiting().is_empty() {
            return (
                Standing {
                    alloc,
                    backlog,
                    place,
                    given,
                },
                None,
            );
        }
        let standing = Standing {
            alloc,
            backlog: Backlog::new(alloc),
            place,
            given,
        };
        (standing, Buffer::of(backlog))
    }

    // The parts, with a buffer: the feed's own if bytes wait in it, otherwise the other one.
    pub(crate) fn joined(self, buffer: Buffer) -> Joined
        ensures place { result.place ≡ stood_at self }
        ensures ahead { waiting result.backlog ≡ ahead_of self }
        ensures given { pieces_in result.given ≡ given_before self }
        ensures room { result.place ≢ stands.Over → vec_len result.backlog.bytes ≡ 73728 }
        ensures fresh { result.place ≡ stands.Fresh → waiting result.backlog ≡ [] }
    {
        let Standing {
            alloc,
            backlog,
            place,
            given,
        } = self;
        let backlog = if backlog.waiting().is_empty() {
            buffer.backlog
        } else {
            backlog
        };
        Joined {
            alloc,
            place,
            backlog,
            given,
        }
    }
}
