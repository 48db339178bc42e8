//! Cuts a stream into messages, with bodies in pieces.
ghost use Rattle.std.specs.Prelude.{◌≡◌, ◌≢◌, ◌≤◌, ◌<◌, ◌-◌, ℕ, Bool, List, [], ◌++◌, length, take, drop, vec_len};
ghost use Rattle.std.specs.Borrow.{sem};
ghost use Rattle.std.specs.Io.BufRead.{Rests};
ghost use Rattle.httparse.specs.Grammar.{RequestHead};
ghost use Rattle.sigtext.specs.Limits.{most_body};
ghost use Rattle.wire.specs.Framing.{IsFront, Next, Message, Refused, request_of};
ghost use Rattle.wire.specs.Judging.{HeadAnnounces};
ghost use Rattle.wire.specs.Feeding.{CountsReads, GivesPiece, GivesStep, Halfway, part, told};
ghost use Rattle.wire.specs.Waiting.{StaysFree, waiting};
ghost use Rattle.wire.specs.Cutting.{piece_size, taken_from};
ghost use Rattle.wire.specs.Openings.{OpensWith};
ghost use Rattle.wire.specs.declared.feed.Place.TheVariants as stands;
ghost use mir.Syntax.{named};

use crate::backlog::{Backlog, MOST_HEAD};
use crate::counted::Counted;
use crate::cutting::{cut_piece, find};
use crate::fault::WireFault;
use crate::head::{Head, MOST_FIELDS};
use crate::standing::{Buffer, Standing};
use http_server::Log;
use sigtext::{Field, Refusal};
use std::alloc::Global;
use std::io::Read;
use std::mem;

/// The head of a message.
#[derive(Clone, Copy)]
pub struct Opening<'a> {
    /// The whole head, through CR LF CR LF. At most 8192 bytes.
    pub text: &'a [u8],
    /// The method, the target and the number of fields.
    pub head: Head<'a>,
    /// Whether a Content-Length was given.
    pub has_length: bool,
    /// The length of the body in bytes.
    pub length: usize,
}

/// What comes where a message may begin.
#[derive(Drop)]
pub enum Step<T> {
    /// A head. Its body follows in pieces.
    Head(T),
    /// The stream breaks a rule of framing, 1 to 5.
    Refused(Refusal),
    /// The stream ended, or the feed has ended.
    End,
    /// The stream ended within a head.
    Truncated,
}

/// A piece of a body.
#[derive(Drop)]
pub enum Piece<T> {
    /// The next 1 to 65536 bytes.
    Bytes(T),
    /// The body is complete, or no body is open.
    Done,
    /// The stream ended within the body: refusal 6.
    Refused(Refusal),
}

/// Where a feed stands.
#[derive(Clone, Copy)]
pub enum Place {
    /// Before the first `next`. There is no buffer yet.
    Fresh,
    /// Where a message may begin.
    Between,
    /// In a body with this many bytes to come.
    Body(usize),
    /// At its end.
    Over,
}

impl Place {
    ghost use Rattle.wire.specs.Feeding.{stands_after};
    ghost use Rattle.wire.specs.Feeds.{resumed_at};

    // Where a feed stands after this fault: it goes on only if no more bytes may be read now.
    fn after(self, fault: WireFault) -> Place
        ensures { result ≡ stands_after self fault }
    {
        match fault {
            WireFault::Waits => self,
            WireFault::Read | WireFault::Write | WireFault::Memory => Place::Over,
        }
    }

    // Where a feed stands that is resumed over a buffer.
    fn resumed(self) -> Place
        ensures { result ≡ resumed_at self }
    {
        match self {
            Place::Fresh | Place::Between => Place::Between,
            Place::Body(to_come) => Place::Body(to_come),
            Place::Over => Place::Over,
        }
    }
}

/// Cuts the bytes of a reader into messages.
#[derive(Drop)]
pub struct Feed<'r, R> {
    reader: &'r mut Counted<R>,
    alloc: Global,
    backlog: Backlog,
    place: Place,
    // The pieces of the open body that were given so far.
    given: Log<Backlog, usize>,
    ghost fresh: { place ≡ stands.Fresh → waiting backlog ≡ [] },
    ghost reserved: { place ≢ stands.Fresh → place ≢ stands.Over → vec_len backlog.bytes ≡ 73728 },
}

impl<'r, R: Read> Feed<'r, R> {
    ghost use Rattle.wire.specs.contracts.feed.Feed.{the_row};
    ghost use Rattle.wire.specs.Feeds.{GivesOn, SameReader, SpendsIn, ahead_of, given_before, given_of, left, place_of, reader_of, resumed_at, stood_at, waits_in};
    ghost use Rattle.wire.specs.Waiting.{IsFree};

    /// Reads nothing and takes no memory.
    pub fn new(alloc: Global, reader: &'r mut Counted<R>) -> Feed<'r, R>
        ensures same { result.reader.ghost_name ≡ reader.entry.ghost_name }
        ensures reader { reader_of result ≡ reader.old }
        ensures place { place_of result ≡ Place.Fresh }
        ensures waiting { waits_in result ≡ [] }
        ensures given { given_of result ≡ [] }
        ensures free { IsFree result.backlog }
    {
        Feed {
            reader,
            alloc,
            backlog: Backlog::new(alloc),
            place: Place::Fresh,
            given: Log::new(),
        }
    }

    /// Resumes a feed that was set aside, over the same reader. The feed uses the buffer, or drops it if its
    /// own holds waiting bytes. So it has a buffer and takes no memory, also if nothing was read yet. At most
    /// `most` bytes are read, or any number if it is `None`.
    pub fn resume(
        standing: Standing,
        buffer: Buffer,
        most: Option<usize>,
        reader: &'r mut Counted<R>,
    ) -> Feed<'r, R>
        ensures same { result.reader.ghost_name ≡ reader.entry.ghost_name }
        ensures reader { reader_of result ≡ reader.old }
        ensures place { place_of result ≡ resumed_at (stood_at standing) }
        ensures waiting { waits_in result ≡ ahead_of standing }
        ensures given { given_of result ≡ given_before standing }
        ensures most { result.backlog.most ≡ most }
    {
        let parts = standing.joined(buffer);
        let mut backlog = parts.backlog;
        backlog.allow(most);
        Feed {
            reader,
            alloc: parts.alloc,
            backlog,
            place: parts.place.resumed(),
            given: parts.given,
        }
    }

    /// Returns where the feed stands and what it read ahead, for a later feed over the same reader, and the
    /// buffer if no bytes wait in it. This feed is then over. `into_reader` gives its reader back.
    pub fn set_aside(&mut self) -> (Standing, Option<Buffer>)
        ensures same { SameReader self.old self.new }
        ensures reader { reader_of self.new ≡ reader_of self.old }
        ensures place { stood_at result.0 ≡ place_of self.old }
        ensures waiting { ahead_of result.0 ≡ waits_in self.old }
        ensures given { given_before result.0 ≡ given_of self.old }
        ensures over { place_of self.new ≡ Place.Over }
        ensures left_none { waits_in self.new ≡ [] }
    {
        let place = self.place;
        self.place = Place::Over;
        let backlog = mem::replace(&mut self.backlog, Backlog::new(self.alloc));
        let given = mem::replace(&mut self.given, Log::new());
        Standing::parted(self.alloc, place, backlog, given)
    }

    /// Gives the reader back. Call it at the end: nothing is known of the reader of a feed that is only
    /// dropped.
    pub fn into_reader(self) -> &'r mut Counted<R>
        ensures same { result.ghost_name ≡ self.entry.reader.ghost_name }
        ensures now { result.now ≡ reader_of self.entry }
    {
        self.reader
    }

    /// The next head, or what comes instead. The text of the head goes to the front of `text`, and its fields
    /// to the front of `fields`. Returns `End` if a body is open or the feed has ended. After anything but a
    /// head or `Waits` the feed has ended.
    ///
    /// # Errors
    ///
    /// `Read` if a read failed. `Memory` if memory was refused for the buffer, which is allocated in the
    /// first call only. `Waits` if no more bytes may be read now.
    pub fn next<'t>(
        &mut self,
        text: &'t mut [u8; MOST_HEAD],
        fields: &mut [Field<'t>; MOST_FIELDS],
    ) -> Result<Step<Opening<'t>>, WireFault>
        ensures same { SameReader self.old self.new }
        ensures step { GivesStep (place_of self.old) (left R.remaining self.old)
            (told result) (place_of self.new) (waits_in self.new)
            (R.remaining (reader_of self.new).inner) }
        ensures parts { OpensWith fields.new result }
        ensures count { CountsReads result (reader_of self.old).faults (reader_of self.new).faults }
        ensures given { given_of self.new ≡ [] }
        ensures free { StaysFree self.old.backlog self.new.backlog result }
        ensures spends { SpendsIn R.remaining self.old self.new result }
    {
        self.given = Log::new();
        match self.place {
            Place::Fresh => {
                if self.backlog.make_room(self.alloc).is_err() {
                    self.place = Place::Over;
                    return Err(WireFault::Memory);
                }
            }
            Place::Between => {}
            Place::Body(_) | Place::Over => {
                self.place = Place::Over;
                return Ok(Step::End);
            }
        }
        let found = find(&mut self.backlog, self.reader, text, fields);
        self.place = match found {
            Ok(Step::Head(opening)) => Place::Body(opening.length),
            Ok(_) => Place::Over,
            Err(fault) => Place::Between.after(fault),
        };
        found
    }

    /// The next piece of the open body, of 1 to 65536 bytes. `Done` if no body is open.
    ///
    /// # Errors
    ///
    /// `Read` if a read failed; the feed has then ended. `Waits` if no more bytes may be read now.
    pub fn piece(&mut self) -> Result<Piece<&[u8]>, WireFault>
        ensures* after { sem 𝓛
            (Rests (the_row (record { mir = named 1; lft = [] }) R.row) self.entry (λ new.
            SameReader self.old new
            × GivesPiece (place_of self.old) (left R.remaining self.old) (part result)
            (place_of new) (waits_in new) (R.remaining (reader_of new).inner)
            × CountsReads result (reader_of self.old).faults (reader_of new).faults
            × GivesOn (given_of self.old) (part result) (given_of new)
            × StaysFree self.old.backlog new.backlog result
            × SpendsIn R.remaining self.old new result)) }
    {
        Ok(match self.go_on()? {
            Piece::Bytes(size) => Piece::Bytes(self.backlog.taken(size)),
            Piece::Done => Piece::Done,
            Piece::Refused(refusal) => Piece::Refused(refusal),
        })
    }

    // Takes the next piece. Returns its length.
    fn go_on(&mut self) -> Result<Piece<usize>, WireFault>
        ensures same { SameReader self.old self.new }
        ensures piece { GivesPiece (place_of self.old) (left R.remaining self.old)
            (taken_from self.new.backlog result) (place_of self.new) (waits_in self.new)
            (R.remaining (reader_of self.new).inner) }
        ensures size { piece_size result ≤ self.new.backlog.start }
        ensures count { CountsReads result (reader_of self.old).faults (reader_of self.new).faults }
        ensures given { GivesOn (given_of self.old) (taken_from self.new.backlog result) (given_of self.new) }
        ensures free { StaysFree self.old.backlog self.new.backlog result }
        ensures spends { SpendsIn R.remaining self.old self.new result }
    {
        let Place::Body(to_come) = self.place else {
            self.given = Log::new();
            return Ok(Piece::Done);
        };
        if to_come == 0 {
            self.given = Log::new();
            self.place = Place::Between;
            return Ok(Piece::Done);
        }
        match cut_piece(&mut self.backlog, self.reader, to_come) {
            Ok(0) => {
                self.place = Place::Over;
                Ok(Piece::Refused(Refusal::BodyIncomplete))
            }
            Ok(size) => {
                self.given = self.given.and(&self.backlog, &size);
                self.place = Place::Body(to_come - size);
                Ok(Piece::Bytes(size))
            }
            Err(fault) => {
                self.place = self.place.after(fault);
                Err(fault)
            }
        }
    }
}

/// The laws of pieces. A head begins a body. Each piece, no longer than what is to come, continues it. If
/// enough bytes follow, the pieces joined are the body of the next message; otherwise the next step is
/// refusal 6.
pub fn pieces_join()
    ensures begins { (stream text rest : List ℕ) (head : RequestHead) (has_length : Bool) (n : ℕ)
        → IsFront stream text rest → HeadAnnounces text head has_length n → n ≤ most_body
        → Halfway stream head has_length n [] n rest }
    ensures goes_on { (stream : List ℕ) (head : RequestHead) (has_length : Bool) (size : ℕ)
        (given : List ℕ) (n : ℕ) (bytes rest : List ℕ)
        → Halfway stream head has_length size given n (bytes ++ rest) → length bytes ≤ n
        → Halfway stream head has_length size (given ++ bytes) (n - length bytes) rest }
    ensures whole { (stream : List ℕ) (head : RequestHead) (has_length : Bool) (size : ℕ)
        (given rest : List ℕ)
        → Halfway stream head has_length size given 0 rest
        → Next stream (Message (request_of head has_length given)) rest }
    ensures lacking { (stream : List ℕ) (head : RequestHead) (has_length : Bool) (size : ℕ)
        (given : List ℕ) (n : ℕ) (rest : List ℕ)
        → Halfway stream head has_length size given n rest → length rest < n
        → Next stream (Refused Refusal.BodyIncomplete) [] }
    ensures enough { (stream : List ℕ) (head : RequestHead) (has_length : Bool) (size : ℕ)
        (given : List ℕ) (n : ℕ) (rest : List ℕ)
        → Halfway stream head has_length size given n rest → n ≤ length rest
        → Next stream (Message (request_of head has_length (given ++ take n rest))) (drop n rest) }
{}
