//! Readers that are read ahead, and writers with buffered bytes. No call blocks.
use crate::slow::{Slow, Turn, fails};
use std::alloc::Global;
use std::io;
use std::io::{ErrorKind, Read, Write};
use std::process::Abort;
use std::test::Fail;
use wire::{
    Buffer, Counted, Feed, Gathered, Gathering, MOST_FIELDS, MOST_HEAD, NO_FIELD, Outbox, Sending,
    Standing, Step, message_len,
};

const TEXT: &[u8] = b"GET /a HTTP/1.1\r\n\r\nGET /b HTTP/1.1\r\n\r\n";

#[test]
fn what_was_gathered_comes_first(rt: HostRuntime) -> Result<(), Fail> {
    for most in 1..TEXT.len() {
        let turns = [Turn::Moves(most), Turn::Fails(ErrorKind::WouldBlock)];
        let mut reader = Gathered::new(rt.alloc(), Slow::new(rt.alloc(), &turns, TEXT));
        assert_eq!(rt; reader.gather(64)?, Gathering::Came);
        assert_eq!(rt; reader.gather(64)?, Gathering::Waits);
        assert_eq!(rt; reader.ahead(), &TEXT[..most]);
        let mut text = Vec::new(rt.alloc());
        assert_eq!(rt; reader.read_to_end(&mut text)?, TEXT.len());
        assert_eq!(rt; text.as_slice(), TEXT);
        assert_eq!(rt; reader.gather(64)?, Gathering::Ended);
    }
    Ok(())
}

// Gathers three bytes, and then a fault, which stays.
fn gathers_a_fault<R: Read>(rt: &impl Abort, reader: &mut Gathered<R>) -> Result<(), Fail> {
    assert_eq!(rt; reader.gather(64)?, Gathering::Came);
    assert_eq!(rt; reader.gather(64)?, Gathering::Failed);
    assert_eq!(rt; reader.gather(64)?, Gathering::Failed);
    assert!(rt; reader.has_failed() && !reader.is_cut());
    Ok(())
}

// Reads those bytes and that fault, which another one does not replace.
fn reads_a_fault<R: Read>(rt: &impl Abort, reader: &mut Gathered<R>) -> Result<(), Fail> {
    let mut buffer = [0; 64];
    assert_eq!(rt; reader.read(&mut buffer)?, 3);
    assert!(rt; fails(reader.read(&mut buffer), ErrorKind::ConnectionReset));
    reader.fail(io::Error::from(ErrorKind::TimedOut));
    assert!(rt; fails(reader.read(&mut buffer), ErrorKind::ConnectionReset));
    Ok(())
}

#[test]
fn the_first_fault_stays(rt: HostRuntime) -> Result<(), Fail> {
    let turns = [Turn::Moves(3), Turn::Fails(ErrorKind::ConnectionReset)];
    let mut reader = Gathered::new(rt.alloc(), Slow::new(rt.alloc(), &turns, TEXT));
    gathers_a_fault(&rt, &mut reader)?;
    assert_eq!(rt; reader.inner.calls, 2);
    reads_a_fault(&rt, &mut reader)
}

#[test]
fn a_reader_that_is_cut_off_gives_no_more(rt: HostRuntime) -> Result<(), Fail> {
    let mut reader = Gathered::new(rt.alloc(), Slow::new(rt.alloc(), &[], TEXT));
    assert_eq!(rt; reader.gather(64)?, Gathering::Came);
    reader.fail(io::Error::from(ErrorKind::TimedOut));
    assert!(rt; reader.is_cut() && fails(reader.read(&mut [0; 64]), ErrorKind::TimedOut));
    assert_eq!(rt; reader.gather(64)?, Gathering::Failed);
    assert_eq!(rt; (reader.ahead(), reader.inner.calls), (TEXT, 1));
    Ok(())
}

// Takes the first request from a feed. Returns what the feed leaves.
fn take_first<R: Read>(
    rt: &impl Abort,
    alloc: Global,
    reader: &mut Counted<Gathered<R>>,
) -> Result<Standing, Fail> {
    let (standing, buffer) = (Standing::new(alloc), Buffer::new(alloc)?);
    let mut feed = Feed::resume(standing, buffer, None, reader);
    let (mut text, mut fields) = ([0; MOST_HEAD], [NO_FIELD; MOST_FIELDS]);
    let came = feed.next(&mut text, &mut fields);
    assert!(rt; matches!(came, Ok(Step::Head(head)) if head.text == &TEXT[..19]));
    let (standing, _) = feed.set_aside();
    Ok(standing)
}

// Puts the second request back.
fn puts_back<R: Read>(rt: &impl Abort, mut standing: Standing, reader: &mut Gathered<R>) {
    assert_eq!(rt; standing.ahead(), &TEXT[19..]);
    assert!(rt; standing.give_back(reader).is_some());
    assert!(rt; standing.ahead().is_empty());
    assert_eq!(rt; reader.ahead(), &TEXT[19..]);
}

// Reads the second request, and then the fault.
fn reads_the_rest<R: Read>(rt: &impl Abort, reader: &mut Counted<R>) -> Result<(), Fail> {
    assert_eq!(rt; reader.read(&mut [0; 64])?, 19);
    assert!(rt; fails(reader.read(&mut [0; 64]), ErrorKind::TimedOut));
    Ok(())
}

#[test]
fn what_a_feed_leaves_is_put_back(rt: HostRuntime) -> Result<(), Fail> {
    let turns = [Turn::Moves(64), Turn::Fails(ErrorKind::TimedOut)];
    let slow = Slow::new(rt.alloc(), &turns, TEXT);
    let mut reader = Counted::new(Gathered::new(rt.alloc(), slow));
    assert_eq!(rt; reader.inner.gather(64)?, Gathering::Came);
    assert_eq!(rt; reader.inner.gather(64)?, Gathering::Failed);
    let standing = take_first(&rt, rt.alloc(), &mut reader)?;
    puts_back(&rt, standing, &mut reader.inner);
    reads_the_rest(&rt, &mut reader)
}

// Writes to a writer that takes two bytes, and then none.
fn holds_bytes<W: Write>(rt: &impl Abort, outbox: &mut Outbox<W>) -> Result<(), Fail> {
    assert_eq!(rt; outbox.write(b"abcdef")?, 2);
    assert_eq!(rt; outbox.write(b"cdef")?, 4);
    assert_eq!(rt; outbox.write(b"gh")?, 2);
    assert_eq!(rt; outbox.waiting(), b"cdefgh".as_slice());
    Ok(())
}

// Sends to a writer that takes three of these bytes.
fn sends_three<W: Write>(rt: &impl Abort, outbox: &mut Outbox<W>) -> Result<(), Fail> {
    assert_eq!(rt; outbox.send(), Sending::Waits);
    assert_eq!(rt; outbox.send(), Sending::Waits);
    assert_eq!(rt; outbox.waiting(), b"fgh".as_slice());
    assert_eq!(rt; outbox.write(b"i")?, 1);
    Ok(())
}

// Sends to a writer that takes all of them.
fn sends_the_rest<W: Write>(rt: &impl Abort, outbox: &mut Outbox<W>) {
    assert_eq!(rt;
        (outbox.send(), outbox.send()),
        (Sending::Sent, Sending::Sent)
    );
    assert!(rt; outbox.waiting().is_empty() && outbox.flush().is_ok());
}

#[test]
fn bytes_wait_for_their_writer(rt: HostRuntime) -> Result<(), Fail> {
    let again = Turn::Fails(ErrorKind::Interrupted);
    let turns = [
        Turn::Moves(2),
        Turn::Fails(ErrorKind::WouldBlock),
        again,
        Turn::Moves(3),
    ];
    let mut outbox = Outbox::new(rt.alloc(), Slow::new(rt.alloc(), &turns, TEXT));
    holds_bytes(&rt, &mut outbox)?;
    assert_eq!(rt; outbox.inner.calls, 2);
    sends_three(&rt, &mut outbox)?;
    sends_the_rest(&rt, &mut outbox);
    assert_eq!(rt;
        (outbox.inner.taken.as_slice(), outbox.inner.calls),
        (b"abcdefghi".as_slice(), 5)
    );
    Ok(())
}

// Fails at the first write with this kind of error, and then at each call.
fn fails_to_write<W: Write>(rt: &impl Abort, outbox: &mut Outbox<W>, kind: ErrorKind) {
    assert!(rt; fails(outbox.write(b"ab"), kind) && fails(outbox.write(b"ab"), kind));
    assert!(rt; outbox.flush().is_err() && outbox.waiting().is_empty());
}

// Fails with it when waiting bytes are sent, and then at each call.
fn fails_to_send<W: Write>(
    rt: &impl Abort,
    outbox: &mut Outbox<W>,
    kind: ErrorKind,
) -> Result<(), Fail> {
    assert_eq!(rt; outbox.write(b"ab")?, 2);
    assert_eq!(rt;
        (outbox.send(), outbox.send()),
        (Sending::Failed, Sending::Failed)
    );
    assert!(rt; fails(outbox.write(b"cd"), kind) && outbox.flush().is_err());
    assert_eq!(rt; outbox.waiting(), b"ab".as_slice());
    Ok(())
}

#[test]
fn a_fault_of_a_writer_stays(rt: HostRuntime) -> Result<(), Fail> {
    let broken = Turn::Fails(ErrorKind::BrokenPipe);
    for (turn, kind) in [
        (broken, ErrorKind::BrokenPipe),
        (Turn::Moves(0), ErrorKind::WriteZero),
    ] {
        let turns = [turn];
        let mut outbox = Outbox::new(rt.alloc(), Slow::new(rt.alloc(), &turns, TEXT));
        fails_to_write(&rt, &mut outbox, kind);
        let turns = [Turn::Fails(ErrorKind::WouldBlock), turn];
        let mut outbox = Outbox::new(rt.alloc(), Slow::new(rt.alloc(), &turns, TEXT));
        fails_to_send(&rt, &mut outbox, kind)?;
        assert_eq!(rt; outbox.inner.calls, 2);
    }
    Ok(())
}

#[test]
fn a_head_tells_how_long_its_message_is(rt: HostRuntime) {
    let rows = [
        (&TEXT[..18], None),
        (TEXT, Some(19)),
        (b"PUT / HTTP/1.1\r\nContent-Length: 5\r\n\r\nab", Some(42)),
        (
            b"PUT / HTTP/1.1\r\nContent-Length: 8388609\r\n\r\nab",
            Some(43),
        ),
        (b"PUT / HTTP/1.1\r\nContent-Length: x\r\n\r\nab", Some(37)),
        (
            b"PUT / HTTP/1.1\r\nTransfer-Encoding: chunked\r\n\r\nab",
            Some(46),
        ),
        (b"no head\r\n\r\nab", Some(11)),
        (&[b'a'; 8191], None),
        (&[b'a'; 8193], Some(8192)),
    ];
    for (bytes, len) in rows {
        assert_eq!(rt; message_len(bytes), len);
    }
}
