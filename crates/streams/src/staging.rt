//! Uploads that are staged in pieces: which calls they make of a keeper, and what they leave staged, also if it refuses each
//! call in turn. The receipt comes from Python's `hashlib`.
use links::LinkKey;
use std::alloc::Global;
use std::test::Fail;
use trials::boxed::Asked;
use trials::owed::{NO_SIGNATURE, PAST_QUOTA};
use trials::published::{DATE, ID, TRY_AGAIN};
use trials::staged::{
    SIZE, body, breaks_off, is_unstaged, left_by, make_watched, source, upload_of,
};
use trials::telling::{holds, told};
use wire::SessionEnd;

// The receipt number 2, for 200000 bytes.
const SECOND: &[u8] =
    b"HTTP/1.1 200 OK\r\nContent-Type: text/plain\r\nContent-Length: 82\r\n\r\nreceipt 2 200000 e24bc62381f1224fbbb74688663f8f9743b9680b193edd666835e97b06e730eb\n";

// The result of an upload with one keeper call to be refused.
#[derive(Clone, Copy, Debug, PartialEq, Eq)]
enum Outcome {
    // The upload makes fewer calls, and got its receipt.
    Done,
    // The call was refused. The number counts the `stage` calls up to it.
    Refused(u64),
}

// Refuses one keeper call of the upload, counted from 1. Expects answer 40, an unchanged office, and a receipt for the retry.
fn refused_at(alloc: Global, stream: &[u8], at_once: usize, call: u64) -> Result<Outcome, Fail> {
    let mut office = make_watched(alloc, 1_000_000)?;
    let before = told(alloc, &mut office.keeper)?;
    office.keeper.refuse(call);
    let left = left_by(&mut office, source(stream, at_once))?;
    let (calls, pieces, drops) = (
        office.keeper.calls,
        office.keeper.pieces,
        office.keeper.drops,
    );
    if calls < call {
        left.comes_to(SECOND, SessionEnd::Ended)?;
        return Ok(Outcome::Done);
    }
    left.comes_to(TRY_AGAIN, SessionEnd::Refused(40))?;
    holds(drops <= 1, "let go of twice")?;
    holds(calls == call.saturating_add(drops), "another call")?;
    // If a call before the body or the first piece is refused, the rest is not read.
    holds(pieces > 1 || left.unread >= 40_000, "read on")?;
    let stays = told(alloc, &mut office.keeper)? == before;
    holds(stays, "another office behind a refusal")?;
    holds(
        drops == 0 || is_unstaged(&mut office.keeper)?,
        "bytes staged",
    )?;
    left_by(&mut office, source(stream, at_once))?.comes_to(SECOND, SessionEnd::Ended)?;
    Ok(Outcome::Refused(pieces))
}

// Refuses each keeper call of the upload in turn, also the first `stage`. Returns the number of calls.
fn calls_of(alloc: Global, stream: &[u8], at_once: usize) -> Result<u64, Fail> {
    let mut first_pieces = 0;
    for call in 1..100u64 {
        match refused_at(alloc, stream, at_once, call)? {
            Outcome::Done => {
                holds(first_pieces == 1, "no first piece")?;
                return Ok(call - 1);
            }
            Outcome::Refused(1) => first_pieces = 1,
            Outcome::Refused(_) => {}
        }
    }
    Err("calls without end".into())
}

#[test]
fn each_call_of_a_staged_upload_is_refused_in_turn(rt: HostRuntime) -> Result<(), Fail> {
    let alloc = rt.alloc();
    let stream = upload_of(alloc, &body(alloc, SIZE)?)?;
    let many = calls_of(alloc, &stream, 4096)?;
    let few = calls_of(alloc, &stream, 1_000_000)?;
    println!(rt; "{many} and {few} calls")?;
    // At least two queries before the body, `stage_begin`, four pieces of at most 65536 bytes, and the change.
    assert!(rt; few >= 8 && many > few);
    Ok(())
}

#[test]
fn a_body_is_staged_as_it_comes(rt: HostRuntime) -> Result<(), Fail> {
    let alloc = rt.alloc();
    let mut stream = upload_of(alloc, &body(alloc, SIZE)?)?;
    stream.truncate(stream.len().saturating_sub(50_000));
    let mut office = make_watched(alloc, 1_000_000)?;
    breaks_off(&mut office, source(&stream, 4096))?;
    assert!(rt; office.keeper.pieces >= 3);
    assert!(rt; is_unstaged(&mut office.keeper)?);
    Ok(())
}

#[test]
fn a_body_with_a_wrong_signature_is_not_staged(rt: HostRuntime) -> Result<(), Fail> {
    let alloc = rt.alloc();
    let bytes = body(alloc, SIZE)?;
    let unsigned = Asked {
        key: LinkKey {
            id: ID,
            secret: b"another",
        },
        method: b"PUT",
        path: b"/in/a.txt",
        body: Some(&bytes),
        start: DATE,
        params: &[],
    };
    let stream = unsigned.message(alloc)?;
    let mut office = make_watched(alloc, 1_000_000)?;
    office.keeper.refuse(0);
    left_by(&mut office, source(&stream, 4096))?.comes_to(NO_SIGNATURE, SessionEnd::Ended)?;
    assert_eq!(rt; (office.keeper.pieces, office.keeper.drops), (0, 0));
    Ok(())
}

#[test]
fn a_staged_upload_does_not_pass_the_quota(rt: HostRuntime) -> Result<(), Fail> {
    let alloc = rt.alloc();
    let stream = upload_of(alloc, &body(alloc, SIZE)?)?;
    let mut office = make_watched(alloc, 199_999)?;
    let before = told(alloc, &mut office.keeper)?;
    office.keeper.refuse(0);
    left_by(&mut office, source(&stream, 4096))?.comes_to(PAST_QUOTA, SessionEnd::Ended)?;
    assert!(rt; office.keeper.pieces >= 4);
    assert_eq!(rt; office.keeper.drops, 1);
    assert!(rt; is_unstaged(&mut office.keeper)?);
    assert!(rt; told(alloc, &mut office.keeper)? == before);
    Ok(())
}
