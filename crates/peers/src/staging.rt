//! Uploads over loopback whose bodies are staged as they come.
use crate::loopback::{bound, peer_of, served_by, taken};
use boxes::Keeper;
use office::Office;
use std::alloc::Global;
use std::io::Write;
use std::net::{TcpListener, TcpStream};
use std::test::Fail;
use trials::published::TRY_AGAIN;
use trials::staged::{SIZE, body, make_watched, upload_of};
use trials::watched::Watched;

// How many bytes at the end of the upload are never sent.
const LACKING: usize = 100_000;

// A peer that sent the upload up to its last bytes.
fn sending(rt: &HostRuntime, listener: &TcpListener, stream: &[u8]) -> Result<TcpStream, Fail> {
    let mut peer = peer_of(rt, listener)?;
    peer.write_all(&stream[..stream.len().saturating_sub(LACKING)])?;
    Ok(peer)
}

// Whether answer 40 is sent to the peer.
fn is_refused(alloc: Global, peer: &mut TcpStream) -> Result<bool, Fail> {
    Ok(taken(alloc, peer)?.as_slice() == TRY_AGAIN)
}

// Refuses one keeper call of an upload, counted from 1, whose last bytes are never sent. Expects answer 40, although the peer
// sends no more and does not end. Returns how many pieces were staged up to it.
fn refuses<K: Keeper>(
    rt: &HostRuntime,
    office: &mut Office<Watched<K>>,
    stream: &[u8],
    call: u64,
) -> Result<u64, Fail> {
    let listener = bound(rt)?;
    let mut peer = sending(rt, &listener, stream)?;
    office.keeper.refuse(call);
    let outcome = served_by(rt, office, listener, 1, 8)?;
    if outcome.came != 1 || outcome.faulty != 0 || outcome.unsent != 0 {
        return Err("the connection ended by a fault".into());
    }
    if !is_refused(rt.alloc(), &mut peer)? {
        return Err("the answer is not 40".into());
    }
    Ok(office.keeper.pieces)
}

// The same by a new office.
fn refused_at(rt: &HostRuntime, stream: &[u8], call: u64) -> Result<u64, Fail> {
    let mut office = make_watched(rt.alloc(), 1_000_000)?;
    refuses(rt, &mut office, stream, call)
}

#[test]
fn a_refused_call_is_told_before_the_rest_came(rt: HostRuntime) -> Result<(), Fail> {
    let stream = upload_of(rt.alloc(), &body(rt.alloc(), SIZE)?)?;
    for call in 1..100u64 {
        if refused_at(&rt, stream.as_slice(), call)? == 1 {
            return Ok(());
        }
    }
    Err("no piece was staged".into())
}
