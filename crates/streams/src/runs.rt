//! A list of connections, and the moments that a clock lists for them.
use office::{Counted, ListedClock};
use sigv4::Moment;
use std::test::Fail;
use trials::fakes::{Sink, Source};
use trials::published::{DATE, EXPIRED, NO_BOX, REQUEST, make_office};

const NO_TRANSFER_CODING: &[u8] =
    b"HTTP/1.1 501 Not Implemented\r\nContent-Type: text/plain\r\nContent-Length: 49\r\nConnection: close\r\n\r\nNotImplemented 3 transfer codings are not served\n";

#[test]
fn runs_a_list_of_connections(rt: HostRuntime) -> Result<(), Fail> {
    let alloc = rt.alloc();
    let first = Moment::read(DATE).ok_or("no moment")?;
    // An empty stream and a refusal for the stream do not ask the clock.
    let late = Moment::read(b"20130525T000000Z").ok_or("no moment")?;
    let others = [late, first, late];
    let mut clock = ListedClock::new(first, &others);
    let broken = Source {
        rest: REQUEST,
        at_once: 100,
        fails: true,
    };
    let coded = Source::whole(b"GET / HTTP/1.1\r\nTransfer-Encoding: chunked\r\n\r\n");
    let ample = || Sink::new(alloc, 4096, 4096);
    let mut connections = [
        (Counted::new(Source::whole(b"")), Counted::new(ample())),
        (
            Counted::new(Source::whole(REQUEST)),
            Counted::new(Sink::new(alloc, 9, 4096)),
        ),
        (Counted::new(coded), Counted::new(ample())),
        (Counted::new(broken), Counted::new(ample())),
        (
            Counted::new(Source::whole(REQUEST)),
            Counted::new(Sink::new(alloc, 4096, 8)),
        ),
    ];
    assert_eq!(rt; make_office(alloc)?.run(&mut connections, &mut clock), 2);
    for (connection, want, faults) in [
        (&connections[0], b"".as_slice(), (0, 0)),
        (&connections[1], NO_BOX, (0, 0)),
        (&connections[2], NO_TRANSFER_CODING, (0, 0)),
        (&connections[3], EXPIRED, (1, 0)),
        (&connections[4], &NO_BOX[..8], (0, 1)),
    ] {
        assert_eq!(rt; connection.1.inner.text.as_slice(), want);
        assert_eq!(rt; (connection.0.faults(), connection.1.faults()), faults);
    }
    Ok(())
}
