//! A sink that fails.
ghost use Rattle.std.specs.Prelude.{◌≡◌, ◌++◌};

use sigtext::{ByteSink, Field, Params, Parts, SignedNames, Target, canonical_into, signed_values};
use std::alloc::{AllocError, Global};
use std::test::Fail;

const TARGET: &[u8] = b"/%e2%82%AC%2fx%20y%7E*?X%2DAmz-Signature=00&a%2Bb=c%2fd!&x=";

const FIELDS: [Field<'static>; 2] = [
    Field {
        name: b"Host",
        value: b"example.com",
    },
    Field {
        name: b"X-Amz-Meta-A",
        value: b"v 1",
    },
];

// The path and the query are those of Python 3's `urllib.parse.quote` after `unquote_to_bytes`.
const CANONICAL: &[u8] =
    b"PUT\n/%E2%82%AC/x%20y~%2A\na%2Bb=c%2Fd%21&x=\nhost:example.com\nx-amz-meta-a:v 1\n\nhost;x-amz-meta-a\nUNSIGNED-PAYLOAD";

// Takes the bytes of `calls` calls, and then fails.
#[derive(Drop)]
struct Failing {
    calls: usize,
    taken: Vec<u8>,
}

impl ByteSink for Failing {
    ghost use Rattle.std.specs.Prelude.{false};
    ghost use Rattle.sigtext.specs.Sinks.{appends_nothing, appends_both};

    ghost takes = { λ s bytes t. t.taken.items ≡ s.taken.items ++ bytes };

    ghost never_fails = { false };

    fn take(&mut self, bytes: &[u8]) -> Result<(), AllocError> {
        if self.calls == 0 {
            return Err(AllocError);
        }
        self.calls -= 1;
        self.taken.extend_from_slice(bytes)
    }

    ghost nothing = { λ s. appends_nothing s.taken.items };

    ghost joins = { λ s t u a b p q. appends_both s.taken.items t.taken.items u.taken.items a b p q };
}

/// The signed parts of that request.
fn parts(alloc: Global) -> Result<Parts<'static>, Fail> {
    let target = Target::read(TARGET).ok().ok_or("no target")?;
    let names = SignedNames::read(b"host;x-amz-meta-a")?;
    Ok(Parts {
        method: b"PUT",
        target,
        params: Params::read(alloc, &target)?,
        values: signed_values(alloc, &FIELDS, &names)?,
    })
}

#[test]
fn an_error_leaves_a_beginning(rt: HostRuntime) -> Result<(), Fail> {
    let parts = parts(rt.alloc())?;
    let mut before = 0;
    for calls in 0..40 {
        let mut sink = Failing {
            calls,
            taken: Vec::new(rt.alloc()),
        };
        assert!(rt; canonical_into(&parts, &mut sink).is_err());
        assert!(rt; CANONICAL.starts_with(sink.taken.as_slice()));
        assert!(rt; before <= sink.taken.len() && sink.taken.len() < CANONICAL.len());
        before = sink.taken.len();
    }
    let mut sink = Failing {
        calls: 1000,
        taken: Vec::new(rt.alloc()),
    };
    canonical_into(&parts, &mut sink)?;
    assert_eq!(rt; sink.taken.as_slice(), CANONICAL);
    Ok(())
}
