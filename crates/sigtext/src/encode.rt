//! UriEncode (Amazon S3 API Reference, "Authenticating Requests: Using Query Parameters").
ghost use Rattle.std.specs.Prelude.{◌≡◌, ◌++◌, ◌+◌, ◌<◌, OnOk, OnErr, length, vec_len, vec_capacity};
ghost use Rattle.sigtext.specs.UriEncode.{uri_encoded, EscapesTheRest};

use percent_encoding::{AsciiSet, NON_ALPHANUMERIC, ascii_set, percent_encode};
use std::alloc::AllocError;

/// Whether `/` is kept, as in a path, or encoded, as everywhere else.
#[derive(Clone, Copy)]
pub enum Slash {
    /// `/` is kept.
    Kept,
    /// `/` becomes `%2F`.
    Encoded,
}

// The ASCII bytes that are escaped if `/` is encoded.
const ESCAPED: AsciiSet = ascii_set!(
    NON_ALPHANUMERIC
        .remove(b'-')
        .remove(b'.')
        .remove(b'_')
        .remove(b'~')
);

// The ASCII bytes that are escaped if `/` is kept.
const ESCAPED_BUT_SLASH: AsciiSet = ascii_set!(ESCAPED.remove(b'/'));

// Bytes outside ASCII are always escaped.
pub(crate) fn escaped(slash: Slash) -> AsciiSet
    ensures { EscapesTheRest slash result }
{
    match slash {
        Slash::Kept => ESCAPED_BUT_SLASH,
        Slash::Encoded => ESCAPED,
    }
}

/// Appends the bytes, URI-encoded: unreserved bytes unchanged, each other byte as `%` and two upper-case hexadecimal
/// digits. The only error is a lack of memory. It leaves `out` unchanged.
pub fn uri_encode(bytes: &[u8], slash: Slash, out: &mut Vec<u8>) -> Result<(), AllocError>
    ensures ok { OnOk result (out.new.items ≡ out.old.items ++ uri_encoded slash bytes.now) }
    ensures err { OnErr result (out.new.items ≡ out.old.items) }
    ensures full { OnErr result
        (vec_capacity out.old < vec_len out.old + length (uri_encoded slash bytes.now)) }
{
    let start = out.len();
    let text = percent_encode(bytes, escaped(slash));
    for piece in text {
        if let Err(e) = out.extend_from_slice(piece.as_bytes()) {
            out.truncate(start);
            return Err(e);
        }
    }
    Ok(())
}
