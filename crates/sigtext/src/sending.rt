//! Texts that are converted as they are sent to a sink.
ghost use Rattle.std.specs.Prelude.{◌≡◌, true, IsOk, OnOk, OnErr};
ghost use Rattle.percent_encoding.specs.Percent as percent;
ghost use Rattle.sigtext.specs.SignedHeaders.{lower_case};
ghost use Rattle.sigtext.specs.Sinks.{TakesBeginning};
ghost use Rattle.sigtext.specs.UriEncode.{uri_encoded};

use crate::encode::{Slash, escaped};
use crate::escapes::has_no_escape;
use crate::sink::ByteSink;
use percent_encoding::{percent_decode, percent_encode};
use std::alloc::AllocError;

/// Sends the bytes, URI-encoded. An error comes from the sink, which then holds a prefix of the text.
pub(crate) fn send_encoded<S: ByteSink>(
    bytes: &[u8],
    slash: Slash,
    sink: &mut S,
) -> Result<(), AllocError>
    ensures ok { OnOk result (S.takes sink.old (uri_encoded slash bytes.now) sink.new) }
    ensures err { OnErr result
        (TakesBeginning S.takes sink.old (uri_encoded slash bytes.now) sink.new) }
    ensures sure { S.never_fails ≡ true → IsOk result }
{
    for piece in percent_encode(bytes, escaped(slash)) {
        sink.take(piece.as_bytes())?;
    }
    Ok(())
}

/// Decodes the raw text and sends the bytes, URI-encoded. An error comes from the sink, which then holds a prefix
/// of the text.
pub(crate) fn send_recoded<S: ByteSink>(
    raw: &[u8],
    slash: Slash,
    sink: &mut S,
) -> Result<(), AllocError>
    ensures ok { OnOk result
        (S.takes sink.old (uri_encoded slash (percent.percent_decode raw.now)) sink.new) }
    ensures err { OnErr result
        (TakesBeginning S.takes sink.old
        (uri_encoded slash (percent.percent_decode raw.now)) sink.new) }
    ensures sure { S.never_fails ≡ true → IsOk result }
{
    if has_no_escape(raw) {
        return send_encoded(raw, slash, sink);
    }
    for byte in percent_decode(raw) {
        send_encoded(&[byte], slash, sink)?;
    }
    Ok(())
}

/// Sends the name in lower case. An error comes from the sink, which then holds a prefix of the text.
pub(crate) fn send_lower_case<S: ByteSink>(name: &[u8], sink: &mut S) -> Result<(), AllocError>
    ensures ok { OnOk result (S.takes sink.old (lower_case name.now) sink.new) }
    ensures err { OnErr result (TakesBeginning S.takes sink.old (lower_case name.now) sink.new) }
    ensures sure { S.never_fails ≡ true → IsOk result }
{
    for byte in name {
        sink.take(&[byte.to_ascii_lowercase()])?;
    }
    Ok(())
}
