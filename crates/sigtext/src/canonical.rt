//! The canonical request (Amazon S3 API Reference, "Authenticating Requests: Using Query Parameters").
ghost use Rattle.std.specs.Prelude.{◌≡◌, true, ℕ, List, [], ◌∷◌, ◌++◌, map, codes, IsOk, OnOk, OnErr};
ghost use Rattle.std.specs.List.{join_with_byte};
ghost use Rattle.percent_encoding.specs.Percent as percent;
ghost use Rattle.sigtext.specs.Bytes.{same_bytes};
ghost use Rattle.sigtext.specs.CanonicalQuery.{signed_params, param_text, IsCanonicalQuery};
ghost use Rattle.sigtext.specs.CanonicalRequest.{Signed, IsCanonicalRequest, IsTheOnly};
ghost use Rattle.sigtext.specs.Decoded.{decoded_param};
ghost use Rattle.sigtext.specs.SignedHeaders.{lower_case, canonical_headers, signed_headers};
ghost use Rattle.sigtext.specs.Signing.{AreOf, HoldsParams, signed_header};
ghost use Rattle.sigtext.specs.Target.{Param};
ghost use Rattle.sigtext.specs.Sinks.{TakesBeginning};
ghost use Rattle.sigtext.specs.UriEncode.{uri_encoded};

use crate::encode::Slash;
use crate::escapes::decodes_to;
use crate::field::Field;
use crate::params::Params;
use crate::sending::{send_lower_case, send_recoded};
use crate::sink::ByteSink;
use crate::target::{RawParam, Target};
use crate::values::Values;
use std::alloc::AllocError;

/// The parts of a request that its signature covers.
#[derive(Drop)]
pub struct Parts<'a> {
    /// The method, as it stands in the request.
    pub method: &'a [u8],
    /// The target; its path is signed.
    pub target: Target<'a>,
    /// The target's parameters. All but the signature are signed.
    pub params: Params<'a>,
    /// The signed headers.
    pub values: Values<'a>,
}

/// Sends the canonical request to the sink. An error comes from the sink, which then holds a prefix of the text. Only the
/// sink takes memory, and the time is linear.
pub fn canonical_into<S: ByteSink>(parts: &Parts<'_>, sink: &mut S) -> Result<(), AllocError>
    ensures ok { OnOk result ((signed : Signed) → AreOf parts.now signed
        → (text : List ℕ) × IsTheOnly (IsCanonicalRequest signed) text
        × S.takes sink.old text sink.new) }
    ensures err { OnErr result ((signed : Signed) → AreOf parts.now signed
        → (text : List ℕ) × IsTheOnly (IsCanonicalRequest signed) text
        × TakesBeginning S.takes sink.old text sink.new) }
    ensures sure { S.never_fails ≡ true → IsOk result }
{
    let items = parts.params.items.as_slice();
    let fields = parts.values.fields.as_slice();
    send_line(parts.method, sink)?;
    send_path(parts.target.path, sink)?;
    send_query(items, sink)?;
    sink.take(b"\n")?;
    send_headers(fields, sink)?;
    send_names(fields, sink)
}

impl Params<'_> {
    /// Sends the canonical query: the encoded name, `=` and the encoded value of each parameter except the signature,
    /// joined by `&`. An error comes from the sink, which then holds a prefix of the text.
    pub fn query_into<S: ByteSink>(&self, sink: &mut S) -> Result<(), AllocError>
        ensures ok { OnOk result ((params : List Param) → HoldsParams self.now params
            → (query : List ℕ) × IsTheOnly (IsCanonicalQuery params) query
            × S.takes sink.old query sink.new) }
        ensures err { OnErr result ((params : List Param) → HoldsParams self.now params
            → (query : List ℕ) × IsTheOnly (IsCanonicalQuery params) query
            × TakesBeginning S.takes sink.old query sink.new) }
        ensures sure { S.never_fails ≡ true → IsOk result }
    {
        send_query(self.items.as_slice(), sink)
    }
}

// Sends the text and a line feed.
fn send_line<S: ByteSink>(text: &[u8], sink: &mut S) -> Result<(), AllocError>
    ensures ok { OnOk result (S.takes sink.old (text.now ++ 10 ∷ []) sink.new) }
    ensures err { OnErr result (TakesBeginning S.takes sink.old (text.now ++ 10 ∷ []) sink.new) }
    ensures sure { S.never_fails ≡ true → IsOk result }
{
    sink.take(text)?;
    sink.take(b"\n")
}

// Decodes the raw path, and sends it URI-encoded, with each `/` unchanged, and a line feed.
fn send_path<S: ByteSink>(raw: &[u8], sink: &mut S) -> Result<(), AllocError>
    ensures ok { OnOk result
        (S.takes sink.old
        (uri_encoded Slash.Kept (percent.percent_decode raw.now) ++ 10 ∷ []) sink.new) }
    ensures err { OnErr result
        (TakesBeginning S.takes sink.old
        (uri_encoded Slash.Kept (percent.percent_decode raw.now) ++ 10 ∷ []) sink.new) }
    ensures sure { S.never_fails ≡ true → IsOk result }
{
    send_recoded(raw, Slash::Kept, sink)?;
    sink.take(b"\n")
}

// Whether the decoded name is `X-Amz-Signature`.
fn is_signature(raw: &RawParam<'_>) -> bool
    ensures { result ≡ same_bytes (percent.percent_decode raw.now.name.now)
        (codes "X-Amz-Signature") }
{
    decodes_to(raw.name, b"X-Amz-Signature")
}

// Sends the encoded name, `=` and the encoded value.
fn send_param<S: ByteSink>(raw: &RawParam<'_>, sink: &mut S) -> Result<(), AllocError>
    ensures ok { OnOk result (S.takes sink.old (param_text (decoded_param raw.now)) sink.new) }
    ensures err { OnErr result
        (TakesBeginning S.takes sink.old (param_text (decoded_param raw.now)) sink.new) }
    ensures sure { S.never_fails ≡ true → IsOk result }
{
    send_recoded(raw.name, Slash::Encoded, sink)?;
    sink.take(b"=")?;
    send_recoded(raw.value, Slash::Encoded, sink)
}

// Sends the parameters except the signature, joined by `&`.
fn send_query<S: ByteSink>(items: &[RawParam<'_>], sink: &mut S) -> Result<(), AllocError>
    ensures ok { OnOk result
        (S.takes sink.old
        (join_with_byte 38
        (map param_text (signed_params (map decoded_param items.now)))) sink.new) }
    ensures err { OnErr result
        (TakesBeginning S.takes sink.old
        (join_with_byte 38
        (map param_text (signed_params (map decoded_param items.now)))) sink.new) }
    ensures sure { S.never_fails ≡ true → IsOk result }
{
    let mut separator: &[u8] = b"";
    for raw in items {
        if is_signature(raw) {
            continue;
        }
        sink.take(separator)?;
        send_param(raw, sink)?;
        separator = b"&";
    }
    Ok(())
}

// Sends the name in lower case, `:`, the value and a line feed.
fn send_header<S: ByteSink>(field: &Field<'_>, sink: &mut S) -> Result<(), AllocError>
    ensures ok { OnOk result
        (S.takes sink.old
        (lower_case field.now.name.now ++ 58 ∷ field.now.value.now ++ 10 ∷ []) sink.new) }
    ensures err { OnErr result
        (TakesBeginning S.takes sink.old
        (lower_case field.now.name.now ++ 58 ∷ field.now.value.now ++ 10 ∷ []) sink.new) }
    ensures sure { S.never_fails ≡ true → IsOk result }
{
    send_lower_case(field.name, sink)?;
    sink.take(b":")?;
    send_line(field.value, sink)
}

// Sends the headers in order, and a line feed.
fn send_headers<S: ByteSink>(fields: &[Field<'_>], sink: &mut S) -> Result<(), AllocError>
    ensures ok { OnOk result
        (S.takes sink.old (canonical_headers (map signed_header fields.now) ++ 10 ∷ []) sink.new) }
    ensures err { OnErr result
        (TakesBeginning S.takes sink.old
        (canonical_headers (map signed_header fields.now) ++ 10 ∷ []) sink.new) }
    ensures sure { S.never_fails ≡ true → IsOk result }
{
    for field in fields {
        send_header(field, sink)?;
    }
    sink.take(b"\n")
}

// Sends the names of the headers in lower case, joined by `;`, a line feed and the last line.
fn send_names<S: ByteSink>(fields: &[Field<'_>], sink: &mut S) -> Result<(), AllocError>
    ensures ok { OnOk result
        (S.takes sink.old
        (signed_headers (map signed_header fields.now) ++ codes "\nUNSIGNED-PAYLOAD") sink.new) }
    ensures err { OnErr result
        (TakesBeginning S.takes sink.old
        (signed_headers (map signed_header fields.now) ++ codes "\nUNSIGNED-PAYLOAD") sink.new) }
    ensures sure { S.never_fails ≡ true → IsOk result }
{
    let mut separator: &[u8] = b"";
    for field in fields {
        sink.take(separator)?;
        send_lower_case(field.name, sink)?;
        separator = b";";
    }
    sink.take(b"\nUNSIGNED-PAYLOAD")
}
