//! Writing a link (Amazon S3 API Reference, "Authenticating Requests: Using Query Parameters").
ghost use Rattle.std.specs.Prelude.{◌≡◌, ◌≢◌, ◌<◌, ℕ, List, ◌∷◌, ◌++◌, length, map, codes, IsPermutation, OnOk, OnErr, IfOk, IfErr};
ghost use Rattle.std.specs.List.Sorted.{IsSortedBy};
ghost use Rattle.std.specs.Ordering.{is_lt};
ghost use Rattle.sigtext.specs.Bytes.{bytes_cmp};
ghost use Rattle.sigtext.specs.CanonicalQuery.{param_text, IsCanonicalQuery};
ghost use Rattle.sigtext.specs.CanonicalRequest.{IsTheOnly};
ghost use Rattle.sigtext.specs.Fields.{header_of};
ghost use Rattle.sigtext.specs.Params.{StandOnce};
ghost use Rattle.sigtext.specs.Rules.{AllHold};
ghost use Rattle.sigtext.specs.SignedHeaders.{signed_headers};
ghost use Rattle.sigtext.specs.SignedNames.{AreSignedNames};
ghost use Rattle.sigtext.specs.SignedValues.{ValueRule};
ghost use Rattle.sigtext.specs.Signing.{HoldsParams, AreOf};
ghost use Rattle.sigtext.specs.Target.{Param, IsTargetOf};
ghost use Rattle.sigtext.specs.UriEncode.{uri_encoded};
ghost use Rattle.sigtext.specs.declared.encode.Slash.TheVariants as slash;
ghost use Rattle.sigv4.specs.Scopes.{scope_of};
ghost use Rattle.sigv4.specs.Signature.{scope_text};
ghost use Rattle.links.specs.Drafts.{param, draft_values, draft_params, values_for, HasBytes, IsDraft};
ghost use Rattle.links.specs.Orders.{param_of, terms_of, AreSound, IsFirstFault, IsLinkFor};

use crate::orders::{LinkFault, LinkKey, LinkOrder, OrderParam, check_order};
use itoa::Buffer;
use sigtext::{
    Field, Params, Parts, Refusal, SignedNames, Slash, Target, signed_values, uri_encode,
};
use sigv4::{Scope, signature};
use std::alloc::{AllocError, Global};
use std::cmp::Ordering;

fn compare_names(a: &Field<'_>, b: &Field<'_>) -> Ordering
    ensures { result ≡ bytes_cmp a.now.name.now b.now.name.now }
{
    a.name.cmp(b.name)
}

// The host and the headers, ascending by name.
fn signed_fields<'a>(
    alloc: Global,
    host: &'a [u8],
    headers: &[Field<'a>],
) -> Result<Vec<Field<'a>>, AllocError>
    ensures moved { IfOk result
        (λ v. IsPermutation
        (record { name = codes "host"; value = host.now } ∷ map header_of headers.now)
        (map header_of v.items)) }
    ensures sorted { IfOk result
        (λ v. IsSortedBy (λ a b. is_lt (bytes_cmp a.name.now b.name.now)) v.items) }
{
    let mut fields = Vec::new(alloc);
    fields.push(Field {
        name: b"host",
        value: host,
    })?;
    fields.extend_from_slice(headers)?;
    fields.sort_unstable_by(|a, b| compare_names(a, b));
    Ok(fields)
}

// The names of the fields, joined by `;`.
fn names_text(alloc: Global, fields: &[Field<'_>]) -> Result<Vec<u8>, AllocError>
    ensures { IfOk result (λ t. t.items ≡ signed_headers (map header_of fields.now)) }
{
    let mut text = Vec::new(alloc);
    let mut separator: &[u8] = b"";
    for field in fields {
        text.extend_from_slice(separator)?;
        text.extend_from_slice(field.name)?;
        separator = b";";
    }
    Ok(text)
}

// `<key id>/<yyyyMMdd>/<region>/s3/aws4_request`
fn credential_text(alloc: Global, scope: &Scope<'_>) -> Result<Vec<u8>, AllocError>
    ensures { IfOk result
        (λ t. t.items ≡ scope.now.key_id.now ++ 47 ∷ scope_text (scope_of scope.now)) }
{
    let slash: &[u8] = b"/";
    [
        scope.key_id,
        slash,
        scope.date,
        slash,
        scope.region,
        b"/s3/aws4_request",
    ]
    .concat(alloc)
}

// The values of the signing parameters, except the algorithm, which is fixed, and the signature.
#[derive(Clone, Copy)]
struct DraftTexts<'a> {
    credential: &'a [u8],
    date: &'a [u8],
    expires: &'a [u8],
    names: &'a [u8],
}

// The signing parameters except the signature, followed by the other parameters.
fn all_params<'a>(
    alloc: Global,
    five: &DraftTexts<'a>,
    others: &[OrderParam<'a>],
) -> Result<Vec<OrderParam<'a>>, AllocError>
    ensures { IfOk result
        (λ v. map param_of v.items ≡ draft_params (draft_values five.now)
        (map param_of others.now)) }
{
    let mut params = Vec::from_slice(
        alloc,
        &[
            OrderParam {
                name: b"X-Amz-Algorithm",
                value: b"AWS4-HMAC-SHA256",
            },
            OrderParam {
                name: b"X-Amz-Credential",
                value: five.credential,
            },
            OrderParam {
                name: b"X-Amz-Date",
                value: five.date,
            },
            OrderParam {
                name: b"X-Amz-Expires",
                value: five.expires,
            },
            OrderParam {
                name: b"X-Amz-SignedHeaders",
                value: five.names,
            },
        ],
    )?;
    params.extend_from_slice(others)?;
    Ok(params)
}

// Appends the encoded name, `=` and the encoded value. Clause `bytes`: the name and the value are bytes, as their types say.
// The proof that the text can be read back depends on it.
fn append_param(name: &[u8], value: &[u8], text: &mut Vec<u8>) -> Result<(), AllocError>
    ensures written { OnOk result
        (text.new.items ≡ text.old.items ++ param_text (param name.now value.now)) }
    ensures bytes { HasBytes (param name.now value.now) }
{
    uri_encode(name, Slash::Encoded, text)?;
    text.push(b'=')?;
    uri_encode(value, Slash::Encoded, text)
}

// The target with this path and these parameters. There is at least one parameter.
fn draft_text(alloc: Global, path: &[u8], params: &[OrderParam<'_>]) -> Result<Vec<u8>, AllocError>
    requires { 0 < length params.now }
    ensures { IfOk result (λ t. IsDraft path.now (map param_of params.now) t.items) }
{
    let mut text = Vec::new(alloc);
    uri_encode(path, Slash::Kept, &mut text)?;
    let mut separator = b'?';
    for param in params {
        text.push(separator)?;
        append_param(param.name, param.value, &mut text)?;
        separator = b'&';
    }
    Ok(text)
}

// What was written can be read back, so the only refusal is a lack of memory.
fn want_of_memory(_refusal: Refusal) -> AllocError
    requires { _refusal ≡ Refusal.TryAgain }
{
    AllocError
}

// Reads what the signature of a draft covers: its method, path and parameters, and these fields. `names` is the text that
// lists the names of the fields.
fn read_parts<'a>(
    alloc: Global,
    method: &'a [u8],
    draft: &'a [u8],
    fields: &'a [Field<'a>],
    names: &[u8],
) -> Result<Parts<'a>, AllocError>
    requires target { (path : List ℕ) × (params : List Param) × IsTargetOf draft.now path params
        × StandOnce params }
    requires names { AreSignedNames names.now (map (λ f. f.name.now) fields.now) }
    requires values { AllHold
        (ValueRule (map header_of fields.now) (map (λ f. f.name.now) fields.now))
        (map header_of fields.now) }
    ensures { IfOk result
        (λ parts. (path : List ℕ) (params : List Param) → IsTargetOf draft.now path params
        → AreOf parts
        (record { method = method.now; path = path; params = params; headers = map header_of fields.now })) }
{
    let Ok(target) = Target::read(draft) else {
        unreachable!()
    };
    let params = match Params::read(alloc, &target) {
        Ok(params) => params,
        Err(refusal) => return Err(want_of_memory(refusal)),
    };
    let Ok(names) = SignedNames::read(names) else {
        unreachable!()
    };
    match signed_values(alloc, fields, &names) {
        Ok(values) => Ok(Parts {
            method,
            target,
            params,
            values,
        }),
        Err(refusal) => Err(want_of_memory(refusal)),
    }
}

// The target that an order's link begins as: with the signing parameters except the signature, and the order's own.
fn draft_of(
    alloc: Global,
    order: &LinkOrder<'_>,
    scope: &Scope<'_>,
    date: &[u8],
    names: &[u8],
) -> Result<Vec<u8>, AllocError>
    ensures { IfOk result
        (λ t. IsDraft order.now.path.now
        (draft_params
        (values_for scope.now.key_id.now (scope_of scope.now) date.now order.now.expires names.now)
        (map param_of order.now.params.now)) t.items) }
{
    let credential = credential_text(alloc, scope)?;
    let mut number = Buffer::new();
    let five = DraftTexts {
        credential: &credential,
        date,
        expires: number.format(order.expires).as_bytes(),
        names,
    };
    let params = all_params(alloc, &five, order.params)?;
    draft_text(alloc, order.path, &params)
}

// Appends the path, the canonical query and the signature.
fn append_signed(
    path: &[u8],
    params: &Params<'_>,
    signature: &[u8],
    text: &mut Vec<u8>,
) -> Result<(), AllocError>
    ensures { OnOk result ((ps : List Param) → HoldsParams params.now ps
        → (query : List ℕ) × IsTheOnly (IsCanonicalQuery ps) query
        × (text.new.items ≡ text.old.items ++ (uri_encoded slash.Kept path.now ++ 63 ∷ query ++ codes "&X-Amz-Signature=" ++ signature.now))) }
{
    uri_encode(path, Slash::Kept, text)?;
    text.push(b'?')?;
    params.query_into(text)?;
    text.extend_from_slice(b"&X-Amz-Signature=")?;
    text.extend_from_slice(signature)
}

// The path, the canonical query and the signature.
fn final_text(
    alloc: Global,
    path: &[u8],
    params: &Params<'_>,
    signature: &[u8],
) -> Result<Vec<u8>, AllocError>
    ensures { IfOk result (λ t. (ps : List Param) → HoldsParams params.now ps
        → (query : List ℕ) × IsTheOnly (IsCanonicalQuery ps) query
        × (t.items ≡ uri_encoded slash.Kept path.now ++ 63 ∷ query ++ codes "&X-Amz-Signature=" ++ signature.now)) }
{
    let mut text = Vec::new(alloc);
    append_signed(path, params, signature, &mut text)?;
    Ok(text)
}

// The link for an order that has no fault.
fn link_text(
    alloc: Global,
    order: &LinkOrder<'_>,
    key: &LinkKey<'_>,
    host: &[u8],
    region: &[u8],
) -> Result<Vec<u8>, AllocError>
    requires { AreSound (terms_of order.now key.now host.now region.now) }
    ensures { IfOk result
        (λ t. IsLinkFor (terms_of order.now key.now host.now region.now) t.items) }
{
    let fields = signed_fields(alloc, host, order.headers)?;
    let names = names_text(alloc, &fields)?;
    let date = order.start.text();
    let scope = Scope {
        key_id: key.id,
        date: &date[..8],
        region,
    };
    let draft = draft_of(alloc, order, &scope, &date, &names)?;
    let parts = read_parts(alloc, order.method, &draft, &fields, &names)?;
    let digits = signature(key.secret, &scope, &order.start, &parts);
    final_text(alloc, order.path, &parts.params, &digits)
}

/// Appends the link that an order asks for to `out`: the encoded path, `?`, the canonical query and the signature. Consider a
/// request with this link to this host, with the order's method, with each header of the order once, and with no other header
/// that begins with `x-amz-`. Any office where the key has this secret and is not revoked admits it from the start until the
/// expiry is over. An office with an allowance also admits it up to that many seconds before the start. It is not admitted at
/// any other moment.
///
/// # Errors
///
/// The first fault of the order, in the sequence of `LinkFault`: method, path, parameters, headers, host, region, key, expiry.
/// `Memory` if memory was refused. The order has no fault then. Every error leaves `out` unchanged.
pub fn write_link(
    alloc: Global,
    order: &LinkOrder<'_>,
    key: &LinkKey<'_>,
    host: &[u8],
    region: &[u8],
    out: &mut Vec<u8>,
) -> Result<(), LinkFault>
    ensures ok { OnOk result ((target : List ℕ) × (out.new.items ≡ out.old.items ++ target)
        × IsLinkFor (terms_of order.now key.now host.now region.now) target) }
    ensures err { OnErr result (out.new.items ≡ out.old.items) }
    ensures fault { IfErr result
        (λ f. (f ≢ LinkFault.Memory)
        → IsFirstFault (terms_of order.now key.now host.now region.now) f) }
    ensures memory { IfErr result
        (λ f. f ≡ LinkFault.Memory → AreSound (terms_of order.now key.now host.now region.now)) }
{
    check_order(order, key, host, region)?;
    let Ok(text) = link_text(alloc, order, key, host, region) else {
        return Err(LinkFault::Memory);
    };
    out.extend_from_slice(&text).map_err(|_| LinkFault::Memory)
}
