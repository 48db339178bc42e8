//! Orders of links: what a link must say, and which orders can be met.
ghost use Rattle.std.specs.Prelude.{◌≡◌, ◌≢◌, ◌↔◌, IsTrue, OnOk, IfErr, map, length, codes};
ghost use Rattle.std.specs.List.{AllByRecursion};
ghost use Rattle.sigtext.specs.Bytes.{IsWord, is_visible};
ghost use Rattle.sigtext.specs.Fields.{header_of};
ghost use Rattle.sigtext.specs.Params.{params_named};
ghost use Rattle.sigtext.specs.SignedHeaders.{trimmed, lower_case, named};
ghost use Rattle.sigtext.specs.SignedNames.{IsHeaderName};
ghost use Rattle.sigtext.specs.SignedValues.{IsFitValue};
ghost use Rattle.sigtext.specs.Target.{BeginsWithSlash};
ghost use Rattle.sigv4.specs.Credential.{IsKeyId, IsSecret};
ghost use Rattle.links.specs.Orders.{param_of, terms_of, IsOwnParam, IsOwnHeader, AreSound, IsFirstFault};

use crate::methods::Method;
use sigtext::{Field, is_fit_value, is_header_name, is_visible, is_word, only_field, trim_blanks};
use sigv4::{Moment, is_key_id, is_region, is_secret};
use thiserror::Error;

/// A decoded parameter of an order. It has no `Debug`, since its value may be a desk command with a secret.
#[derive(Clone, Copy)]
pub struct OrderParam<'a> {
    /// One byte or more. It does not begin with `X-Amz-`.
    pub name: &'a [u8],
    /// Any bytes.
    pub value: &'a [u8],
}

/// What a link must say, whoever signs it. It has no `Debug`, because its parameters may hold secrets.
#[derive(Clone, Copy)]
pub struct LinkOrder<'a> {
    /// `PUT`, `GET`, `HEAD` or `POST`.
    pub method: &'a [u8],
    /// The decoded path. It begins with `/`.
    pub path: &'a [u8],
    /// The parameters besides the signing ones. Each name occurs once.
    pub params: &'a [OrderParam<'a>],
    /// The headers that are signed besides `host`. None of them is `host`. Each name occurs once, and is 1 to 64 bytes of
    /// `a-z 0-9 - _ .`. The values hold bytes 0x20 to 0x7E, with no two adjacent spaces and no space at either end.
    pub headers: &'a [Field<'a>],
    /// The first moment at which the link is admitted, unless an allowance lets it begin earlier.
    pub start: Moment,
    /// For how many seconds the link is admitted: 1 to 604800, which is seven days.
    pub expires: u64,
}

/// The key that signs a link. It has no `Debug`, so that no secret gets into a log through it.
#[derive(Clone, Copy)]
pub struct LinkKey<'a> {
    /// 1 to 64 bytes of `A-Z a-z 0-9 - _`.
    pub id: &'a [u8],
    /// 1 to 128 bytes 0x21 to 0x7E.
    pub secret: &'a [u8],
}

/// Why no link was written. If there are several faults, it is the first of them.
#[derive(Clone, Copy, Debug, PartialEq, Eq, Error)]
pub enum LinkFault {
    /// The method is not PUT, GET, HEAD or POST.
    #[error("the method is not served")]
    Method,
    /// The path does not begin with `/`.
    #[error("the path does not begin with a slash")]
    Path,
    /// A parameter's name is empty, occurs twice, or begins with `X-Amz-`.
    #[error("a parameter's name is empty, doubled or begins with X-Amz-")]
    Params,
    /// A header's name lacks the form, occurs twice or is `host`, or its value may not be signed or has a space or a tab at
    /// either end.
    #[error("a header is malformed, doubled or the host")]
    Headers,
    /// The host is not 1 to 255 bytes 0x21 to 0x7E.
    #[error("the host is malformed")]
    Host,
    /// The region is not 1 to 32 bytes of `a-z 0-9 -`.
    #[error("the region is malformed")]
    Region,
    /// The key's id or its secret lacks the form.
    #[error("the key is malformed")]
    Key,
    /// The expiry is not 1 to 604800 seconds.
    #[error("the expiry is not 1 to 604800 seconds")]
    Expires,
    /// Memory was refused.
    #[error("out of memory")]
    Memory,
}

/// The greatest expiry: seven days.
pub(crate) const MOST_SECONDS: u64 = 604_800;

fn begins_with_slash(path: &[u8]) -> bool
    ensures { IsTrue result ↔ BeginsWithSlash path.now }
{
    !path.is_empty() && path[0] == b'/'
}

// Whether exactly one parameter has this name.
fn stands_once(params: &[OrderParam<'_>], name: &[u8]) -> bool
    ensures { IsTrue result ↔ (length (params_named name.now (map param_of params.now)) ≡ 1) }
{
    params.iter().filter(|param| param.name == name).count() == 1
}

fn is_own_param(params: &[OrderParam<'_>], param: &OrderParam<'_>) -> bool
    ensures { IsTrue result ↔ IsOwnParam (map param_of params.now) (param_of param.now) }
{
    !param.name.is_empty() && !param.name.starts_with(b"X-Amz-") && stands_once(params, param.name)
}

fn are_own_params(params: &[OrderParam<'_>]) -> bool
    ensures { IsTrue result
        ↔ AllByRecursion (IsOwnParam (map param_of params.now)) (map param_of params.now) }
{
    params.iter().all(|param| is_own_param(params, param))
}

fn is_own_name(name: &[u8]) -> bool
    ensures { IsTrue result ↔ (IsHeaderName name.now × (name.now ≢ codes "host")) }
{
    is_header_name(name) && name != b"host".as_slice()
}

fn is_bare_value(value: &[u8]) -> bool
    ensures { IsTrue result ↔ (IsFitValue value.now × (trimmed value.now ≡ value.now)) }
{
    is_fit_value(value) && trim_blanks(value) == value
}

// Whether exactly one header has this name, ignoring ASCII case.
fn is_alone(headers: &[Field<'_>], name: &[u8]) -> bool
    ensures { IsTrue result
        ↔ (length (named (lower_case name.now) (map header_of headers.now)) ≡ 1) }
{
    only_field(headers, name).is_some()
}

fn is_own_header(headers: &[Field<'_>], header: &Field<'_>) -> bool
    ensures { IsTrue result ↔ IsOwnHeader (map header_of headers.now) (header_of header.now) }
{
    if !is_own_name(header.name) {
        return false;
    }
    is_bare_value(header.value) && is_alone(headers, header.name)
}

fn are_own_headers(headers: &[Field<'_>]) -> bool
    ensures { IsTrue result
        ↔ AllByRecursion (IsOwnHeader (map header_of headers.now)) (map header_of headers.now) }
{
    headers.iter().all(|header| is_own_header(headers, header))
}

/// Whether links can be for this host: 1 to 255 visible ASCII characters, none of them a space.
pub fn is_host(host: &[u8]) -> bool
    ensures { IsTrue result ↔ IsWord is_visible 255 host.now }
{
    is_word(host, 255, is_visible)
}

fn is_key(key: &LinkKey<'_>) -> bool
    ensures { IsTrue result ↔ (IsKeyId key.now.id.now × IsSecret key.now.secret.now) }
{
    is_key_id(key.id) && is_secret(key.secret)
}

/// Finds the first fault of an order, if it has one. It allocates no memory. It compares two names for each pair of parameters
/// and for each pair of headers.
pub(crate) fn check_order(
    order: &LinkOrder<'_>,
    key: &LinkKey<'_>,
    host: &[u8],
    region: &[u8],
) -> Result<(), LinkFault>
    ensures ok { OnOk result (AreSound (terms_of order.now key.now host.now region.now)) }
    ensures err { IfErr result
        (λ f. (f ≢ LinkFault.Memory)
        × IsFirstFault (terms_of order.now key.now host.now region.now) f) }
{
    if Method::read(order.method).is_none() {
        return Err(LinkFault::Method);
    }
    if !begins_with_slash(order.path) {
        return Err(LinkFault::Path);
    }
    if !are_own_params(order.params) {
        return Err(LinkFault::Params);
    }
    if !are_own_headers(order.headers) {
        return Err(LinkFault::Headers);
    }
    if !is_host(host) {
        return Err(LinkFault::Host);
    }
    if !is_region(region) {
        return Err(LinkFault::Region);
    }
    if !is_key(key) {
        return Err(LinkFault::Key);
    }
    if order.expires == 0 || order.expires > MOST_SECONDS {
        return Err(LinkFault::Expires);
    }
    Ok(())
}
