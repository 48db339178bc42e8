//! Request targets in origin form (RFC 9112, section 3.2.1): a path that begins with `/`, and optionally `?` and a
//! query (RFC 3986, sections 3.3 and 3.4).
ghost use Rattle.std.specs.Prelude.{◌≡◌, ◌<◌, ◌≤◌, ◌↔◌, ◌+◌, ◌++◌, ◌∷◌, [], List, ℕ, length, drop, IsTrue, IfOk, OnOk, OnErr, IfSome, IfNone, vec_len, vec_capacity};
ghost use Rattle.std.specs.Iterator.{at_most};
ghost use Rattle.sigtext.specs.Spelling as spelling;
ghost use Rattle.sigtext.specs.Spelling.{Spells};
ghost use Rattle.sigtext.specs.Target.{Param, IsTargetOf};
ghost use Rattle.sigtext.specs.Targets.{IsCut, SpellsSome, SpellsSomeQuery, IsWrittenAs, IsReadFrom, IsRawParam, SpellRawParam, GivesNext, pieces_left, begins_with_escape};

use crate::refusal::Refusal;
use memchr::memchr;
use percent_encoding::percent_decode;
use std::alloc::AllocError;

/// The target is malformed.
#[derive(Clone, Copy, Debug, PartialEq, Eq)]
pub struct TextFault;

impl TextFault {
    /// The refusal for a malformed target: number 8.
    pub fn refusal(&self) -> Refusal
        ensures { result ≡ Refusal.Target }
    {
        Refusal::Target
    }
}

/// The raw path and query of a target, as slices of the text.
#[derive(Clone, Copy)]
pub struct Target<'a> {
    pub(crate) path: &'a [u8],
    query: Option<&'a [u8]>,
}

/// The raw name and value of one piece of a query (RFC 3986, section 3.4), as slices.
#[derive(Clone, Copy)]
pub struct RawParam<'a> {
    /// The bytes before the first `=`, or the whole piece if it has no `=`. An escape counts as three bytes.
    pub name: &'a [u8],
    /// The bytes after the first `=`; empty if the piece has no `=`.
    pub value: &'a [u8],
}

/// The raw names and values of a query, in order.
#[derive(Clone, Copy)]
pub struct Pairs<'a> {
    left: Option<&'a [u8]>,
}

impl<'a> Target<'a> {
    /// Reads a target. The path ends at the first `?` and begins with `/`. A query may follow the `?`: one or more
    /// pieces, joined by `&`. A piece is a name of at least one byte, optionally followed by `=` and a value. Each byte
    /// of these texts is 0x21 to 0x7E but not `+`, `#` or `%`, or belongs to an escape: `%` and two hexadecimal digits
    /// (RFC 3986, section 2.1). Any other text is an error. Nothing is copied, and the time is linear.
    pub fn read(text: &'a [u8]) -> Result<Target<'a>, TextFault>
        ensures ok { IfOk result (λ t. IsReadFrom text.now t) }
        ensures err { OnErr result
            ((path : List ℕ) (params : List Param) → IsTargetOf text.now path params → ⊥) }
    {
        if text.is_empty() || text[0] != b'/' {
            return Err(TextFault);
        }
        let target = raw_target(text);
        if !is_spelling(target.path, b"?") {
            return Err(TextFault);
        }
        match target.query {
            None => Ok(target),
            Some(query) if is_query(query) => Ok(target),
            Some(_) => Err(TextFault),
        }
    }

    /// The raw names and values of the query's pieces, in order. Without a query there are none.
    pub fn pairs(&self) -> Pairs<'a>
        ensures { result.left ≡ self.now.query }
    {
        Pairs { left: self.query }
    }

    /// Appends the decoded path (RFC 3986, section 2.1). The only error is a lack of memory. It leaves `out` unchanged.
    pub fn path_into(&self, out: &mut Vec<u8>) -> Result<(), AllocError>
        ensures ok { OnOk result ((path : List ℕ) → Spells (63 ∷ []) self.now.path.now path
            → out.new.items ≡ out.old.items ++ path) }
        ensures err { OnErr result (out.new.items ≡ out.old.items) }
        ensures full { OnErr result ((path : List ℕ) → Spells (63 ∷ []) self.now.path.now path
            → vec_capacity out.old < vec_len out.old + length path) }
    {
        percent_decode(self.path).append_to(out)
    }
}

impl<'a> Iterator for Pairs<'a> {
    type Item = RawParam<'a>;

    ghost next_gives = { GivesNext };

    ghost remaining = { λ pairs. at_most (pieces_left pairs) };

    fn next(&mut self) -> Option<RawParam<'a>> {
        let text = self.left?;
        match cut(text, b'&') {
            Some((piece, more)) => {
                self.left = Some(more);
                Some(raw_param(piece))
            }
            None => {
                self.left = None;
                Some(raw_param(text))
            }
        }
    }
}

/// The text before the first such byte, and the text after it. `None` if the text does not contain the byte. It takes no
/// memory.
pub fn cut(text: &[u8], byte: u8) -> Option<(&[u8], &[u8])>
    ensures { IsCut byte text.now result }
{
    let at = memchr(byte, text)?;
    Some((&text[..at], &text[at + 1..]))
}

fn raw_param(piece: &[u8]) -> RawParam<'_>
    ensures { IsRawParam piece.now result }
{
    match cut(piece, b'=') {
        Some((name, value)) => RawParam { name, value },
        None => RawParam {
            name: piece,
            value: &[],
        },
    }
}

fn raw_target(text: &[u8]) -> Target<'_>
    ensures { IsWrittenAs result text.now }
{
    match cut(text, b'?') {
        Some((path, query)) => Target {
            path,
            query: Some(query),
        },
        None => Target {
            path: text,
            query: None,
        },
    }
}

fn may_stand(byte: u8, barred: &[u8]) -> bool
    ensures { result ≡ spelling.may_stand barred.now byte }
{
    (0x21..=0x7E).contains(&byte)
        && !matches!(byte, b'+' | b'#' | b'%')
        && memchr(byte, barred).is_none()
}

// Whether the text begins with an escape: `%` and two hexadecimal digits.
fn begins_escape(text: &[u8]) -> bool
    ensures { result ≡ begins_with_escape text.now }
{
    text.len() >= 3
        && text[0] == b'%'
        && char::from(text[1]).is_digit(16)
        && char::from(text[2]).is_digit(16)
}

// The length of the first byte's spelling, if the text begins with one: 1 or 3 bytes.
fn spelling_len(text: &[u8], barred: &[u8]) -> Option<usize>
    requires { 0 < length text.now }
    ensures within { IfSome result (λ n. (0 < n) × (n ≤ length text.now)) }
    ensures some { IfSome result
        (λ n. SpellsSome barred.now (drop n text.now) ↔ SpellsSome barred.now text.now) }
    ensures none { IfNone result (¬ SpellsSome barred.now text.now) }
{
    if begins_escape(text) {
        return Some(3);
    }
    if may_stand(text[0], barred) {
        Some(1)
    } else {
        None
    }
}

// Whether the text can be decoded.
fn is_spelling(text: &[u8], barred: &[u8]) -> bool
    ensures { IsTrue result ↔ SpellsSome barred.now text.now }
{
    let mut at = 0;
    while at < text.len() {
        match spelling_len(&text[at..], barred) {
            Some(n) => at += n,
            None => return false,
        }
    }
    true
}

// Whether the raw name and value can be decoded, and the name is not empty.
fn is_param(raw: RawParam) -> bool
    ensures { IsTrue result ↔ ((p : Param) × SpellRawParam raw.entry p) }
{
    if raw.name.is_empty() {
        return false;
    }
    is_spelling(raw.name, b"&=") && is_spelling(raw.value, b"&")
}

// Whether the text is a query: each piece is a parameter.
fn is_query(text: &[u8]) -> bool
    ensures { IsTrue result ↔ SpellsSomeQuery text.now }
{
    let pairs = Pairs { left: Some(text) };
    for raw in pairs {
        if !is_param(raw) {
            return false;
        }
    }
    true
}
