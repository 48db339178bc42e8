//! The names of the signed headers.
ghost use Rattle.std.specs.Prelude.{◌≡◌, ◌↔◌, ℕ, List, IsTrue, IfOk, IfErr};
ghost use Rattle.sigtext.specs.SignedNames.{is_header_name_byte, IsHeaderName, AreSignedNames};

use crate::refusal::Refusal;
use crate::words::is_word;

/// The names of the signed headers: in lower case, strictly ascending, and with `host` among them.
#[derive(Clone, Copy)]
pub struct SignedNames<'a> {
    text: &'a [u8],
}

impl<'a> SignedNames<'a> {
    /// Reads names that are joined by `;`. Each is 1 to 64 bytes of `a-z 0-9 - _ .`. Any other text gets refusal 15.
    /// Nothing is copied, and the time is linear.
    pub fn read(text: &'a [u8]) -> Result<SignedNames<'a>, Refusal>
        ensures ok { IfOk result
            (λ n. (n.text.now ≡ text.now)
            × ((names : List (List ℕ)) × AreSignedNames text.now names)) }
        ensures err { IfErr result
            (λ q. (q ≡ Refusal.SignedHeaders)
            × ((names : List (List ℕ)) → AreSignedNames text.now names → ⊥)) }
    {
        if are_names(text) {
            Ok(SignedNames { text })
        } else {
            Err(Refusal::SignedHeaders)
        }
    }

    /// The names, joined by `;`.
    pub fn text(&self) -> &'a [u8]
        ensures { result.now ≡ self.now.text.now }
    {
        self.text
    }
}

fn is_name_byte(byte: u8) -> bool
    ensures { result ≡ is_header_name_byte byte }
{
    byte.is_ascii_lowercase() || byte.is_ascii_digit() || matches!(byte, b'-' | b'_' | b'.')
}

/// Whether the text has the form of a signed header's name: 1 to 64 bytes of `a-z 0-9 - _ .`.
pub fn is_header_name(text: &[u8]) -> bool
    ensures { IsTrue result ↔ IsHeaderName text.now }
{
    is_word(text, 64, is_name_byte)
}

// Whether the pieces of the text, split at `;`, are header names and strictly ascending, and one is `host`.
fn are_names(text: &[u8]) -> bool
    ensures { IsTrue result ↔ ((names : List (List ℕ)) × AreSignedNames text.now names) }
{
    let mut before: &[u8] = &[];
    let mut has_host = false;
    for name in text.split(|byte| *byte == b';') {
        if before >= name || !is_header_name(name) {
            return false;
        }
        has_host |= name == b"host".as_slice();
        before = name;
    }
    has_host
}
