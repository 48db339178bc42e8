//! The forms of a link's parameters.
ghost use Rattle.std.specs.Prelude.{◌≡◌, ◌↔◌, ℕ, IsTrue, IfSome, IfNone};
ghost use Rattle.std.specs.List.{list_all};
ghost use Rattle.links.specs.Forms.{IsExpiry, IsHexDigest, is_hex_digit};

use crate::orders::MOST_SECONDS;
use sigtext::read_digits;

/// The seconds of an expiry: 1 to 604800, in 1 to 6 digits without a leading zero.
pub fn read_expiry(text: &[u8]) -> Option<u64>
    ensures some { IfSome result (IsExpiry text.now) }
    ensures none { IfNone result ((n : ℕ) → IsExpiry text.now n → ⊥) }
{
    let seconds = read_digits(text, 6)?;
    if text[0] == b'0' || seconds == 0 || seconds > MOST_SECONDS {
        return None;
    }
    Some(seconds)
}

fn is_hex_digit(byte: u8) -> bool
    ensures { result ≡ is_hex_digit byte }
{
    matches!(byte, b'0'..=b'9' | b'a'..=b'f')
}

fn are_hex_digits(text: &[u8]) -> bool
    ensures { result ≡ list_all is_hex_digit text.now }
{
    text.iter().all(|byte| is_hex_digit(*byte))
}

/// Whether the text is 64 lower-case hexadecimal digits.
pub fn is_hex_digest(text: &[u8]) -> bool
    ensures { IsTrue result ↔ IsHexDigest text.now }
{
    text.len() == 64 && are_hex_digits(text)
}
