//! Decimal digits and their numbers.
ghost use Rattle.std.specs.Prelude.{◌≡◌, ◌↔◌, ◌≤◌, IsTrue, IfSome, IfNone};
ghost use Rattle.std.specs.Char.{is_ascii_digit};
ghost use Rattle.std.specs.Str.Parse.{digits_value};
ghost use Rattle.sigtext.specs.Bytes.{IsWord};

use crate::words::is_word;
use std::str;

fn is_digit(byte: u8) -> bool
    ensures { result ≡ is_ascii_digit byte }
{
    byte.is_ascii_digit()
}

/// Whether the text is 1 to `most` decimal digits.
pub fn are_digits(text: &[u8], most: usize) -> bool
    ensures { IsTrue result ↔ IsWord is_ascii_digit most text.now }
{
    is_word(text, most, is_digit)
}

/// Reads a number of 1 to `most` decimal digits. Leading zeros are allowed. `None` if the text has another form.
pub fn read_digits(text: &[u8], most: usize) -> Option<u64>
    requires { most ≤ 19 }
    ensures form { IfSome result (λ n. IsWord is_ascii_digit most text.now) }
    ensures value { IfSome result (λ n. n ≡ digits_value 10 text.now) }
    ensures none { IfNone result (IsWord is_ascii_digit most text.now → ⊥) }
{
    if !are_digits(text, most) {
        return None;
    }
    let Ok(digits) = str::from_utf8(text) else {
        return None;
    };
    digits.parse().ok()
}
