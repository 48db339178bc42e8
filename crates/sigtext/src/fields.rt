//! Searches a request's fields by name, in any case, and tests values that may be signed.
ghost use Rattle.std.specs.Prelude.{◌≡◌, ◌≢◌, ◌↔◌, ◌++◌, ◌∷◌, [], List, ℕ, map, reverse, codes, IsTrue, IsFalse, IfSome, IfNone, nat_le, ◌&&◌};
ghost use Rattle.std.specs.List.{list_all};
ghost use Rattle.sigtext.specs.Bytes.{same_bytes, begins_with};
ghost use Rattle.sigtext.specs.Fields.{header_of};
ghost use Rattle.sigtext.specs.SignedHeaders.{Header, is_blank, without_leading_blanks, trimmed, lower_case, named};
ghost use Rattle.sigtext.specs.SignedValues.{IsFitValue};

use crate::field::Field;
use memchr::memmem;

/// Whether the two names are equal; ASCII case is ignored.
pub(crate) fn is_same_name(a: &[u8], b: &[u8]) -> bool
    ensures { result ≡ same_bytes (lower_case a.now) (lower_case b.now) }
{
    a.eq_ignore_ascii_case(b)
}

/// Whether the name begins with `x-amz-`; ASCII case is ignored.
pub(crate) fn is_amz_name(name: &[u8]) -> bool
    ensures { result ≡ begins_with (lower_case name.now) (codes "x-amz-") }
{
    name.len() >= 6 && name[..6].eq_ignore_ascii_case(b"x-amz-")
}

/// The only field with this name; ASCII case is ignored. `None` if no field or more than one has it.
pub fn only_field<'a>(fields: &[Field<'a>], name: &[u8]) -> Option<Field<'a>>
    ensures some { IfSome result
        (λ f. named (lower_case name.now) (map header_of fields.now) ≡ header_of f ∷ []) }
    ensures none { IfNone result
        ((h : Header) → named (lower_case name.now) (map header_of fields.now) ≡ h ∷ [] → ⊥) }
{
    let mut found: Option<Field<'a>> = None;
    for field in fields {
        if is_same_name(field.name, name) {
            if found.is_some() {
                return None;
            }
            found = Some(*field);
        }
    }
    found
}

fn is_blank(byte: u8) -> bool
    ensures { result ≡ is_blank byte }
{
    matches!(byte, b' ' | b'\t')
}

fn without_blanks_in_front(value: &[u8]) -> &[u8]
    ensures { result.now ≡ without_leading_blanks value.now }
{
    for (i, byte) in value.iter().enumerate() {
        if !is_blank(*byte) {
            return &value[i..];
        }
    }
    &[]
}

fn without_blanks_behind(value: &[u8]) -> &[u8]
    ensures { result.now ≡ reverse (without_leading_blanks (reverse value.now)) }
{
    let mut end = value.len();
    while end > 0 && is_blank(value[end - 1]) {
        end -= 1;
    }
    &value[..end]
}

/// The value without leading and trailing spaces and tabs.
pub fn trim_blanks(value: &[u8]) -> &[u8]
    ensures { result.now ≡ trimmed value.now }
{
    without_blanks_behind(without_blanks_in_front(value))
}

fn has_double_space(value: &[u8]) -> bool
    ensures { IsFalse result ↔ ((a b : List ℕ) → value.now ≢ a ++ 32 ∷ 32 ∷ b) }
{
    memmem::find(value, b"  ").is_some()
}

fn is_printable(byte: u8) -> bool
    ensures { result ≡ (nat_le 0x20 byte && nat_le byte 0x7E) }
{
    matches!(byte, 0x20..=0x7E)
}

fn is_plain(value: &[u8]) -> bool
    ensures { result ≡ list_all (λ b. nat_le 0x20 b && nat_le b 0x7E) value.now }
{
    for byte in value {
        if !is_printable(*byte) {
            return false;
        }
    }
    true
}

/// Whether the value may be signed: its bytes are 0x20 to 0x7E, and no two spaces are adjacent.
pub fn is_fit_value(value: &[u8]) -> bool
    ensures { IsTrue result ↔ IsFitValue value.now }
{
    is_plain(value) && !has_double_space(value)
}
