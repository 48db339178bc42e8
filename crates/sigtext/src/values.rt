//! The values of the signed headers.
ghost use Rattle.std.specs.Prelude.{◌≡◌, ◌≢◌, ◌==◌, ℕ, List, map, IfOk, IfErr, IfSome, IfNone};
ghost use Rattle.std.specs.List.{list_all, list_any, slice_split};
ghost use Rattle.sigtext.specs.Bytes.{same_bytes};
ghost use Rattle.sigtext.specs.Fields.{header_of};
ghost use Rattle.sigtext.specs.Rules.{IsFirstToFail, AllHold};
ghost use Rattle.sigtext.specs.SignedHeaders.{Header, lower_case, IsSignedValue};
ghost use Rattle.sigtext.specs.SignedNames.{AreSignedNames};
ghost use Rattle.sigtext.specs.SignedValues.{IsFitValue, is_covered, ValueRule};
ghost use Rattle.sigtext.specs.Signing.{signed_header, values_of};

use crate::field::Field;
use crate::fields::{is_amz_name, is_fit_value, is_same_name, only_field, trim_blanks};
use crate::names::SignedNames;
use crate::refusal::Refusal;
use std::alloc::Global;

/// The signed headers of a request: one for each signed name, in the order of the names. They borrow only from the
/// request's fields.
#[derive(Drop)]
pub struct Values<'a> {
    // Names keep the field's case. Values have no leading or trailing blanks.
    pub(crate) fields: Vec<Field<'a>>,
}

/// The values of these names in a request's fields; ASCII case is ignored. Refusal 17 if a name belongs to no field or to
/// more than one, or if its value, without leading and trailing blanks, has a byte that is not printable ASCII, or two
/// adjacent spaces. Refusal 18 if a field whose name begins with `x-amz-` is not signed. Refusal 40 if there is no memory.
pub fn signed_values<'a>(
    alloc: Global,
    fields: &'a [Field<'a>],
    names: &SignedNames<'_>,
) -> Result<Values<'a>, Refusal>
    ensures ok { IfOk result (λ v. (ns : List (List ℕ)) → AreSignedNames names.now.text.now ns
        → AllHold (ValueRule (map header_of fields.now) ns) (values_of v)) }
    ensures err { IfErr result
        (λ q. (ns : List (List ℕ)) → AreSignedNames names.now.text.now ns → (q ≢ Refusal.TryAgain)
        → IsFirstToFail (ValueRule (map header_of fields.now) ns) q) }
{
    let values = values_named(alloc, fields, names.text())?;
    if !covers_all(&values.fields, fields) {
        return Err(Refusal::HeaderNotSigned);
    }
    Ok(values)
}

// The values of the names, which `;` separates in the text.
fn values_named<'a>(
    alloc: Global,
    fields: &'a [Field<'a>],
    names: &[u8],
) -> Result<Values<'a>, Refusal>
    ensures ok { IfOk result
        (λ v. ValueRule (map header_of fields.now)
        (map lower_case (slice_split (λ b. b == 59) names.now)) Refusal.SignedValues
        (values_of v)) }
    ensures err { IfErr result (λ q. (q ≢ Refusal.TryAgain) → (q ≡ Refusal.SignedValues)
        × ((signed : List Header)
        → ValueRule (map header_of fields.now)
        (map lower_case (slice_split (λ b. b == 59) names.now)) Refusal.SignedValues signed → ⊥)) }
{
    let most = names.split(|byte| *byte == b';').count().min(fields.len());
    let Ok(mut values) = Vec::with_capacity(alloc, most) else {
        return Err(Refusal::TryAgain);
    };
    for name in names.split(|byte| *byte == b';') {
        let Some(field) = signed_field(fields, name) else {
            return Err(Refusal::SignedValues);
        };
        if values.push(field).is_err() {
            return Err(Refusal::TryAgain);
        }
    }
    Ok(Values { fields: values })
}

// The only field with this name, with its value trimmed, if the value may be signed.
fn signed_field<'a>(fields: &[Field<'a>], name: &[u8]) -> Option<Field<'a>>
    ensures some { IfSome result (λ f. (lower_case f.name.now ≡ lower_case name.now)
        × IsSignedValue (map header_of fields.now) (lower_case name.now) f.value.now
        × IsFitValue f.value.now) }
    ensures none { IfNone result
        ((value : List ℕ) → IsSignedValue (map header_of fields.now) (lower_case name.now) value
        → IsFitValue value → ⊥) }
{
    let field = only_field(fields, name)?;
    let value = trim_blanks(field.value);
    if !is_fit_value(value) {
        return None;
    }
    Some(Field {
        name: field.name,
        value,
    })
}

// Whether one of the fields has this name; ASCII case is ignored.
fn has_name(fields: &[Field<'_>], name: &[u8]) -> bool
    ensures { result ≡ list_any (λ s. same_bytes s.name (lower_case name.now)) (map signed_header fields.now) }
{
    for field in fields {
        if is_same_name(field.name, name) {
            return true;
        }
    }
    false
}

// Whether each field whose name begins with `x-amz-` is signed.
fn covers_all(signed: &[Field<'_>], fields: &[Field<'_>]) -> bool
    ensures { result ≡ list_all (is_covered (map signed_header signed.now))
        (map header_of fields.now) }
{
    for field in fields {
        if is_amz_name(field.name) && !has_name(signed, field.name) {
            return false;
        }
    }
    true
}
