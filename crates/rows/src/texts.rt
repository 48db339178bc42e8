//! Rows for `sigtext`: refusals, percent-encoding, targets, query parameters and canonical requests.
use crate::row::{Line, Row, RowFault};
use sigtext::{
    Field, Params, Parts, Refusal, SignedNames, Slash, Target, canonical_into, decodes_to,
    is_fit_value, is_header_name, only_field, signed_values, trim_blanks, uri_encode,
};
use std::alloc::Global;

/// Answers the row if it is one of these calls, else returns `false`.
pub(crate) fn answer(alloc: Global, row: &Row<'_>, line: &mut Line) -> Result<bool, RowFault> {
    match row.call {
        "refusal" => columns(alloc, row, line)?,
        "uri_encode" => encode(alloc, row, line)?,
        "decodes_to" => line.put_bool(decodes_to(row.word(0)?, row.word(1)?))?,
        "target" => target(alloc, row, line)?,
        "path_into" => path_into(alloc, row, line)?,
        "param" => param(alloc, row, line)?,
        "query" => query(alloc, row, line)?,
        "signed_names" => line.put(SignedNames::read(row.word(0)?)?.text())?,
        "is_header_name" => line.put_bool(is_header_name(row.word(0)?))?,
        "is_fit_value" => line.put_bool(is_fit_value(row.word(0)?))?,
        "trim_blanks" => line.put(trim_blanks(row.word(0)?))?,
        "only_field" => one_field(alloc, row, line)?,
        "canonical" => canonical(alloc, row, line)?,
        _ => return Ok(false),
    }
    Ok(true)
}

// Each refusal with the name of its variant.
const REFUSALS: [(&str, Refusal); 37] = [
    ("HeadMalformed", Refusal::HeadMalformed),
    ("HeadTooLong", Refusal::HeadTooLong),
    ("TransferCoding", Refusal::TransferCoding),
    ("LengthMalformed", Refusal::LengthMalformed),
    ("BodyTooLarge", Refusal::BodyTooLarge),
    ("BodyIncomplete", Refusal::BodyIncomplete),
    ("Method", Refusal::Method),
    ("Target", Refusal::Target),
    ("NotSigned", Refusal::NotSigned),
    ("Parameters", Refusal::Parameters),
    ("Algorithm", Refusal::Algorithm),
    ("Credential", Refusal::Credential),
    ("Date", Refusal::Date),
    ("Expiry", Refusal::Expiry),
    ("SignedHeaders", Refusal::SignedHeaders),
    ("SignatureText", Refusal::SignatureText),
    ("SignedValues", Refusal::SignedValues),
    ("HeaderNotSigned", Refusal::HeaderNotSigned),
    ("KeyUnknown", Refusal::KeyUnknown),
    ("KeyRevoked", Refusal::KeyRevoked),
    ("SignatureMismatch", Refusal::SignatureMismatch),
    ("NotYetValid", Refusal::NotYetValid),
    ("Expired", Refusal::Expired),
    ("RoleNotAllowed", Refusal::RoleNotAllowed),
    ("LengthMissing", Refusal::LengthMissing),
    ("BodyNotTaken", Refusal::BodyNotTaken),
    ("NoSuchBox", Refusal::NoSuchBox),
    ("NameTooLong", Refusal::NameTooLong),
    ("NameNotAllowed", Refusal::NameNotAllowed),
    ("BoxClosed", Refusal::BoxClosed),
    ("OtherBytesKept", Refusal::OtherBytesKept),
    ("TooManyFiles", Refusal::TooManyFiles),
    ("QuotaPassed", Refusal::QuotaPassed),
    ("NoSuchFile", Refusal::NoSuchFile),
    ("CommandMalformed", Refusal::CommandMalformed),
    ("CommandNotPossible", Refusal::CommandNotPossible),
    ("TryAgain", Refusal::TryAgain),
];

/// The refusal whose variant has this name.
pub(crate) fn refusal_named(name: &[u8]) -> Result<Refusal, RowFault> {
    for (found, refusal) in REFUSALS {
        if found.as_bytes() == name {
            return Ok(refusal);
        }
    }
    Err(RowFault::Malformed)
}

/// `NAME`: the number, the word, the status and the text of this refusal.
fn columns(alloc: Global, row: &Row<'_>, line: &mut Line) -> Result<(), RowFault> {
    let refusal = refusal_named(row.word(0)?)?;
    line.put_number(alloc, u64::from(refusal.number()))?;
    line.put(refusal.word().as_bytes())?;
    line.put_number(alloc, u64::from(refusal.status()))?;
    Ok(line.put(refusal.text().as_bytes())?)
}

/// `kept TEXT` or `encoded TEXT`, which says what is done with `/`, and perhaps a front text: the front with the encoded text
/// appended.
fn encode(alloc: Global, row: &Row<'_>, line: &mut Line) -> Result<(), RowFault> {
    let slash = match row.word(0)? {
        b"kept" => Slash::Kept,
        b"encoded" => Slash::Encoded,
        _ => return Err(RowFault::Malformed),
    };
    let front = row.word(2).unwrap_or_default();
    let mut out = Vec::from_slice(alloc, front)?;
    if uri_encode(row.word(1)?, slash, &mut out).is_err() {
        return Err(want_of_memory(&out, front));
    }
    Ok(line.put(&out)?)
}

/// The fault when memory ran out: `Memory` if the output is unchanged, as it must be, else `Malformed`.
pub(crate) fn want_of_memory(found: &[u8], before: &[u8]) -> RowFault {
    if found == before {
        RowFault::Memory
    } else {
        RowFault::Malformed
    }
}

/// `TEXT`: the decoded path, and the raw query parameters in order.
fn target(alloc: Global, row: &Row<'_>, line: &mut Line) -> Result<(), RowFault> {
    let target = Target::read(row.word(0)?)?;
    let mut path = Vec::new(alloc);
    target.path_into(&mut path)?;
    line.put(&path)?;
    for raw in target.pairs() {
        line.put(raw.name)?;
        line.put(raw.value)?;
    }
    Ok(())
}

/// `TARGET TEXT`: the text with the decoded path appended.
fn path_into(alloc: Global, row: &Row<'_>, line: &mut Line) -> Result<(), RowFault> {
    let front = row.word(1)?;
    let target = Target::read(row.word(0)?)?;
    let mut out = Vec::from_slice(alloc, front)?;
    if target.path_into(&mut out).is_err() {
        return Err(want_of_memory(&out, front));
    }
    Ok(line.put(&out)?)
}

/// `TARGET NAME`: `some` and the raw value of this query parameter, or `none`.
fn param(alloc: Global, row: &Row<'_>, line: &mut Line) -> Result<(), RowFault> {
    let target = Target::read(row.word(0)?)?;
    match Params::read(alloc, &target)?.get(row.word(1)?) {
        Some(value) => {
            line.put(b"some")?;
            line.put(value)?;
        }
        None => line.put(b"none")?,
    }
    Ok(())
}

/// `TARGET`: the canonical query string.
fn query(alloc: Global, row: &Row<'_>, line: &mut Line) -> Result<(), RowFault> {
    let target = Target::read(row.word(0)?)?;
    let mut text = Vec::new(alloc);
    Params::read(alloc, &target)?.query_into(&mut text)?;
    Ok(line.put(&text)?)
}

/// `NAME` and header fields: `some` and the name and value of the only field of this name, or `none`.
fn one_field(alloc: Global, row: &Row<'_>, line: &mut Line) -> Result<(), RowFault> {
    let fields = row.fields(alloc, 1)?;
    match only_field(&fields, row.word(0)?) {
        Some(field) => {
            line.put(b"some")?;
            line.put(field.name)?;
            line.put(field.value)?;
        }
        None => line.put(b"none")?,
    }
    Ok(())
}

/// The signed parts of a request. The words from this index on are the method, the target and the names of the signed headers.
pub(crate) fn parts_of<'a>(
    alloc: Global,
    row: &'a Row<'_>,
    from: usize,
    fields: &'a [Field<'a>],
) -> Result<Parts<'a>, RowFault> {
    let words = row.words().get(from..).unwrap_or_default();
    let [method, target, names, ..] = words else {
        return Err(RowFault::Malformed);
    };
    let target = Target::read(target)?;
    let params = Params::read(alloc, &target)?;
    let names = SignedNames::read(names)?;
    let values = signed_values(alloc, fields, &names)?;
    Ok(Parts {
        method,
        target,
        params,
        values,
    })
}

/// `METHOD TARGET NAMES` and header fields: the canonical request with these signed headers.
fn canonical(alloc: Global, row: &Row<'_>, line: &mut Line) -> Result<(), RowFault> {
    let fields = row.fields(alloc, 3)?;
    let text = canonical_request(alloc, row, &fields)?;
    Ok(line.put(&text)?)
}

fn canonical_request<'a>(
    alloc: Global,
    row: &'a Row<'_>,
    fields: &'a [Field<'a>],
) -> Result<Vec<u8>, RowFault> {
    let parts = parts_of(alloc, row, 0, fields)?;
    let mut text = Vec::new(alloc);
    canonical_into(&parts, &mut text)?;
    Ok(text)
}
