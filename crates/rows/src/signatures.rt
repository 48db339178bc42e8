//! Rows for `sigv4`: hashes, moments, credential scopes, signing keys and signatures.
use crate::row::{Line, Row, RowFault};
use crate::texts::parts_of;
use hex::encode_to_slice;
use sigtext::{ByteSink, Field};
use sigv4::{Hmac, Moment, Scope, Sha, derive, is_key_id, is_region, is_secret, signature};
use std::alloc::{AllocError, Global};

/// Answers the row if it is one of these calls, else returns `false`.
pub(crate) fn answer(alloc: Global, row: &Row<'_>, line: &mut Line) -> Result<bool, RowFault> {
    match row.call {
        "sha" => sha(row, line)?,
        "sha_take" => sha_take(row, line)?,
        "sha_cut" => sha_cut(row.word(0)?, line)?,
        "hmac" => hmac(row, line)?,
        "hmac_take" => hmac_take(row, line)?,
        "hmac_cut" => hmac_cut(row.word(0)?, row.word(1)?, line)?,
        "moment" => moment(alloc, row, line)?,
        "moment_at" => moment_at(alloc, row, line)?,
        "scope" => scope(row, line)?,
        "is_key_id" => line.put_bool(is_key_id(row.word(0)?))?,
        "is_secret" => line.put_bool(is_secret(row.word(0)?))?,
        "is_region" => line.put_bool(is_region(row.word(0)?))?,
        "derive" => signing_key(row, line)?,
        "signature" => sign(alloc, row, line)?,
        _ => return Ok(false),
    }
    Ok(true)
}

fn digits(digest: [u8; 32]) -> [u8; 64] {
    let mut digits = [0; 64];
    let _ = encode_to_slice(digest, &mut digits);
    digits
}

/// Pieces of a message: its SHA-256 digest.
fn sha(row: &Row<'_>, line: &mut Line) -> Result<(), RowFault> {
    let mut sha = Sha::new();
    for piece in row.words() {
        sha.update(piece);
    }
    Ok(line.put(&digits(sha.finish()))?)
}

fn take_each<S: ByteSink>(pieces: &[Vec<u8>], sink: &mut S) -> Result<(), AllocError> {
    for piece in pieces {
        sink.take(piece)?;
    }
    Ok(())
}

/// The same, with the hasher used as a sink.
fn sha_take(row: &Row<'_>, line: &mut Line) -> Result<(), RowFault> {
    let mut sha = Sha::new();
    take_each(row.words(), &mut sha)?;
    Ok(line.put(&digits(sha.finish()))?)
}

/// The digests of the message when it is cut at each index. A digest equal to the one before is left out.
fn sha_cut(message: &[u8], line: &mut Line) -> Result<(), AllocError> {
    let mut before = [0; 64];
    for cut in 0..=message.len() {
        let mut sha = Sha::new();
        sha.update(&message[..cut]);
        sha.update(&message[cut..]);
        let found = digits(sha.finish());
        if found != before {
            line.put(&found)?;
            before = found;
        }
    }
    Ok(())
}

/// A key and pieces of a message: its HMAC.
fn hmac(row: &Row<'_>, line: &mut Line) -> Result<(), RowFault> {
    let mut hmac = Hmac::new(row.word(0)?);
    for piece in row.words().get(1..).unwrap_or_default() {
        hmac.update(piece);
    }
    Ok(line.put(&digits(hmac.finish()))?)
}

/// The same, with the hasher used as a sink.
fn hmac_take(row: &Row<'_>, line: &mut Line) -> Result<(), RowFault> {
    let mut hmac = Hmac::new(row.word(0)?);
    take_each(row.words().get(1..).unwrap_or_default(), &mut hmac)?;
    Ok(line.put(&digits(hmac.finish()))?)
}

/// The HMACs of the message when it is cut at each index. One equal to the one before is left out.
fn hmac_cut(key: &[u8], message: &[u8], line: &mut Line) -> Result<(), AllocError> {
    let mut before = [0; 64];
    for cut in 0..=message.len() {
        let mut hmac = Hmac::new(key);
        hmac.update(&message[..cut]);
        hmac.update(&message[cut..]);
        let found = digits(hmac.finish());
        if found != before {
            line.put(&found)?;
            before = found;
        }
    }
    Ok(())
}

fn put_moment(alloc: Global, found: Option<Moment>, line: &mut Line) -> Result<(), AllocError> {
    let Some(moment) = found else {
        return line.put(b"none");
    };
    line.put_number(alloc, moment.seconds())?;
    line.put(&moment.text())
}

/// A text of 16 bytes: its moment in seconds, and the moment's text; or `none`.
fn moment(alloc: Global, row: &Row<'_>, line: &mut Line) -> Result<(), RowFault> {
    let Ok(text) = row.word(0)?.try_into() else {
        return Err(RowFault::Malformed);
    };
    Ok(put_moment(alloc, Moment::read(text), line)?)
}

/// A number of seconds: the moment in seconds, and its text; or `none`.
fn moment_at(alloc: Global, row: &Row<'_>, line: &mut Line) -> Result<(), RowFault> {
    Ok(put_moment(alloc, Moment::new(row.number(0)?), line)?)
}

/// `CREDENTIAL DATE`: the access key id, the day and the region.
fn scope(row: &Row<'_>, line: &mut Line) -> Result<(), RowFault> {
    let scope = Scope::read(row.word(0)?, row.word(1)?)?;
    line.put(scope.key_id)?;
    line.put(scope.date)?;
    Ok(line.put(scope.region)?)
}

/// `SECRET CREDENTIAL DATE`: the signing key.
fn signing_key(row: &Row<'_>, line: &mut Line) -> Result<(), RowFault> {
    let scope = Scope::read(row.word(1)?, row.word(2)?)?;
    Ok(line.put(&digits(derive(row.word(0)?, &scope)))?)
}

/// `SECRET CREDENTIAL DATE METHOD TARGET NAMES` and header fields: the request's signature.
fn sign(alloc: Global, row: &Row<'_>, line: &mut Line) -> Result<(), RowFault> {
    let fields = row.fields(alloc, 6)?;
    let signed = signature_of(alloc, row, &fields)?;
    Ok(line.put(&signed)?)
}

fn signature_of<'a>(
    alloc: Global,
    row: &'a Row<'_>,
    fields: &'a [Field<'a>],
) -> Result<[u8; 64], RowFault> {
    let date = row.word(2)?;
    let scope = Scope::read(row.word(1)?, date)?;
    let Ok(text) = date.try_into() else {
        return Err(RowFault::Malformed);
    };
    let moment = Moment::read(text).ok_or(RowFault::Malformed)?;
    let parts = parts_of(alloc, row, 3, fields)?;
    Ok(signature(row.word(0)?, &scope, &moment, &parts))
}
