//! The names of exported files.
ghost use Rattle.std.specs.Prelude.{◌≡◌, ℕ, List, ◌⊎◌, ◌++◌, ◌∷◌, [], ◌<◌, ◌≤◌, ◌↔◌, IfOk, IsTrue, decimal, length, slice_index};
ghost use Rattle.lists.specs.Names.{is_plain, AreDots, IsCalled, IsComponent, IsExportName, IsFolderName, IsFront, IsLastPart, IsPart, MayStand};

use itoa::Buffer;
use memchr::memrchr;
use std::alloc::{AllocError, Global};
use std::str;

/// The most bytes of a file's name that are used.
const MOST_PART: usize = 200;

/// The replacement for a byte that is not allowed.
const STAND_IN: u8 = b'_';

// The part after the last slash.
fn last_part(name: &[u8]) -> &[u8]
    ensures { IsLastPart name.now result.now }
{
    match memrchr(b'/', name) {
        Some(slash) => &name[slash + 1..],
        None => name,
    }
}

// As many whole characters as fit in 200 bytes. Empty if the bytes are not UTF-8.
fn front(part: &[u8]) -> &[u8]
    ensures { IsFront part.now result.now }
{
    match str::from_utf8(part) {
        Ok(text) => &part[..text.floor_char_boundary(MOST_PART)],
        Err(_) => b"",
    }
}

// Whether the byte is allowed in a name: no control byte, and none of `/ \ : * ? " < > |`.
fn is_plain(byte: u8) -> bool
    ensures { result ≡ is_plain byte }
{
    !matches!(
        byte,
        0..=31 | 127 | b'/' | b'\\' | b':' | b'*' | b'?' | b'"' | b'<' | b'>' | b'|'
    )
}

// The number of dots at the beginning of the text.
fn dots(text: &[u8]) -> usize
    ensures bound { result ≤ length text.now }
    ensures are { AreDots text.now result }
    ensures end { result < length text.now → slice_index text.now result ≡ 46 → ⊥ }
{
    'dots: for (index, byte) in text.iter().enumerate() {
        if *byte != b'.' {
            return index;
        }
    }
    text.len()
}

// Whether the byte at this index is allowed there. `dots` is the number of dots at the beginning.
fn may_stand(text: &[u8], dots: usize, index: usize) -> bool
    requires inside { index < length text.now }
    requires are { AreDots text.now dots }
    requires end { dots < length text.now → slice_index text.now dots ≡ 46 → ⊥ }
    ensures { IsTrue result ↔ MayStand text.now index }
{
    let byte = text[index];
    let is_last = index + 1 == text.len();
    is_plain(byte) && index >= dots && !(is_last && (byte == b'.' || byte == b' '))
}

// The byte at this index, or `_` if it is not allowed there.
fn cleaned(text: &[u8], dots: usize, index: usize) -> u8
    requires inside { index < length text.now }
    requires are { AreDots text.now dots }
    requires end { dots < length text.now → slice_index text.now dots ≡ 46 → ⊥ }
    ensures kept { MayStand text.now index → result ≡ slice_index text.now index }
    ensures other { (MayStand text.now index → ⊥) → result ≡ 95 }
{
    if may_stand(text, dots, index) {
        text[index]
    } else {
        STAND_IN
    }
}

// Appends the text, with `_` for each byte that is not allowed in its place. Appends `_` for an empty text.
fn push_part(text: &[u8], name: &mut Vec<u8>) -> Result<(), AllocError>
    ensures { IfOk result (λ done. (part : List ℕ) × IsPart text.now part
        × (name.new.items ≡ name.old.items ++ part)) }
{
    if text.is_empty() {
        name.push(STAND_IN)?;
        return Ok(());
    }
    let dots = dots(text);
    'bytes: for index in 0..text.len() {
        name.push(cleaned(text, dots, index))?;
    }
    Ok(())
}

/// The exported name of a file: its receipt's number, `-`, and the part of its name after the last `/`. The part is cut to as
/// many whole characters as fit in 200 bytes, and is empty if it is not UTF-8. `_` replaces each control byte, each of `\ : * ?
/// " < > |`, each dot at the beginning, a dot or a space at the end, and an empty part.
///
/// # Errors
///
/// Memory was refused.
pub fn export_name(alloc: Global, number: u64, name: &[u8]) -> Result<Vec<u8>, AllocError>
    ensures name { IfOk result (λ text. IsExportName number name.now text.items) }
    ensures component { IfOk result (λ text. IsComponent text.items) }
{
    let mut digits = Buffer::new();
    let mut text = Vec::from_slice(alloc, digits.format(number).as_bytes())?;
    text.push(b'-')?;
    push_part(front(last_part(name)), &mut text)?;
    Ok(text)
}

// The folder's name before cleaning. It differs from the names of the lists beside the folders, even if case is ignored.
fn called<'a>(in_box: &'a [u8]) -> &'a [u8]
    ensures { IsCalled in_box.now result.now }
{
    if in_box == b"files.csv".as_slice() {
        return b"files_csv";
    }
    if in_box == b"sha256sums".as_slice() {
        return b"sha256_sums";
    }
    in_box
}

/// The name of the folder for a box's files: the box's name, with `_` for each dot at the beginning and for a dot at the end. A
/// box named like a list beside the folders gets `files_csv` or `sha256_sums`. No box name has a `_`, so different boxes have
/// different folders.
///
/// # Errors
///
/// Memory was refused.
pub fn folder_name(alloc: Global, in_box: &[u8]) -> Result<Vec<u8>, AllocError>
    ensures name { IfOk result (λ text. IsFolderName in_box.now text.items) }
    ensures component { IfOk result (λ text. IsComponent text.items) }
{
    let mut text = Vec::new(alloc);
    push_part(front(called(in_box)), &mut text)?;
    Ok(text)
}
