//! The texts about an exported file.
ghost use Rattle.std.specs.Prelude.{◌≡◌, ◌++◌, ◌∷◌, [], IfErr, IfOk, List, ℕ};
ghost use Rattle.hex.specs.Hex.{encode_lower};
ghost use Rattle.sigv4.specs.Hmac.{sha256};
ghost use Rattle.boxes.specs.Rows.{file_of, receipt_in};
ghost use Rattle.boxes.specs.Sound.{IsMoment};
ghost use Rattle.lists.specs.Lists.{line};
ghost use Rattle.lists.specs.Places.{place_in};
ghost use Rattle.lists.specs.Exports.{export_head, IsPath, IsRecord, IsSum};
ghost use Rattle.lists.specs.Names.{IsComponent, IsExportName, IsFolderName};

use crate::export_fault::ExportFault;
use crate::names::{export_name, folder_name};
use crate::{FilePlace, line_of, moment_text};
use boxes::FileRow;
use itoa::Buffer;
use sigv4::Sha;
use std::alloc::{AllocError, Global};
use wire::hex_digits;

/// The header line of `files.csv`.
pub(crate) const EXPORT_HEAD: [&[u8]; 8] = [
    b"path", b"box", b"name", b"receipt", b"length", b"sha256", b"moment", b"key",
];

/// Where a file is exported.
#[derive(Drop)]
pub(crate) struct ExportPath {
    /// The folder of its box.
    pub(crate) folder: Vec<u8>,
    /// Its name there.
    pub(crate) name: Vec<u8>,
    /// Both, with `/` between.
    pub(crate) text: Vec<u8>,
}

/// The texts about an exported file.
#[derive(Drop)]
pub(crate) struct ExportTexts {
    /// Where it is exported.
    pub(crate) path: ExportPath,
    /// Its row in `files.csv`.
    pub(crate) row: Vec<u8>,
    /// Its line in `SHA256SUMS`.
    pub(crate) sum: Vec<u8>,
}

// Where the file at this place, with this receipt number, is exported.
fn export_path(alloc: Global, place: &FilePlace, number: u64) -> Result<ExportPath, AllocError>
    ensures folder { IfOk result (λ p. IsFolderName (place_in place.now).box p.folder.items
        × IsComponent p.folder.items) }
    ensures name { IfOk result (λ p. IsExportName number (place_in place.now).name p.name.items
        × IsComponent p.name.items) }
    ensures text { IfOk result (λ p. p.text.items ≡ p.folder.items ++ 47 ∷ p.name.items) }
{
    let folder = folder_name(alloc, &place.in_box)?;
    let name = export_name(alloc, number, &place.name)?;
    let mut text = Vec::from_slice(alloc, &folder)?;
    text.push(b'/')?;
    text.extend_from_slice(&name)?;
    Ok(ExportPath { folder, name, text })
}

// The row of a file in `files.csv`. `digits` is its digest in hex.
fn row_text<'a>(
    alloc: Global,
    place: &'a FilePlace,
    path: &'a [u8],
    file: &'a FileRow,
    digits: &'a [u8; 64],
) -> Result<Vec<u8>, ExportFault>
    requires { digits.now ≡ encode_lower (sha256 file.now.bytes.items) }
    ensures row { IsMoment file.now.receipt.moment → IfOk result (λ text. (fields : List (List ℕ))
        × IsRecord path.now (place_in place.now) (file_of file.now)
        (receipt_in file.now.receipt) fields × (text.items ≡ line fields)) }
    ensures memory { IfErr result (λ f. f ≡ ExportFault.Memory) }
{
    let mut number = Buffer::new();
    let mut size = Buffer::new();
    let fields: [&[u8]; 8] = [
        path,
        &place.in_box,
        &place.name,
        number.format(file.receipt.number).as_bytes(),
        size.format(file.bytes.len()).as_bytes(),
        digits,
        &moment_text(file.receipt.moment),
        &file.receipt.key,
    ];
    match line_of(alloc, &fields) {
        Ok(text) => Ok(text),
        Err(_) => Err(ExportFault::Memory),
    }
}

// The line of a file in `SHA256SUMS`. `digits` is its digest in hex.
fn sum_text(alloc: Global, path: &[u8], digits: &[u8; 64]) -> Result<Vec<u8>, AllocError>
    ensures { IfOk result (λ text. text.items ≡ digits.now ++ (32 ∷ 32 ∷ path.now) ++ 10 ∷ []) }
{
    let mut text = Vec::from_slice(alloc, digits)?;
    text.extend_from_slice(b"  ")?;
    text.extend_from_slice(path)?;
    text.push(b'\n')?;
    Ok(text)
}

/// The texts about the file at this place.
pub(crate) fn export_texts(
    alloc: Global,
    place: &FilePlace,
    file: &FileRow,
) -> Result<ExportTexts, ExportFault>
    ensures folder { IfOk result (λ t. IsFolderName (place_in place.now).box t.path.folder.items
        × IsComponent t.path.folder.items) }
    ensures name { IfOk result (λ t. IsExportName file.now.receipt.number
        (place_in place.now).name t.path.name.items × IsComponent t.path.name.items) }
    ensures path { IfOk result (λ t.
        t.path.text.items ≡ t.path.folder.items ++ 47 ∷ t.path.name.items) }
    ensures row { IsMoment file.now.receipt.moment → IfOk result (λ t. (fields : List (List ℕ))
        × IsRecord t.path.text.items (place_in place.now) (file_of file.now)
        (receipt_in file.now.receipt) fields × (t.row.items ≡ line fields)) }
    ensures sum { IfOk result (λ t. t.sum.items
        ≡ encode_lower (sha256 file.now.bytes.items) ++ (32 ∷ 32 ∷ t.path.text.items) ++ 10 ∷ []) }
    ensures memory { IfErr result (λ f. f ≡ ExportFault.Memory) }
{
    let digits = hex_digits(Sha::digest(&file.bytes));
    let Ok(path) = export_path(alloc, place, file.receipt.number) else {
        return Err(ExportFault::Memory);
    };
    let Ok(sum) = sum_text(alloc, &path.text, &digits) else {
        return Err(ExportFault::Memory);
    };
    let row = row_text(alloc, place, &path.text, file, &digits)?;
    Ok(ExportTexts { path, row, sum })
}
