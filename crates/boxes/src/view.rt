//! The keeper's answers for one request.
use crate::rows::{BoxRow, FileRow, KeyRow, OfficeRow, ReceiptRow};
use crate::totals::Totals;

/// What the rules of an upload read.
#[derive(Drop)]
pub struct UploadView {
    /// The office's settings.
    pub office: OfficeRow,
    /// The box that the path names.
    pub in_box: Option<BoxRow>,
    /// The receipt of the file stored under the box and name.
    pub standing: Option<ReceiptRow>,
    /// The totals of the box.
    pub totals: Totals,
    /// The number of the next receipt.
    pub next_number: u64,
}

/// What the rules of a fetch read.
#[derive(Drop)]
pub struct FetchView {
    /// The box that the path names.
    pub in_box: Option<BoxRow>,
    /// The file stored under the box and name.
    pub file: Option<FileRow>,
}

/// What the rule of a desk command reads. A field that the command's rule does not read may have any value.
#[derive(Drop)]
pub struct DeskView {
    /// The key of the command's id.
    pub key: Option<KeyRow>,
    /// The number of unrevoked clerk's keys.
    pub clerks: u64,
    /// Whether the box that the command names exists.
    pub has_box: bool,
    /// Whether a file exists at the command's place.
    pub has_file: bool,
    /// Whether the key is already limited to the box, maybe among others.
    pub has_limit: bool,
}
