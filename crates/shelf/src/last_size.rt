//! The size of the file that was asked for last.
ghost use Rattle.std.specs.Prelude.{◌≡◌, option_map, IfOk};
ghost use Rattle.boxes.specs.declared.rows.ReceiptRow.{ReceiptRow as Receipt};

use boxes::ReceiptRow;
use std::alloc::{AllocError, Global};

/// The size in bytes of the file with this box and name. `None` if there is no such file.
#[derive(Drop)]
pub struct LastSize {
    pub(crate) in_box: Vec<u8>,
    pub(crate) name: Vec<u8>,
    pub(crate) size: Option<u64>,
}

/// The file size in bytes that the receipt states.
pub(crate) fn told_size(receipt: &Option<ReceiptRow>) -> Option<u64>
    ensures { result ≡ option_map (λ (r : Receipt). r.size) receipt.now }
{
    receipt.as_ref().map(|receipt| receipt.size)
}

impl LastSize {
    /// Remembers the size of this file, or that there is no such file.
    pub(crate) fn new(
        alloc: Global,
        in_box: &[u8],
        name: &[u8],
        size: Option<u64>,
    ) -> Result<LastSize, AllocError>
        ensures { IfOk result (λ l. (l.in_box.items ≡ in_box.now) × (l.name.items ≡ name.now)
            × (l.size ≡ size)) }
    {
        Ok(LastSize {
            in_box: Vec::from_slice(alloc, in_box)?,
            name: Vec::from_slice(alloc, name)?,
            size,
        })
    }
}
