//! The staged bytes, in pieces like those in the rows of a file.

ghost use Rattle.std.specs.Prelude.{◌≡◌, ◌++◌, [], length, option_map, OnErr, OnOk};
ghost use Rattle.sqltables.specs.Tables.{piece_of};

use crate::PIECE;
use std::alloc::{AllocError, Global};

/// The memory reserved to hold more than one piece, in bytes. The C library maps a block of more than 32 MiB by itself, and gives
/// it back to the system as soon as it is freed. The part that is not written takes no memory.
const MAPPED: usize = 33 << 20;

/// Bytes that are read in pieces of 65536 bytes. The last piece may be shorter.
#[derive(Drop)]
pub struct Pieces {
    bytes: Vec<u8>,
}

impl Pieces {
    ghost use Rattle.sqltables.specs.Staging.{held};

    /// No bytes. This takes no memory.
    pub fn new(alloc: Global) -> Pieces
        ensures { held result ≡ [] }
    {
        Pieces {
            bytes: Vec::new(alloc),
        }
    }

    /// These bytes, moved.
    pub fn of(bytes: Vec<u8>) -> Pieces
        ensures { held result ≡ bytes.items }
    {
        Pieces { bytes }
    }

    /// The bytes, moved.
    pub fn into_bytes(self) -> Vec<u8>
        ensures { result.items ≡ held self }
    {
        let Pieces { bytes } = self;
        bytes
    }

    /// The number of bytes.
    pub fn len(&self) -> usize
        ensures { result ≡ length (held self.now) }
    {
        self.bytes.len()
    }

    /// Piece number `at`, counted from 0.
    pub fn piece(&self, at: u32) -> Option<&[u8]>
        ensures { option_map (λ piece. piece.now) result ≡ piece_of (held self.now) at }
    {
        let start = at as usize * PIECE;
        if start >= self.bytes.len() {
            return None;
        }
        let rest = &self.bytes[start..];
        Some(&rest[..rest.len().min(PIECE)])
    }

    /// Appends bytes. A second piece requests memory for 33 MiB at once. If that is refused, the memory grows as bytes
    /// are appended.
    ///
    /// # Errors
    ///
    /// `AllocError` if there is no memory for the bytes. Then none of them is added.
    pub fn push(&mut self, bytes: &[u8]) -> Result<(), AllocError>
        ensures added { OnOk result (held self.new ≡ held self.old ++ bytes.now) }
        ensures kept { OnErr result (held self.new ≡ held self.old) }
    {
        let is_large = self.bytes.len() + bytes.len() > PIECE;
        if is_large && self.bytes.capacity() < MAPPED {
            let _ = self.bytes.reserve_exact(MAPPED);
        }
        self.bytes.extend_from_slice(bytes)
    }
}
