//! The tables of an office file: how they are created, what their rows mean, and how values are read from rows.
#![tactic(auto)]

pub mod calls;
pub mod pieces;
pub mod reading;
pub mod staging;

/// The maximum size of a file: 8 MiB.
pub const MOST_BYTES: usize = 8_388_608;

/// The maximum size of a piece, in bytes.
pub const PIECE: usize = 65536;
