//! Why an export ended before its end.

use crate::folder::PutFault;
use boxes::KeepFault;
use thiserror::Error;

/// Why an export ended before its end.
#[derive(Clone, Copy, Debug, PartialEq, Eq, Error)]
pub enum ExportFault {
    /// The keeper failed.
    #[error("{0}")]
    Keep(KeepFault),
    /// A file could not be put.
    #[error("{0}")]
    Put(PutFault),
    /// A write of `files.csv` failed.
    #[error("cannot write files.csv")]
    Files,
    /// A write of `SHA256SUMS` failed.
    #[error("cannot write SHA256SUMS")]
    Sums,
    /// Memory ran out.
    #[error("out of memory")]
    Memory,
}
