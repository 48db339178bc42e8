//! Why a list was not written or answered in full.

use boxes::KeepFault;
use thiserror::Error;

/// Why a list was not written or answered in full. A prefix of its text was written.
#[derive(Clone, Copy, Debug, PartialEq, Eq, Error)]
pub enum ListFault {
    /// The key, the host or the region is malformed, so no link can be written.
    #[error("the key, the host or the region is malformed")]
    Order,
    /// The first row of the list is not the head, or there are no rows.
    #[error("the first row is not the head")]
    Head,
    /// This row is malformed. Rows are counted from 1, without the head. The rows before it were answered.
    #[error("row {0} is refused")]
    Row(u64),
    /// The keeper failed.
    #[error("{0}")]
    Keep(KeepFault),
    /// A read of the list failed.
    #[error("cannot read the list")]
    Read,
    /// A write failed.
    #[error("cannot write")]
    Write,
    /// Memory was refused.
    #[error("out of memory")]
    Memory,
}
