//! Faults on the wire.
use thiserror::Error;

/// What failed on a wire.
#[derive(Clone, Copy, Debug, Error)]
pub enum WireFault {
    /// A read failed.
    #[error("a read failed")]
    Read,
    /// A write failed, or took nothing of a non-empty buffer.
    #[error("a write failed")]
    Write,
    /// Memory was refused.
    #[error("memory was refused")]
    Memory,
    /// No more bytes may be read now. Nothing is lost: a later call goes on.
    #[error("no more bytes may be read now")]
    Waits,
}
