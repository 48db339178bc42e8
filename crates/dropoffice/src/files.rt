//! Why an office file is opened, and whether there is one.
use commands::Fault;
use std::fs;

/// Why an office file is opened.
#[derive(Clone, Copy, PartialEq, Eq)]
pub(crate) enum Purpose {
    /// To read. The log beside the file stays as it is.
    Look,
    /// To change. The log is copied into the file at the end, even if the work failed.
    Change,
    /// To serve for long. Like `Change`, with a large page cache, which takes 60 milliseconds more to open, and a longer log.
    Serve,
}

/// Fails if there is no such file, so that none is made.
pub(crate) fn require_file<R: fs::Files>(rt: &R, file: &str) -> Result<(), Fault> {
    match fs::metadata(rt, file) {
        Ok(_) => Ok(()),
        Err(_) => Err(Fault::CannotOpen),
    }
}
