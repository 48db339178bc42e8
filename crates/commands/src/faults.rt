//! The program's faults, and their messages.
use crate::arguments::Argument;
use boxes::KeepFault;
use lists::ListFault;
use office::DeskFault;
use std::alloc::AllocError;
use thiserror::Error;

/// Why the program could not do its task. The message follows `drop: ` on the line.
#[derive(Debug, Drop, Error)]
pub enum Fault {
    /// The value of this argument is malformed.
    #[error("malformed value: {0}")]
    MalformedValue(Argument),
    /// The file with the secret could not be opened or read.
    #[error("cannot read the secret")]
    CannotReadSecret,
    /// The office file does not exist, is no database, or could not be read.
    #[error("cannot open the office file")]
    CannotOpen,
    /// Another program has the office file open.
    #[error("cannot open the office file")]
    Held,
    /// The file that was to be made is not empty.
    #[error("the office file exists already")]
    Exists,
    /// The tables are not those of an office, or the office breaks a rule.
    #[error("the office file is damaged")]
    Damaged,
    /// The office has another version.
    #[error("the office file has another version")]
    OtherVersion,
    /// The store of the office file failed.
    #[error("the store refused")]
    Store,
    /// The desk command could not be read.
    #[error("cannot read the command")]
    CannotReadCommand,
    /// The desk refused the command.
    #[error("{0}")]
    Desk(DeskFault),
    /// The office has no key of this id.
    #[error("the key is unknown")]
    UnknownKey,
    /// The list has another header line or a malformed row, or could not be read.
    #[error("{0}")]
    List(ListFault),
    /// The file of this name could not be opened.
    #[error("cannot read {0}")]
    CannotRead(String),
    /// A session ended with a read or write fault, or a connection could not be accepted.
    #[error("a connection failed")]
    ConnectionFailed,
    /// The program can't listen at the address.
    #[error("cannot listen")]
    CannotListen,
    /// The published manifest could not be written. This is reported at once, and the office goes on.
    #[error("cannot write the manifest")]
    CannotPublish,
    /// The export folder exists already, or could not be made.
    #[error("cannot make the folder")]
    CannotMakeFolder,
    /// A file of an export could not be written. The number counts the complete files.
    #[error("cannot write to the folder: files that are whole: {0}")]
    CannotExport(u64),
    /// Memory ran out.
    #[error("out of memory")]
    OutOfMemory,
    /// Standard output failed.
    #[error("cannot write")]
    CannotWrite,
}

impl From<AllocError> for Fault {
    fn from(_error: AllocError) -> Self {
        Fault::OutOfMemory
    }
}

impl From<DeskFault> for Fault {
    fn from(fault: DeskFault) -> Self {
        match fault {
            DeskFault::Kept(fault) => Fault::from(fault),
            other => Fault::Desk(other),
        }
    }
}

impl From<ListFault> for Fault {
    fn from(fault: ListFault) -> Self {
        match fault {
            // Host and region were checked before, so the key is at fault.
            ListFault::Order => Fault::UnknownKey,
            ListFault::Keep(fault) => Fault::from(fault),
            ListFault::Write => Fault::CannotWrite,
            ListFault::Memory => Fault::OutOfMemory,
            ListFault::Head | ListFault::Row(_) | ListFault::Read => Fault::List(fault),
        }
    }
}

impl From<KeepFault> for Fault {
    fn from(fault: KeepFault) -> Self {
        match fault {
            KeepFault::Memory => Fault::OutOfMemory,
            KeepFault::Store | KeepFault::Full => Fault::Store,
        }
    }
}
