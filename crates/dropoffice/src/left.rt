//! What a command leaves of an office file.
ghost use Rattle.std.specs.Prelude.{◌≡◌};

use sqlite::{Connection, Error, FileFrom, FileStore, Files, Leftover};
use sqlite_disk::Disk;

/// What is left of the office file that a command names. Dropping it closes the file. `S` stands for what the file and its log
/// held.
#[derive(Drop)]
pub enum Left<S, D: Disk> {
    /// What stood for the files, which were not opened.
    Unopened(S),
    /// Nothing: the system did not open the files.
    Lost,
    /// The files, of which the engine refused to open a database.
    Refused(Leftover<D>),
    /// The connection, after work that only looked, or if the office could not be opened.
    Looked(Connection<FileStore<D>>),
    /// The files, closed.
    Closed(Files<D>),
    /// The store, which could not be closed.
    Unclosed(FileStore<D>),
}

/// What is left of the office file that `S` stands for.
pub(crate) type FileLeft<S> = Left<S, FileFrom<S>>;

/// What work on an office file gives, and what is left of the file.
#[derive(Drop)]
pub(crate) struct Worked<G, F> {
    /// What the work gives.
    pub gain: G,
    /// Whether the file was closed, if it was to be.
    pub closed: Result<(), Error>,
    /// What is left.
    pub left: F,
}

/// No file was to be closed.
pub(crate) fn ended_with<G, F>(gain: G, left: F) -> Worked<G, F>
    ensures gain { result.gain ≡ gain }
    ensures left { result.left ≡ left }
{
    Worked {
        gain,
        closed: Ok(()),
        left,
    }
}
