//! The folder that the files are exported to.
ghost use Rattle.std.specs.Prelude.{◌∷◌, [], ◌++◌, List, None, OnErr, OnOk, Option};
ghost use Rattle.lists.specs.Folders.{Adds, PutFile};
ghost use Rattle.lists.specs.Names.{IsComponent};

use thiserror::Error;

/// Why a file could not be put.
#[derive(Clone, Copy, Debug, PartialEq, Eq, Error)]
pub enum PutFault {
    /// A file of this path is there already.
    #[error("the file is there already")]
    There,
    /// The file could not be made or written whole.
    #[error("cannot write")]
    Write,
    /// Memory ran out.
    #[error("out of memory")]
    Memory,
}

/// A folder of folders that hold the files.
pub trait Folder {
    /// The files that were put whole, in order, if known.
    ghost holds: { Self → Option (List PutFile) } = { λ _. None };

    /// Puts a file with these bytes into a folder. Both names are a single path component, so nothing is put outside.
    ///
    /// # Errors
    ///
    /// The file was not put whole. A part of it may be there.
    fn put(&mut self, folder: &[u8], name: &[u8], bytes: &[u8]) -> Result<(), PutFault>
        requires folder { IsComponent folder.now }
        requires name { IsComponent name.now }
        ensures put { OnOk result (Adds (holds self.old) (holds self.new)
            (record { path = folder.now ++ 47 ∷ name.now; bytes = bytes.now } ∷ [])) }
        ensures left { OnErr result (Adds (holds self.old) (holds self.new) []) };
}
