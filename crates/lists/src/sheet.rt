//! Where a manifest is published.
ghost use Rattle.std.specs.Prelude.{Some, ℕ, List, Option};
ghost use Rattle.lists.specs.Published.{Adds};

use std::io;

/// Where a manifest is published, for example a file. Bytes are appended.
pub trait Sheet {
    /// The text on it, if known.
    ghost text: { Self → Option (List ℕ) };

    /// Appends these bytes. On an error only a beginning of them may be there.
    fn add(&mut self, bytes: &[u8]) -> io::Result<()>
        ensures { Adds bytes.now (text self.old) (text self.new) result };
}

impl Sheet for Vec<u8> {
    ghost text = { λ v. Some v.items };

    fn add(&mut self, bytes: &[u8]) -> io::Result<()> {
        self.extend_from_slice(bytes)?;
        Ok(())
    }
}
