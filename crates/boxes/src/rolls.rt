//! The trait of keepers whose keys, boxes, files and limits can be listed in order.
ghost use Rattle.sigtext.specs.Bytes.{bytes_cmp};
ghost use Rattle.boxes.specs.Keeping.{Answers, Stays, KeepsStaged};
ghost use Rattle.boxes.specs.Next.{text_in, IsNext, IsKey, IsBox, IsFileIn, IsLimit};

use crate::{KeepFault, Keeper};

/// A keeper that tells which key, box or file comes next, in byte order. Every id and every name comes after the empty
/// text. An error leaves the state unchanged and is counted.
pub trait Rolls: Keeper {
    /// The id of the first key after this text.
    fn key_after(&mut self, after: &[u8]) -> Result<Option<Vec<u8>>, KeepFault>
        ensures value { Answers Self.means Self.is_honest self.old self.new result
            (λ s found. IsNext bytes_cmp (IsKey s) after.now (text_in found)) }
        ensures rest { Stays Self.means Self.is_honest Self.is_open Self.faults Self.leaves
            Self.leaves_whole Self.has_store Self.is_alone Self.gathers self.old self.new result }
        ensures staged { KeepsStaged Self.stages self.old self.new };

    /// The name of the first box after this text.
    fn box_after(&mut self, after: &[u8]) -> Result<Option<Vec<u8>>, KeepFault>
        ensures value { Answers Self.means Self.is_honest self.old self.new result
            (λ s found. IsNext bytes_cmp (IsBox s) after.now (text_in found)) }
        ensures rest { Stays Self.means Self.is_honest Self.is_open Self.faults Self.leaves
            Self.leaves_whole Self.has_store Self.is_alone Self.gathers self.old self.new result }
        ensures staged { KeepsStaged Self.stages self.old self.new };

    /// The name of the first file in this box after this text.
    fn file_after(&mut self, in_box: &[u8], after: &[u8]) -> Result<Option<Vec<u8>>, KeepFault>
        ensures value { Answers Self.means Self.is_honest self.old self.new result
            (λ s found. IsNext bytes_cmp (IsFileIn s in_box.now) after.now (text_in found)) }
        ensures rest { Stays Self.means Self.is_honest Self.is_open Self.faults Self.leaves
            Self.leaves_whole Self.has_store Self.is_alone Self.gathers self.old self.new result }
        ensures staged { KeepsStaged Self.stages self.old self.new };

    /// The name of the first box after this text, among those that the key of this id is limited to.
    fn limit_after(&mut self, id: &[u8], after: &[u8]) -> Result<Option<Vec<u8>>, KeepFault>
        ensures value { Answers Self.means Self.is_honest self.old self.new result
            (λ s found. IsNext bytes_cmp (IsLimit s id.now) after.now (text_in found)) }
        ensures rest { Stays Self.means Self.is_honest Self.is_open Self.faults Self.leaves
            Self.leaves_whole Self.has_store Self.is_alone Self.gathers self.old self.new result }
        ensures staged { KeepsStaged Self.stages self.old self.new };
}
