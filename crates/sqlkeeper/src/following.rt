//! The questions of a walk through the office file: what comes next.

ghost use Rattle.sigtext.specs.Bytes.{bytes_cmp};
ghost use Rattle.boxes.specs.Next.{text_in, IsNext, IsKey, IsBox, IsFileIn, IsLimit};

use crate::asking::Question;
use sqlite::Error;
use sqlquestions::following;
use sqltables::calls::Ledger;

/// The id of the first key after this text.
#[derive(Drop)]
pub(crate) struct KeyAfter<'q> {
    pub(crate) after: &'q str,
}

impl<'q> Question for KeyAfter<'q> {
    type Answer = Option<Vec<u8>>;

    ghost says = { λ q s found. IsNext bytes_cmp (IsKey s) q.after.now (text_in found) };

    fn put<T: Ledger>(&self, tx: &mut T) -> Result<Option<Vec<u8>>, Error> {
        following::key_after(tx, self.after)
    }
}

/// The name of the first box after this text.
#[derive(Drop)]
pub(crate) struct BoxAfter<'q> {
    pub(crate) after: &'q str,
}

impl<'q> Question for BoxAfter<'q> {
    type Answer = Option<Vec<u8>>;

    ghost says = { λ q s found. IsNext bytes_cmp (IsBox s) q.after.now (text_in found) };

    fn put<T: Ledger>(&self, tx: &mut T) -> Result<Option<Vec<u8>>, Error> {
        following::box_after(tx, self.after)
    }
}

/// The name of the first file of this box after this text.
#[derive(Drop)]
pub(crate) struct FileAfter<'q> {
    pub(crate) in_box: &'q str,
    pub(crate) after: &'q str,
}

impl<'q> Question for FileAfter<'q> {
    type Answer = Option<Vec<u8>>;

    ghost says = { λ q s found. IsNext bytes_cmp (IsFileIn s q.in_box.now) q.after.now (text_in found) };

    fn put<T: Ledger>(&self, tx: &mut T) -> Result<Option<Vec<u8>>, Error> {
        following::file_after(tx, self.in_box, self.after)
    }
}

/// The name of the first box after this text among those that the key with this id is limited to.
#[derive(Drop)]
pub(crate) struct LimitAfter<'q> {
    pub(crate) id: &'q str,
    pub(crate) after: &'q str,
}

impl<'q> Question for LimitAfter<'q> {
    type Answer = Option<Vec<u8>>;

    ghost says = { λ q s found. IsNext bytes_cmp (IsLimit s q.id.now) q.after.now (text_in found) };

    fn put<T: Ledger>(&self, tx: &mut T) -> Result<Option<Vec<u8>>, Error> {
        following::limit_after(tx, self.id, self.after)
    }
}
