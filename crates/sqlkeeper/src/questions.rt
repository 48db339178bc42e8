//! The questions that a keeper is asked.

ghost use Rattle.std.specs.Prelude.{◌≡◌, ◌↔◌, IsTrue, ◌+◌, length, map, option_map};
ghost use Rattle.std.specs.FinMap.{get};
ghost use Rattle.boxes.specs.Rows.{IsOfficeOf, key_of, settings_of, IsFileAt, numbered_receipt, receipts_from};
ghost use Rattle.boxes.specs.Rules.{HasBytes as HasTheseBytes};
ghost use Rattle.boxes.specs.Views.{AreTotals, IsReceiptAt};
ghost use Rattle.boxes.specs.Clerks.{clerks};
ghost use Rattle.boxes.specs.Limits.{IsLimitedTo, MayUse as KeyMayUse};
ghost use Rattle.sqltables.specs.Tables.{placed};
ghost use Rattle.sqltables.specs.Staging.{held};

use crate::asking::Question;
use boxes::{BoxRow, FileRow, KeyRow, OfficeRow, ReceiptRow, Totals};
use sqlite::Error;
use sqlquestions::{questions, standing};
use sqltables::calls::Ledger;
use sqltables::staging::Pieces;
use std::alloc::Global;

/// The settings of the office.
#[derive(Drop)]
pub(crate) struct Settings;

impl Question for Settings {
    type Answer = OfficeRow;

    ghost says = { λ q s office. IsOfficeOf s office };

    fn put<T: Ledger>(&self, tx: &mut T) -> Result<OfficeRow, Error> {
        let east = questions::east(tx)?;
        let allowance = questions::allowance(tx)?;
        Ok(OfficeRow { east, allowance })
    }
}

/// Whether the key with this id may use the box with this name.
#[derive(Drop)]
pub(crate) struct MayUse<'q> {
    pub(crate) id: &'q str,
    pub(crate) in_box: &'q [u8],
}

impl<'q> Question for MayUse<'q> {
    type Answer = bool;

    ghost says = { λ q s may. IsTrue may ↔ KeyMayUse s q.id.now q.in_box.now };

    fn put<T: Ledger>(&self, tx: &mut T) -> Result<bool, Error> {
        questions::may_use(tx, self.id, self.in_box)
    }
}

/// Whether this box is one of those that the key with this id is limited to.
#[derive(Drop)]
pub(crate) struct HasLimit<'q> {
    pub(crate) id: &'q str,
    pub(crate) in_box: &'q [u8],
}

impl<'q> Question for HasLimit<'q> {
    type Answer = bool;

    ghost says = { λ q s has. IsTrue has ↔ IsLimitedTo s q.id.now q.in_box.now };

    fn put<T: Ledger>(&self, tx: &mut T) -> Result<bool, Error> {
        questions::has_limit(tx, self.id, self.in_box)
    }
}

/// The key with this id.
#[derive(Drop)]
pub(crate) struct KeyOf<'q> {
    pub(crate) id: &'q str,
}

impl<'q> Question for KeyOf<'q> {
    type Answer = Option<KeyRow>;

    ghost says = { λ q s key. option_map key_of key ≡ get s.keys q.id.now };

    fn put<T: Ledger>(&self, tx: &mut T) -> Result<Option<KeyRow>, Error> {
        questions::key(tx, self.id)
    }
}

/// The box with this name.
#[derive(Drop)]
pub(crate) struct BoxOf<'q> {
    pub(crate) name: &'q str,
}

impl<'q> Question for BoxOf<'q> {
    type Answer = Option<BoxRow>;

    ghost says = { λ q s row. option_map settings_of row ≡ get s.boxes q.name.now };

    fn put<T: Ledger>(&self, tx: &mut T) -> Result<Option<BoxRow>, Error> {
        questions::box_row(tx, self.name)
    }
}

/// The file with this box and name, with its receipt.
#[derive(Drop)]
pub(crate) struct FileOf<'q> {
    pub(crate) alloc: Global,
    pub(crate) in_box: &'q str,
    pub(crate) name: &'q str,
}

impl<'q> Question for FileOf<'q> {
    type Answer = Option<FileRow>;

    ghost says = { λ q s. IsFileAt s (placed q.in_box.now q.name.now) };

    fn put<T: Ledger>(&self, tx: &mut T) -> Result<Option<FileRow>, Error> {
        standing::file(tx, self.alloc, self.in_box, self.name)
    }
}

/// The receipt of the file with this box and name.
#[derive(Drop)]
pub(crate) struct ReceiptOf<'q> {
    pub(crate) in_box: &'q str,
    pub(crate) name: &'q str,
}

impl<'q> Question for ReceiptOf<'q> {
    type Answer = Option<ReceiptRow>;

    ghost says = { λ q s. IsReceiptAt s (placed q.in_box.now q.name.now) };

    fn put<T: Ledger>(&self, tx: &mut T) -> Result<Option<ReceiptRow>, Error> {
        standing::standing_receipt(tx, self.in_box, self.name)
    }
}

/// Whether the file with this box and name has exactly these bytes.
#[derive(Drop)]
pub(crate) struct HasBytes<'q> {
    pub(crate) in_box: &'q str,
    pub(crate) name: &'q str,
    pub(crate) bytes: &'q Pieces,
}

impl<'q> Question for HasBytes<'q> {
    type Answer = bool;

    ghost says = { λ q s has. IsTrue has ↔ HasTheseBytes s (placed q.in_box.now q.name.now) (held q.bytes.now) };

    fn put<T: Ledger>(&self, tx: &mut T) -> Result<bool, Error> {
        standing::has_bytes(tx, self.in_box, self.name, self.bytes)
    }
}

/// The totals of the box with this name; zero if the box does not exist.
#[derive(Drop)]
pub(crate) struct TotalsOf<'q> {
    pub(crate) name: &'q str,
}

impl<'q> Question for TotalsOf<'q> {
    type Answer = Totals;

    ghost says = { λ q s. AreTotals s q.name.now };

    fn put<T: Ledger>(&self, tx: &mut T) -> Result<Totals, Error> {
        questions::totals(tx, self.name)
    }
}

/// The number of unrevoked clerk keys.
#[derive(Drop)]
pub(crate) struct Clerks {
    pub(crate) alloc: Global,
}

impl Question for Clerks {
    type Answer = u64;

    ghost says = { λ q s count. count ≡ clerks s };

    fn put<T: Ledger>(&self, tx: &mut T) -> Result<u64, Error> {
        questions::clerks(tx, self.alloc)
    }
}

/// The number of the next receipt.
#[derive(Drop)]
pub(crate) struct NextNumber;

impl Question for NextNumber {
    type Answer = u64;

    ghost says = { λ q s number. number ≡ length s.receipts + 1 };

    fn put<T: Ledger>(&self, tx: &mut T) -> Result<u64, Error> {
        Ok(u64::from(questions::next_number(tx)?))
    }
}

/// The receipts numbered `from` or higher, ascending, at most `most` of them.
#[derive(Drop)]
pub(crate) struct Receipts {
    pub(crate) alloc: Global,
    pub(crate) from: u64,
    pub(crate) most: usize,
}

impl Question for Receipts {
    type Answer = Vec<ReceiptRow>;

    ghost says = { λ q s rows. map numbered_receipt rows.items ≡ receipts_from s q.from q.most };

    fn put<T: Ledger>(&self, tx: &mut T) -> Result<Vec<ReceiptRow>, Error> {
        // This detects a store that has shut itself down, even if no receipt is requested.
        questions::east(tx)?;
        questions::receipts(tx, self.alloc, self.from, self.most)
    }
}
