//! One office in memory, change by change. `ci/test_memory.py` refuses each allocation in turn. A call that is refused
//! memory is retried once. Its error must leave the office unchanged.
use boxes::{BoxRow, Change, Command, KeepFault, Keeper, Mode, NameRule, NewFile, OfficeRow, Role};
use shelf::Shelf;
use sigv4::Allowance;
use std::alloc::{AllocError, Global};
use std::process::Abort;
use std::test::Fail;

const NAME: &[u8] = b"a.pdf";

const LINK: &[u8] = b"lin";

// An office, and how many of its calls were refused memory.
#[derive(Drop)]
struct Tried {
    shelf: Shelf,
    refused: u64,
}

// What is kept: unrevoked clerk's keys, the next receipt, the totals of the box `in`, the boxes to which the key `lin` is limited,
// the allowance, the key `bob`, the end of the box `in`, and the receipt of its file.
fn kept(shelf: &mut Shelf) -> Result<[u64; 10], KeepFault> {
    let totals = shelf.sizes(b"in")?;
    let office = shelf.settings()?;
    let bob = shelf.key(b"bob")?;
    let in_box = shelf.box_row(b"in")?;
    let receipt = shelf.file_receipt(b"in", NAME)?;
    Ok([
        shelf.clerks()?,
        shelf.next_number()?,
        totals.used,
        totals.count,
        u64::from(shelf.has_limit(LINK, b"in")?),
        u64::from(shelf.has_limit(LINK, b"out")?),
        office.allowance.seconds(),
        bob.map_or(0, |key| if key.revoked { 2 } else { 1 }),
        in_box.map_or(0, |row| row.closes),
        receipt.map_or(0, |receipt| receipt.number),
    ])
}

fn expect(holds: bool, else_wrong: &'static str) -> Result<(), Fail> {
    if holds {
        Ok(())
    } else {
        Err(Fail::new(else_wrong))
    }
}

impl Tried {
    // An office with the clerk `ann`, two hours west of UTC, with an allowance of 0 seconds.
    fn new(alloc: Global) -> Result<Tried, Fail> {
        let office = OfficeRow {
            east: -120,
            allowance: Allowance::none(),
        };
        match Shelf::new(alloc, office, b"ann", b"secret") {
            Ok(shelf) => Ok(Tried { shelf, refused: 0 }),
            Err(_) => Ok(Tried {
                shelf: Shelf::new(alloc, office, b"ann", b"secret")?,
                refused: 1,
            }),
        }
    }

    // What is kept. If memory is refused for the answers, they are asked for again.
    fn kept(&mut self) -> Result<[u64; 10], Fail> {
        if let Ok(numbers) = kept(&mut self.shelf) {
            return Ok(numbers);
        }
        self.refused = self.refused.saturating_add(1);
        Ok(kept(&mut self.shelf)?)
    }

    // The result of a call. The call is made a second time if memory was refused the first time.
    fn call<T: Drop, F: Fn(&mut Shelf) -> Result<T, KeepFault>>(
        &mut self,
        call: F,
    ) -> Result<T, Fail>
        requires { F.IsAlwaysCallable call }
    {
        let before = self.kept()?;
        if let Ok(value) = call(&mut self.shelf) {
            return Ok(value);
        }
        self.refused = self.refused.saturating_add(1);
        let stands = kept(&mut self.shelf)? == before;
        expect(stands, "an error changed the office")?;
        Ok(call(&mut self.shelf)?)
    }

    // Makes the change.
    fn change(&mut self, change: Change<'_>) -> Result<(), Fail> {
        self.call(|shelf| shelf.apply(&change))
    }

    // Stages the bytes, and then makes the call.
    fn staging<T: Drop, F: Fn(&mut Shelf) -> Result<T, KeepFault>>(
        &mut self,
        bytes: &[u8],
        call: F,
    ) -> Result<T, Fail>
        requires { F.IsAlwaysCallable call }
    {
        self.call(|shelf| {
            shelf.stage_begin()?;
            for piece in bytes.chunks(2) {
                shelf.stage(piece)?;
            }
            call(shelf)
        })
    }

    // Sets the file of the box `in` to these bytes.
    fn set(&mut self, number: u64, bytes: &[u8]) -> Result<(), Fail> {
        self.staging(bytes, |shelf| shelf.apply(&sets(number, bytes)))
    }

    // Whether the file of the box `in` exists and has exactly these bytes.
    fn stands(&mut self, bytes: &[u8]) -> Result<bool, Fail> {
        self.staging(bytes, |shelf| shelf.staged_equals(b"in", NAME))
    }

    // Whether the box `in` holds `used` bytes in `count` files.
    fn holds(&mut self, used: u64, count: u64) -> Result<bool, Fail> {
        let totals = self.call(|shelf| shelf.sizes(b"in"))?;
        Ok(totals.used == used && totals.count == count)
    }

    // Whether the key may use the box.
    fn may_use(&mut self, id: &[u8], in_box: &[u8]) -> Result<bool, Fail> {
        self.call(|shelf| shelf.may_use(id, in_box))
    }

    // Whether the key is limited to the box, maybe among others.
    fn has_limit(&mut self, id: &[u8], in_box: &[u8]) -> Result<bool, Fail> {
        self.call(|shelf| shelf.has_limit(id, in_box))
    }
}

// A box that takes names that end with `.pdf`.
fn a_box(alloc: Global) -> Result<BoxRow, AllocError> {
    let mut texts = Vec::new(alloc);
    texts
        .push(Vec::from_slice(alloc, b".pdf")?)
        .map_err(AllocError::from)?;
    Ok(BoxRow {
        opens: 0,
        closes: 200,
        days: [true; 7],
        from_minute: 0,
        to_minute: 1440,
        quota: 10,
        max_files: 2,
        mode: Mode::Replace,
        rule: NameRule::Ends(texts),
    })
}

// The change that sets a file of the box `in` to these bytes, which are staged.
fn sets(number: u64, bytes: &[u8]) -> Change<'static> {
    let file = NewFile {
        number,
        in_box: b"in",
        name: NAME,
        size: bytes.len() as u64,
        digest: [0; 32],
        moment: 100,
        key: b"ann",
    };
    Change::SetFile(file)
}

// The change that limits the key `lin` to a box.
fn limits(in_box: &[u8]) -> Change<'_> {
    Change::Desk(Command::LimitKey { id: LINK, in_box })
}

fn keeps_keys(rt: &impl Abort, office: &mut Tried) -> Result<(), Fail> {
    assert_eq!(rt; office.call(|shelf| shelf.clerks())?, 1);
    office.change(Change::Desk(Command::AddKey {
        id: b"bob",
        role: Role::Clerk,
        secret: b"other",
    }))?;
    assert_eq!(rt; office.call(|shelf| shelf.clerks())?, 2);
    office.change(Change::Desk(Command::RevokeKey { id: b"bob" }))?;
    assert_eq!(rt; office.call(|shelf| shelf.clerks())?, 1);
    let bob = office.call(|shelf| shelf.key(b"bob"))?.ok_or("no key")?;
    assert!(rt; bob.revoked && bob.secret.as_slice() == b"other".as_slice());
    assert!(rt; office.call(|shelf| shelf.key(b"eve"))?.is_none());
    Ok(())
}

fn keeps_boxes(rt: &impl Abort, alloc: Global, office: &mut Tried) -> Result<(), Fail> {
    let row = a_box(alloc).or_else(|_| a_box(alloc))?;
    office.change(Change::Desk(Command::AddBox {
        name: b"in",
        row: &row,
    }))?;
    office.change(Change::Desk(Command::CloseBox {
        name: b"in",
        moment: 150,
    }))?;
    let kept = office.call(|shelf| shelf.box_row(b"in"))?.ok_or("no box")?;
    assert!(rt; kept.closes == 150 && kept.quota == 10);
    assert!(rt; office.call(|shelf| shelf.box_row(b"out"))?.is_none());
    Ok(())
}

// There is no box `none` and no key `eve`.
fn keeps_limits(rt: &impl Abort, office: &mut Tried) -> Result<(), Fail> {
    office.change(Change::Desk(Command::AddKey {
        id: LINK,
        role: Role::Link,
        secret: b"third",
    }))?;
    assert!(rt; office.may_use(LINK, b"in")? && office.may_use(LINK, b"none")?);
    assert!(rt; !office.has_limit(LINK, b"in")?);
    office.change(limits(b"in"))?;
    assert!(rt; office.may_use(LINK, b"in")? && !office.may_use(LINK, b"out")?);
    assert!(rt; office.has_limit(LINK, b"in")? && !office.has_limit(LINK, b"out")?);
    assert!(rt; !office.may_use(LINK, b"none")? && !office.may_use(LINK, b"")?);
    office.change(limits(b"out"))?;
    assert!(rt; office.may_use(LINK, b"in")? && office.may_use(LINK, b"out")?);
    assert!(rt; !office.may_use(LINK, b"none")?);
    assert!(rt; office.may_use(b"ann", b"in")? && office.may_use(b"ann", b"none")?);
    assert!(rt; !office.has_limit(b"ann", b"in")?);
    assert!(rt; office.may_use(b"eve", b"in")? && !office.has_limit(b"eve", b"in")?);
    Ok(())
}

fn keeps_the_allowance(rt: &impl Abort, office: &mut Tried) -> Result<(), Fail> {
    assert_eq!(rt;
        office.call(|shelf| shelf.settings())?.allowance.seconds(),
        0
    );
    office.change(Change::Desk(Command::SetAllowance { seconds: 900 }))?;
    let set = office.call(|shelf| shelf.settings())?;
    assert!(rt; set.allowance.seconds() == 900 && set.east == -120);
    office.change(Change::Desk(Command::SetAllowance { seconds: 60 }))?;
    assert_eq!(rt;
        office.call(|shelf| shelf.settings())?.allowance.seconds(),
        60
    );
    Ok(())
}

fn keeps_files(rt: &impl Abort, office: &mut Tried) -> Result<(), Fail> {
    assert!(rt; !office.stands(b"abc")?);
    office.set(1, b"abc")?;
    assert!(rt; office.holds(3, 1)? && office.stands(b"abc")?);
    assert!(rt; !office.stands(b"abd")? && !office.stands(b"ab")? && !office.stands(b"abcd")?);
    office.set(2, b"hello")?;
    assert!(rt; office.holds(5, 1)? && office.stands(b"hello")? && !office.stands(b"abc")?);
    let receipt = office.call(|shelf| shelf.file_receipt(b"in", NAME))?;
    assert!(rt; receipt.is_some_and(|receipt| receipt.number == 2));
    let file = office
        .call(|shelf| shelf.file(b"in", NAME))?
        .ok_or("no file")?;
    assert!(rt; file.bytes.as_slice() == b"hello".as_slice() && file.receipt.number == 2);
    office.change(Change::Desk(Command::DropFile {
        in_box: b"in",
        name: NAME,
    }))?;
    assert!(rt; office.holds(0, 0)?);
    assert!(rt; office.call(|shelf| shelf.file(b"in", NAME))?.is_none());
    Ok(())
}

fn keeps_receipts(rt: &impl Abort, office: &mut Tried) -> Result<(), Fail> {
    let last = office.call(|shelf| shelf.receipts(2, 9))?;
    assert!(rt; last.len() == 1 && last[0].number == 2 && last[0].size == 5);
    assert_eq!(rt; office.call(|shelf| shelf.receipts(0, 9))?.len(), 2);
    assert_eq!(rt; office.call(|shelf| shelf.next_number())?, 3);
    Ok(())
}

#[test]
fn keeps_each_change(rt: HostRuntime) -> Result<(), Fail> {
    let mut office = Tried::new(rt.alloc())?;
    assert_eq!(rt; office.call(|shelf| shelf.settings())?.east, -120);
    keeps_keys(&rt, &mut office)?;
    keeps_boxes(&rt, rt.alloc(), &mut office)?;
    keeps_limits(&rt, &mut office)?;
    keeps_the_allowance(&rt, &mut office)?;
    keeps_files(&rt, &mut office)?;
    keeps_receipts(&rt, &mut office)?;
    assert!(rt; office.shelf.apply(&sets(4_000_000_001, b"")) == Err(KeepFault::Full));
    println!(rt; "{} refused", office.refused)?;
    Ok(())
}
