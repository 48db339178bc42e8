//! Which calls reach the inner keeper.
ghost use Rattle.std.specs.Prelude.{◌≤◌, length};

use boxes::{Change, Command, KeepFault, Keeper, Mode, NewFile, Role};
use shelf::{CachedKeeper, Shelf};
use std::alloc::Global;
use std::test::Fail;
use trials::boxed::{add_box, office_row, settings};
use trials::plain::Plain;
use trials::published::{ID, SECRET};
use trials::watched::Watched;

type Cached = Plain<CachedKeeper<Watched<Shelf>>>;

// An office with a link key `lin` and boxes `in` and `out`. Its counters are zero.
fn office(alloc: Global) -> Result<Watched<Shelf>, Fail> {
    let mut shelf = Shelf::new(alloc, office_row(60), ID, SECRET)?;
    let row = settings(Mode::Replace, 100, 9);
    add_box(&mut shelf, &row)?;
    shelf.apply(&Change::Desk(Command::AddBox {
        name: b"out",
        row: &row,
    }))?;
    shelf.apply(&Change::Desk(Command::AddKey {
        id: b"lin",
        role: Role::Link,
        secret: b"other",
    }))?;
    Ok(Watched::new(shelf))
}

// A cached keeper around this one.
fn cached(alloc: Global) -> Result<Cached, Fail> {
    let inner = CachedKeeper::new(alloc, office(alloc)?);
    Ok(Plain { inner })
}

// The same, where the inner keeper refuses the call of this number.
fn refusing(alloc: Global, call: u64) -> Result<Cached, Fail> {
    let mut within = office(alloc)?;
    within.refuse(call);
    let inner = CachedKeeper::new(alloc, within);
    Ok(Plain { inner })
}

// What is asked of a keeper.
#[derive(Clone, Copy)]
enum Asking {
    Twice,
    TheRest,
    Changes,
    OtherUploads,
    WhatComes,
    Uses,
    Boxes,
}

// Asks this. Whether the answers are right.
fn ask<K: Keeper>(keeper: &mut Plain<K>, what: Asking) -> Result<bool, Fail> {
    match what {
        Asking::Twice => tells_alike(keeper),
        Asking::TheRest => tells_the_rest_alike(keeper),
        Asking::Changes => tells_changes(keeper),
        Asking::OtherUploads => follows_other_uploads(keeper),
        Asking::WhatComes => tells_what_comes(keeper),
        Asking::Uses => asks_for_uses(keeper),
        Asking::Boxes => asks_for_boxes(keeper),
    }
}

// Asks a cached keeper this. Whether the answers are right, and how many calls reach the inner keeper.
fn asked(alloc: Global, what: Asking) -> Result<(bool, u64), Fail> {
    let mut keeper = cached(alloc)?;
    let is_right = ask(&mut keeper, what)?;
    Ok((is_right, keeper.inner.into_inner().calls))
}

// The change that sets the three-byte file `a` of the box `in`.
fn sets(number: u64) -> Change<'static> {
    Change::SetFile(NewFile {
        number,
        in_box: b"in",
        name: b"a",
        size: 3,
        digest: [0; 32],
        moment: 1_369_353_600,
        key: ID,
    })
}

// Asks for everything that can be cached, and returns the answers as numbers.
fn ask_all<K: Keeper>(keeper: &mut Plain<K>) -> Result<[u64; 6], Fail> {
    let office = keeper.settings()?;
    let key = keeper.key(b"lin")?.ok_or("no key")?;
    let may = keeper.may_use(b"lin", b"in")?;
    let in_box = keeper.box_row(b"in")?.ok_or("no box")?;
    let totals = keeper.sizes(b"in")?;
    let next = keeper.next_number()?;
    Ok([
        office.allowance.seconds(),
        u64::from(key.revoked),
        u64::from(may),
        in_box.closes,
        totals.used,
        next,
    ])
}

const CLOSES: u64 = 1_370_044_800;

// Whether asking twice gives the same right answers.
fn tells_alike<K: Keeper>(keeper: &mut Plain<K>) -> Result<bool, Fail> {
    let first = ask_all(keeper)?;
    let again = ask_all(keeper)?;
    Ok(first == [0, 0, 1, CLOSES, 0, 1] && again == first)
}

#[test]
fn asks_once(rt: HostRuntime) -> Result<(), Fail> {
    let (is_right, calls) = asked(rt.alloc(), Asking::Twice)?;
    assert!(rt; is_right);
    assert_eq!(rt; calls, 6);
    Ok(())
}

// Asks what the cache never answers: what does not exist, files, and what only the desk asks.
fn ask_the_rest<K: Keeper>(keeper: &mut Plain<K>) -> Result<bool, Fail> {
    let is_none = keeper.key(b"eve")?.is_none()
        && keeper.box_row(b"none")?.is_none()
        && keeper.file(b"in", b"a")?.is_none()
        && keeper.file_receipt(b"in", b"a")?.is_none()
        && keeper.sizes(b"none")?.count == 0;
    let is_so = keeper.may_use(b"eve", b"in")?
        && !keeper.has_limit(b"lin", b"in")?
        && keeper.clerks()? == 1
        && keeper.receipts(1, 9)?.is_empty()
        && !keeper.staged_equals(b"in", b"a")?;
    Ok(is_none && is_so)
}

// Whether asking twice gives the same right answers.
fn tells_the_rest_alike<K: Keeper>(keeper: &mut Plain<K>) -> Result<bool, Fail> {
    Ok(ask_the_rest(keeper)? && ask_the_rest(keeper)?)
}

#[test]
fn asks_for_the_rest_each_time(rt: HostRuntime) -> Result<(), Fail> {
    let (is_right, calls) = asked(rt.alloc(), Asking::TheRest)?;
    assert!(rt; is_right);
    assert_eq!(rt; calls, 20);
    Ok(())
}

fn command<K: Keeper>(keeper: &mut Plain<K>, command: Command<'_>) -> Result<(), Fail> {
    Ok(keeper.apply(&Change::Desk(command))?)
}

// Changes everything that can be cached. Whether the answers are right after each change.
fn tells_changes<K: Keeper>(keeper: &mut Plain<K>) -> Result<bool, Fail> {
    let mut is_so = ask_all(keeper)? == [0, 0, 1, CLOSES, 0, 1];
    command(keeper, Command::SetAllowance { seconds: 900 })?;
    is_so &= ask_all(keeper)? == [900, 0, 1, CLOSES, 0, 1];
    let name = b"in";
    command(keeper, Command::CloseBox { name, moment: 9 })?;
    is_so &= ask_all(keeper)? == [900, 0, 1, 9, 0, 1];
    keeper.stage_begin()?;
    keeper.stage(b"abc")?;
    keeper.apply(&sets(1))?;
    is_so &= ask_all(keeper)? == [900, 0, 1, 9, 3, 2];
    let (in_box, name) = (b"in", b"a");
    command(keeper, Command::DropFile { in_box, name })?;
    is_so &= ask_all(keeper)? == [900, 0, 1, 9, 0, 2];
    let (id, in_box) = (b"lin", b"out");
    command(keeper, Command::LimitKey { id, in_box })?;
    is_so &= ask_all(keeper)? == [900, 0, 0, 9, 0, 2];
    command(keeper, Command::RevokeKey { id })?;
    is_so &= ask_all(keeper)? == [900, 1, 0, 9, 0, 2];
    keeper.stage_drop()?;
    Ok(is_so)
}

// After each change only what it may have affected is asked again: 1, 2, 1, 1, 2 and 2 calls. A box that a key may not use is
// asked for each time. After the upload the next number is known. The totals are not, because nobody asked for the old file.
#[test]
fn forgets_what_changed(rt: HostRuntime) -> Result<(), Fail> {
    let (is_right, calls) = asked(rt.alloc(), Asking::Changes)?;
    assert!(rt; is_right);
    assert_eq!(rt; calls, 6 + 6 + 3 + 1 + 2 + 1 + 1 + 2 + 2);
    Ok(())
}

// Sets a file of the box `in` to these bytes. Returns the box's bytes and files, and the next number.
fn put<K: Keeper>(
    keeper: &mut Plain<K>,
    number: u64,
    name: &[u8],
    bytes: &[u8],
) -> Result<[u64; 3], Fail>
    requires some { 1 ≤ length bytes.now }
    requires short { length bytes.now ≤ 65536 }
{
    keeper.stage_begin()?;
    keeper.stage(bytes)?;
    keeper.apply(&Change::SetFile(NewFile {
        number,
        in_box: b"in",
        name,
        size: bytes.len() as u64,
        digest: [0; 32],
        moment: 1_369_353_600,
        key: ID,
    }))?;
    let totals = keeper.sizes(b"in")?;
    Ok([totals.used, totals.count, keeper.next_number()?])
}

// The same, after asking for the old file's receipt as each upload does.
fn upload<K: Keeper>(
    keeper: &mut Plain<K>,
    number: u64,
    name: &[u8],
    bytes: &[u8],
) -> Result<[u64; 3], Fail>
    requires some { 1 ≤ length bytes.now }
    requires short { length bytes.now ≤ 65536 }
{
    let _ = keeper.file_receipt(b"in", name)?;
    put(keeper, number, name, bytes)
}

// Whether totals and next number are right after a new file, after longer and shorter bytes replace it, and after another file.
fn follows_uploads<K: Keeper>(keeper: &mut Plain<K>) -> Result<bool, Fail> {
    let _ = keeper.box_row(b"in")?;
    let _ = keeper.sizes(b"in")?;
    Ok(
        upload(keeper, 1, b"a", b"abc")? == [3, 1, 2]
            && upload(keeper, 2, b"a", b"abcde")? == [5, 1, 3]
            && upload(keeper, 3, b"a", b"ab")? == [2, 1, 4]
            && upload(keeper, 4, b"b", b"abcd")? == [6, 2, 5],
    )
}

// Totals and next number are asked for once, and known after each upload.
#[test]
fn asks_nothing_again_for_uploads(rt: HostRuntime) -> Result<(), Fail> {
    let mut keeper = cached(rt.alloc())?;
    assert!(rt; follows_uploads(&mut keeper)?);
    let mut within = keeper.inner.into_inner();
    assert_eq!(rt; within.calls, 2 + 4 * 4);
    let totals = within.sizes(b"in")?;
    assert!(rt; totals.used == 6 && totals.count == 2 && within.next_number()? == 5);
    Ok(())
}

// Whether totals are right if the receipt asked for last is that of another file, in this box or in another one, or if none was
// asked for since.
fn follows_other_uploads<K: Keeper>(keeper: &mut Plain<K>) -> Result<bool, Fail> {
    let _ = keeper.box_row(b"in")?;
    let mut is_so = upload(keeper, 1, b"a", b"abc")? == [3, 1, 2];
    let _ = keeper.file_receipt(b"in", b"b")?;
    is_so &= put(keeper, 2, b"a", b"abcde")? == [5, 1, 3];
    let _ = keeper.file_receipt(b"out", b"a")?;
    is_so &= put(keeper, 3, b"a", b"ab")? == [2, 1, 4];
    is_so &= put(keeper, 4, b"a", b"a")? == [1, 1, 5];
    Ok(is_so)
}

// Then the totals are asked for again. So they are at the first upload, because nobody asked for them before.
#[test]
fn asks_for_totals_of_other_uploads(rt: HostRuntime) -> Result<(), Fail> {
    let (is_right, calls) = asked(rt.alloc(), Asking::OtherUploads)?;
    assert!(rt; is_right);
    assert_eq!(rt; calls, 1 + 5 + 5 + 5 + 4);
    Ok(())
}

// Asks for a key and a box that do not exist, and adds them. Whether they are found then.
fn tells_what_comes<K: Keeper>(keeper: &mut Plain<K>) -> Result<bool, Fail> {
    let is_none = keeper.key(b"eve")?.is_none() && keeper.box_row(b"new")?.is_none();
    let row = settings(Mode::Replace, 7, 9);
    let (role, secret) = (Role::Clerk, b"third");
    command(
        keeper,
        Command::AddKey {
            id: b"eve",
            role,
            secret,
        },
    )?;
    command(
        keeper,
        Command::AddBox {
            name: b"new",
            row: &row,
        },
    )?;
    let key = keeper.key(b"eve")?.ok_or("no key")?;
    let in_box = keeper.box_row(b"new")?.ok_or("no box")?;
    Ok(is_none && key.secret.as_slice() == secret.as_slice() && in_box.quota == 7)
}

#[test]
fn finds_what_comes(rt: HostRuntime) -> Result<(), Fail> {
    let (is_right, calls) = asked(rt.alloc(), Asking::WhatComes)?;
    assert!(rt; is_right);
    assert_eq!(rt; calls, 6);
    Ok(())
}

// Asks twice for each of 17 boxes whether a key may use it. Whether it always may.
fn asks_for_uses<K: Keeper>(keeper: &mut Plain<K>) -> Result<bool, Fail> {
    let mut may_all = keeper.key(b"lin")?.is_some();
    for number in 0..34_u8 {
        may_all &= keeper.may_use(b"lin", &[number % 17])?;
    }
    Ok(may_all)
}

#[test]
fn keeps_sixteen_uses_of_a_key(rt: HostRuntime) -> Result<(), Fail> {
    let (is_right, calls) = asked(rt.alloc(), Asking::Uses)?;
    assert!(rt; is_right);
    assert_eq!(rt; calls, 1 + 17 + 1);
    Ok(())
}

// Adds 8193 boxes and asks for each one, then for the last and for the first again.
fn asks_for_boxes<K: Keeper>(keeper: &mut Plain<K>) -> Result<bool, Fail> {
    let row = settings(Mode::Replace, 7, 9);
    let mut are_all = true;
    for number in 0..8193_u32 {
        let name = number.to_be_bytes();
        let (name, row) = (name.as_slice(), &row);
        command(keeper, Command::AddBox { name, row })?;
        are_all &= keeper.box_row(name)?.is_some();
    }
    let last = keeper.box_row(&8192_u32.to_be_bytes())?;
    let first = keeper.box_row(&0_u32.to_be_bytes())?;
    Ok(are_all && last.is_some() && first.is_some())
}

#[test]
fn keeps_eight_thousand_boxes(rt: HostRuntime) -> Result<(), Fail> {
    let (is_right, calls) = asked(rt.alloc(), Asking::Boxes)?;
    assert!(rt; is_right);
    assert_eq!(rt; calls, 2 * 8193 + 1);
    Ok(())
}

// Whether the answers before and after a refused change are the same.
fn leaves_all<K: Keeper>(keeper: &mut Plain<K>) -> Result<bool, Fail> {
    let before = ask_all(keeper)?;
    keeper.stage_begin()?;
    keeper.stage(b"abc")?;
    let is_full = keeper.apply(&sets(4_000_000_001)) == Err(KeepFault::Full);
    let behind = ask_all(keeper)?;
    Ok(is_full && before == [0, 0, 1, CLOSES, 0, 1] && behind == before)
}

#[test]
fn forgets_all_at_a_fault(rt: HostRuntime) -> Result<(), Fail> {
    let mut keeper = cached(rt.alloc())?;
    assert!(rt; leaves_all(&mut keeper)?);
    let within = keeper.inner.into_inner();
    assert_eq!(rt; within.calls, 15);
    assert_eq!(rt; within.faults, 1);
    Ok(())
}

// One call of each kind that reaches the inner keeper even if everything is cached.
fn one_call<K: Keeper>(keeper: &mut Plain<K>, kind: u8) -> Result<(), KeepFault> {
    match kind {
        0 => keeper.key(b"eve").map(|_| ()),
        1 => keeper.may_use(b"eve", b"in").map(|_| ()),
        2 => keeper.has_limit(b"lin", b"in").map(|_| ()),
        3 => keeper.box_row(b"none").map(|_| ()),
        4 => keeper.file(b"in", b"a").map(|_| ()),
        5 => keeper.file_receipt(b"in", b"a").map(|_| ()),
        6 => keeper.sizes(b"none").map(|_| ()),
        7 => keeper.clerks().map(|_| ()),
        8 => keeper.receipts(1, 9).map(|_| ()),
        9 => keeper.stage_begin(),
        10 => keeper.stage(b"abc"),
        11 => keeper.staged_equals(b"in", b"a").map(|_| ()),
        12 => keeper.stage_drop(),
        _ => keeper.apply(&Change::Desk(Command::SetAllowance { seconds: 0 })),
    }
}

// Whether the call of this kind, which is the seventh, fails, and the answers before and after it are the same.
fn fails_at<K: Keeper>(keeper: &mut Plain<K>, kind: u8) -> Result<bool, Fail> {
    let before = ask_all(keeper)?;
    let failed = one_call(keeper, kind) == Err(KeepFault::Store);
    Ok(failed && ask_all(keeper)? == before)
}

// The same for the first call of `settings` and of `next_number`, which are cached later.
fn fails_first<K: Keeper>(keeper: &mut Plain<K>, is_next: bool) -> Result<bool, Fail> {
    let before = keeper.key(b"lin")?.is_some();
    let failed = if is_next {
        keeper.next_number() == Err(KeepFault::Store)
    } else {
        keeper.settings() == Err(KeepFault::Store)
    };
    Ok(before && failed && keeper.key(b"lin")?.is_some())
}

#[test]
fn asks_all_again_behind_each_fault(rt: HostRuntime) -> Result<(), Fail> {
    for kind in 0..14_u8 {
        let mut keeper = refusing(rt.alloc(), 7)?;
        assert!(rt; fails_at(&mut keeper, kind)?);
        assert_eq!(rt; keeper.inner.into_inner().calls, 6 + 1 + 6);
    }
    for is_next in [true, false] {
        let mut keeper = refusing(rt.alloc(), 2)?;
        assert!(rt; fails_first(&mut keeper, is_next)?);
        assert_eq!(rt; keeper.inner.into_inner().calls, 3);
    }
    Ok(())
}
