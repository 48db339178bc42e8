//! All answers of a keeper, as one text.
use crate::published::ID;
use boxes::{BoxRow, FileRow, Keeper, KeyRow, Mode, NameRule, ReceiptRow, Role};
use std::alloc::Global;
use std::test::Fail;

/// Fails with this name if the condition is false.
pub fn holds(what: bool, name: &'static str) -> Result<(), Fail> {
    if what { Ok(()) } else { Err(name.into()) }
}

// Every key, box and file that these tests name, and one of each that no test adds.
const KEYS: [&[u8]; 4] = [ID, b"k2", b"k3", b"k4"];

const BOXES: [&[u8]; 4] = [b"in", b"out", b"b2", b"none"];

const FILES: [&[u8]; 7] = [
    b"a.txt",
    b"a,b.txt",
    b"a2.txt",
    b"b.txt",
    b"c.txt",
    b"a/../b c",
    &[b'a'; 1024],
];

fn put_key(text: &mut Vec<u8>, alloc: Global, key: Option<KeyRow>) -> Result<(), Fail> {
    if let Some(key) = key {
        let role = if key.role == Role::Clerk {
            "clerk"
        } else {
            "link"
        };
        let line = format!(in alloc; "key {role} {} ", key.revoked)?;
        text.extend_from_slice(line.as_bytes())?;
        text.extend_from_slice(&key.secret)?;
    }
    text.push(b'\n')?;
    Ok(())
}

fn put_line(text: &mut Vec<u8>, bytes: &[u8]) -> Result<(), Fail> {
    text.extend_from_slice(bytes)?;
    text.push(b'\n')?;
    Ok(())
}

fn put_receipt(text: &mut Vec<u8>, alloc: Global, receipt: &ReceiptRow) -> Result<(), Fail> {
    let (number, size, moment) = (receipt.number, receipt.size, receipt.moment);
    let line = format!(in alloc; "{number} {size} {moment}")?;
    put_line(text, line.as_bytes())?;
    put_line(text, &receipt.in_box)?;
    put_line(text, &receipt.name)?;
    put_line(text, &receipt.digest)?;
    put_line(text, &receipt.key)
}

fn put_file(text: &mut Vec<u8>, alloc: Global, file: Option<FileRow>) -> Result<(), Fail> {
    if let Some(file) = file {
        put_receipt(text, alloc, &file.receipt)?;
        text.extend_from_slice(&file.bytes)?;
    }
    text.push(b'\n')?;
    Ok(())
}

fn put_keys<K: Keeper>(text: &mut Vec<u8>, alloc: Global, keeper: &mut K) -> Result<(), Fail> {
    for id in KEYS {
        put_key(text, alloc, keeper.key(id)?)?;
    }
    Ok(())
}

fn put_limits<K: Keeper>(text: &mut Vec<u8>, alloc: Global, keeper: &mut K) -> Result<(), Fail> {
    for id in KEYS {
        for name in BOXES {
            let reaches = keeper.may_use(id, name)?;
            let limited = keeper.has_limit(id, name)?;
            let line = format!(in alloc; "{reaches} {limited}\n")?;
            text.extend_from_slice(line.as_bytes())?;
        }
    }
    Ok(())
}

fn put_rule(text: &mut Vec<u8>, rule: &NameRule) -> Result<(), Fail> {
    match rule {
        NameRule::Any => put_line(text, b"any"),
        NameRule::Begins(beginning) => {
            put_line(text, b"begins")?;
            put_line(text, beginning)
        }
        NameRule::Ends(endings) => {
            put_line(text, b"ends")?;
            for ending in endings {
                put_line(text, ending)?;
            }
            Ok(())
        }
    }
}

fn put_box(text: &mut Vec<u8>, alloc: Global, row: &BoxRow) -> Result<(), Fail> {
    let (opens, closes, from, to) = (row.opens, row.closes, row.from_minute, row.to_minute);
    let (quota, files, keeps) = (row.quota, row.max_files, row.mode == Mode::Keep);
    let line = format!(in alloc; "{opens} {closes} {from} {to} {quota} {files} {keeps}")?;
    put_line(text, line.as_bytes())?;
    for day in row.days {
        text.push(b'0' + u8::from(day))?;
    }
    put_rule(text, &row.rule)
}

fn put_boxes<K: Keeper>(text: &mut Vec<u8>, alloc: Global, keeper: &mut K) -> Result<(), Fail> {
    for name in BOXES {
        if let Some(row) = keeper.box_row(name)? {
            put_box(text, alloc, &row)?;
        }
        let sizes = keeper.sizes(name)?;
        let line = format!(in alloc; "box {} {}", sizes.used, sizes.count)?;
        put_line(text, line.as_bytes())?;
    }
    Ok(())
}

fn put_files<K: Keeper>(text: &mut Vec<u8>, alloc: Global, keeper: &mut K) -> Result<(), Fail> {
    for name in FILES {
        put_file(text, alloc, keeper.file(b"in", name)?)?;
        if let Some(receipt) = keeper.file_receipt(b"in", name)? {
            put_receipt(text, alloc, &receipt)?;
        }
    }
    put_file(text, alloc, keeper.file(b"out", b"a.txt")?)
}

fn put_receipts<K: Keeper>(
    text: &mut Vec<u8>,
    alloc: Global,
    keeper: &mut K,
    from: u64,
    most: usize,
) -> Result<(), Fail> {
    for receipt in &keeper.receipts(from, most)? {
        put_receipt(text, alloc, receipt)?;
    }
    Ok(())
}

/// All answers of the keeper, joined together.
pub fn told<K: Keeper>(alloc: Global, keeper: &mut K) -> Result<Vec<u8>, Fail> {
    let office = keeper.settings()?;
    let (east, allowance) = (office.east, office.allowance.seconds());
    let clerks = keeper.clerks()?;
    let next = keeper.next_number()?;
    let line = format!(in alloc; "{east} {allowance} {clerks} {next}\n")?;
    let mut text = Vec::from_slice(alloc, line.as_bytes())?;
    put_keys(&mut text, alloc, keeper)?;
    put_limits(&mut text, alloc, keeper)?;
    put_boxes(&mut text, alloc, keeper)?;
    put_files(&mut text, alloc, keeper)?;
    put_receipts(&mut text, alloc, keeper, 0, 100)?;
    put_receipts(&mut text, alloc, keeper, 2, 1)?;
    Ok(text)
}
