//! Rows for `boxes`: opening hours and allowed names.
use crate::row::{Line, Row, RowFault};
use boxes::{BoxRow, Mode, NameRule, name_fits, open_at};
use sigv4::Moment;
use std::alloc::{AllocError, Global};
use std::str;

/// Answers the row if it is one of these calls, else returns `false`.
pub(crate) fn answer(alloc: Global, row: &Row<'_>, line: &mut Line) -> Result<bool, RowFault> {
    match row.call {
        "open_at" => open(row, line)?,
        "name_fits" => fits(alloc, row, line)?,
        _ => return Ok(false),
    }
    Ok(true)
}

fn minute(row: &Row<'_>, at: usize) -> Result<u16, RowFault> {
    u16::try_from(row.number(at)?).map_err(|_| RowFault::Malformed)
}

fn signed(word: &[u8]) -> Result<i16, RowFault> {
    let Ok(text) = str::from_utf8(word) else {
        return Err(RowFault::Malformed);
    };
    text.parse::<i16>().map_err(|_| RowFault::Malformed)
}

fn seconds(word: &[u8]) -> Result<Moment, RowFault> {
    let Ok(text) = str::from_utf8(word) else {
        return Err(RowFault::Malformed);
    };
    let Ok(seconds) = text.parse::<u64>() else {
        return Err(RowFault::Malformed);
    };
    Moment::new(seconds).ok_or(RowFault::Malformed)
}

// Reads seven marks, `1` for each day on which the box is open.
fn days(word: &[u8]) -> Result<[bool; 7], RowFault> {
    let Ok(marks) = <&[u8; 7]>::try_from(word) else {
        return Err(RowFault::Malformed);
    };
    let mut days = [false; 7];
    for (day, mark) in days.iter_mut().zip(marks) {
        *day = *mark == b'1';
    }
    Ok(days)
}

fn hours(row: &Row<'_>) -> Result<BoxRow, RowFault> {
    Ok(BoxRow {
        opens: row.number(0)?,
        closes: row.number(1)?,
        days: days(row.word(2)?)?,
        from_minute: minute(row, 3)?,
        to_minute: minute(row, 4)?,
        quota: 0,
        max_files: 0,
        mode: Mode::Keep,
        rule: NameRule::Any,
    })
}

/// `OPENS CLOSES DAYS FROM TO EAST` and moments in seconds: for each moment, whether such a box is open.
fn open(row: &Row<'_>, line: &mut Line) -> Result<(), RowFault> {
    let hours = hours(row)?;
    let east = signed(row.word(5)?)?;
    for word in row.words().get(6..).unwrap_or_default() {
        line.put_bool(open_at(&hours, east, seconds(word)?))?;
    }
    Ok(())
}

fn copies(alloc: Global, texts: &[Vec<u8>]) -> Result<Vec<Vec<u8>>, AllocError> {
    let mut all = Vec::new(alloc);
    for text in texts {
        all.push(Vec::from_slice(alloc, text)?)
            .map_err(AllocError::from)?;
    }
    Ok(all)
}

/// `any NAME`, `ends NAME TEXT..` or `begins NAME TEXT`: whether the rule allows the name.
fn fits(alloc: Global, row: &Row<'_>, line: &mut Line) -> Result<(), RowFault> {
    let texts = row.words().get(2..).unwrap_or_default();
    let rule = match row.word(0)? {
        b"any" => NameRule::Any,
        b"ends" => NameRule::Ends(copies(alloc, texts)?),
        b"begins" => NameRule::Begins(Vec::from_slice(alloc, row.word(2)?)?),
        _ => return Err(RowFault::Malformed),
    };
    Ok(line.put_bool(name_fits(&rule, row.word(1)?))?)
}
