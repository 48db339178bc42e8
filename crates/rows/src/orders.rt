//! Rows for `links`: writing and checking links.
use crate::row::{Line, Row, RowFault};
use crate::texts::want_of_memory;
use links::{LinkFault, LinkKey, LinkOrder, Method, OrderParam, inspect, judge, write_link};
use sigtext::{Field, Refusal, Target};
use sigv4::{Allowance, LastKey, Moment};
use std::alloc::{AllocError, Global};

/// Answers the row if it is one of these calls, else returns `false`.
pub(crate) fn answer(alloc: Global, row: &Row<'_>, line: &mut Line) -> Result<bool, RowFault> {
    match row.call {
        "write_link" => write(alloc, row, line)?,
        "method" => read_method(row, line)?,
        "judge" => judge_link(alloc, row, line)?,
        "judge_early" => judge_early(alloc, row, line)?,
        _ => return Ok(false),
    }
    Ok(true)
}

// The text before a link.
const FRONT: &[u8] = b"GET ";

// The number of words before the parameters and header fields.
const FIRST_PAIR: usize = 9;

/// `METHOD PATH START EXPIRES HOST REGION ID SECRET COUNT`, then `COUNT` parameters and any header fields, each a name and a
/// value: `GET ` with the link appended. On a fault, its name comes first.
fn write(alloc: Global, row: &Row<'_>, line: &mut Line) -> Result<(), RowFault> {
    let mut out = Vec::from_slice(alloc, FRONT)?;
    let count = usize::try_from(row.number(8)?).unwrap_or(usize::MAX);
    let pairs = row.fields(alloc, FIRST_PAIR)?;
    let Some((params, headers)) = pairs.split_at_checked(count) else {
        return Err(RowFault::Malformed);
    };
    let params = order_params(alloc, params)?;
    if let Err(fault) = write_to(alloc, row, &params, headers, &mut out)? {
        if fault == LinkFault::Memory {
            return Err(want_of_memory(&out, FRONT));
        }
        let name = format!(in alloc; "{fault:?}")?;
        line.put(b"fault")?;
        line.put(name.as_bytes())?;
    }
    Ok(line.put(&out)?)
}

fn order_params<'a>(alloc: Global, pairs: &[Field<'a>]) -> Result<Vec<OrderParam<'a>>, AllocError> {
    let mut params = Vec::with_capacity(alloc, pairs.len())?;
    for pair in pairs {
        params.push(OrderParam {
            name: pair.name,
            value: pair.value,
        })?;
    }
    Ok(params)
}

fn write_to(
    alloc: Global,
    row: &Row<'_>,
    params: &[OrderParam<'_>],
    headers: &[Field<'_>],
    out: &mut Vec<u8>,
) -> Result<Result<(), LinkFault>, RowFault> {
    let Ok(start) = row.word(2)?.try_into() else {
        return Err(RowFault::Malformed);
    };
    let order = LinkOrder {
        method: row.word(0)?,
        path: row.word(1)?,
        params,
        headers,
        start: Moment::read(start).ok_or(RowFault::Malformed)?,
        expires: row.number(3)?,
    };
    let key = LinkKey {
        id: row.word(6)?,
        secret: row.word(7)?,
    };
    Ok(write_link(alloc, &order, &key, row.word(4)?, row.word(5)?, out))
}

/// A text: `some` and the method that it names, or `none`.
fn read_method(row: &Row<'_>, line: &mut Line) -> Result<(), RowFault> {
    let Some(method) = Method::read(row.word(0)?) else {
        return Ok(line.put(b"none")?);
    };
    line.put(b"some")?;
    Ok(line.put(method.text())?)
}

/// `METHOD TARGET SECRET MOMENT` and header fields: the access key id, if the link is accepted.
fn judge_link(alloc: Global, row: &Row<'_>, line: &mut Line) -> Result<(), RowFault> {
    let fields = row.fields(alloc, 4)?;
    judge_fields(alloc, row, Allowance::none(), &fields, line)
}

/// `METHOD TARGET SECRET MOMENT ALLOWANCE` and header fields: the same, with this allowance for clocks that run ahead.
fn judge_early(alloc: Global, row: &Row<'_>, line: &mut Line) -> Result<(), RowFault> {
    let allowance = Allowance::new(row.number(4)?).ok_or(RowFault::Malformed)?;
    let fields = row.fields(alloc, 5)?;
    judge_fields(alloc, row, allowance, &fields, line)
}

fn judge_fields<'a>(
    alloc: Global,
    row: &'a Row<'_>,
    allowance: Allowance,
    fields: &'a [Field<'a>],
    line: &mut Line,
) -> Result<(), RowFault> {
    let Ok(now) = row.word(3)?.try_into() else {
        return Err(RowFault::Malformed);
    };
    let now = Moment::read(now).ok_or(RowFault::Malformed)?;
    let method = Method::read(row.word(0)?).ok_or(Refusal::Method)?;
    let target = Target::read(row.word(1)?)?;
    let link = inspect(alloc, method, &target, fields)?;
    judge(&link, row.word(2)?, &mut LastKey::new(), allowance, now)?;
    Ok(line.put(link.key_id())?)
}
