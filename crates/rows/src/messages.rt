//! Rows for `wire`: request heads and answers.
use crate::row::{Line, Row, RowFault};
use crate::texts::refusal_named;
use std::alloc::Global;
use wire::{Answer, Counted, MOST_FIELDS, NO_FIELD, Reply, head_end, put_answer, read_head};

/// Answers the row if it is one of these calls, else returns `false`.
pub(crate) fn answer(alloc: Global, row: &Row<'_>, line: &mut Line) -> Result<bool, RowFault> {
    match row.call {
        "head_end" => end_of_head(alloc, row, line)?,
        "read_head" => read(row, line)?,
        "put_answer" => put(alloc, &refused(row)?, line)?,
        "put_kept" => put(alloc, &kept(row)?, line)?,
        "put_found" => put(alloc, &found(alloc, row)?, line)?,
        "put_done" => put(alloc, &done(row)?, line)?,
        _ => return Ok(false),
    }
    Ok(true)
}

/// Bytes: `some` and the length of the request head that they begin with, or `none`.
fn end_of_head(alloc: Global, row: &Row<'_>, line: &mut Line) -> Result<(), RowFault> {
    match head_end(row.word(0)?) {
        Some(end) => {
            line.put(b"some")?;
            line.put_number(alloc, end as u64)?;
        }
        None => line.put(b"none")?,
    }
    Ok(())
}

/// The bytes of a request head: its method, target and header fields, or `none`.
fn read(row: &Row<'_>, line: &mut Line) -> Result<(), RowFault> {
    let mut fields = [NO_FIELD; MOST_FIELDS];
    let Some(head) = read_head(row.word(0)?, &mut fields) else {
        return Ok(line.put(b"none")?);
    };
    line.put(head.method)?;
    line.put(head.target)?;
    for field in fields.get(..head.count).unwrap_or_default() {
        line.put(field.name)?;
        line.put(field.value)?;
    }
    Ok(())
}

/// The name of a refusal, and the method.
fn refused(row: &Row<'_>) -> Result<Answer, RowFault> {
    let refusal = refusal_named(row.word(0)?)?;
    Ok(Answer::refused(refusal, is_head(row, 1)?))
}

/// A receipt's number, the file's length, its 32-byte digest, and the method.
fn kept(row: &Row<'_>) -> Result<Answer, RowFault> {
    let reply = Reply::Kept {
        number: row.number(0)?,
        size: row.number(1)?,
        digest: digest(row.word(2)?)?,
    };
    let is_head = is_head(row, 3)?;
    Ok(Answer { reply, is_head })
}

/// A receipt's number, the 32-byte digest, the file's bytes, and the method.
fn found(alloc: Global, row: &Row<'_>) -> Result<Answer, RowFault> {
    let reply = Reply::Found {
        number: row.number(0)?,
        digest: digest(row.word(1)?)?,
        bytes: Vec::from_slice(alloc, row.word(2)?)?,
    };
    let is_head = is_head(row, 3)?;
    Ok(Answer { reply, is_head })
}

/// The method.
fn done(row: &Row<'_>) -> Result<Answer, RowFault> {
    let is_head = is_head(row, 0)?;
    Ok(Answer {
        reply: Reply::Done,
        is_head,
    })
}

// Whether the word at this index is `HEAD`.
fn is_head(row: &Row<'_>, at: usize) -> Result<bool, RowFault> {
    Ok(row.word(at)? == b"HEAD".as_slice())
}

fn digest(word: &[u8]) -> Result<[u8; 32], RowFault> {
    <[u8; 32]>::try_from(word).map_err(|_| RowFault::Malformed)
}

/// Puts the answer's text, whether it is refusal 40, and the number of counted faults.
fn put(alloc: Global, answer: &Answer, line: &mut Line) -> Result<(), RowFault> {
    let mut writer = Counted::new(Vec::new(alloc));
    let sent = put_answer(answer, &mut writer);
    if sent.is_err() {
        return Err(RowFault::Memory);
    }
    line.put(&writer.inner)?;
    line.put_bool(answer.is_try_again())?;
    Ok(line.put_number(alloc, writer.faults())?)
}
