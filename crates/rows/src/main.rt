//! Answers a table of calls, for tests: one line of standard output for each line of standard input. An input line is the name
//! of a call and its words (see `row`). Empty lines and lines that begin with `#` are copied.
#![tactic(auto)]

mod hours;
mod messages;
mod orders;
mod row;
mod signatures;
mod texts;

use row::{Line, Row, RowFault};
use std::alloc::Global;
use std::io;

/// The answer to a row.
fn answer(alloc: Global, text: &str) -> Result<Line, RowFault> {
    let row = Row::read(alloc, text)?;
    let mut line = Line::new(alloc);
    let is_answered = texts::answer(alloc, &row, &mut line)?
        || signatures::answer(alloc, &row, &mut line)?
        || orders::answer(alloc, &row, &mut line)?
        || hours::answer(alloc, &row, &mut line)?
        || messages::answer(alloc, &row, &mut line)?;
    if is_answered {
        Ok(line)
    } else {
        Err(RowFault::Malformed)
    }
}

fn main(rt: HostRuntime) -> io::Result<()> {
    for read in rt.lines(rt.alloc()) {
        let text = read?;
        if text.is_empty() || text.starts_with("#") {
            println!(rt; "{text}")?;
            continue;
        }
        match answer(rt.alloc(), &text) {
            Ok(line) => println!(rt; "{line}")?,
            Err(fault) => println!(rt; "{fault}")?,
        }
    }
    Ok(())
}
