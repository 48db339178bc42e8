//! Uploads that are staged in several pieces, and uploads that break off, over any watched keeper.
use crate::boxed::{add_box, begun, put, settings};
use crate::errands::set_file;
use crate::fakes::{Sink, Source};
use crate::owed::NO_WHOLE_BODY;
use crate::published::DATE;
use crate::telling::{holds, told};
use crate::watched::Watched;
use boxes::{Keeper, Mode};
use office::{Counted, FixedClock, Office};
use shelf::Shelf;
use sigv4::Moment;
use std::alloc::Global;
use std::test::Fail;
use wire::SessionEnd;

/// The size of an upload that is staged in several pieces.
pub const SIZE: usize = 200_000;

/// `size` bytes that repeat 0 to 250.
pub fn body(alloc: Global, size: usize) -> Result<Vec<u8>, Fail> {
    let mut body = Vec::new(alloc);
    let mut byte = 0;
    for _ in 0..size {
        body.push(byte)?;
        byte = if byte < 250 { byte + 1 } else { 0 };
    }
    Ok(body)
}

/// An upload of these bytes as `a.txt`.
pub fn upload_of(alloc: Global, bytes: &[u8]) -> Result<Vec<u8>, Fail> {
    put(alloc, b"/in/a.txt", bytes)
}

/// A source that gives `at_once` bytes per read, and then ends.
pub fn source(rest: &[u8], at_once: usize) -> Source<'_> {
    Source {
        rest,
        at_once,
        fails: false,
    }
}

/// A watched office in memory with a box `in` of this quota, which has an empty file `a2.txt`.
pub fn make_watched(alloc: Global, quota: u64) -> Result<Office<Watched<Shelf>>, Fail> {
    let office = begun(alloc, 0)?;
    let mut office = Office::new(alloc, Watched::new(office.keeper));
    add_box(&mut office.keeper, &settings(Mode::Replace, quota, 9))?;
    set_file(&mut office.keeper, b"a2.txt", b"")?;
    Ok(office)
}

/// The result of a session.
#[derive(Drop)]
pub struct Left {
    text: Vec<u8>,
    end: SessionEnd,
    /// How many bytes of the stream were not read.
    pub unread: usize,
}

impl Left {
    /// Expects that the session wrote this text and ended so.
    pub fn comes_to(&self, text: &[u8], end: SessionEnd) -> Result<(), Fail> {
        holds(self.text.as_slice() == text, "another answer")?;
        holds(self.end == end, "another end")
    }
}

/// Runs a session over this source.
pub fn left_by<K: Keeper>(office: &mut Office<K>, source: Source<'_>) -> Result<Left, Fail> {
    let moment = Moment::read(DATE).ok_or("no moment")?;
    let mut reader = Counted::new(source);
    let mut writer = Counted::new(Sink::new(office.alloc, 4096, 4096));
    let end = office.session(&mut reader, &mut writer, &mut FixedClock::new(moment));
    Ok(Left {
        text: writer.inner.text,
        end,
        unread: reader.inner.rest.len(),
    })
}

/// Whether nothing is staged: the staged bytes equal those of the empty file `a2.txt` of the box `in`.
pub fn is_unstaged<K: Keeper>(keeper: &mut K) -> Result<bool, Fail> {
    Ok(keeper.staged_equals(b"in", b"a2.txt")?)
}

/// The source has an upload that breaks off in its body. It must be refused, or get no answer if a read fails. The staged bytes
/// must be dropped, and the office must stay unchanged.
pub fn breaks_off<K: Keeper>(
    office: &mut Office<Watched<K>>,
    broken: Source<'_>,
) -> Result<(), Fail> {
    let alloc = office.alloc;
    let fails = broken.fails;
    let before = told(alloc, &mut office.keeper)?;
    office.keeper.refuse(0);
    let left = left_by(office, broken)?;
    if fails {
        left.comes_to(b"", SessionEnd::ReadFault)?;
    } else {
        left.comes_to(NO_WHOLE_BODY, SessionEnd::Refused(6))?;
    }
    holds(office.keeper.drops == 1, "not let go of")?;
    let stays = told(alloc, &mut office.keeper)? == before;
    holds(stays, "another office")
}
