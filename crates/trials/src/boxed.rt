//! An office with a box, and requests for it by presigned URLs that are signed here.
use crate::fakes::{Sink, Source};
use crate::published::{DATE, ID, SECRET};
use boxes::{BoxRow, Change, Command, KeepFault, Keeper, Mode, NameRule, OfficeRow};
use links::{LinkKey, LinkOrder, OrderParam, write_link};
use office::{Counted, FixedClock, Office};
use shelf::Shelf;
use sigv4::{Allowance, Moment};
use std::alloc::Global;
use std::test::Fail;
use wire::SessionEnd;

/// The clerk's key.
pub const CLERK: LinkKey<'static> = LinkKey {
    id: ID,
    secret: SECRET,
};

/// The settings of a box that is open from 1 January to 1 June 2013, on all days.
pub fn settings(mode: Mode, quota: u64, max_files: u64) -> BoxRow {
    BoxRow {
        opens: 1_356_998_400,
        closes: 1_370_044_800,
        days: [true; 7],
        from_minute: 0,
        to_minute: 1440,
        quota,
        max_files,
        mode,
        rule: NameRule::Any,
    }
}

/// Adds a box `in`.
pub fn add_box<K: Keeper>(keeper: &mut K, row: &BoxRow) -> Result<(), KeepFault> {
    keeper.apply(&Change::Desk(Command::AddBox { name: b"in", row }))
}

/// The settings of an office whose clock is `east` minutes east of UTC, without an allowance for clocks that run ahead.
pub fn office_row(east: i16) -> OfficeRow {
    OfficeRow {
        east,
        allowance: Allowance::none(),
    }
}

/// An office in memory, whose clock is `east` minutes east of UTC. It has the clerk's key only.
pub fn begun(alloc: Global, east: i16) -> Result<Office<Shelf>, Fail> {
    let keeper = Shelf::new(alloc, office_row(east), ID, SECRET)?;
    Ok(Office::new(alloc, keeper))
}

/// A request by a presigned URL that is valid for seven days. Without a body it has no `Content-Length`.
#[derive(Clone, Copy)]
pub struct Asked<'a> {
    pub key: LinkKey<'a>,
    pub method: &'a [u8],
    pub path: &'a [u8],
    pub body: Option<&'a [u8]>,
    pub start: &'a [u8; 16],
    pub params: &'a [OrderParam<'a>],
}

impl Asked<'_> {
    /// The request as a message.
    pub fn message(&self, alloc: Global) -> Result<Vec<u8>, Fail> {
        let order = LinkOrder {
            method: self.method,
            path: self.path,
            params: self.params,
            headers: &[],
            start: Moment::read(self.start).ok_or("no moment")?,
            expires: 604_800,
        };
        let mut stream = Vec::from_slice(alloc, self.method)?;
        stream.push(b' ')?;
        write_link(
            alloc,
            &order,
            &self.key,
            b"files.example",
            b"us-east-1",
            &mut stream,
        )?;
        stream.extend_from_slice(b" HTTP/1.1\r\nHost: files.example\r\n")?;
        if let Some(body) = self.body {
            let field = format!(in alloc; "Content-Length: {}\r\n", body.len())?;
            stream.extend_from_slice(field.as_bytes())?;
        }
        stream.extend_from_slice(b"\r\n")?;
        stream.extend_from_slice(self.body.unwrap_or(b""))?;
        Ok(stream)
    }
}

/// An upload by the clerk's key.
pub fn put<'a>(alloc: Global, path: &'a [u8], body: &'a [u8]) -> Result<Vec<u8>, Fail> {
    let asked = Asked {
        key: CLERK,
        method: b"PUT",
        path,
        body: Some(body),
        start: DATE,
        params: &[],
    };
    asked.message(alloc)
}

/// A request without a body by the clerk's key.
pub fn bare<'a>(alloc: Global, method: &'a [u8], path: &'a [u8]) -> Result<Vec<u8>, Fail> {
    let asked = Asked {
        key: CLERK,
        method,
        path,
        body: None,
        start: DATE,
        params: &[],
    };
    asked.message(alloc)
}

/// A command of the desk by the clerk's key.
pub fn order(alloc: Global, line: &[u8]) -> Result<Vec<u8>, Fail> {
    let command = [OrderParam {
        name: b"desk",
        value: line,
    }];
    let asked = Asked {
        key: CLERK,
        method: b"POST",
        path: b"/",
        body: None,
        start: DATE,
        params: &command,
    };
    asked.message(alloc)
}

/// What a session at this moment writes, and how it ends.
pub fn sent<K: Keeper>(
    office: &mut Office<K>,
    stream: &[u8],
    at: &[u8; 16],
) -> Result<(Vec<u8>, SessionEnd), Fail> {
    let moment = Moment::read(at).ok_or("no moment")?;
    let mut reader = Counted::new(Source::whole(stream));
    let mut writer = Counted::new(Sink::new(office.alloc, 4096, 4096));
    let end = office.session(&mut reader, &mut writer, &mut FixedClock::new(moment));
    Ok((writer.inner.text, end))
}
