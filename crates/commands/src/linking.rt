//! `drop link`: writes a link, signed with a key.
use crate::arguments::Argument;
use crate::faults::Fault;
use crate::signing::KeyWork;
use crate::work::{Done, say};
use boxes::{Command, has_form};
use links::{
    LinkFault, LinkKey, LinkOrder, Method, OrderParam, is_host, read_command, read_moment,
    write_link,
};
use office::DESK;
use sigtext::cut;
use sigv4::{Moment, is_region};
use std::alloc::Global;
use std::io::Write;
use tasks::Link;

/// A link to write, and the output, which gets `http://`, the host and the link as one line.
#[derive(Drop)]
pub struct LinkWork<'w, W: Drop> {
    /// The parts of the link.
    pub order: Order,
    /// The others.
    pub words: Link<'w>,
    /// The output.
    pub out: W,
}

impl<W: Write + Drop> KeyWork for LinkWork<'_, W> {
    type Out = W;

    fn run(self, alloc: Global, key: &LinkKey<'_>) -> Done<W> {
        let LinkWork {
            order,
            words,
            mut out,
        } = self;
        let result = match line_of(alloc, key, &order, &words) {
            Ok(line) => say(&mut out, line.as_slice()),
            Err(fault) => Err(fault),
        };
        Done {
            result,
            out: Some(out),
        }
    }

    fn refuse(self, fault: Fault) -> Done<W> {
        Done {
            result: Err(fault),
            out: Some(self.out),
        }
    }
}

/// The parts of a link besides its path.
#[derive(Clone, Copy)]
pub struct Order {
    method: Method,
    start: Moment,
    expires: u64,
}

/// Reads the arguments. Fails if one is malformed.
pub fn read_order(alloc: Global, words: &Link<'_>) -> Result<Order, Fault> {
    let Some(method) = Method::read(words.method.as_bytes()) else {
        return Err(Fault::MalformedValue(Argument::Method));
    };
    if !is_target(alloc, method, words.target.as_bytes())? {
        return Err(Fault::MalformedValue(Argument::Target));
    }
    let start = read_moment(words.start.as_bytes()).ok_or(Fault::MalformedValue(Argument::Start))?;
    check_place(words.host.as_bytes(), words.region.as_bytes())?;
    let expires = words
        .expires
        .parse::<u64>()
        .map_err(|_| Fault::MalformedValue(Argument::Expires))?;
    Ok(Order {
        method,
        start,
        expires,
    })
}

/// Fails if the host or the region is malformed.
pub fn check_place(host: &[u8], region: &[u8]) -> Result<(), Fault> {
    if !is_host(host) {
        return Err(Fault::MalformedValue(Argument::Host));
    }
    if !is_region(region) {
        return Err(Fault::MalformedValue(Argument::Region));
    }
    Ok(())
}

// Whether a link of this method may have this target: a box name, `/` and a file name; for POST a desk command.
fn is_target(alloc: Global, method: Method, target: &[u8]) -> Result<bool, Fault> {
    if method == Method::Post {
        return Ok(read_command(alloc, target)?.is_some());
    }
    match cut(target, b'/') {
        Some((in_box, name)) => Ok(has_form(&Command::DropFile { in_box, name })),
        None => Ok(false),
    }
}

// The line with the link, signed with the key.
fn line_of(
    alloc: Global,
    key: &LinkKey<'_>,
    order: &Order,
    words: &Link<'_>,
) -> Result<Vec<u8>, Fault> {
    let to_desk = order.method == Method::Post;
    let path = format!(in alloc; "/{}", if to_desk { "" } else { words.target })?;
    let command = [OrderParam {
        name: DESK,
        value: words.target.as_bytes(),
    }];
    let order = LinkOrder {
        method: order.method.text(),
        path: path.as_bytes(),
        params: &command[..usize::from(to_desk)],
        headers: &[],
        start: order.start,
        expires: order.expires,
    };
    let (host, region) = (words.host.as_bytes(), words.region.as_bytes());
    let mut line = Vec::from_slice(alloc, b"http://")?;
    line.extend_from_slice(host)?;
    if let Err(fault) = write_link(alloc, &order, key, host, region, &mut line) {
        return Err(unwritten(fault));
    }
    line.extend_from_slice(b"\n")?;
    Ok(line)
}

// Why no link was written.
fn unwritten(fault: LinkFault) -> Fault {
    match fault {
        LinkFault::Memory => Fault::OutOfMemory,
        LinkFault::Method => Fault::MalformedValue(Argument::Method),
        LinkFault::Path | LinkFault::Params | LinkFault::Headers => Fault::MalformedValue(
            Argument::Target,
        ),
        LinkFault::Host => Fault::MalformedValue(Argument::Host),
        LinkFault::Region => Fault::MalformedValue(Argument::Region),
        LinkFault::Expires => Fault::MalformedValue(Argument::Expires),
        LinkFault::Key => Fault::UnknownKey,
    }
}
