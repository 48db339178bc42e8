//! The length of a message in bytes.
ghost use Rattle.std.specs.Prelude.{◌<◌, ◌≤◌, length, IfNone, IfSome};
ghost use Rattle.sigtext.specs.Limits.{most_head};
ghost use Rattle.wire.specs.Extents.{HeadTakes, Takes};
ghost use Rattle.wire.specs.Heads.{HasNoHeadEnd};

use crate::announce::read_announcement;
use crate::backlog::MOST_HEAD;
use crate::head::{MOST_FIELDS, NO_FIELD, head_end};

/// The length of the message at the front of the bytes: its head, and the body that the head announces.
/// `None` while more bytes are needed for the head. If the head breaks a rule, it is the length of the head
/// alone. If no head ends in the first `MOST_HEAD` bytes, it is `MOST_HEAD`.
///
/// It helps to choose when a message is served; a feed judges the message anew. A turn that is given too
/// early, over a reader that does not wait, fails to read and ends its connection.
pub fn message_len(bytes: &[u8]) -> Option<usize>
    ensures some { IfSome result (Takes bytes.now) }
    ensures none { IfNone result ((length bytes.now < most_head) × HasNoHeadEnd bytes.now) }
{
    match head_end(&bytes[..bytes.len().min(MOST_HEAD)]) {
        Some(size) => Some(len_with_body(&bytes[..size])),
        None if bytes.len() < MOST_HEAD => None,
        None => Some(MOST_HEAD),
    }
}

// The length of the head, plus that of the body that it announces if it breaks no rule.
fn len_with_body(head: &[u8]) -> usize
    requires { length head.now ≤ most_head }
    ensures { HeadTakes head.now result }
{
    match read_announcement(head, &mut [NO_FIELD; MOST_FIELDS]) {
        Ok(opening) => head.len() + opening.length,
        Err(_) => head.len(),
    }
}
