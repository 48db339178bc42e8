//! Heads of messages under way, which are read again once the body came.
ghost use Rattle.std.specs.Prelude.{◌≡◌};
ghost use Rattle.wire.specs.Feeding.{Opens};
ghost use Rattle.wire.specs.Openings.{ArePartsOf};
ghost use Rattle.wire.specs.Underways.{IsWholeHead};

use crate::announce::read_announcement;
use crate::feed::Opening;
use crate::head::{MOST_FIELDS, head_end};
use sigtext::Field;

/// Reads again the head of a message under way, whose body has `size` bytes. The fields go to the front of
/// `fields`.
pub fn reread<'a>(head: &'a [u8], size: usize, fields: &mut [Field<'a>; MOST_FIELDS]) -> Opening<'a>
    requires { IsWholeHead head.now size }
    ensures opens { Opens head.now result.has_length size }
    ensures length { result.length ≡ size }
    ensures text { result.text.now ≡ head.now }
    ensures parts { ArePartsOf head.now result.head fields.new }
{
    let Some(_) = head_end(head) else {
        unreachable!();
    };
    let Ok(opening) = read_announcement(head, fields) else {
        unreachable!();
    };
    opening
}
