//! A message whose body has not come yet.
ghost use Rattle.std.specs.Prelude.{◌≡◌, ◌≤◌, ℕ, List, length};
ghost use Rattle.office.specs.Announcing.{request_opened, request_with};
ghost use Rattle.wire.specs.Messages.{request_in};

use sigtext::Field;
use wire::{MOST_FIELDS, Message, Opening};

/// The head of a message, and the length of its body.
#[derive(Clone, Copy)]
pub(crate) struct Announced<'a> {
    /// The method, as it came.
    pub(crate) method: &'a [u8],
    /// The target, as it came.
    pub(crate) target: &'a [u8],
    /// The fields in their order.
    pub(crate) fields: &'a [Field<'a>],
    /// Whether a Content-Length was given.
    pub(crate) has_length: bool,
    /// The length of the body in bytes.
    pub(crate) length: usize,
}

/// What the head of a whole message announced.
pub(crate) fn announce<'a>(message: &Message<'a>) -> Announced<'a>
    ensures request { request_with result message.now.body.now ≡ request_in message.now }
    ensures length { result.length ≡ length message.now.body.now }
{
    Announced {
        method: message.method,
        target: message.target,
        fields: message.fields,
        has_length: message.has_length,
        length: message.body.len(),
    }
}

/// What the head of a message announced. Its fields are at the front of the array.
pub(crate) fn announce_head<'a>(
    opening: &Opening<'a>,
    fields: &'a [Field<'a>; MOST_FIELDS],
) -> Announced<'a>
    requires { opening.now.head.count ≤ length fields.now }
    ensures request { (body : List ℕ) → request_with result body ≡ request_opened opening.now fields.now body }
    ensures length { result.length ≡ opening.now.length }
    ensures method { result.method.now ≡ opening.now.head.method.now }
{
    Announced {
        method: opening.head.method,
        target: opening.head.target,
        fields: &fields[..opening.head.count],
        has_length: opening.has_length,
        length: opening.length,
    }
}
