//! Messages and answers on the wire, and connections among others: their seats, the slots that they stand in, how they end, and
//! the crowd that gives them turns.
#![tactic(auto)]

mod announce;
pub mod answer;
mod backlog;
mod composing;
pub mod counted;
mod crowding;
mod cutting;
pub mod extent;
pub mod fault;
pub mod feed;
mod found;
pub mod gathered;
pub mod head;
pub mod joining;
pub mod outbox;
mod rereading;
mod seat;
pub mod sending;
mod session;
mod shifting;
mod slots;
pub mod standing;
mod underway;

pub use answer::{Answer, Reply, put_answer};
pub use backlog::MOST_HEAD;
pub use counted::Counted;
pub use crowding::{Crowd, Due};
pub use extent::message_len;
pub use fault::WireFault;
pub use feed::{Feed, Opening, Piece, Step};
pub use found::hex_digits;
pub use gathered::{Gathered, Gathering};
pub use head::{Head, MOST_FIELDS, Message, NO_FIELD, head_end, read_head};
pub use joining::{Came, Ending, read_opening, skip_body};
pub use outbox::{Outbox, Sending};
pub use rereading::reread;
pub use seat::Seat;
pub use sending::send;
pub use session::SessionEnd;
pub use slots::{fail_slot, first_free, free_slot, gather_slot, open_slot, send_slot, settle_slot};
pub use standing::{Buffer, HeadBlock, Spare, Standing};
pub use underway::{Kept, Underway};
