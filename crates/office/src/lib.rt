//! The office over any keeper: one request, one connection, a list of connections, and the connections of a
//! listener; and connections that are replayed at one fixed moment.
#![tactic(auto)]

pub mod clocks;
pub mod connections;
mod laws;
mod machine_clock;
pub mod office;
mod replaying;
pub mod requests;

pub use clocks::{Clock, FixedClock, ListedClock};
pub use laws::{law_of_acts, law_of_alike, law_of_replies, law_of_turns};
pub use machine_clock::MachineClock;
pub use office::Office;
pub use replaying::{Replayed, replay, replay_bytes, replay_in_memory, replay_over};
pub use requests::commanding::{DESK, DeskFault};
pub use wire::{Answer, Counted, Message};
