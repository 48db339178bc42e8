//! The program: the office file, and the commands over it.
#![tactic(auto)]

mod ending;
mod file_work;
mod files;
mod init;
mod left;
mod migrating;
mod opening;
mod program;
mod works;

pub use commands::{Ending, Fault, Machine, Outcome, Outside, Served, serve};
pub use left::Left;
pub use office::{
    Answer, Clock, Counted, DeskFault, FixedClock, ListedClock, MachineClock, Message, Office,
    Replayed, law_of_acts, law_of_alike, law_of_replies, replay_bytes, replay_in_memory,
    replay_over,
};
pub use program::{Performed, perform};
pub use sockets::Limits;
pub use sqlite::{Start, Unknown};
pub use tasks::{
    Desk, Export, Init, Link, Links, Listing, OfficeFile, Replay, Secret, Serve, Task,
};
pub use wire::SessionEnd;
