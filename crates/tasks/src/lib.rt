//! What the program's words ask for.
#![tactic(auto)]

pub mod lines;
pub mod task;
mod words;

pub use lines::{line_in, read_line};
pub use task::{Desk, Export, Init, Link, Links, Listing, OfficeFile, Replay, Secret, Serve, Task};
