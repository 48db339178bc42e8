//! The office file and its keeper.
#![tactic(auto)]

mod applying;
mod asking;
mod changing;
mod creating;
mod emptying;
mod file_keeper;
mod following;
mod grouping;
mod questions;
mod upgrading;

pub use file_keeper::{OpenFault, SqlKeeper};
