//! Test helpers: readers, writers and keepers that fail or refuse a call, and a request of each kind, over any keeper. All other
//! calls are tested by the rows of `crates/rows` and by runs of the program (`ci`).
#![tactic(auto)]

pub mod boxed;
pub mod errands;
pub mod fakes;
pub mod owed;
pub mod plain;
pub mod published;
pub mod staged;
pub mod telling;
pub mod watched;
