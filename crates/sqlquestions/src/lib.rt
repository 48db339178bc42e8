//! The questions to an office file, inside a transaction. They change nothing.
#![tactic(auto)]

mod comparing;
pub mod following;
pub mod questions;
pub mod standing;
