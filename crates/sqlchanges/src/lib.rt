//! What is written into an office file, inside a transaction.
#![tactic(auto)]

mod box_rows;
pub mod changes;
pub mod making;
mod running;
pub mod staged;
mod statements;
