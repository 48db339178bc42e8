//! Tests whether whole tables are those of an office that obeys every rule.
#![tactic(auto)]

mod box_rules;
mod digests;
mod file_rules;
mod formats;
mod key_rules;
mod limit_rules;
mod lines;
mod listing;
pub mod opening;
mod piece_rules;
mod portions;
mod receipt_rules;
mod rules;
mod walking;
