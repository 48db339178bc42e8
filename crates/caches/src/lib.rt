//! Tests of the caching keeper, over a keeper that counts its calls and can refuse one. The crate exports nothing.
#![tactic(auto)]

#[cfg(test)]
mod asked;
