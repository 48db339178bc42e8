//! Tests over sockets, with the peers and the serving loop in one process. The crate exports a counting listener for them.
#![tactic(auto)]

mod counting;
#[cfg(test)]
mod loopback;
#[cfg(test)]
mod staging;
#[cfg(test)]
mod wanting;

pub use counting::{Counting, serve_counted};
