//! Tests of calls that no process can make: readers, writers, sinks and keepers that block, fail or refuse a call. They have
//! their own crate, so that `trials` is proved once. The crate exports nothing. What can be sent to the program is in `ci`.
#![tactic(auto)]

#[cfg(test)]
mod errands;
#[cfg(test)]
mod in_memory;
#[cfg(test)]
mod listings;
#[cfg(test)]
mod runs;
#[cfg(test)]
mod sinks;
#[cfg(test)]
mod slow;
#[cfg(test)]
mod staging;
#[cfg(test)]
mod waiting;
