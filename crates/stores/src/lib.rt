//! Tests of the office file, over disks in memory, that only its inside can ask. The crate exports nothing.
#![tactic(auto)]

#[cfg(test)]
mod days;
#[cfg(test)]
mod files;
