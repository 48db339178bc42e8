//! One request: its answer, and what it changes.
mod admitting;
pub(crate) mod announced;
pub mod answering;
pub mod commanding;
mod fetching;
pub(crate) mod foreseeing;
mod forms;
mod places;
mod putting;
mod reaching;
mod reading;
