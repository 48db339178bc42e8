//! Connections: one, a list of them, and those of a listener. Each message of a connection is a request.
pub mod crowding;
mod receiving;
mod responding;
mod resuming;
pub mod run;
pub mod session;
mod stepping;
mod turning;
