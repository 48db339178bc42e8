//! The sockets of a listener's peers, as a crowd that is served in turns. One loop serves all of them, and no
//! peer holds up another.
#![tactic(auto)]

mod accepting;
mod acting;
mod actions;
mod book;
mod bounds;
mod door;
mod gate;
mod held;
mod leaving;
mod peer;
mod preparing;
mod reading;
mod rooms;
mod rounds;
mod sending;
mod socket;
mod sockets;
mod stages;
mod start;

pub use book::Book;
pub use gate::Gate;
pub use held::Held;
pub use preparing::{Limits, prepare};
pub use socket::{End, Listener, TcpEnd, Unready, send_at_once};
pub use sockets::Sockets;
pub use start::Start;
