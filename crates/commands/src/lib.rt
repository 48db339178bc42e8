//! What each command does to an office, over any keeper.
#![tactic(auto)]

mod arguments;
mod desking;
mod exporting;
mod faults;
mod linking;
mod listing;
mod machine;
mod manifesting;
mod memory;
mod outside;
mod replaying;
mod rounds;
mod secrets;
mod serving;
mod signing;
mod watching;
mod work;

pub use arguments::Argument;
pub use desking::{DeskWork, read_command, tell};
pub use exporting::ExportWork;
pub use faults::Fault;
pub use linking::{LinkWork, Order, check_place, read_order};
pub use listing::{CompareWork, LinksWork, ListWork, ManifestWork, Stock};
pub use machine::Machine;
pub use manifesting::PublishWork;
pub use outside::Outside;
pub use replaying::{ReplayWork, replay_memory};
pub use rounds::{Outcome, Served, serve};
pub use secrets::{check_secret, read_secret_file};
pub use serving::{Ending, ServeWork, Service, Session, read_service, unserved};
pub use signing::{KeyWork, OfficeKey, sign_by_file};
pub use work::{Done, OfficeWork};
