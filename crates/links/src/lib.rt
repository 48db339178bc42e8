//! Presigned links: how they are written, which are well formed, and which are admitted. Commands of the desk, as they are read.
#![tactic(auto)]

pub mod desk;
mod forms;
pub mod inspecting;
pub mod judging;
pub mod laws;
pub mod link_parts;
pub mod methods;
pub mod orders;
mod readable;
mod six;
mod six_values;
pub mod writing;

pub use desk::{DeskLine, law_of_commands, read_command, read_number};
pub use forms::{is_hex_digest, read_expiry};
pub use inspecting::{inspect, read_moment};
pub use judging::{check_signature, check_window, judge};
pub use laws::{law_of_links, law_of_parts, law_of_texts};
pub use link_parts::LinkParts;
pub use methods::Method;
pub use orders::{LinkFault, LinkKey, LinkOrder, OrderParam, is_host};
pub use readable::is_readable;
pub use sigv4::Allowance;
pub use writing::write_link;
