//! The commands of a clerk, as they are read.
pub mod laws;
mod line;
mod reading;
mod settings;
mod values;

pub use laws::law_of_commands;
pub use line::DeskLine;
pub use reading::read_command;
pub use values::read_number;
