//! The rules of boxes: what the office keeps, which requests it allows, and what they change. And the traits of keepers: what
//! the office asks of whatever keeps its boxes.
#![tactic(auto)]

pub mod change;
pub mod commands;
pub mod fetches;
pub mod forms;
mod keep;
pub mod laws;
pub mod opening;
pub mod places;
mod rolls;
pub mod rows;
pub mod totals;
pub mod uploads;
pub mod view;

pub use change::{Change, Command, NewFile};
pub use commands::desk;
pub use fetches::fetch;
pub use forms::has_form;
pub use keep::{KeepFault, Keeper};
pub use laws::{law_of_changes, law_of_clerks};
pub use opening::{name_fits, open_at};
pub use places::place;
pub use rolls::Rolls;
pub use rows::{BoxRow, FileRow, KeyRow, Mode, NameRule, OfficeRow, ReceiptRow, Role};
pub use totals::Totals;
pub use uploads::{NewBytes, Uploading, upload};
pub use view::{DeskView, FetchView, UploadView};
