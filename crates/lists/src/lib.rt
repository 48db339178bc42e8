//! What a clerk gets in CSV: lists of keys, boxes and files, the manifest of receipts, its comparison, and lists of links. The
//! export of an office's files to a folder. A keeper around another keeper, which publishes the manifest of its office, and adds
//! each new receipt to it.
#![tactic(auto)]

mod answerer;
mod answering;
mod box_list;
mod comparing;
mod export_fault;
mod exporting;
mod file_list;
mod folder;
mod key_list;
pub mod laws;
mod lines;
mod link_lists;
mod list_end;
mod list_fault;
mod manifests;
mod names;
mod places;
mod publisher;
mod publishes;
mod records;
mod sheet;
mod texts;
mod words;

pub use box_list::list_boxes;
pub use comparing::compare;
pub use export_fault::ExportFault;
pub use exporting::export;
pub use file_list::list_files;
pub use folder::{Folder, PutFault};
pub use key_list::list_keys;
pub use lines::{line_of, send_line, send_text, text_of, write_line};
pub use link_lists::links_from;
pub use list_end::ListEnd;
pub use list_fault::ListFault;
pub use manifests::{manifest, moment_text, receipts_text};
pub use names::{export_name, folder_name};
pub use places::{FilePlace, next_file};
pub use publisher::Publisher;
pub use sheet::Sheet;
