//! The result of reading a list.
use crate::list_fault::ListFault;
use wire::Counted;

/// The result of answering a list, and its reader.
#[derive(Drop)]
pub struct ListEnd<R> {
    /// Why the list was not answered in full, if it was not.
    pub end: Result<(), ListFault>,
    /// The reader, with the number of its reads that failed.
    pub reader: Counted<R>,
}
