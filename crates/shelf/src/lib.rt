//! Keepers in memory: one alone, and one around another keeper, of which it caches the settings, keys and boxes.
#![tactic(auto)]

mod cache;
mod cached_keeper;
mod cached_keeps;
mod copies;
mod following;
mod last_size;
mod shelf;
mod shelf_keeps;
mod shelving;

pub use cached_keeper::CachedKeeper;
pub use copies::{copy_box, copy_key};
pub use shelf::{Shelf, has_room};
