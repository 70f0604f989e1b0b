//! A table that finds what stands under a text by the text's hash. It grows by a bucket at a time (linear hashing: Litwin, 1980), so that no call
//! moves more than the entries of one bucket.
#![tactic(auto)]

mod bucket;
mod count_table;
mod hashing;
mod logged;
mod no_room;
mod slot;
mod text_key;
mod text_table;
mod undo_counts;

pub use hashing::hash_of;
pub use no_room::NoRoom;
pub use std::alloc::AllocError as Memory;
pub use text_key::TextKey;
pub use text_table::TextTable;
pub use undo_counts::UndoCounts;
