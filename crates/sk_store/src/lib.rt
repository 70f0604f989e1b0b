//! All that the store keeps, as one value with one step over it: what each command is handed.
#![tactic(auto)]

mod removed;
mod room;
mod store;

pub use removed::Removed;
pub use room::{bytes_of, bytes_scored};
pub use store::Store;
