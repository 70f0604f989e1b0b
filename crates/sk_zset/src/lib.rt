//! Sorted sets: pairs of a score and a member, by score and then by the members' bytes, each member once.
#![tactic(auto)]

mod bounds;
mod by_bytes;
mod copies;
mod edits;
mod find;
mod zset;

pub use by_bytes::ByBytes;
pub use std::alloc::AllocError as Memory;
pub use zset::ZSet;
