//! Lists, maps and sets whose edits in an open step can be taken back without memory. A step is done whole or leaves no trace.
#![tactic(auto)]

mod edit;
mod predicate;
mod query;
mod search;
mod sequence;
mod undo_list;
mod undo_map;
mod undo_multiset;
mod undo_set;

pub use predicate::{Predicate, Probe, Visit};
pub use query::Query;
pub use std::alloc::AllocError as Memory;
pub use undo_list::UndoList;
pub use undo_map::UndoMap;
pub use undo_multiset::UndoMultiset;
pub use undo_set::UndoSet;
