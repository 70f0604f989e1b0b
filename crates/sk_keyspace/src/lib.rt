//! The commands on keys, plain and managed: what they read, push, edit, move and delete.
#![tactic(auto)]

mod actions;
mod deletes;
mod edits;
mod jobs;
mod looks;
mod moves;
mod names;
mod plain;
mod pushes;
mod removals;
mod sets;

pub use actions::act;
pub use std::alloc::AllocError as Memory;
