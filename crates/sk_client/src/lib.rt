//! The client: what a program calls to push jobs to the store, one by one, in bulk, and in batches.
#![tactic(auto)]

mod batch_draft;
mod bulk;
mod client_fault;
mod fresh;
mod pushes;
mod send;
mod words;

pub use batch_draft::{BatchDraft, batch_add};
pub use bulk::{BulkFault, push_bulk};
pub use client_fault::ClientFault;
pub use fresh::fresh_jid;
pub use pushes::{push, push_at, push_unique};
pub use std::alloc::AllocError as Memory;
