//! Nested batches. A batch's success comes once: at the step that leaves no open job in it and in the batches within it.
#![tactic(auto)]

mod ancestors;
mod batch;
mod batch_fault;
mod batch_list;
mod batch_stat;
mod batches;
mod callbacks;
mod due;
mod edits;
mod event;
mod faults;
mod firing;
mod make;
mod member;
mod members;
mod notify;
mod numbers;
mod state;
mod stats;

pub use batch::{Batch, Fired};
pub use batch_fault::BatchFault;
pub use batch_stat::BatchStat;
pub use batches::Batches;
pub use callbacks::Callbacks;
pub use event::Event;
pub use firing::{Firing, Kind};
pub use member::{Mark, Member, Progress};
pub use std::alloc::AllocError as Memory;
