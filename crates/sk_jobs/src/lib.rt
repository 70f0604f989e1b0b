//! The commands of workers, and the store's own commands: what moves jobs between queues, private lists and sets, and what is told of batches.
#![tactic(auto)]

mod batches;
mod burials;
mod callbacks;
mod dead;
mod fetches;
mod in_flight;
mod locking;
mod periodic;
mod processes;
mod promotion;
mod releases;
mod report;
mod rescues;
mod retries;
mod room;
mod runs;
mod scripts;
mod status;
mod unique;
mod workers;

pub use batches::{BatchWords, add_to_batch, batch_stat, push_batch};
pub use burials::bury;
pub use periodic::{cron, lead};
pub use processes::{beat, join};
pub use releases::back;
pub use runs::{discard, fail, start, succeed};
pub use scripts::{due, kill, rescue, revive};
pub use status::{locate, numbers, status_page, tally};
pub use std::alloc::AllocError as Memory;
pub use unique::push_unique;
pub use workers::work;
