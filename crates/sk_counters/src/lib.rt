//! The counters of runs: how many jobs ran and how many runs failed, in all and of each day.
#![tactic(auto)]

mod counters;
mod day;

pub use counters::{Counted, Counters};
pub use std::alloc::AllocError as Memory;
