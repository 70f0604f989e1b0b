//! What the seats are doing, and the jobs in a worker's hands.
#![tactic(auto)]

mod job_filter;
mod phase;
mod seats;
mod work;
mod works;

pub use phase::Phase;
pub use seats::Seats;
pub use std::alloc::AllocError as Memory;
pub use work::{End, Stage, Work};
pub use works::Works;
