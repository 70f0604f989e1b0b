//! Leases: what stands until its deadline. The heartbeats of processes, the recoveries of jobs, the locks of unique jobs, and the lease of the leader
//! with the last slots of periodic jobs.
#![tactic(auto)]

mod deadlines;
mod edits;
mod expiries;
mod leader;
mod leases;
mod lock;
mod locks;
mod part;
mod slots;

pub use leases::Leases;
pub use lock::Lock;
pub use std::alloc::AllocError as Memory;
