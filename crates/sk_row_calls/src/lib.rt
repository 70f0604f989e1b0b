//! What rows give, and what comes of each: the store by itself, limiters and iterations over it, desks of threads that share one, servers, pollers and
//! workers over connections in memory, and what clients are told. The program of the rows hands their texts in, and compares.
//!
//! Contracts leave want of memory free as an answer, and none can say what a call through the store's lock did; rows show both.
#![tactic(auto)]

mod calls;
mod command;
mod compare;
mod faults;
mod lanes;
mod output;
mod store_link;
pub mod text;
mod transcripts;
mod worked;

pub use calls::{CutItems, Given, Import, Lines, Peers, add_ending, call, import_of, run_workers};
pub use compare::add_difference;
pub use lanes::lane_row;
pub use output::Output;
pub use transcripts::len_of_pushes;
pub use worked::{came_of, expand};
