//! The numbers that the store tells of itself, as text: a status page for people, and a tally that must balance.
#![tactic(auto)]

mod counts;
mod line;
mod numbers;
mod tally;

pub use counts::Counts;
pub use numbers::{Numbers, page};
pub use std::alloc::AllocError as Memory;
pub use tally::{Tally, tally_text};
