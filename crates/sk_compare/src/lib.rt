//! The comparison of what stories tell of each seat with what a journal has of it.
#![tactic(auto)]

mod ask;
mod comparison;
mod difference;
mod told;

pub use comparison::compare;
pub use difference::Difference;
pub use std::alloc::AllocError as Memory;
