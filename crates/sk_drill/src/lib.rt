//! Large runs of a store: a soak, which is made from a number, so that which events come is settled by a generator of pseudo-random words and by what the
//! seats are doing; and a drill, in which threads work at one store, whose journal is compared with what they tell.
#![tactic(auto)]

mod actor;
mod crew;
mod drill_end;
mod drilling;
mod duty;
mod events;
mod job_text;
mod load;
mod plan;
mod play;
mod poll_duty;
mod push_duty;
mod requests;
mod soaking;
mod summary;
mod threads;
mod turn;
mod work_duty;

pub use drill_end::{DrillEnd, Drilled};
pub use drilling::drill;
pub use plan::Plan;
pub use soaking::soak;
pub use std::alloc::AllocError as Memory;
pub use summary::{Summary, write_drill, write_soak};
