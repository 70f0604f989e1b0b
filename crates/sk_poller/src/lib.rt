//! The poller: one turn beats, promotes due jobs, rescues those of dead processes, and pushes periodic ones where it leads.
#![tactic(auto)]

mod ask;
mod laws;
mod poller;
mod remaining;
mod report;
mod request;
mod stage;
mod turn;

pub use laws::{a_whole_turn_is_this_list, each_loop_is_marked_once_at_most};
pub use poller::{Loop, Poller};
pub use report::{PollFault, PollReport};
pub use std::alloc::AllocError as Memory;
