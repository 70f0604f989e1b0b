//! The worker: jobs by class, and its turns over any link, as super_fetch of Sidekiq Pro takes them (wiki page "Reliability").
#![tactic(auto)]

mod attempt;
mod failure;
mod fetch;
mod in_hand;
mod job;
mod laws;
mod leave;
mod registry;
mod say;
mod turn;
mod turns;
mod worker;

pub use job::{Job, Outcome, Raised};
pub use laws::{
    a_done_turn_has_one_run_that_returned, a_started_job_runs_once, a_turn_has_one_of_four_forms,
    a_turn_that_finds_no_job_is_empty, an_empty_turn_found_each_queue_empty,
    ok_is_said_after_a_run_that_returned,
};
pub use registry::{AddFault, Classes, Registry, Slot};
pub use std::alloc::AllocError as Memory;
pub use turn::{Turn, WorkFault};
pub use worker::Worker;
