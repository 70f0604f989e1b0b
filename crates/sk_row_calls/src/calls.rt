// Calls in memory: who connects and what he sends, what the clock and the dice tell, and what comes of it.
mod desks;
mod ending;
mod given;
mod items;
mod iterating;
mod order;
mod peers;
mod poller;
mod pushers;
mod serving;
mod workers;

use crate::compare::compare_row;
use crate::output::Output;
use crate::text::invalid;
use crate::transcripts::talk_row;
pub use ending::{add_conns, add_ending};
pub use given::Given;
pub use items::{CutItems, Import, Lines, import_of};
pub use peers::Peers;
use std::alloc::Global;
use std::io;
use std::sync::Wait;
use std::thread::Threads;
pub use workers::run_workers;

/// What comes of a call without teams. Another call, or one whose words aren't as it wants them, is invalid data.
pub fn call<R: Threads + Wait + Sync>(
    rt: &R,
    alloc: Global,
    given: &Given<'_>,
) -> io::Result<Output> {
    match given.call {
        "small" | "held" => serving::serve_row(rt, alloc, given),
        "poll" => poller::poll_row(alloc, given),
        "order" => order::turn_row(alloc, given),
        "decide" => order::decision_row(alloc, given),
        "desks" => desks::act_row(rt, alloc, given),
        "threads" => pushers::push_row(rt, alloc, given),
        "iterate" => iterating::call_row(alloc, given),
        "compare" => compare_row(alloc, given.words),
        "talk" => talk_row(alloc, given.words),
        _ => Err(invalid()),
    }
}
