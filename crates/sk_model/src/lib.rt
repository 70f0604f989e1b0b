//! The abstract store: what it keeps, what each command does to it, what runs of events are, and what holds of every run.
#![tactic(auto)]

mod acked;
mod laws;
mod limits;

pub use acked::replies_acknowledge_pushes;
pub use laws::{
    callbacks_follow, complete_fires_once, death_fires_once, events_are_served_or_starve,
    firings_are_in_order, limits_stay, live_jobs_stand, moves_have_causes, nothing_is_lost,
    null_moves_idle, own_words_never_starve, releases_never_starve, runs_are_reliable,
    settled_stays, success_fires_once, tally_balances, what_is_logged_runs_again,
    what_was_written_runs_again, words_have_one_reading, words_have_some_reading,
};
pub use limits::Limits;
