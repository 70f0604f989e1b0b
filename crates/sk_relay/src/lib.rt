//! Jobs that another program runs: for each run it is asked over a connection of its own, and its reply is what the run comes to.
#![tactic(auto)]

mod outcome;
mod relay;

pub use relay::Relay;
