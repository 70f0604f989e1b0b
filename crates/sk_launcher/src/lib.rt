//! The threads of a process of workers: a poller and processors, each with a link, a clock and a dice of its own, as Sidekiq's launcher runs them.
#![tactic(auto)]

mod address;
mod counts;
mod dismiss;
mod faults;
mod hire;
mod launch_end;
mod launch_fault;
mod launcher;
mod manager;
mod pace;
mod poller_thread;
mod processor;
mod relaunch;
mod series;
mod shared;
mod tally;
mod total;
mod work_settings;
mod worker_thread;

pub use address::Address;
pub use counts::Counts;
pub use launch_fault::LaunchFault;
pub use relaunch::launch;
pub use work_settings::WorkSettings;
