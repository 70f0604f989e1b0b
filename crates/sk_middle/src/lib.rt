//! Middleware: what a program puts between itself and the client, and between the worker and its jobs (Sidekiq's wiki, "Middleware"). A client's chain
//! of functions changes a job before it is pushed, or stops it; a gate before a job lets each run of it begin, or raises an error in its place.
#![tactic(auto)]

mod chain;
mod gate;
mod run_log;
mod runner;
mod sent;
mod told_job;
mod wrapped_job;

pub use chain::{ChainFault, ChainStep, ClientChain, Through};
pub use gate::{Gate, Verdict};
pub use run_log::RunLog;
pub use runner::Runner;
pub use sent::{Sent, push_through};
pub use std::alloc::AllocError as Memory;
pub use told_job::{ToldJob, told};
pub use wrapped_job::{WrappedJob, wrap};
