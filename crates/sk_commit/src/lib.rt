//! A log that many threads share. What is logged is one history, which only grows; one lock keeps its last records, which wait, and another the file,
//! which has a beginning of it. One of those that wait for the file writes for all.
#![tactic(auto)]

mod backlog;
mod broken;
mod committer;
mod halt_token;
mod history;
mod log_id;
mod pending;
mod rule;
mod stored;

pub use backlog::{Backlog, PlainBacklog};
pub use broken::{Broken, Halt};
pub use committer::Committer;
pub use halt_token::HaltToken;
pub use history::{History, NewHistory, Prefix};
pub use log_id::LogId;
pub use pending::{Pending, Taken};
pub use stored::{Durable, Stored};
