//! Texts of crontab (POSIX, "crontab"), and when they match: the slots of periodic jobs.
#![tactic(auto)]

mod bounds;
mod civil;
mod cron;
mod cron_fault;
mod field;
mod parser_state;
mod part;
mod reader;
mod slot;

pub use bounds::Bounds;
pub use civil::Civil;
pub use cron::Cron;
pub use cron_fault::CronFault;
pub use parser_state::{ParserState, Role};
pub use part::Part;
