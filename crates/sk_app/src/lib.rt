//! The programs: what each does with the words of its command line, over any door, clock and dice, and with which status it ends.
#![tactic(auto)]

mod drill;
mod ending;
mod failure;
mod iterate;
mod job;
mod jobs;
mod limit;
mod log_outcome;
mod log_pipe;
mod log_serve;
mod program;
mod push;
mod question;
mod retry_cap;
mod serve;
mod soak;
mod status;
mod top;
mod unserved;
mod visible_text;
mod work;

pub use drill::run_drill;
pub use failure::Failure;
pub use jobs::{Fail, Flip, Note};
pub use limit::{Asked, run_limit};
pub use log_outcome::Unopened;
pub use log_pipe::run_log_pipe;
pub use log_serve::run_log_serve;
pub use program::Program;
pub use push::run_push;
pub use question::{AskingLine, Question, run_question};
pub use retry_cap::cap;
pub use serve::run_serve;
pub use soak::run_soak;
pub use status::run_status;
pub use top::run;
pub use unserved::Unserved;
pub use work::run_work;
