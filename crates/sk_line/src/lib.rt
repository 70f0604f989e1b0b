//! Command lines: what the words of each subcommand ask for, by clap.
#![tactic(auto)]

mod address;
mod cron_words;
mod cut;
mod defaults;
mod drill_line;
mod fault;
mod help;
mod help_lines;
mod iterate_line;
mod limit_line;
mod log_line;
mod log_serve_line;
mod matches;
mod option;
mod push_line;
mod queues;
mod range;
mod serve_line;
mod soak_line;
mod status_line;
mod subcommand;
mod value;
mod work_line;

pub use drill_line::{DrillLine, MOST_CRASHES, MOST_DRILLED, read_drill};
pub use fault::LineFault;
pub use help::help_of;
pub use iterate_line::{IterateLine, MOST_EVERY, MOST_ITERATED, read_iterate};
pub use limit_line::{
    LONGEST_LIMITER, LimitKind, LimitLine, MOST_LIMITED, MOST_LIMITED_MILLIS, read_limit,
};
pub use log_line::{LogLine, read_log};
pub use log_serve_line::{LogServeLine, MOST_SYNC_EVERY, read_log_serve};
pub use push_line::{PushLine, read_push};
pub use serve_line::{ServeLine, read_serve};
pub use soak_line::{MOST_SOAKED, SoakLine, read_soak};
pub use status_line::{StatusLine, read_status};
pub use work_line::read_work;
