//! The append-only file of a store: which events it keeps of a run, how each stands in it, the store that it gives back, and a pipe over it.
#![tactic(auto)]

mod cutting;
mod entry;
mod laws;
mod log_end;
mod log_event;
mod log_session;
mod opening;
mod piping;
mod replay;
mod talking;

pub use cutting::cut_all;
pub use entry::{cut_record, draft_record, make_record};
pub use laws::a_body_has_one_event;
pub use log_end::LogEnd;
pub use opening::open;
pub use piping::{log_pipe, ready};
pub use talking::talk;
