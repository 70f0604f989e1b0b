//! What carries requests to a store and brings its replies: a link, a request that wants an answer of a kind, and a link over a connection.
#![tactic(auto)]

mod asking;
mod laws;
mod link;
mod receiving;
mod report;
mod request;
mod sending;
mod wire_link;

pub use asking::{Answer, AskFault, ask, is_answer};
pub use laws::a_link_is_told_by_its_first_and_last_state;
pub use link::{Link, LinkFault};
pub use report::Report;
pub use request::words_of;
pub use std::alloc::AllocError as Memory;
pub use wire_link::WireLink;
