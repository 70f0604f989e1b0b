//! A shared store whose events are logged: what its book writes waits behind the store's own lock, and a settler has it stored before replies are handed
//! on, or a thread of its own stores it from time to time. The clauses say that what is stored then is what a log keeps of a run of the store from the start
//! on, that it has all of which the store gave the settler a mark in that very settle, and that each crash leaves such a log. No clause can say through a
//! lock that a mark has all that its session did before.
#![tactic(auto)]

mod flush_timer;
mod hub_backlog;
mod log_book;
mod log_settler;
mod log_settlers;
mod server;
mod sync_mode;

pub use flush_timer::FlushTimer;
pub use hub_backlog::{HubBacklog, Mark};
pub use log_book::LogBook;
pub use log_settler::LogSettler;
pub use log_settlers::LogSettlers;
pub use server::{KeptEnd, KeptFault, KeptStore, serve_kept};
pub use sync_mode::{SyncAlways, SyncMode};
