//! One store that threads share: a lock round it, a desk for each seat, the sum of what its desks did, and a journal of all that happened.
#![tactic(auto)]

mod book;
mod call;
mod desk;
mod entry;
mod full_book;
mod hub;
mod hub_id;
mod ledgers;
mod locked_desk;
mod mem_desk;
mod outbox;
mod pass;
mod series_desk;
mod stamp;
mod state;

pub use book::{Book, NoBook};
pub use call::Call;
pub use desk::Desk;
pub use entry::{Ask, Deed, Entry};
pub use full_book::{CutPlace, FullBook};
pub use hub::{Closed, Hub, HubFault};
pub use hub_id::{AckLedger, AskLedger, CutLedger, HubId};
pub use ledgers::{HubBlank, HubShare, HubTotal};
pub use locked_desk::LockedDesk;
pub use mem_desk::MemDesk;
pub use outbox::Outbox;
pub use pass::Pass;
pub use series_desk::SeriesDesk;
pub use stamp::{Effect, Stamp};
pub use state::State;
