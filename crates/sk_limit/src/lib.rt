//! Limiters over a link: so many holds of a name at one time, and so many grants in a window of time, kept in plain keys of the store.
#![tactic(auto)]

mod ask;
mod grants;
mod holds;
mod laws;
mod limit_fault;
mod limits;
mod request;
mod stage;

pub use grants::grant;
pub use holds::{HeldSlot, give, hold};
pub use laws::{
    as_many_holds_as_slots, at_most_that_many_holds, few_grants_in_a_window, one_hold_of_a_slot,
    others_leave_the_key, windows_last,
};
pub use limit_fault::LimitFault;
pub use std::alloc::AllocError as Memory;
