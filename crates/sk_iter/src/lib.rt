//! Iterable jobs: a job runs its items one by one and saves a cursor in the store, so that a job that was cut goes on where it was (Sidekiq's wiki,
//! "Iteration"). The cursor of a job stands under the plain key `it:jid`.
#![tactic(auto)]

mod call;
mod cursor;
mod items;
mod iter_end;
mod iter_job;
mod iteration;
mod laws;
mod request;
mod save;

pub use call::{MOST_EVERY, MOST_ITEMS};
pub use items::Items;
pub use iter_end::{IterEnd, IterFault};
pub use iter_job::IterJob;
pub use iteration::{Iteration, go_on, iterate};
pub use laws::{
    cursors_rise, done_is_all, few_commands_write_a_key, few_items_are_run_again,
    items_are_in_order, saved_numbers_have_returned, what_is_below_a_cursor_is_not_run_again,
    what_is_below_a_cursor_returned,
};
pub use std::alloc::AllocError as Memory;
