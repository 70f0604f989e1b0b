//! What a plain key holds, and what each command of Redis that the store knows does with it: the table of commands over strings, lists, sets,
//! hashes and sorted sets with deadlines.
#![tactic(auto)]

mod action;
mod entry;
mod fields;
mod items;
mod keys_fault;
mod maps;
mod members;
mod number;
mod pairs;
mod read_op;
mod replies;
mod sorted;
mod strings;
mod value;
mod write_op;

pub use action::{Action, action_of};
pub use entry::Entry;
pub use fields::Fields;
pub use items::{Items, end_index, first_index};
pub use keys_fault::KeysFault;
pub use maps::insert_all;
pub use members::{Members, look_members};
pub use number::int_of;
pub use pairs::{Pairs, look_sorted};
pub use read_op::ReadOp;
pub use replies::{as_reply, counted, one_if, refused};
pub use sorted::Sorted;
pub use std::alloc::AllocError as Memory;
pub use value::Value;
pub use write_op::WriteOp;
