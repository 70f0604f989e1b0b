//! The plain keys of the store, with their deadlines: a small Redis over a hash table, and an index of the deadlines in order.
#![tactic(auto)]

mod apply;
mod delete;
mod edit;
mod emptied;
mod expire;
mod expiries;
mod key_table;
mod keys;
mod look;
mod move_list;
mod named;
mod purges;
mod put;
mod removed;
mod set;

pub use keys::Keys;
pub use removed::RemovedKeys;
