//! A connection that holds replies back until what was done before them is stored.
#![tactic(auto)]

mod held_conn;
mod held_id;
mod holdable;
mod outlet;
mod settler;
mod settlers;

pub use held_conn::HeldConn;
pub use held_id::HeldId;
pub use holdable::Holdable;
pub use settler::Settler;
pub use settlers::{NoSettler, NoSettlers, Settlers};
