//! The store: all that it keeps, and each command handed to what does it.
#![tactic(auto)]

mod dispatch;
mod rights;
mod store;

pub use sk_store::Removed;
pub use store::Core;
