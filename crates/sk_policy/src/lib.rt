//! What a worker goes by: in which order it asks its queues, and what becomes of a job whose run failed.
#![tactic(auto)]

mod decision;
mod delay;
mod order;
mod order_fault;

pub use decision::{Decision, decide};
pub use delay::{DelayRule, plain_delay};
pub use order::QueueOrder;
pub use order_fault::OrderFault;
pub use std::alloc::AllocError as Memory;
