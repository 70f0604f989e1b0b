//! Sessions over any desk and any connection, and servers of them over any door.
#![tactic(auto)]

mod accept_loop;
mod attend;
mod driver;
mod gate;
mod held;
mod reserve;
mod serve_end;
mod server;
mod shared;
mod sitting;

pub use attend::Ending;
pub use driver::session;
pub use gate::{Gate, OpenGate};
pub use held::{HeldEnd, held_session};
pub use serve_end::{ServeEnd, ServeFault, Served};
pub use server::{serve, serve_at};
pub use shared::Shared;
pub use sk_talk::TalkEnd as SessionEnd;
