//! The outside as the rest of the system sees it: where bytes come from and where they go, each with a count of its faults; what tells the time, and
//! where chance comes from; and what a name and a score are. All limits and defaults of the system stand in `limits`.
#![tactic(auto)]

mod bound;
mod clock;
mod conn;
mod dice;
mod failed;
mod feed;
pub mod limits;
mod mem_conn;
mod name;
mod score;
mod sink;
mod source;
mod std_sink;
mod std_source;
mod tray;

pub use bound::Bound;
pub use clock::{Clock, StepClock};
pub use conn::{Conn, Duplex};
pub use dice::{Dice, ListDice};
pub use failed::Failed;
pub use feed::{Feed, SteadyFeed};
pub use mem_conn::MemConn;
pub use name::is_name;
pub use score::{Score, ScoreFault};
pub use sink::{Sink, write_all};
pub use source::Source;
pub use std_sink::StdSink;
pub use std_source::StdSource;
pub use tray::{SteadyTray, Tray};
