//! The edges of the outside: doors and ears over TCP and in memory, connections over TCP, the system's clock, and a dice over a generator.
#![tactic(auto)]

mod collector;
mod connections;
mod discipline;
mod door;
mod first_line;
mod mem_door;
mod mem_ear;
mod pcg_dice;
mod reading;
mod real_clock;
mod request_line;
mod tcp_conn;
mod tcp_door;
mod tcp_ear;
mod turn;

pub use door::{Door, DoorFault, Ear};
pub use mem_door::MemDoor;
pub use mem_ear::MemEar;
pub use pcg_dice::PcgDice;
pub use real_clock::RealClock;
pub use tcp_conn::TcpConn;
pub use tcp_door::TcpDoor;
pub use tcp_ear::TcpEar;
