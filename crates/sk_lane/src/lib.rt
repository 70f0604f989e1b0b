//! All that one worker's thread does in a drill, over any seats of a store.
#![tactic(auto)]

mod core_seats;
mod crashes;
mod hub_seats;
mod lanes;
mod past_seat;
mod seat_link;
mod seats;
mod shift;
mod story;

pub use core_seats::CoreSeats;
pub use crashes::{Crashes, Drawing};
pub use hub_seats::HubSeats;
pub use lanes::lane;
pub use past_seat::PastSeat;
pub use seat_link::SeatLink;
pub use seats::Seats;
pub use std::alloc::AllocError as Memory;
pub use story::Story;
