// A link to a store of its own, over the desk of seat 1, which keeps its calls.
use sk_base::StepClock;
use sk_core::Core;
use sk_desk::MemDesk;
use sk_lane::{Crashes, SeatLink};
use sk_model::Limits;
use sk_pipe::Session;
use std::alloc::Global;

/// A link to the store.
pub type StoreLink = SeatLink<MemDesk, StepClock>;

/// A link to an empty store with these limits. No call crashes.
pub fn open(alloc: Global, limits: Limits, clock: StepClock) -> StoreLink {
    let desk = MemDesk::new(alloc, Core::new(alloc, limits), 1);
    SeatLink::new(alloc, desk, clock, Crashes::new(0, 0, 0))
}

/// The link is over, and its store goes.
pub fn close(alloc: Global, link: StoreLink) {
    let SeatLink {
        desk,
        clock: _clock,
        asks: _asks,
        drawing: _drawing,
    } = link;
    Session::over(alloc, desk.into_core()).close();
}
