// What the threads of a launcher share.
ghost use Rattle.std.specs.Prelude.{◌≡◌, ◌+◌, ◌-◌, ◌<◌, ◌^◌};

use std::alloc::Global;
use std::sync::atomic::{AtomicBool, Ordering};

/// What the threads share.
#[derive(Drop)]
pub(crate) struct Shared {
    pub alloc: Global,
    /// How many turns each worker takes.
    pub turns: u64,
    /// How many turns the poller takes: one more.
    pub polls: u64,
    // a thread has met a fault, and all are to end
    stopped: AtomicBool,
}

impl Shared {
    pub fn new(alloc: Global, turns: u64) -> Shared
        ensures turns { result.turns ≡ turns }
        ensures polls { turns < 2 ^ 64 - 1 → result.polls ≡ turns + 1 }
    {
        Shared {
            alloc,
            turns,
            polls: turns.saturating_add(1),
            stopped: AtomicBool::new(false),
        }
    }

    /// All threads are to end before their next turn.
    pub fn stop(&self) {
        self.stopped.store(true, Ordering::SeqCst);
    }

    pub fn is_stopped(&self) -> bool {
        self.stopped.load(Ordering::SeqCst)
    }
}
