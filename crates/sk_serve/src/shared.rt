// What the accept loops of a server share.
ghost use Rattle.std.specs.Prelude.{◌≡◌};

use crate::gate::Gate;
use sk_desk::{Book, Hub, HubId};
use sk_held::Settlers;
use std::alloc::Global;
use std::sync::Wait;
use std::sync::atomic::{AtomicBool, Ordering};

/// What the accept loops share.
#[derive(Drop)]
pub struct Shared<'a, R: Wait + Sync, I: HubId, B: Book, W: Settlers, G: Gate> {
    pub rt: &'a R,
    pub alloc: Global,
    pub hub: &'a Hub<I, B>,
    pub settlers: &'a W,
    pub gate: &'a G,
    /// How many other loops a loop has beside it.
    pub others: usize,
    /// After how many connections a loop ends. 0 is no end.
    pub sessions: u64,
    // a loop has ended before its number of connections, and all are to end
    stopped: AtomicBool,
}

impl<'a, R: Wait + Sync, I: HubId, B: Book, W: Settlers, G: Gate> Shared<'a, R, I, B, W, G> {
    /// What loops share that serve from this hub, with a settler for each session, where replies wait.
    pub fn new(
        rt: &'a R,
        alloc: Global,
        hub: &'a Hub<I, B>,
        settlers: &'a W,
        gate: &'a G,
        others: usize,
        sessions: u64,
    ) -> Shared<'a, R, I, B, W, G>
        ensures { (result.others ≡ others) × (result.sessions ≡ sessions) }
    {
        Shared {
            rt,
            alloc,
            hub,
            settlers,
            gate,
            others,
            sessions,
            stopped: AtomicBool::new(false),
        }
    }

    /// All loops are to end.
    pub fn stop(&self) {
        self.stopped.store(true, Ordering::SeqCst);
    }

    /// The loops may go on.
    pub fn resume(&self) {
        self.stopped.store(false, Ordering::SeqCst);
    }

    pub fn is_stopped(&self) -> bool {
        self.stopped.load(Ordering::SeqCst)
    }
}
