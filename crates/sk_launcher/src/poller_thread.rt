// What the thread of the poller has.
ghost use Rattle.std.specs.Prelude.{◌≡◌, ◌≤◌, ◌<◌, ◌+◌, ◌-◌, ◌^◌, None};
ghost use Rattle.sk_launcher.specs.Polling.{PollerAdvances, PollerTurn, poller_of};
ghost use Rattle.sk_launcher.specs.Turning.{WentOn};

use crate::shared::Shared;
use sk_base::limits::POLL_PAUSE;
use sk_base::{Clock, Dice};
use sk_link::Link;
use sk_poller::{PollFault, Poller};
use std::alloc::Global;

/// What the thread of the poller has: the poller, and a link, a clock and a dice of its own.
#[derive(Drop)]
pub(crate) struct PollerThread<L: Link + Drop, C: Clock, D: Dice + Drop> {
    pub poller: Poller,
    pub link: L,
    pub clock: C,
    pub dice: D,
    /// How many turns had an answer.
    pub taken: u64,
    pub fault: Option<PollFault>,
}

impl<L: Link + Drop, C: Clock, D: Dice + Drop> PollerThread<L, C, D> {
    /// Takes the first turn, before the workers are hired.
    pub fn first(&mut self, alloc: Global)
        requires whole { self.old.fault ≡ None }
        requires few { self.old.taken ≡ 0 }
        ensures taken { self.new.fault ≡ None → self.new.taken ≡ 1 }
        ensures most { self.new.taken ≤ 1 }
        ensures went_on { WentOn (PollerTurn L.carried)
            (poller_of C.moments D.words self.old)
            (poller_of C.moments D.words self.new) }
    {
        match self
            .poller
            .turn(alloc, &mut self.link, &mut self.clock, &mut self.dice)
        {
            Ok(_) => self.taken += 1,
            Err(fault) => self.fault = Some(fault),
        }
    }

    // Pauses, and takes a turn of the poller.
    fn turn(&mut self, alloc: Global)
        requires whole { self.old.fault ≡ None }
        requires few { self.old.taken < 2 ^ 64 - 1 }
        ensures went_on { WentOn (PollerTurn L.carried)
            (poller_of C.moments D.words self.old)
            (poller_of C.moments D.words self.new) }
        ensures taken { self.new.fault ≡ None → self.new.taken ≡ self.old.taken + 1 }
        ensures most { self.new.taken ≤ self.old.taken + 1 }
    {
        self.clock.pause(POLL_PAUSE);
        match self
            .poller
            .turn(alloc, &mut self.link, &mut self.clock, &mut self.dice)
        {
            Ok(_) => self.taken += 1,
            Err(fault) => self.fault = Some(fault),
        }
    }

    /// Takes turns until it has taken as many in all as the threads' poller takes, or it or another thread met a fault.
    pub fn run(&mut self, shared: &Shared)
        ensures { PollerAdvances L.carried shared.now.polls
            (poller_of C.moments D.words self.old)
            (poller_of C.moments D.words self.new) }
    {
        if self.fault.is_some() {
            return;
        }
        for _turn in self.taken..shared.polls {
            if shared.is_stopped() {
                return;
            }
            self.turn(shared.alloc);
            if self.fault.is_some() {
                shared.stop();
                return;
            }
        }
    }
}
