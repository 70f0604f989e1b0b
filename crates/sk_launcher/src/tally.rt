// How many turns a worker took, and what came of them.
ghost use Rattle.std.specs.Prelude.{◌≡◌, ◌≤◌, ◌<◌, ◌-◌, ◌+◌, ◌^◌};
ghost use Rattle.sk_launcher.specs.Counting.{counted, no_turns, sum_of};

use crate::Counts;
use sk_worker::Turn;
use std::marker::Model;

/// How many turns a worker took, and how many of them came to each answer.
#[derive(Drop)]
pub(crate) struct Tally {
    taken: u64,
    counts: Counts,
}

impl Model for Tally {
    ghost use Rattle.std.specs.Prelude.{◌≤◌};
    ghost use Rattle.sk_launcher.specs.Counting.{TallyView, sum_of};

    ghost Value = { TallyView };

    ghost view = { λ t. record { taken = t.taken; counts = t.counts } };

    ghost invariant = { λ t. sum_of t.counts ≤ t.taken };
}

impl Tally {
    pub fn new() -> Tally
        ensures { result ≡ record { taken = 0; counts = no_turns } }
    {
        Tally {
            taken: 0,
            counts: Counts::none(),
        }
    }

    pub fn taken(&self) -> u64
        ensures { result ≡ self.now.taken }
    {
        self.taken
    }

    pub fn counts(&self) -> Counts
        ensures counts { result ≡ self.now.counts }
        ensures fits { sum_of result ≤ self.now.taken }
    {
        self.counts
    }

    /// One more turn.
    pub fn count(&mut self, turn: Turn)
        requires { self.old.taken < 2 ^ 64 - 1 }
        ensures { self.new ≡ record { taken = self.old.taken + 1; counts = counted turn self.old.counts } }
    {
        self.taken += 1;
        match turn {
            Turn::Empty => {}
            Turn::Done => self.counts.done += 1,
            Turn::Retried => self.counts.retried += 1,
            Turn::Buried => self.counts.buried += 1,
            Turn::Discarded => self.counts.discarded += 1,
        }
    }
}
