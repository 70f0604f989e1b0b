// What the thread of a worker has.
ghost use Rattle.std.specs.Prelude.{◌≡◌, ◌≤◌, ◌<◌, ◌+◌, ◌-◌, ◌^◌, false};
ghost use Rattle.sk_worker.specs.Promises.{Answers};
ghost use Rattle.sk_launcher.specs.Launching.{HasJoined, Leaves};
ghost use Rattle.sk_launcher.specs.Turning.{WentOn};
ghost use Rattle.sk_launcher.specs.Working.{WorkerAdvances, WorkerTurn, worker_of};

use crate::pace::Pace;
use crate::processor::Processor;
use crate::shared::Shared;
use sk_base::{Clock, Dice};
use sk_link::Link;
use std::alloc::Global;

/// What the thread of a worker has: the worker with its jobs, its pace, and a link, a clock and a dice of its own.
#[derive(Drop)]
pub(crate) struct WorkerThread<L: Link + Drop, C: Clock, D: Dice + Drop> {
    pub processor: Processor,
    pub pace: Pace,
    pub link: L,
    pub clock: C,
    pub dice: D,
}

impl<L: Link + Drop, C: Clock, D: Dice + Drop> WorkerThread<L, C, D> {
    /// The worker joins, before its first turn.
    pub fn join(&mut self, alloc: Global)
        requires { self.old.processor.worker.ended ≡ false }
        ensures joined { HasJoined L.carried
            (worker_of C.moments D.words runs self.old)
            (worker_of C.moments D.words runs self.new) }
    {
        let processor = &mut self.processor;
        if let Err(fault) = processor.worker.join(alloc, &mut self.link) {
            processor.fault = Some(fault);
        }
    }

    /// The worker leaves, after its last turn: it gives back the jobs that it holds. One that had a fault doesn't.
    pub fn leave(&mut self, alloc: Global)
        ensures left { Leaves L.carried
            (worker_of C.moments D.words runs self.old)
            (worker_of C.moments D.words runs self.new) }
    {
        let processor = &mut self.processor;
        if processor.worker.ended {
            return;
        }
        if let Err(fault) = processor.worker.leave(alloc, &mut self.link) {
            processor.fault = Some(fault);
        }
    }
}

impl<L: Link + Drop, C: Clock, D: Dice + Drop> WorkerThread<L, C, D> {
    // Takes a turn of the worker. It pauses where it found no job.
    fn turn(&mut self, alloc: Global)
        requires whole { self.old.processor.worker.ended ≡ false }
        requires few { self.old.processor.tally.taken < 2 ^ 64 - 1 }
        ensures went_on { WentOn (WorkerTurn L.carried Answers)
            (worker_of C.moments D.words runs self.old)
            (worker_of C.moments D.words runs self.new) }
        ensures taken { self.new.processor.worker.ended ≡ false → self.new.processor.tally.taken ≡ self.old.processor.tally.taken + 1 }
        ensures most { self.new.processor.tally.taken ≤ self.old.processor.tally.taken + 1 }
    {
        let processor = &mut self.processor;
        match processor.worker.turn(
            alloc,
            &mut self.link,
            &mut processor.registry,
            &mut self.clock,
            &mut self.dice,
        ) {
            Ok(turn) => {
                processor.tally.count(turn);
                if let Some(millis) = self.pace.after(turn) {
                    self.clock.pause(millis);
                }
            }
            Err(fault) => processor.fault = Some(fault),
        }
    }

    /// It met a fault.
    pub fn is_broken(&self) -> bool
        ensures { result ≡ self.now.processor.worker.ended }
    {
        self.processor.worker.ended
    }

    /// How many turns had an answer.
    pub fn taken(&self) -> u64
        ensures { result ≡ self.now.processor.tally.taken }
    {
        self.processor.tally.taken()
    }

    /// Takes turns until it has taken so many in all, or it or another thread met a fault.
    pub fn run(&mut self, shared: &Shared)
        ensures { WorkerAdvances L.carried Answers shared.now.turns
            (worker_of C.moments D.words runs self.old)
            (worker_of C.moments D.words runs self.new) }
    {
        if self.is_broken() {
            return;
        }
        for _turn in self.taken()..shared.turns {
            if shared.is_stopped() {
                return;
            }
            self.turn(shared.alloc);
            if self.is_broken() {
                shared.stop();
                return;
            }
        }
    }
}
