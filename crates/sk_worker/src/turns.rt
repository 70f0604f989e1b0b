// A turn of a worker: it fetches, and then works on the oldest job that it holds.
ghost use Rattle.std.specs.Prelude.{◌≡◌, ◌≤◌, ◌||◌, false};
ghost use Rattle.std.specs.Result.{is_err};
ghost use Rattle.sk_worker.specs.Broken.{is_lost};
ghost use Rattle.sk_worker.specs.Promises.{Turns, Works};

use crate::failure::Failure;
use crate::in_hand::InHand;
use crate::job::Outcome;
use crate::registry::Registry;
use crate::say::{say, script};
use crate::turn::{Turn, WorkFault};
use crate::worker::Worker;
use sk_base::{Clock, Dice};
use sk_link::{Answer, Link};
use std::alloc::Global;

impl Worker {
    // Works on the oldest job: buries it where it has no head, and else starts it, runs it, and says what became of it.
    fn work<L: Link, C: Clock, D: Dice>(
        &self,
        alloc: Global,
        link: &mut L,
        registry: &mut Registry,
        clock: &mut C,
        dice: &mut D,
    ) -> Result<Turn, WorkFault>
        ensures told { Works L.Link C.Clock D.Dice runs link.old clock.old dice.old registry.old
            link.new clock.new dice.new registry.new self.now result }
        ensures classes { registry.new.classes ≡ registry.old.classes }
        ensures rules { registry.new.rules ≡ registry.old.rules }
    {
        let Some(payload) = self.held.front() else {
            return Ok(Turn::Empty);
        };
        let ident = &self.ident;
        let job = InHand { ident, payload };
        let Some(head) = payload.head() else {
            return job.bury_bare(alloc, link);
        };
        let words = script(alloc, b"SK.START", payload);
        match say(alloc, link, words, Answer::Okay) {
            Ok(_) => {}
            Err(fault) => return Err(fault),
        }
        match registry.attempt(alloc, head) {
            Ok(Outcome::Returned) => job.finish(alloc, link),
            Ok(Outcome::Raised(raised)) => {
                let rule = registry.rule_of(&head.class, &self.plain);
                let failure = Failure {
                    job,
                    head,
                    rule,
                    raised,
                };
                failure.fail(alloc, link, clock, dice)
            }
            Err(_) => Err(WorkFault::Memory),
        }
    }

    // A turn of a worker that hasn't ended.
    fn take<L: Link, C: Clock, D: Dice>(
        &mut self,
        alloc: Global,
        link: &mut L,
        jobs: &mut Registry,
        clock: &mut C,
        dice: &mut D,
    ) -> Result<Turn, WorkFault>
        requires { self.old.ended ≡ false }
        ensures told { Turns L.Link C.Clock D.Dice runs link.old clock.old dice.old jobs.old self.old
            link.new clock.new dice.new jobs.new self.new result }
        ensures classes { jobs.new.classes ≡ jobs.old.classes }
        ensures rules { jobs.new.rules ≡ jobs.old.rules }
        ensures ident { self.new.ident ≡ self.old.ident }
        ensures order { self.new.order ≡ self.old.order }
        ensures plain { self.new.plain ≡ self.old.plain }
        ensures prefetch { self.new.prefetch ≡ self.old.prefetch }
    {
        match self.fill(alloc, link, dice) {
            Ok(()) => {}
            Err(fault) => return Err(fault),
        }
        match self.work(alloc, link, jobs, clock, dice) {
            Ok(turn) => {
                self.held.pop_front();
                Ok(turn)
            }
            Err(fault) => Err(fault),
        }
    }

    /// Takes a turn, on a link on which it joined.
    ///
    /// It fetches until it holds `prefetch` jobs or each queue has answered null: it draws an order of the queues, and moves jobs into its private list
    /// by `LMOVE queue:name sq:ident RIGHT LEFT`. Then it works on the oldest job. One without a head is buried by SK.BURY. Else it says SK.START and
    /// runs the job of the head's class. After a run that returned it says SK.OK. After one that raised an error it says SK.FAIL, reads the clock,
    /// draws one word for the jitter, and puts the job where [`sk_policy::decide`] says: by `ZADD retry`, SK.BURY or SK.DROP. A class without a job
    /// counts as raised, with the class `UnknownClass`, the job's class as message, and the plain rule. At last it takes the job out of its private
    /// list by LREM. After a fault the worker has ended. It holds then what it held and fetched and didn't release, the oldest first; only where
    /// there was no memory the payload that it fetched last may be missing. The registry's classes and delay rules stay as they are.
    pub fn turn<L: Link, C: Clock, D: Dice>(
        &mut self,
        alloc: Global,
        link: &mut L,
        registry: &mut Registry,
        clock: &mut C,
        dice: &mut D,
    ) -> Result<Turn, WorkFault>
        requires { 0 ≤ 1 }
        ensures told { Turns L.Link C.Clock D.Dice runs link.old clock.old dice.old registry.old self.old
            link.new clock.new dice.new registry.new self.new result }
        ensures classes { registry.new.classes ≡ registry.old.classes }
        ensures rules { registry.new.rules ≡ registry.old.rules }
        ensures ends { self.new.ended ≡ is_err result }
        ensures link { L.has_ended link.new ≡ (L.has_ended link.old || is_lost result) }
        ensures ident { self.new.ident ≡ self.old.ident }
        ensures order { self.new.order ≡ self.old.order }
        ensures plain { self.new.plain ≡ self.old.plain }
        ensures prefetch { self.new.prefetch ≡ self.old.prefetch }
    {
        if self.ended {
            return Err(WorkFault::Ended);
        }
        let result = self.take(alloc, link, registry, clock, dice);
        self.ended = result.is_err();
        result
    }
}
