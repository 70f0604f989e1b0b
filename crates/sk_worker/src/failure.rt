// A run that failed, and what a worker does about it: it tells the store, decides what becomes of the job, and puts it there.
ghost use Rattle.std.specs.Prelude.{◌≤◌, IfErr, IfOk};
ghost use Rattle.sk_base.specs.declared.limits.TheConstants.{LAST_GENERATION};
ghost use Rattle.sk_worker.specs.Promises.{Fails, Recovers};
ghost use Rattle.sk_worker.specs.Stage.{FailsTo, HasNoNext, Settles, decided};

use crate::in_hand::InHand;
use crate::job::Raised;
use crate::say::{retry_request, say, script};
use crate::turn::{Turn, WorkFault};
use sk_base::{Clock, Dice};
use sk_link::{Answer, Link};
use sk_payload::{EditFault, Head, Payload};
use sk_policy::{Decision, DelayRule, decide};
use std::alloc::Global;

/// A run that failed.
#[derive(Drop)]
pub(crate) struct Failure<'a> {
    pub job: InHand<'a>,
    pub head: &'a Head,
    /// The delay rule of the job's class.
    pub rule: &'a DelayRule,
    pub raised: Raised,
}

impl Failure<'_> {
    // The job's text with this failure, at this moment.
    fn next(&self, alloc: Global, now: u64) -> Result<Payload, WorkFault>
        ensures ok { IfOk result (λ next. FailsTo self.now.job.payload.now now self.now.raised next) }
        ensures err { IfErr result (λ fault. HasNoNext self.now.job.payload.now fault) }
    {
        let class = self.raised.class.text();
        let message = self.raised.message.text();
        match self.job.payload.failed(alloc, now, class, message) {
            Ok(next) => Ok(next),
            Err(EditFault::GenLimit) => Err(WorkFault::GenLimit),
            Err(_) => Err(WorkFault::Memory),
        }
    }

    // Puts the job where it was decided.
    fn put_away<L: Link>(
        &self,
        alloc: Global,
        link: &mut L,
        now: u64,
        decision: Decision,
    ) -> Result<Turn, WorkFault>
        ensures { Settles (L.carried link.old link.new) self.now.job.ident.now
            (decided self.now.job.payload.now self.now.raised now decision) result }
    {
        match decision {
            Decision::Discard => {
                let words = script(alloc, b"SK.DROP", self.job.payload);
                self.job
                    .place(alloc, link, words, Answer::Okay, Turn::Discarded)
            }
            Decision::Bury => match self.next(alloc, now) {
                Ok(next) => self.job.bury(alloc, link, &next),
                Err(fault) => Err(fault),
            },
            Decision::Retry(score) => match self.next(alloc, now) {
                Ok(next) => {
                    let words = retry_request(alloc, score, &next);
                    self.job
                        .place(alloc, link, words, Answer::Number, Turn::Retried)
                }
                Err(fault) => Err(fault),
            },
        }
    }

    // Decides what becomes of the job.
    fn choose<L: Link, C: Clock, D: Dice>(
        &self,
        alloc: Global,
        link: &mut L,
        clock: &mut C,
        dice: &mut D,
    ) -> Result<Turn, WorkFault>
        requires { self.now.head.now.gen_ ≤ LAST_GENERATION }
        ensures { Recovers L.Link C.Clock D.Dice link.old clock.old dice.old link.new clock.new dice.new self.now result }
    {
        let now = clock.now();
        let word = dice.word();
        let delay = self.rule.delay(self.head.gen_);
        let decision = decide(self.head, now, word % 10, delay);
        self.put_away(alloc, link, now, decision)
    }

    /// Tells the store that the run failed, and puts the job where that leads.
    pub(crate) fn fail<L: Link, C: Clock, D: Dice>(
        &self,
        alloc: Global,
        link: &mut L,
        clock: &mut C,
        dice: &mut D,
    ) -> Result<Turn, WorkFault>
        requires { self.now.head.now.gen_ ≤ LAST_GENERATION }
        ensures { Fails L.Link C.Clock D.Dice link.old clock.old dice.old link.new clock.new dice.new self.now result }
    {
        let words = script(alloc, b"SK.FAIL", self.job.payload);
        match say(alloc, link, words, Answer::List) {
            Ok(_) => self.choose(alloc, link, clock, dice),
            Err(fault) => Err(fault),
        }
    }
}
