// The turn of a poller: one loop over its table, which meets the link, the clock and the dice.
ghost use Rattle.std.specs.Prelude.{◌≡◌, ◌||◌, ℕ, Option, Some, true, is_some};
ghost use Rattle.std.specs.List.{list_all};
ghost use Rattle.sk_poller.specs.Event.{slot};
ghost use Rattle.sk_poller.specs.Loop.{is_loop};
ghost use Rattle.sk_poller.specs.Stage.{Answers, Draws, HasRoom, Polls, Step, is_lost, request_at, watch_of};
ghost use Rattle.sk_poller.specs.declared.stage.Stage.TheVariants.{Looking};

use crate::remaining::RemainingLoops;
use crate::request::job_of;
use crate::stage::{Stage, after, looked, request_of};
use crate::{Loop, Memory, PollFault, PollReport, Poller};
use sk_base::{Clock, Dice};
use sk_client::fresh_jid;
use sk_link::Link;
use sk_payload::Payload;
use std::alloc::Global;

// The job of a loop, with an id of two words that are drawn for it.
fn draw_job<D: Dice>(alloc: Global, dice: &mut D, of: &Loop, now: u64) -> Result<Payload, Memory>
    requires { is_loop of.now ≡ true }
    ensures { Draws (D.words dice.old) (D.words dice.new) of.now now result }
{
    let jid = fresh_jid(alloc, dice)?;
    job_of(alloc, of, jid, now)
}

impl Poller {
    // Where the last slot of the loop at hand leads.
    fn look<'a>(&self, now: u64, loops: RemainingLoops<'a>, n: PollReport) -> Stage<'a>
        ensures { (last : Option ℕ) × Step (watch_of self.now) (Looking now loops.entry n) (slot last) result }
    {
        let last = loops.first().cron.last_slot(now, self.offset);
        looked(now, loops, n, last)
    }

    // Sends the stage's request, and answers where the reply leads.
    fn ask<'a, L: Link>(
        &'a self,
        alloc: Global,
        link: &mut L,
        stage: Stage<'a>,
    ) -> Result<Stage<'a>, PollFault>
        requires asks { is_some (request_at self.now.ident stage) ≡ true }
        requires room { HasRoom stage }
        ensures { Answers (L.carried link.old link.new) (watch_of self.now) stage.entry result }
    {
        let Some(words) = request_of(alloc, &self.ident, &stage)? else {
            unreachable!();
        };
        let reply = link.call(alloc, &words)?;
        after(&self.loops, stage, &reply).ok_or(PollFault::Refused(reply))
    }

    /// Takes a turn. It reads the clock once; then it sends `SK.BEAT ident`, `SK.DUE schedule 100`, `SK.DUE retry 100`, `SK.RESCUE` and
    /// `SK.LEAD ident`. Where it leads, it sends for each loop that has a last slot `SK.CRON ident name slot text`, with a job without arguments that
    /// is made at the moment read, and with an id of two words drawn then. That another process leads, or that the slot was pushed already or isn't
    /// one of now, is no fault of SK.CRON.
    pub fn turn<L: Link, C: Clock, D: Dice>(
        &self,
        alloc: Global,
        link: &mut L,
        clock: &mut C,
        dice: &mut D,
    ) -> Result<PollReport, PollFault>
        ensures told { Polls L.carried link.old link.new (C.moments clock.old) (C.moments clock.new) (D.words dice.old) (D.words dice.new)
            self.now result }
        ensures ended { L.has_ended link.new ≡ (L.has_ended link.old || is_lost result) }
    {
        let mut stage = Stage::Resting;
        loop {
            stage = match stage {
                Stage::Over(n) => return Ok(n),
                Stage::Resting => Stage::Beating(clock.now()),
                Stage::Looking(now, loops, n) => self.look(now, loops, n),
                Stage::Due(now, slot, loops, n) => {
                    let job = draw_job(alloc, dice, loops.first(), now)?;
                    Stage::Pushing(now, slot, job, loops, n)
                }
                asking => self.ask(alloc, link, asking)?,
            };
        }
    }
}
