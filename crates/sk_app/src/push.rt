// The program `push`: its words are read, the job is made, handed to the chain, and tried whether it can be written; then a connection is made, one
// request pushes the job, the connection is left to the door, and what came of it is told.
ghost use Rattle.std.specs.Prelude.{◌≡◌, ◌⊎◌, None, Err, IfErr, OnOk};
ghost use Rattle.sk_base.specs.Outside.{Rose};
ghost use Rattle.sk_client.specs.Push.{Accepted, Fails};
ghost use Rattle.sk_payload.specs.Draft.{draft_fault};
ghost use Rattle.sk_app.specs.Ending.{Ends};
ghost use Rattle.sk_middle.specs.Applied.{applied};
ghost use Rattle.sk_app.specs.Pushing.{Hands, Pushes, outcome_of, request};
ghost use Rattle.sk_app.specs.declared.failure.Failure.TheVariants.{Line, Memory};
ghost use Rattle.sk_app.specs.Promises.{DoPush, PushDone};

use crate::Failure;
use crate::ending::{self, conclude, line};
use crate::job::{PushJob, job_of};
use crate::question::{Question, dial};
use sk_base::{Clock, Dice, Sink};
use sk_client::{ClientFault, push, push_at, push_unique};
use sk_edge::Door;
use sk_launcher::Address;
use sk_line::read_push;
use sk_link::Link;
use sk_middle::{ClientChain, Through};
use sk_payload::DraftFault;
use sk_resp::{Text, Word};
use std::alloc::Global;

// What `push` tells of what came of it.
fn outcome_of(alloc: Global, jid: &Text, pushed: Result<(), ClientFault>) -> Result<Word, Failure>
    ensures { (result ≡ Err Memory) ⊎ (result ≡ outcome_of jid.now pushed) }
{
    match pushed {
        Ok(()) => Ok(line(alloc, jid.text().as_bytes(), b"")?),
        Err(ClientFault::Held(holder)) => Ok(line(alloc, b"held ", holder.text().as_bytes())?),
        Err(ClientFault::Refused(reply)) => Err(Failure::Refused(reply)),
        Err(ClientFault::Link(fault)) => Err(Failure::Link(fault)),
        Err(ClientFault::Memory | ClientFault::Draft(DraftFault::Memory)) => Err(Failure::Memory),
        Err(ClientFault::Draft(_)) => Err(Failure::Line),
    }
}

// Pushes the job: under its lock, into the schedule, or to its queue.
fn send<L: Link>(alloc: Global, link: &mut L, job: &PushJob) -> Result<(), ClientFault>
    ensures ok { OnOk result (Accepted (L.carried link.old link.new) (request job.now)) }
    ensures err { IfErr result (Fails (L.carried link.old link.new) (request job.now)) }
{
    if job.draft.lock.is_some() {
        return push_unique(alloc, link, &job.draft, job.at);
    }
    match job.at {
        Some(at) => push_at(alloc, link, &job.draft, at),
        None => push(alloc, link, &job.draft),
    }
}

/// The job is pushed. It has to be one that can be written.
impl Question for PushJob {
    ghost is_ready = { λ job. draft_fault job.draft ≡ None };

    ghost asks = { λ job Carried. Pushes Carried job };

    fn address(&self) -> &Address {
        &self.address
    }

    fn ask<L: Link>(&self, alloc: Global, link: &mut L) -> Result<Word, Failure> {
        let pushed = send(alloc, link, self);
        outcome_of(alloc, &self.draft.jid, pushed)
    }
}

// The job that is pushed for this one: one that goes to its queue now goes through the chain, which may stop it. Others are pushed as they are.
fn hand_on(chain: &ClientChain, job: PushJob) -> Option<PushJob>
    ensures { Hands (applied chain.now) job result }
{
    let PushJob { address, draft, at } = job;
    if draft.lock.is_some() || at.is_some() {
        return Some(PushJob { address, draft, at });
    }
    match chain.apply(draft) {
        Through::Push(draft) => Some(PushJob { address, draft, at }),
        Through::Stopped(_) => None,
    }
}

// The job can be written.
fn try_draft(alloc: Global, job: &PushJob) -> Result<(), Failure>
    ensures ok { OnOk result (draft_fault job.now.draft ≡ None) }
    ensures err { IfErr result (λ f. (f ≡ Memory) ⊎ ((f ≡ Line) × (draft_fault job.now.draft ≡ None → ⊥))) }
{
    match job.draft.build(alloc) {
        Ok(_) => Ok(()),
        Err(DraftFault::Memory) => Err(Failure::Memory),
        Err(_) => Err(Failure::Line),
    }
}

// What `push` comes to.
fn outcome_by<N: Door, C: Clock, D: Dice>(
    alloc: Global,
    words: &[String],
    chain: &ClientChain,
    net: &mut N,
    clock: &mut C,
    dice: &mut D,
) -> Result<Word, Failure>
    ensures told { DoPush N.Door N.Conn.Source N.Conn.Sink C.Clock D.Dice words.now (applied chain.now) net.old clock.old dice.old net.new clock.new dice.new result }
    ensures untouched { result ≡ Err Line → net.new ≡ net.old }
{
    let line = read_push(alloc, words)?;
    let job = job_of(alloc, line, clock, dice)?;
    let Some(job) = hand_on(chain, job) else {
        return Ok(ending::line(alloc, b"stopped", b"")?);
    };
    try_draft(alloc, &job)?;
    dial(alloc, net, &job)
}

/// Pushes the job that the words, which begin with `push`, ask for, and writes its id and LF; or, where the lock of a unique job is held, `held`, a space,
/// the id of the job that holds it, and LF. A job without `--at` and `--unique` goes through the chain first: what that makes of it is pushed, and where
/// it stops the job, `stopped` and LF are written, and no connection is made. Answers the status: 0 for these, and else what [`Failure::status`] says,
/// or 4 where the sink failed.
pub fn run_push<K: Sink, N: Door, C: Clock, D: Dice>(
    alloc: Global,
    words: &[String],
    chain: &ClientChain,
    sink: &mut K,
    net: &mut N,
    clock: &mut C,
    dice: &mut D,
) -> u8
    ensures told { Ends K.Sink sink.old sink.new result
        (DoPush N.Door N.Conn.Source N.Conn.Sink C.Clock D.Dice words.now (applied chain.now) net.old clock.old dice.old net.new clock.new dice.new) }

    // A job is pushed, held or stopped, unless the door fails or its request isn't answered, where the sink takes what is told.
    ensures completes { PushDone N.Door N.Conn.Source N.Conn.Sink net.old net.new result }

    // With status 4 the sink's count of faults rose.
    ensures sink_cause { result ≡ 4 → Rose (K.write_faults sink.old) (K.write_faults sink.new) }

    // With status 2 nothing was written, and no connection was made.
    ensures untouched { result ≡ 2 → (sink.new ≡ sink.old) × (net.new ≡ net.old) }
{
    let outcome = outcome_by(alloc, words, chain, net, clock, dice);
    conclude(alloc, sink, outcome)
}
