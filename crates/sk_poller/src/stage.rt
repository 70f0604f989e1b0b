// The table of a turn: what is asked at each stage, and where a reply leads.
ghost use Rattle.std.specs.Prelude.{◌≡◌, ◌+◌, ◌<◌, ◌^◌, IfOk, true};
ghost use Rattle.std.specs.List.{list_all};
ghost use Rattle.sk_poller.specs.Counts.{add_due, add_pushed, add_rescued};
ghost use Rattle.sk_poller.specs.Loop.{is_loop};
ghost use Rattle.sk_poller.specs.Stage.{HasRoom, after, looked, next_loop, request_at};

use crate::ask::{is_passed, lead_of};
use crate::remaining::RemainingLoops;
use crate::request::{beat_request, cron_request, due_request, lead_request, rescue_request};
use crate::{Loop, Memory, PollReport};
use sk_link::{Answer, Report, is_answer};
use sk_payload::Payload;
use sk_resp::{Reply, Text, Words};
use std::alloc::Global;

/// Where a turn stands, with the moment that it read, and what it counted.
#[derive(Drop)]
pub(crate) enum Stage<'a> {
    /// It hasn't read the clock.
    Resting,
    /// It sends the heartbeat.
    Beating(u64),
    /// It promotes due jobs of the schedule.
    Scheduled(u64, PollReport),
    /// It promotes due retries.
    Retries(u64, PollReport),
    /// It gives the jobs of dead processes back.
    Rescuing(u64, PollReport),
    /// It asks for the lead.
    Leading(u64, PollReport),
    /// It looks at the last slot of a loop.
    Looking(u64, RemainingLoops<'a>, PollReport),
    /// The loop has this last slot, and makes a job for it.
    Due(u64, u64, RemainingLoops<'a>, PollReport),
    /// It pushes this job of the loop for the slot.
    Pushing(u64, u64, Payload, RemainingLoops<'a>, PollReport),
    Over(PollReport),
}

const NOTHING: PollReport = PollReport {
    promoted: 0,
    rescued: 0,
    buried: 0,
    pushed: 0,
};

/// The request of the stage, where one goes out.
pub(crate) fn request_of(
    alloc: Global,
    ident: &Text,
    stage: &Stage,
) -> Result<Option<Words>, Memory>
    ensures { IfOk result (λ request. request ≡ request_at ident.now stage.now) }
{
    let words = match stage {
        Stage::Beating(_) => beat_request(alloc, ident)?,
        Stage::Scheduled(_, _) => due_request(alloc, b"schedule")?,
        Stage::Retries(_, _) => due_request(alloc, b"retry")?,
        Stage::Rescuing(_, _) => rescue_request(alloc)?,
        Stage::Leading(_, _) => lead_request(alloc, ident)?,
        Stage::Pushing(_, slot, job, loops, _) => {
            cron_request(alloc, ident, loops.first(), *slot, job)?
        }
        _ => return Ok(None),
    };
    Ok(Some(words))
}

// A look at the next of these loops, or the end of the turn.
fn next_loop<'a>(now: u64, loops: &'a [Loop], n: PollReport) -> Stage<'a>
    requires { list_all is_loop loops.now ≡ true }
    ensures { result ≡ next_loop now loops.now n }
{
    match loops {
        [] => Stage::Over(n),
        [first, rest @ ..] => Stage::Looking(now, RemainingLoops::new(first, rest), n),
    }
}

fn add_due(n: PollReport, report: Report) -> PollReport
    requires promoted { n.promoted + report.moved < 2 ^ 64 }
    requires buried { n.buried + report.buried < 2 ^ 64 }
    ensures { result ≡ add_due n report }
{
    PollReport {
        promoted: n.promoted + report.moved,
        buried: n.buried + report.buried,
        ..n
    }
}

fn add_rescued(n: PollReport, report: Report) -> PollReport
    requires rescued { n.rescued + report.moved < 2 ^ 64 }
    requires buried { n.buried + report.buried < 2 ^ 64 }
    ensures { result ≡ add_rescued n report }
{
    PollReport {
        rescued: n.rescued + report.moved,
        buried: n.buried + report.buried,
        ..n
    }
}

fn add_pushed(n: PollReport) -> PollReport
    requires { n.pushed + 1 < 2 ^ 64 }
    ensures { result ≡ add_pushed n }
{
    PollReport {
        pushed: n.pushed + 1,
        ..n
    }
}

/// Where the reply to the stage's request leads, or None where the stage wants another.
pub(crate) fn after<'a>(loops: &'a [Loop], stage: Stage<'a>, reply: &Reply) -> Option<Stage<'a>>
    requires named { list_all is_loop loops.now ≡ true }
    requires room { HasRoom stage }
    ensures { result ≡ after loops.now stage.entry reply.now }
{
    match stage {
        Stage::Beating(now) => {
            is_answer(Answer::Okay, reply).then_some(Stage::Scheduled(now, NOTHING))
        }
        Stage::Scheduled(now, n) => Some(Stage::Retries(now, add_due(n, Report::read(reply)?))),
        Stage::Retries(now, n) => Some(Stage::Rescuing(now, add_due(n, Report::read(reply)?))),
        Stage::Rescuing(now, n) => Some(Stage::Leading(now, add_rescued(n, Report::read(reply)?))),
        Stage::Leading(now, n) => {
            if lead_of(reply)? {
                Some(next_loop(now, loops, n))
            } else {
                Some(Stage::Over(n))
            }
        }
        Stage::Pushing(now, _slot, _job, loops, n) => {
            if is_answer(Answer::Okay, reply) {
                Some(next_loop(now, loops.rest(), add_pushed(n)))
            } else if is_passed(reply) {
                Some(next_loop(now, loops.rest(), n))
            } else {
                None
            }
        }
        _other => None,
    }
}

/// Where the last slot of the loop at hand leads. None is none of the last ten minutes.
pub(crate) fn looked<'a>(
    now: u64,
    loops: RemainingLoops<'a>,
    n: PollReport,
    last: Option<u64>,
) -> Stage<'a>
    ensures { result ≡ looked now loops.entry n last }
{
    match last {
        Some(slot) => Stage::Due(now, slot, loops, n),
        None => next_loop(now, loops.rest(), n),
    }
}
