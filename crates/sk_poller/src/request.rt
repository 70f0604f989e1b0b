// The words of a poller's requests.
ghost use Rattle.std.specs.Prelude.{◌≡◌, IfOk, map, true};
ghost use Rattle.sk_base.specs.Name.{is_name};
ghost use Rattle.sk_payload.specs.Draft.{draft_text};
ghost use Rattle.sk_poller.specs.Loop.{draft_of, is_loop};
ghost use Rattle.sk_poller.specs.Request.{beat_words, cron_words, due_words, lead_words, rescue_words};
ghost use Rattle.sk_base.specs.declared.limits.TheConstants.{LONGEST_ID};

use crate::{Loop, Memory};
use sk_base::limits::DUE_A_TURN;
use sk_link::words_of;
use sk_payload::{Args, DraftFault, JobDraft, Payload, Retry};
use sk_resp::{Text, Words};
use std::alloc::Global;

fn request(alloc: Global, parts: &[&[u8]]) -> Result<Words, Memory>
    ensures { IfOk result (λ words. words ≡ map (λ part. part.now) parts.now) }
{
    Ok(Words::new(words_of(alloc, parts)?))
}

/// `SK.BEAT ident`
pub(crate) fn beat_request(alloc: Global, ident: &Text) -> Result<Words, Memory>
    ensures { IfOk result (λ words. words ≡ beat_words ident.now) }
{
    request(alloc, &[b"SK.BEAT", ident.text().as_bytes()])
}

/// `SK.DUE set count`
pub(crate) fn due_request(alloc: Global, set: &[u8]) -> Result<Words, Memory>
    ensures { IfOk result (λ words. words ≡ due_words set.now) }
{
    let count = DUE_A_TURN.to_string(alloc)?;
    request(alloc, &[b"SK.DUE", set, count.as_bytes()])
}

/// `SK.RESCUE`
pub(crate) fn rescue_request(alloc: Global) -> Result<Words, Memory>
    ensures { IfOk result (λ words. words ≡ rescue_words) }
{
    request(alloc, &[b"SK.RESCUE"])
}

/// `SK.LEAD ident`
pub(crate) fn lead_request(alloc: Global, ident: &Text) -> Result<Words, Memory>
    ensures { IfOk result (λ words. words ≡ lead_words ident.now) }
{
    request(alloc, &[b"SK.LEAD", ident.text().as_bytes()])
}

/// The job of a loop with this id, as it is pushed.
pub(crate) fn job_of(alloc: Global, job: &Loop, jid: Text, now: u64) -> Result<Payload, Memory>
    requires names { is_loop job.now ≡ true }
    requires id { is_name LONGEST_ID jid ≡ true }
    ensures { IfOk result (λ payload. payload ≡ draft_text (draft_of job.now jid now)) }
{
    let draft = JobDraft {
        jid,
        class: job.class.copy()?,
        queue: job.queue.copy()?,
        args: Args::new(Vec::new(alloc)),
        retry: Retry::Default,
        retry_for: None,
        bid: None,
        lock: None,
        dead: true,
        created: now,
    };
    match draft.build(alloc) {
        Ok(payload) => Ok(payload),
        Err(fault) => {
            // Its names are names, and its text is short.
            if fault != DraftFault::Memory {
                unreachable!();
            }
            Err(Memory)
        }
    }
}

/// `SK.CRON ident name slot job`
pub(crate) fn cron_request<'a>(
    alloc: Global,
    ident: &'a Text,
    of: &'a Loop,
    slot: u64,
    job: &'a Payload,
) -> Result<Words, Memory>
    ensures { IfOk result (λ words. words ≡ cron_words ident.now of.now slot job.now) }
{
    let slot = slot.to_string(alloc)?;
    request(
        alloc,
        &[
            b"SK.CRON",
            ident.text().as_bytes(),
            of.name.text().as_bytes(),
            slot.as_bytes(),
            job.text().bytes(),
        ],
    )
}
