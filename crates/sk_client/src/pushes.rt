// Pushes of one job: to its queue, into the schedule, or where no other job holds its lock. Each builds the text, and sends one request.
ghost use Rattle.std.specs.Prelude.{IfErr, OnOk};
ghost use Rattle.sk_client.specs.Push.{Accepted, Fails};
ghost use Rattle.sk_client.specs.Making.{Makes};
ghost use Rattle.sk_client.specs.Requests.{lpush, zadd, upush};

use crate::ClientFault;
use crate::send::send;
use crate::words::{add_draft, queue_key};
use sk_base::Score;
use sk_link::{Answer, Link, words_of};
use sk_payload::JobDraft;
use sk_resp::{Word, Words};
use std::alloc::Global;

// `LPUSH queue:q text`
fn lpush_words(alloc: Global, draft: &JobDraft) -> Result<Words, ClientFault>
    ensures { Makes (lpush draft.now) result }
{
    let key = queue_key(alloc, draft.queue.text())?;
    let mut words = words_of(alloc, &[b"LPUSH", &key])?;
    add_draft(alloc, draft, &mut words)?;
    Ok(Words::new(words))
}

// `ZADD schedule score text`
fn zadd_words(alloc: Global, draft: &JobDraft, at: Score) -> Result<Words, ClientFault>
    ensures { Makes (zadd draft.now at) result }
{
    let mut score = Vec::new(alloc);
    at.write(alloc, &mut score)?;
    let mut words = words_of(alloc, &[b"ZADD", b"schedule", &score])?;
    add_draft(alloc, draft, &mut words)?;
    Ok(Words::new(words))
}

// `SK.UPUSH text [score]`
fn upush_words(alloc: Global, draft: &JobDraft, at: Option<Score>) -> Result<Words, ClientFault>
    ensures { Makes (upush draft.now at) result }
{
    let mut words = words_of(alloc, &[b"SK.UPUSH"])?;
    add_draft(alloc, draft, &mut words)?;
    if let Some(at) = at {
        let mut score = Vec::new(alloc);
        at.write(alloc, &mut score)?;
        words.push(Word::new(score))?;
    }
    Ok(Words::new(words))
}

/// Pushes the job at the left end of its queue (`LPUSH`), from whose right end workers fetch.
pub fn push<L: Link>(alloc: Global, link: &mut L, draft: &JobDraft) -> Result<(), ClientFault>
    ensures ok { OnOk result (Accepted (L.carried link.old link.new) (lpush draft.now)) }
    ensures err { IfErr result (Fails (L.carried link.old link.new) (lpush draft.now)) }
{
    let words = lpush_words(alloc, draft)?;
    send(alloc, link, &words, Answer::Number)
}

/// Puts the job into the schedule, due at `at`, in seconds since 1970 (`ZADD`; Sidekiq's wiki, "Scheduled Jobs").
pub fn push_at<L: Link>(
    alloc: Global,
    link: &mut L,
    draft: &JobDraft,
    at: Score,
) -> Result<(), ClientFault>
    ensures ok { OnOk result (Accepted (L.carried link.old link.new) (zadd draft.now at)) }
    ensures err { IfErr result (Fails (L.carried link.old link.new) (zadd draft.now at)) }
{
    let words = zadd_words(alloc, draft, at)?;
    send(alloc, link, &words, Answer::Number)
}

/// Takes the lock of a unique job, and pushes the job to its queue, or puts it into the schedule, due at `at` (`SK.UPUSH`; Sidekiq's wiki,
/// "Ent Unique Jobs"). Where the lock stands already, nothing is pushed, and the error [`ClientFault::Held`] has the id of the job that holds it.
pub fn push_unique<L: Link>(
    alloc: Global,
    link: &mut L,
    draft: &JobDraft,
    at: Option<Score>,
) -> Result<(), ClientFault>
    ensures ok { OnOk result (Accepted (L.carried link.old link.new) (upush draft.now at)) }
    ensures err { IfErr result (Fails (L.carried link.old link.new) (upush draft.now at)) }
{
    let words = upush_words(alloc, draft, at)?;
    send(alloc, link, &words, Answer::Unique)
}
