// The words of a load's commands.
ghost use Rattle.std.specs.Prelude.{◌≡◌, ◌++◌, IfOk, OnOk, map};
ghost use Rattle.sk_drill.specs.Requests.{cron as cron_words, fetch as fetch_words, first_jobs, push as push_words, push_batch as batch_words, push_first as first_words, release as release_words, retry as retry_words};

use crate::Memory;
use crate::job_text::job_text;
use sk_base::Score;
use sk_link::words_of;
use sk_resp::{Word, Words};
use std::alloc::Global;

/// The words with these bytes.
pub(crate) fn request(alloc: Global, parts: &[&[u8]]) -> Result<Words, Memory>
    ensures { IfOk result (λ words. words ≡ map (λ part. part.now) parts.now) }
{
    Ok(Words::new(words_of(alloc, parts)?))
}

fn key(alloc: Global, front: &[u8], name: &[u8]) -> Result<Vec<u8>, Memory>
    ensures { IfOk result (λ key. key.items ≡ front.now ++ name.now) }
{
    let mut key = front.to_vec(alloc)?;
    key.extend_from_slice(name)?;
    Ok(key)
}

/// `LPUSH queue:queue job`, of job `k`
pub(crate) fn push(alloc: Global, k: u64, queue: &[u8]) -> Result<Words, Memory>
    ensures { IfOk result (λ words. words ≡ push_words k queue.now) }
{
    let key = key(alloc, b"queue:", queue)?;
    let job = job_text(alloc, k, queue, None)?;
    request(alloc, &[b"LPUSH", &key, job.bytes()])
}

// Adds the jobs 1 to `count`, in the queue `default`.
fn add_first(alloc: Global, count: u64, words: &mut Vec<Word>) -> Result<(), Memory>
    ensures { OnOk result (words.new.items ≡ words.old.items ++ first_jobs count) }
{
    for k in 0..count {
        words.push(job_text(alloc, k + 1, b"default", None)?)?;
    }
    Ok(())
}

/// `LPUSH queue:default job ..`, of the jobs 1 to `count`
pub(crate) fn push_first(alloc: Global, count: u64) -> Result<Words, Memory>
    ensures { IfOk result (λ words. words ≡ first_words count) }
{
    let mut words = words_of(alloc, &[b"LPUSH", b"queue:default"])?;
    add_first(alloc, count, &mut words)?;
    Ok(Words::new(words))
}

/// `SK.BPUSH bid parent "" callback "" job`: a batch of job `k`, whose callback of success is the job with the number `success`
pub(crate) fn push_batch(
    alloc: Global,
    bid: &[u8],
    parent: &[u8],
    success: u64,
    k: u64,
) -> Result<Words, Memory>
    ensures { IfOk result (λ words. words ≡ batch_words bid.now parent.now success k) }
{
    let callback = job_text(alloc, success, b"default", None)?;
    let job = job_text(alloc, k, b"default", Some(bid))?;
    let parts: [&[u8]; 7] = [
        b"SK.BPUSH",
        bid,
        parent,
        b"",
        callback.bytes(),
        b"",
        job.bytes(),
    ];
    request(alloc, &parts)
}

/// `SK.CRON w:1:a tick slot job`, with the last start of a minute and the job with the number `k`
pub(crate) fn cron(alloc: Global, now: u64, k: u64) -> Result<Words, Memory>
    ensures { IfOk result (λ words. words ≡ cron_words now k) }
{
    let slot = (now - now % 60_000).to_string(alloc)?;
    let job = job_text(alloc, k, b"default", None)?;
    let parts: [&[u8]; 5] = [b"SK.CRON", b"w:1:a", b"tick", slot.as_bytes(), job.bytes()];
    request(alloc, &parts)
}

/// `LMOVE queue:queue sq:ident RIGHT LEFT`
pub(crate) fn fetch(alloc: Global, ident: &[u8], queue: &[u8]) -> Result<Words, Memory>
    ensures { IfOk result (λ words. words ≡ fetch_words ident.now queue.now) }
{
    let from = key(alloc, b"queue:", queue)?;
    let to = key(alloc, b"sq:", ident)?;
    request(alloc, &[b"LMOVE", &from, &to, b"RIGHT", b"LEFT"])
}

/// `ZADD retry score text`
pub(crate) fn retry(alloc: Global, score: Score, text: &[u8]) -> Result<Words, Memory>
    ensures { IfOk result (λ words. words ≡ retry_words score text.now) }
{
    let mut at = Vec::new(alloc);
    score.write(alloc, &mut at)?;
    request(alloc, &[b"ZADD", b"retry", &at, text])
}

/// `LREM sq:ident 1 text`
pub(crate) fn release(alloc: Global, ident: &[u8], text: &[u8]) -> Result<Words, Memory>
    ensures { IfOk result (λ words. words ≡ release_words ident.now text.now) }
{
    let from = key(alloc, b"sq:", ident)?;
    request(alloc, &[b"LREM", &from, b"1", text])
}
