// Pushes of many jobs to one queue. All texts are built first, and then they are sent slice by slice, each slice as one request.
ghost use Rattle.std.specs.Prelude.{◌≡◌, ◌<◌, ◌≤◌, ℕ, IfOk, IfErr, OnOk, All, length, take, drop, false, true};
ghost use Rattle.sk_client.specs.Drafts.{AreBuilt, texts as texts_of};
ghost use Rattle.sk_client.specs.Push.{Accepted, Fails};
ghost use Rattle.sk_client.specs.Making.{IsOfNoDraft, lpush_slice};
ghost use Rattle.sk_client.specs.Requests.{lpush_words};
ghost use Rattle.sk_client.specs.Bulk.{NameOneQueue, IsSlice, StopsAt, PushesFirst, PushesAll, FailsAt};
ghost use Rattle.sk_base.specs.declared.limits.TheConstants.{LONGEST_JOB, LONGEST_NAME, MOST_SLICE};

use crate::send::send;
use crate::words::{add_drafts, queue_key};
use crate::{ClientFault, Memory};
use sk_base::limits::LONGEST_COMMAND;
use sk_link::{Answer, Link, words_of};
use sk_payload::JobDraft;
use sk_resp::{Word, Words};
use std::alloc::Global;

/// Why not all jobs were pushed.
#[derive(Drop)]
pub struct BulkFault {
    /// How many were pushed, in slices that the store accepted: the first ones of the list.
    pub sent: u64,
    /// Why no more were. After a fault of the link the store may have taken the next slice all the same.
    pub fault: ClientFault,
}

// How many of the texts the next slice holds.
fn slice_len(queue: &str, texts: &[Word], most: usize) -> usize
    requires some { 0 < length texts.now }
    requires most { 0 < most }
    requires name { length queue.now ≤ LONGEST_NAME }
    requires short { All (λ text. length text ≤ LONGEST_JOB) texts.now }
    ensures within { result ≤ length texts.now }
    ensures slice { IsSlice queue.now most texts.now (take result texts.now) (drop result texts.now) }
{
    let end = most.min(texts.len());
    let mut room = LONGEST_COMMAND - b"LPUSH".len() - b"queue:".len() - queue.len();
    for (n, text) in texts[..end].iter().enumerate() {
        let size = text.bytes().len();
        if size > room {
            return n;
        }
        room -= size;
    }
    end
}

// `LPUSH queue:q text ..`
fn slice_words(alloc: Global, queue: &str, texts: &[Word]) -> Result<Words, Memory>
    ensures { IfOk result (λ words. words ≡ lpush_words queue.now texts.now) }
{
    let key = queue_key(alloc, queue)?;
    let mut words = words_of(alloc, &[b"LPUSH", &key])?;
    for text in texts {
        words.push(text.copy()?)?;
    }
    Ok(Words::new(words))
}

// Pushes one slice.
fn push_slice<L: Link>(
    alloc: Global,
    link: &mut L,
    queue: &str,
    texts: &[Word],
) -> Result<(), ClientFault>
    ensures ok { OnOk result (Accepted (L.carried link.old link.new) (lpush_slice queue.now texts.now)) }
    ensures err { IfErr result (Fails (L.carried link.old link.new) (lpush_slice queue.now texts.now)) }
    ensures drafts { IfErr result IsOfNoDraft }
{
    let words = slice_words(alloc, queue, texts)?;
    send(alloc, link, &words, Answer::Number)
}

// Pushes texts that are built.
fn push_slices<L: Link>(
    alloc: Global,
    link: &mut L,
    queue: &str,
    texts: &[Word],
    most: usize,
) -> Result<(), BulkFault>
    requires most { 0 < most }
    requires name { length queue.now ≤ LONGEST_NAME }
    requires short { All (λ text. length text ≤ LONGEST_JOB) texts.now }
    ensures ok { IfOk result (λ _. PushesFirst (L.carried link.old link.new) queue.now most texts.now (length texts.now)) }
    ensures err { IfErr result (λ e. StopsAt (L.carried link.old link.new) queue.now most texts.now e.sent e.fault) }
{
    let mut sent = 0;
    while sent < texts.len() {
        let left = &texts[sent..];
        let slice = &left[..slice_len(queue, left, most)];
        if let Err(fault) = push_slice(alloc, link, queue, slice) {
            let sent = sent as u64;
            return Err(BulkFault { sent, fault });
        }
        sent += slice.len();
    }
    Ok(())
}

/// Pushes the jobs to the one queue that they name (`LPUSH`; Sidekiq's wiki, "Bulk Queueing"), and answers how many they are. At most `slice`
/// of them, from 1 to 1,000 (Sidekiq's own number), go in a request, and its words have at most 16 MiB together: a slice ends early where the
/// next text would bring them above that. All texts are built before the first request is sent. For no jobs nothing is sent.
pub fn push_bulk<L: Link>(
    alloc: Global,
    link: &mut L,
    drafts: &[JobDraft],
    slice: usize,
) -> Result<u64, BulkFault>
    requires queue { NameOneQueue drafts.now }
    requires some { 1 ≤ slice }
    requires few { slice ≤ MOST_SLICE }
    ensures ok { IfOk result (PushesAll (L.carried link.old link.new) drafts.now slice) }
    ensures err { IfErr result (λ e. FailsAt (L.carried link.old link.new) drafts.now slice e.sent e.fault) }
{
    let mut texts = Vec::new(alloc);
    if let Err(fault) = add_drafts(alloc, drafts, &mut texts) {
        return Err(BulkFault { sent: 0, fault });
    }
    let Some(first) = drafts.first() else {
        return Ok(0);
    };
    push_slices(alloc, link, first.queue.text(), &texts, slice)?;
    Ok(drafts.len() as u64)
}
