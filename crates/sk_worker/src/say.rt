// The requests of a worker, and how it asks them.
ghost use Rattle.std.specs.Prelude.{◌≡◌, ◌++◌, List, IfOk, OnOk, map};
ghost use Rattle.sk_resp.specs.Spelling.{Bytes};
ghost use Rattle.sk_worker.specs.Request.{fetch_words, join_words, release_words, retry_words, script_words};
ghost use Rattle.sk_worker.specs.Saying.{Says};

use crate::Memory;
use crate::turn::WorkFault;
use sk_base::Score;
use sk_link::{Answer, AskFault, Link, ask, words_of};
use sk_payload::Payload;
use sk_resp::{Reply, Text, Words};
use std::alloc::Global;

// The words with these bytes, as a request.
fn request(alloc: Global, parts: &[&[u8]]) -> Result<Words, Memory>
    ensures { IfOk result (λ words. words ≡ map (λ part. part.now) parts.now) }
{
    Ok(Words::new(words_of(alloc, parts)?))
}

fn key(alloc: Global, front: &[u8], name: &Text) -> Result<Vec<u8>, Memory>
    ensures { IfOk result (λ key. key.items ≡ front.now ++ name.now) }
{
    let mut key = front.to_vec(alloc)?;
    key.extend_from_slice(name.text().as_bytes())?;
    Ok(key)
}

/// `name payload`, as `SK.START payload`.
pub(crate) fn script(alloc: Global, name: &[u8], payload: &Payload) -> Result<Words, Memory>
    ensures { IfOk result (λ words. words ≡ script_words name.now payload.now) }
{
    request(alloc, &[name, payload.text().bytes()])
}

/// `SK.JOIN ident`
pub(crate) fn join_request(alloc: Global, ident: &Text) -> Result<Words, Memory>
    ensures { IfOk result (λ words. words ≡ join_words ident.now) }
{
    request(alloc, &[b"SK.JOIN", ident.text().as_bytes()])
}

/// `LMOVE queue:queue sq:ident RIGHT LEFT`
pub(crate) fn fetch_request(alloc: Global, ident: &Text, queue: &Text) -> Result<Words, Memory>
    ensures { IfOk result (λ words. words ≡ fetch_words ident.now queue.now) }
{
    let from = key(alloc, b"queue:", queue)?;
    let to = key(alloc, b"sq:", ident)?;
    request(alloc, &[b"LMOVE", &from, &to, b"RIGHT", b"LEFT"])
}

/// `LREM sq:ident 1 payload`
pub(crate) fn release_request(
    alloc: Global,
    ident: &Text,
    payload: &Payload,
) -> Result<Words, Memory>
    ensures { IfOk result (λ words. words ≡ release_words ident.now payload.now) }
{
    let from = key(alloc, b"sq:", ident)?;
    request(alloc, &[b"LREM", &from, b"1", payload.text().bytes()])
}

/// `ZADD retry score payload`
pub(crate) fn retry_request(alloc: Global, score: Score, payload: &Payload) -> Result<Words, Memory>
    ensures { IfOk result (λ words. words ≡ retry_words score payload.now) }
{
    let mut text = Vec::new(alloc);
    score.write(alloc, &mut text)?;
    request(alloc, &[b"ZADD", b"retry", &text, payload.text().bytes()])
}

/// Asks the request, where there was memory for its words, and answers the reply where it is of the kind wanted.
pub(crate) fn say<L: Link>(
    alloc: Global,
    link: &mut L,
    words: Result<Words, Memory>,
    wanted: Answer,
) -> Result<Reply, WorkFault>
    ensures { (request : List Bytes) → IfOk words (λ words. words ≡ request)
        → Says (λ calls. L.carried link.old link.new calls) request wanted result }
{
    let Ok(words) = words else {
        return Err(WorkFault::Memory);
    };
    match ask(alloc, link, &words, wanted) {
        Ok(reply) => Ok(reply),
        Err(AskFault::Refused(reply)) => Err(WorkFault::Refused(reply)),
        Err(AskFault::Link(fault)) => Err(WorkFault::Link(fault)),
    }
}
