// How a worker gives back what it holds.
ghost use Rattle.std.specs.Prelude.{◌≡◌, ◌+◌, ◌<◌, ◌≤◌, ◌^◌, ◌∷◌, IfOk, None};
ghost use Rattle.std.specs.VecDeque.{deque_len};
ghost use Rattle.sk_payload.specs.Head.{head as head_of};
ghost use Rattle.sk_worker.specs.Leaving.{GivesBack, Leaves, buried, given_back, leaving};

use crate::say::{release_request, say, script};
use crate::turn::WorkFault;
use sk_link::{Answer, Link};
use sk_payload::Payload;
use sk_resp::{Reply, Text};
use std::alloc::Global;
use std::collections::VecDeque;

// Takes a job that was buried out of the private list. It isn't given back.
fn release<L: Link>(
    alloc: Global,
    link: &mut L,
    ident: &Text,
    job: &Payload,
) -> Result<u64, WorkFault>
    ensures told { GivesBack (λ cs. L.carried link.old link.new cs) ident.now job.now (buried job.now) result }
    ensures most { IfOk result (λ n. n ≤ 1) }
{
    let words = release_request(alloc, ident, job);
    match say(alloc, link, words, Answer::Number) {
        Ok(_) => Ok(0),
        Err(fault) => Err(fault),
    }
}

// Buries a job without a head.
fn bury<L: Link>(alloc: Global, link: &mut L, ident: &Text, job: &Payload) -> Result<u64, WorkFault>
    requires { head_of job.now ≡ None }
    ensures told { GivesBack (λ cs. L.carried link.old link.new cs) ident.now job.now (λ others count. leaving (job.now ∷ others) count) result }
    ensures most { IfOk result (λ n. n ≤ 1) }
{
    let words = script(alloc, b"SK.BURY", job);
    match say(alloc, link, words, Answer::Report) {
        Ok(_) => release(alloc, link, ident, job),
        Err(fault) => Err(fault),
    }
}

// How many jobs the reply to SK.BACK says were given back: 1 or 0.
fn count_of(reply: &Reply) -> u64
    ensures count { result ≡ given_back reply.now }
    ensures most { result ≤ 1 }
{
    match reply {
        Reply::Int(1) => 1,
        _ => 0,
    }
}

// Gives a job back to its queue.
fn give_back<L: Link>(
    alloc: Global,
    link: &mut L,
    ident: &Text,
    job: &Payload,
) -> Result<u64, WorkFault>
    ensures told { GivesBack (λ cs. L.carried link.old link.new cs) ident.now job.now (λ others count. leaving (job.now ∷ others) count) result }
    ensures most { IfOk result (λ n. n ≤ 1) }
{
    let Some(_) = job.head() else {
        return bury(alloc, link, ident, job);
    };
    let words = script(alloc, b"SK.BACK", job);
    match say(alloc, link, words, Answer::Number) {
        Ok(reply) => Ok(count_of(&reply)),
        Err(fault) => Err(fault),
    }
}

/// Gives back all jobs, the oldest first, and answers how many went back, with those before.
pub(crate) fn give_back_all<L: Link>(
    alloc: Global,
    link: &mut L,
    ident: &Text,
    held: &mut VecDeque<Payload>,
    count: u64,
) -> Result<u64, WorkFault>
    requires { count + deque_len held.old < 2 ^ 64 }
    ensures { Leaves (λ cs. L.carried link.old link.new cs) ident.now (leaving held.old.items count) held.new.items result }
{
    match held.front() {
        None => Ok(count),
        Some(job) => match give_back(alloc, link, ident, job) {
            Ok(n) => {
                held.pop_front();
                give_back_all(alloc, link, ident, held, count + n)
            }
            Err(fault) => Err(fault),
        },
    }
}
