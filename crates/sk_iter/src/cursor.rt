// The cursor of a job, as the store has it.
ghost use Rattle.std.specs.Prelude.{◌≡◌, ◌≤◌, ◌<◌, ◌^◌, ℕ, pos, MatchOption};
ghost use Rattle.std.specs.Fmt.{decimal};
ghost use Rattle.sk_resp.specs.Spelling.{Bytes};
ghost use Rattle.sk_iter.specs.Cursor.{MatchCursor};
ghost use Rattle.sk_iter.specs.Reads.{Reads, TellsCursor};
ghost use Rattle.sk_iter.specs.Request.{get_words};

use crate::IterFault;
use crate::iter_end::fault_of;
use crate::request::get_request;
use sk_link::{Answer, Link, ask};
use sk_resp::{Reply, Words, read_int};
use std::alloc::Global;

// The integer as a number from 0 to `len`.
fn index_of(n: i64, len: u64) -> Option<u64>
    requires { len < 2 ^ 62 }
    ensures { MatchOption result ((k : ℕ) → k ≤ len → n ≡ pos k → ⊥) (λ k. (k ≤ len) × (n ≡ pos k)) }
{
    if n < 0 || n > len as i64 {
        return None;
    }
    Some(n as u64)
}

// The number from 0 to `len` whose one spelling the text is.
fn number_in(text: &[u8], len: u64) -> Option<u64>
    requires { len < 2 ^ 62 }
    ensures { MatchOption result ((n : ℕ) → n ≤ len → text.now ≡ decimal n → ⊥) (λ n. (n ≤ len) × (text.now ≡ decimal n)) }
{
    match read_int(text) {
        Some(n) => index_of(n, len),
        None => None,
    }
}

// The cursor that an answer to GET is: 0 where it is null.
fn cursor_in(reply: &Reply, len: u64) -> Option<u64>
    requires { len < 2 ^ 62 }
    ensures { MatchCursor len reply.now result }
{
    match reply {
        Reply::Null => Some(0),
        Reply::Bulk(text) => number_in(text.bytes(), len),
        _ => None,
    }
}

fn cursor_of(reply: Reply, len: u64) -> Result<u64, IterFault>
    requires { len < 2 ^ 62 }
    ensures { TellsCursor len reply result }
{
    match cursor_in(&reply, len) {
        Some(cursor) => Ok(cursor),
        None => Err(IterFault::Cursor(reply)),
    }
}

// Sends the read of a cursor.
fn send<L: Link>(alloc: Global, link: &mut L, words: &Words, len: u64) -> Result<u64, IterFault>
    requires { len < 2 ^ 62 }
    ensures { (jid : Bytes) → words.now ≡ get_words jid → Reads (L.carried link.old link.new) jid len result }
{
    match ask(alloc, link, words, Answer::Popped) {
        Ok(reply) => cursor_of(reply, len),
        Err(fault) => Err(fault_of(fault)),
    }
}

/// Reads the cursor of the job by `GET it:jid`.
pub(crate) fn read_cursor<L: Link>(
    alloc: Global,
    link: &mut L,
    jid: &str,
    len: u64,
) -> Result<u64, IterFault>
    requires { len < 2 ^ 62 }
    ensures { Reads (L.carried link.old link.new) jid.now len result }
{
    match get_request(alloc, jid) {
        Ok(words) => send(alloc, link, &words, len),
        Err(_) => Err(IterFault::Memory),
    }
}
