// A save of the cursor.
ghost use Rattle.std.specs.Prelude.{◌≡◌, ◌∷◌, [], ℕ};
ghost use Rattle.sk_resp.specs.Spelling.{Bytes};
ghost use Rattle.sk_iter.specs.Deeds.{save_if as save_due, saves};
ghost use Rattle.sk_iter.specs.Performs.{Sends};
ghost use Rattle.sk_iter.specs.Request.{set_words};

use crate::IterFault;
use crate::iter_end::fault_of;
use crate::request::set_request;
use sk_link::{Answer, Link, ask};
use sk_resp::Words;
use std::alloc::Global;

// Sends a save.
fn send<L: Link>(alloc: Global, link: &mut L, words: &Words) -> Result<(), IterFault>
    ensures { (jid : Bytes) (next : ℕ) → words.now ≡ set_words jid next → Sends (L.carried link.old link.new) jid (saves jid next ∷ []) result }
{
    match ask(alloc, link, words, Answer::Okay) {
        Ok(_) => Ok(()),
        Err(fault) => Err(fault_of(fault)),
    }
}

// Saves the number of the next item by `SET it:jid next`.
fn save<L: Link>(alloc: Global, link: &mut L, jid: &str, next: u64) -> Result<(), IterFault>
    ensures { Sends (L.carried link.old link.new) jid.now (saves jid.now next ∷ []) result }
{
    match set_request(alloc, jid, next) {
        Ok(words) => send(alloc, link, &words),
        Err(_) => Err(IterFault::Memory),
    }
}

/// Saves the number of the next item by `SET it:jid next`, where that is due.
pub(crate) fn save_if<L: Link>(
    alloc: Global,
    link: &mut L,
    due: bool,
    jid: &str,
    next: u64,
) -> Result<(), IterFault>
    ensures { Sends (L.carried link.old link.new) jid.now (save_due due jid.now next) result }
{
    if due {
        return save(alloc, link, jid, next);
    }
    Ok(())
}
