// What carries requests to a store, one after another, and brings the reply to each. It tells its calls as a relation between two of its states, so
// that a link over a connection, which keeps no list of them, tells them too.
ghost use Rattle.std.specs.Prelude.{◌≡◌, ◌++◌, List, [], ◌∷◌, Bool, true, Err};
ghost use Rattle.sk_link.specs.Call.{Call};

use crate::Memory;
use sk_resp::{Reply, Word, Words};
use std::alloc::{AllocFailed, Global};

/// Why a call on a link has no reply. The link has ended then.
#[derive(Drop)]
pub enum LinkFault {
    /// The connection failed.
    Failed,
    /// The bytes behind the last whole reply can't go on as a reply, or the input ends before one is whole. It keeps the first 64 of those that were
    /// read by then; nothing is waited for behind them.
    Unreadable(Word),
    /// An earlier call on this link had a fault.
    Ended,
    /// There was no memory. Nothing says when it comes.
    Memory,
}

impl From<Memory> for LinkFault {
    ghost use Rattle.std.specs.Prelude.{◌≡◌};
    ghost use Rattle.sk_link.specs.declared.link.LinkFault.TheVariants.{Memory};

    ghost from_gives = { λ _ e. e ≡ Memory };

    fn from(_: Memory) -> Self {
        LinkFault::Memory
    }
}

impl<T: Drop> From<AllocFailed<T>> for LinkFault {
    ghost use Rattle.std.specs.Prelude.{◌≡◌};
    ghost use Rattle.sk_link.specs.declared.link.LinkFault.TheVariants.{Memory};

    ghost from_gives = { λ _ e. e ≡ Memory };

    fn from(_: AllocFailed<T>) -> Self {
        LinkFault::Memory
    }
}

/// Carries requests to a store, one after another, and brings the reply to each. After a call that had a fault it has ended.
pub trait Link {
    ghost use Rattle.std.specs.Prelude.{◌||◌};
    ghost use Rattle.sk_link.specs.Call.{has_lost};

    /// Between these two states it carried these calls, in order, as far as it tells them, and each fault among them had its cause.
    ghost carried: { Self → Self → List Call → Type 0 };

    /// An earlier call had a fault.
    ghost has_ended: { Self → Bool };

    /// Sends the request and waits for its reply.
    fn call(&mut self, alloc: Global, words: &Words) -> Result<Reply, LinkFault>
        ensures carried { carried self.old self.new (record { request = words.now; reply = result } ∷ []) }
        ensures ended { has_ended self.old ≡ true → result ≡ Err LinkFault.Ended };

    ghost carried_none: { (a : Self) → carried a a [] };

    ghost carried_more: { (a b c : Self) (xs ys : List Call) → carried a b xs → carried b c ys → carried a c (xs ++ ys) };

    /// It has ended exactly where a call was lost.
    ghost carried_ends: { (a b : Self) (calls : List Call) → carried a b calls → has_ended b ≡ (has_ended a || has_lost calls) };
}
