// How much a store has logged.
ghost use Rattle.std.specs.Prelude.{◌≡◌};
ghost use Rattle.sk_desk.specs.Writing.{WroteSome};
ghost use Rattle.sk_durable.specs.Writes.{SpellsBody};

use sk_commit::{LogId, Prefix};
use sk_desk::HubId;
use std::marker::{Model, PhantomData};

/// All that a store had logged when it was asked, and the number under which it was. Only the store's own backlog gives one
/// ([`HubBacklog::mark`](crate::HubBacklog::mark)). Contracts see both.
#[derive(Drop)]
pub struct Mark<I: HubId, J: LogId> {
    prefix: Prefix<J>,
    number: u64,
    of: PhantomData<I>,
}

impl<I: HubId, J: LogId> Model for Mark<I, J> {
    ghost use Rattle.std.specs.Prelude.{◌≡◌};
    ghost use Rattle.sk_desk.specs.Writing.{WroteSome};
    ghost use Rattle.sk_durable.specs.Writes.{Marked, SpellsBody};

    ghost Value = { Marked };

    ghost view = { λ m. record { history = m.prefix; number = m.number } };

    ghost invariant = { λ m. WroteSome SpellsBody I.start (λ bodies. m.prefix ≡ bodies) };
}

impl<I: HubId, J: LogId> Mark<I, J> {
    /// What the store told under this number.
    pub(super) fn new(prefix: Prefix<J>, number: u64) -> Mark<I, J>
        requires { WroteSome SpellsBody I.start (λ bodies. prefix ≡ bodies) }
        ensures { result ≡ record { history = prefix; number = number } }
    {
        Mark {
            prefix,
            number,
            of: PhantomData,
        }
    }

    /// What was logged. It is what a log keeps of a run from the start.
    pub fn prefix(&self) -> &Prefix<J>
        ensures is { result.now ≡ self.now.history }
        ensures wrote { WroteSome SpellsBody I.start (λ bodies. self.now.history ≡ bodies) }
    {
        &self.prefix
    }
}
