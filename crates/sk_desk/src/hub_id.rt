// What names a hub: the ledgers of what it counts, and the world that its store begins at.
ghost use Rattle.std.specs.Prelude.{ℕ, ◌^◌};
ghost use Rattle.sk_model.specs.World.{World, first};

use std::marker::{Brand, PhantomData};
use std::sync::ledger::Ledger;

/// Names a hub, for contracts alone: three ledgers, and the world that its store begins at. A function over an id is called with `Brand` for it.
pub trait HubId {
    /// The ledger of the rows that replies acknowledged.
    ghost acks: { ℕ };

    /// The ledger of the commands that were asked.
    ghost asks: { ℕ };

    /// The ledger of the seats that were cut.
    ghost cuts: { ℕ };

    /// What the hub's store is at first.
    ghost start: { World };
}

impl HubId for Brand {
    ghost acks = { 0 };

    ghost asks = { 0 };

    ghost cuts = { 0 };

    ghost start = { first (record { rows = 0; bytes = 0; batches = 0 }) };
}

/// Names the ledger of the rows that a hub's replies acknowledged.
pub struct AckLedger<I: HubId> {
    hub: PhantomData<I>,
}

impl<I: HubId> Ledger for AckLedger<I> {
    ghost name = { I.acks };

    ghost parts = { 2 ^ 34 };
}

/// Names the ledger of the commands that a hub's desks asked.
pub struct AskLedger<I: HubId> {
    hub: PhantomData<I>,
}

impl<I: HubId> Ledger for AskLedger<I> {
    ghost name = { I.asks };

    ghost parts = { 2 ^ 34 };
}

/// Names the ledger of the seats of a hub that were cut.
pub struct CutLedger<I: HubId> {
    hub: PhantomData<I>,
}

impl<I: HubId> Ledger for CutLedger<I> {
    ghost name = { I.cuts };

    ghost parts = { 2 ^ 34 };
}
