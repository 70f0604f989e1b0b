// The three ledgers of a hub: each counts across threads what shares of it add. They take no bytes, and do nothing at run time.
ghost use Rattle.std.specs.Prelude.{◌≡◌, ◌+◌, ◌<◌, ◌^◌};
ghost use Rattle.sk_desk.specs.Counts.{added, nothing, with_ask, with_cut};

use crate::hub_id::{AckLedger, AskLedger, CutLedger, HubId};
use std::marker::Model;
use std::sync::ledger::{Blank, Book, Share};

/// Three new ledgers of 2^34 parts each, which no hub has yet. Contracts see their names.
#[derive(Drop)]
pub struct HubBlank {
    acks: Blank,
    asks: Blank,
    cuts: Blank,
}

impl Model for HubBlank {
    ghost use Rattle.std.specs.Prelude.{◌≡◌, ◌^◌};
    ghost use Rattle.sk_desk.specs.Counts.{Names};

    ghost Value = { Names };

    ghost view = { λ b. record { acks = b.acks.name; asks = b.asks.name; cuts = b.cuts.name } };

    ghost invariant = { λ b. (b.acks.parts ≡ 2 ^ 34) × (b.asks.parts ≡ 2 ^ 34) × (b.cuts.parts ≡ 2 ^ 34) };
}

/// A share of each of a hub's ledgers, with as many parts of one as of another. Contracts see the parts, and what the share counts.
#[derive(Drop)]
pub struct HubShare<I: HubId> {
    acks: Share<AckLedger<I>>,
    asks: Share<AskLedger<I>>,
    cuts: Share<CutLedger<I>>,
}

impl<I: HubId> Model for HubShare<I> {
    ghost use Rattle.std.specs.Prelude.{◌≡◌};
    ghost use Rattle.sk_desk.specs.Counts.{ShareView};

    ghost Value = { ShareView };

    ghost view = { λ s. record { parts = s.acks.parts; counts = record { rows = s.acks.amount; asks = s.asks.amount; cuts = s.cuts.amount } } };

    ghost invariant = { λ s. (s.asks.parts ≡ s.acks.parts) × (s.cuts.parts ≡ s.acks.parts) };
}

/// What all shares of a hub's ledgers count together.
#[derive(Drop)]
pub struct HubTotal<I: HubId> {
    acks: Book<AckLedger<I>>,
    asks: Book<AskLedger<I>>,
    cuts: Book<CutLedger<I>>,
}

impl<I: HubId> Model for HubTotal<I> {
    ghost use Rattle.sk_desk.specs.Counts.{Counts};

    ghost Value = { Counts };

    ghost view = { λ t. record { rows = t.acks.total; asks = t.asks.total; cuts = t.cuts.total } };
}

impl HubBlank {
    /// New ledgers.
    pub fn new() -> HubBlank {
        HubBlank {
            acks: Blank::new(1 << 34),
            asks: Blank::new(1 << 34),
            cuts: Blank::new(1 << 34),
        }
    }

    // They are the ledgers of a hub, with one share that has every part.
    pub(crate) fn open<I: HubId>(self) -> (HubTotal<I>, HubShare<I>)
        requires { self ≡ record { acks = I.acks; asks = I.asks; cuts = I.cuts } }
        ensures total { result.0 ≡ nothing }
        ensures share { result.1 ≡ record { parts = 2 ^ 34; counts = nothing } }
    {
        let HubBlank { acks, asks, cuts } = self;
        let (all_acks, acks) = acks.open::<AckLedger<I>>();
        let (all_asks, asks) = asks.open::<AskLedger<I>>();
        let (all_cuts, cuts) = cuts.open::<CutLedger<I>>();
        let total = HubTotal {
            acks: all_acks,
            asks: all_asks,
            cuts: all_cuts,
        };
        (total, HubShare { acks, asks, cuts })
    }
}

impl<I: HubId> HubShare<I> {
    // A share with so many of the parts, which counts nothing.
    pub(crate) fn split_off(&mut self, parts: u64) -> HubShare<I>
        requires { (0 < parts) × (parts < self.old.parts) }
        ensures share { result ≡ record { parts = parts; counts = nothing } }
        ensures parts { self.new.parts + parts ≡ self.old.parts }
        ensures counts { self.new.counts ≡ self.old.counts }
    {
        HubShare {
            acks: self.acks.split_off(parts, 0),
            asks: self.asks.split_off(parts, 0),
            cuts: self.cuts.split_off(parts, 0),
        }
    }

    // Adds the other share's parts, and what it counts.
    pub(crate) fn merge(&mut self, other: HubShare<I>)
        ensures { self.new ≡ added self.old other }
    {
        let HubShare { acks, asks, cuts } = other;
        self.acks.merge(acks);
        self.asks.merge(asks);
        self.cuts.merge(cuts);
    }
}

impl<I: HubId> HubTotal<I> {
    // Counts a command, whose reply acknowledged so many rows.
    pub(crate) fn add(&mut self, share: &mut HubShare<I>, rows: u64)
        requires { 0 < share.old.parts }
        ensures total { self.new ≡ with_ask rows self.old }
        ensures share { share.new ≡ record share.old { counts = with_ask rows share.old.counts } }
    {
        self.acks.add(&mut share.acks, rows);
        self.asks.add(&mut share.asks, 1);
    }

    // Counts a seat that was cut.
    pub(crate) fn cut(&mut self, share: &mut HubShare<I>)
        requires { 0 < share.old.parts }
        ensures total { self.new ≡ with_cut self.old }
        ensures share { share.new ≡ record share.old { counts = with_cut share.old.counts } }
    {
        self.cuts.add(&mut share.cuts, 1);
    }

    // A share that has every part counts all.
    pub(crate) fn audit(&mut self, share: &mut HubShare<I>)
        ensures same { (self.new ≡ self.old) × (share.new ≡ share.old) }
        ensures whole { share.old.parts ≡ 2 ^ 34 → share.old.counts ≡ self.old }
    {
        self.acks.audit(&mut share.acks);
        self.asks.audit(&mut share.asks);
        self.cuts.audit(&mut share.cuts);
    }
}
