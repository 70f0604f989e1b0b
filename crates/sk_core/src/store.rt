// The store, in which each live job stands and each pushed row is accounted for.
ghost use Rattle.std.specs.Prelude.{◌≡◌, ◌+◌, IfOk};
ghost use Rattle.sk_model.specs.Change.{moment_after, perform};
ghost use Rattle.sk_model.specs.Outcome.{Realizes, Outcome};
ghost use Rattle.sk_model.specs.Status.{numbers};
ghost use Rattle.sk_model.specs.Step.{MayComeTo, cut};
ghost use Rattle.sk_model.specs.World.{first, phase_of};
ghost use Rattle.sk_jobs.specs.Counting.{tally_of};
ghost use Rattle.sk_seats.specs.Next.{IsNext};
ghost use Rattle.sk_core.specs.Whole.{KeepsLaws};

use crate::dispatch::step;
use sk_base::limits::LAST_MOMENT;
use sk_cmd::Command;
use sk_jobs::{numbers, tally};
use sk_model::Limits;
use sk_resp::{Memory, Reply};
use sk_seats::Phase;
use sk_status::{Numbers, Tally};
use sk_store::{Removed, Store};
use std::alloc::Global;
use std::marker::Model;

/// All that the store keeps. Contracts see it as the abstract store's world, in which each live job is kept and each pushed row is accounted for.
#[derive(Drop)]
pub struct Core {
    store: Store,
}

impl Model for Core {
    ghost use Rattle.sk_model.specs.World.{World};

    ghost Value = { World };

    ghost use Rattle.sk_store.specs.Stored.{world};

    ghost view = { λ core. world core.store };

    ghost use Rattle.sk_core.specs.Whole.{StoreInvariant};

    ghost invariant = { λ core. StoreInvariant core.store };
}

impl Core {
    /// An empty store with these limits, at moment 0. Takes no memory.
    #[tactic(auto, using(crate::proofs::Stepping::laws_first))]
    pub fn new(alloc: Global, limits: Limits) -> Core
        ensures { result ≡ first limits }
    {
        Core {
            store: Store::new(alloc, limits),
        }
    }

    /// Does a command that a seat hands in at the moment `now`, in milliseconds since 1970, as the abstract store does it, and answers its reply.
    /// The greatest moment that the store was handed counts. Where memory runs out the reply says so, and time alone has gone on. A worker's
    /// release of its job takes no memory.
    pub fn step(&mut self, seat: u32, now: u64, command: Command) -> Reply
        ensures { (o : Outcome) × MayComeTo self.old seat now command o × Realizes self.old o result self.new }
    {
        self.store.free_removed();
        step(&mut self.store, seat, now, command)
    }

    /// Hands out the rows and keys that a FLUSHALL took out in the last step, to be freed where that holds nobody up. The next step frees what wasn't
    /// handed out. None where there is nothing. Constant time, and takes no memory.
    pub fn take_removed(&mut self) -> Option<Removed>
        ensures { self.new ≡ self.old }
    {
        self.store.take_removed()
    }

    /// The seat is cut off: it is Plain from then on, and nothing else changes. Not even time goes on. Takes no memory.
    pub fn cut(&mut self, seat: u32)
        ensures { self.new ≡ perform self.old (cut seat).changes }
    {
        self.store.seats.cut(seat);
    }

    /// What holds of every store: each live job is kept, each pushed row is accounted for, and the callbacks that were pushed are no more than were
    /// fired. Does nothing.
    pub fn sound(&self)
        ensures { KeepsLaws self.now }
    {
        let _ = &self.store;
    }

    /// What the seat is doing. Logarithmic.
    pub fn phase(&self, seat: u32) -> &Phase
        ensures { result.now ≡ phase_of self.now seat }
    {
        self.store.seats.get(seat)
    }

    /// The least seat above this one that isn't Plain, or the least of all where none is given. None exactly where there is none. Logarithmic, and
    /// takes no memory.
    pub fn next_seat(&self, after: Option<u32>) -> Option<u32>
        ensures { IsNext self.now.phases after result }
    {
        self.store.seats.next(after)
    }

    /// The greatest moment that the store was handed, in milliseconds since 1970. Takes no memory.
    pub fn moment(&self) -> u64
        ensures { result ≡ self.now.moment }
    {
        self.store.moment
    }

    /// The moment at which a command acts that is handed in at the moment `now`, in milliseconds since 1970. Takes no memory.
    pub fn acts_at(&self, now: u64) -> u64
        ensures { result ≡ moment_after now self.now }
    {
        self.store.moment.max(now.min(LAST_MOMENT))
    }

    /// The numbers that the store tells of itself, those of the page of `SK.STATUS`. Looks at the queues and at the batches one after another.
    pub fn numbers(&self) -> Result<Numbers, Memory>
        ensures { IfOk result (λ n. n ≡ numbers self.now) }
    {
        numbers(&self.store)
    }

    /// The rows that were ever pushed, by how they came, and their jobs, by how they ended. It balances: each row that was pushed had no head, or
    /// its job was there already, is live, or has ended. Takes no memory.
    pub fn tally(&self) -> Tally
        ensures is { result ≡ tally_of self.now }
        ensures balanced { result.outside + result.inner ≡ result.bare + result.again + result.live + result.returned + result.discarded + result.deleted + result.trimmed + result.muddled }
    {
        tally(&self.store)
    }
}
