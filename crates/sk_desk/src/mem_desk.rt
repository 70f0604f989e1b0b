// One seat over a store of its own, for tests: it keeps its calls. Where there is no memory for one it tells them no more.
ghost use Rattle.std.specs.Prelude.{◌≡◌, ◌++◌, [], ◌∷◌, true, Ok, Some, IfSome, OnOk, OnErr};
ghost use Rattle.sk_cmd.specs.Table.{IsRead};
ghost use Rattle.sk_model.specs.Acked.{Acknowledges};
ghost use Rattle.sk_model.specs.Outcome.{Realizes, Outcome};
ghost use Rattle.sk_model.specs.Step.{MayComeTo};
ghost use Rattle.sk_desk.specs.Calls.{AddsCall, call_of};

use crate::full_book::text_of;
use crate::{Call, Desk};
use sk_cmd::Command;
use sk_core::Core;
use sk_resp::{Memory, Reply, Words};
use std::alloc::Global;
use std::collections::LinkedList;
use std::marker::Model;

/// A seat over a store that no other seat uses. Contracts see the store's world, the number of the seat, the rows that its replies acknowledged, and
/// its calls, where it tells them.
#[derive(Drop)]
pub struct MemDesk {
    alloc: Global,
    core: Core,
    seat: u32,
    // how many rows clients had pushed before the first call
    before: u64,
    calls: LinkedList<Call>,
    // there was no memory for a call
    lost: bool,
}

impl Model for MemDesk {
    ghost use Rattle.std.specs.Prelude.{◌≤◌, ◌-◌};
    ghost use Rattle.sk_desk.specs.Calls.{MemDeskView, calls_in};

    ghost Value = { MemDeskView };

    ghost view = { λ d. record { world = d.core; seat = d.seat; acked = d.core.tally.outside - d.before; calls = calls_in d.lost d.calls } };

    ghost invariant = { λ d. d.before ≤ d.core.tally.outside };
}

// Keeps a call, where there is memory.
fn keep(
    alloc: Global,
    calls: &mut LinkedList<Call>,
    words: &Words,
    now: u64,
    reply: &Reply,
) -> Result<(), Memory>
    ensures ok { OnOk result (calls.new ≡ calls.old ++ call_of words.now now reply.now ∷ []) }
    ensures err { OnErr result (calls.new ≡ calls.old) }
{
    let request = words.copy()?;
    let Some(reply) = text_of(alloc, reply) else {
        return Err(Memory);
    };
    calls.push_back(Call {
        now,
        request,
        reply,
    })?;
    Ok(())
}

impl MemDesk {
    /// The seat of this number, over the store. Takes no memory.
    pub fn new(alloc: Global, core: Core, seat: u32) -> MemDesk
        ensures { result ≡ record { world = core; seat = seat; acked = 0; calls = Some [] } }
    {
        let before = core.tally().outside;
        MemDesk {
            alloc,
            core,
            seat,
            before,
            calls: LinkedList::new(alloc),
            lost: false,
        }
    }

    /// The calls, in order, where there was memory for each. Takes no memory.
    pub fn calls(&self) -> &LinkedList<Call>
        ensures { IfSome self.now.calls (λ calls. result.now ≡ calls) }
    {
        &self.calls
    }

    /// The store.
    pub fn core(&self) -> &Core
        ensures { result.now ≡ self.now.world }
    {
        &self.core
    }

    /// The store. Takes no memory.
    pub fn into_core(self) -> Core
        ensures { result ≡ self.world }
    {
        self.core
    }

    /// The store, and the calls in order, where there was memory for each. Takes no memory.
    pub fn into_parts(self) -> (Core, Option<LinkedList<Call>>)
        ensures core { result.0 ≡ self.world }
        ensures calls { result.1 ≡ self.calls }
    {
        let MemDesk {
            alloc: _,
            core,
            seat: _,
            before: _,
            calls,
            lost,
        } = self;
        if lost {
            return (core, None);
        }
        (core, Some(calls))
    }
}

impl Desk for MemDesk {
    ghost wants_words = { true };

    ghost acked = { λ d. d.acked };

    ghost calls = { λ d. d.calls };

    fn wants_words(&self) -> bool {
        true
    }

    /// It is a step of the store.
    fn call(&mut self, words: &Words, command: Command, now: u64) -> Reply
        ensures acked { Acknowledges command result self.old.acked self.new.acked }
        ensures told { AddsCall self.old.calls (call_of words.now now result) self.new.calls }
        ensures steps { (o : Outcome) × MayComeTo self.old.world self.old.seat now command o × Realizes self.old.world o result self.new.world }
        ensures seat { self.new.seat ≡ self.old.seat }
    {
        let reply = self.core.step(self.seat, now, command);
        if keep(self.alloc, &mut self.calls, words, now, &reply).is_err() {
            self.lost = true;
        }
        reply
    }

    ghost untold = { λ desk none. absurd (cc none) };
}
