// Seats over one store, without a lock.
ghost use Rattle.std.specs.Prelude.{◌≡◌, ◌+◌, ◌<◌, ◌↔◌, ◌^◌, [], ◌∷◌, true, is_some, Some, Err, IfOk, IfSome, OnErr};
ghost use Rattle.sk_lane.specs.Asks.{AddsPast, past_in};
ghost use Rattle.sk_lane.specs.CoreSeats.{cut_off};

use crate::{PastSeat, Seats};
use sk_core::Core;
use sk_desk::{HubFault, MemDesk};
use std::alloc::Global;
use std::marker::Model;
use std::mem;

/// The seats of a store that no other thread uses, from 1 on. Contracts see the store's world, where no desk has it, the number that was given last,
/// how many are left, and the seats that have ended with their desks' calls, where it tells them.
#[derive(Drop)]
pub struct CoreSeats {
    alloc: Global,
    core: Option<Core>,
    last: u32,
    left: u32,
    past: Vec<PastSeat>,
    // there was no memory for a seat that ended
    lost: bool,
}

impl Model for CoreSeats {
    ghost use Rattle.std.specs.Prelude.{◌+◌, ◌<◌, ◌^◌};
    ghost use Rattle.sk_lane.specs.Asks.{past_in};
    ghost use Rattle.sk_lane.specs.CoreSeats.{CoreSeatsView};

    ghost Value = { CoreSeatsView };

    ghost view = { λ s. record { world = s.core; last = s.last; left = s.left; past = past_in s.lost s.past.items } };

    ghost invariant = { λ s. s.last + s.left < 2 ^ 32 };
}

impl CoreSeats {
    /// So many seats of this store. Takes no memory.
    pub fn new(alloc: Global, core: Core, left: u32) -> CoreSeats
        ensures { result ≡ record { world = Some core; last = 0; left = left; past = Some [] } }
    {
        CoreSeats {
            alloc,
            core: Some(core),
            last: 0,
            left,
            past: Vec::new(alloc),
            lost: false,
        }
    }
}

// The store comes back. What stood there goes by a call of its own: to drop it in its place would be a proof beyond a check's memory.
fn put(place: &mut Option<Core>, core: Core)
    ensures { place.new ≡ Some core }
{
    drop(mem::replace(place, Some(core)));
}

// Keeps a seat that has ended, where none was lost before. Answers whether one is lost now.
fn keep(seats_ended: &mut Vec<PastSeat>, lost: bool, past: PastSeat) -> bool
    ensures { AddsPast (past_in lost seats_ended.old.items) (past ∷ []) (past_in result seats_ended.new.items) }
{
    if lost {
        return true;
    }
    seats_ended.push(past).is_err()
}

impl Seats for CoreSeats {
    type Desk = MemDesk;

    ghost left = { λ s. s.left };

    ghost last = { λ s. s.last };

    ghost past = { λ s. s.past };

    ghost free = { λ s. is_some s.world };

    /// Its desk has the store.
    fn next(&mut self) -> Result<(u32, MemDesk), HubFault>
        requires { is_some self.old.world ≡ true }
        ensures store { IfOk result (λ r. (self.old.world ≡ Some r.1.world) × (r.1.seat ≡ r.0)) }
        ensures number { IfOk result (λ r. (self.new.last ≡ self.old.last + 1) × (self.new.last ≡ r.0)) }
        ensures left { IfOk result (λ r. self.new.left + 1 ≡ self.old.left) }
        ensures fresh { IfOk result (λ r. IfSome r.1.calls (λ calls. calls ≡ [])) }
        ensures past { self.new.past ≡ self.old.past }
        ensures spent { result ≡ Err HubFault.Spent ↔ self.old.left ≡ 0 }
        ensures fault { OnErr result ((self.new.left ≡ self.old.left) × (self.new.last ≡ self.old.last) × (is_some self.new.world ≡ true)) }
    {
        if self.left == 0 {
            return Err(HubFault::Spent);
        }
        if self.past.reserve(1).is_err() {
            return Err(HubFault::Memory);
        }
        let Some(core) = self.core.take() else {
            return Err(HubFault::Memory);
        };
        self.last += 1;
        self.left -= 1;
        Ok((self.last, MemDesk::new(self.alloc, core, self.last)))
    }

    /// The store comes back, with the seat cut off.
    fn end(&mut self, desk: MemDesk)
        ensures cut { self.new.world ≡ Some (cut_off desk.world self.old.last) }
        ensures free { is_some self.new.world ≡ true }
        ensures past { AddsPast self.old.past (record { seat = self.old.last; calls = desk.calls } ∷ []) self.new.past }
        ensures left { self.new.left ≡ self.old.left }
        ensures last { self.new.last ≡ self.old.last }
    {
        let (mut core, calls) = desk.into_parts();
        core.cut(self.last);
        put(&mut self.core, core);
        let past = PastSeat {
            seat: self.last,
            calls,
        };
        self.lost = keep(&mut self.past, self.lost, past);
    }
}
