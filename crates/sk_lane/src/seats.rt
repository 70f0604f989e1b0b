// Where a thread gets its seats.
ghost use Rattle.std.specs.Prelude.{◌≡◌, ◌+◌, ◌↔◌, ℕ, List, [], ◌∷◌, Bool, true, Option, Err, IfOk, IfSome, OnErr};
ghost use Rattle.sk_lane.specs.Asks.{AddsPast};
ghost use Rattle.sk_lane.specs.declared.past_seat.PastSeat.{PastSeat};

use sk_desk::{Desk, HubFault};

/// Gives a thread its seats, one after another.
pub trait Seats {
    /// One seat of the store.
    type Desk: Desk;

    /// How many seats are left.
    ghost left: { Self → ℕ };

    /// The number of the seat that was given last, or what is below the first one.
    ghost last: { Self → ℕ };

    /// The seats that have ended, with their desks' calls, where it tells them.
    ghost past: { Self → Option (List PastSeat) };

    /// The desk that was given last has been ended.
    ghost free: { Self → Bool };

    /// The next seat, with its number, which is one above the last. Spent exactly where none is left. After a fault all is as before.
    fn next(&mut self) -> Result<(u32, Self::Desk), HubFault>
        requires { free self.old ≡ true }
        ensures number { IfOk result (λ r. (last self.new ≡ last self.old + 1) × (last self.new ≡ r.0)) }
        ensures left { IfOk result (λ r. left self.new + 1 ≡ left self.old) }
        ensures fresh { IfOk result (λ r. IfSome (Self.Desk.calls r.1) (λ calls. calls ≡ [])) }
        ensures past { past self.new ≡ past self.old }
        ensures spent { result ≡ Err HubFault.Spent ↔ left self.old ≡ 0 }
        ensures fault { OnErr result ((left self.new ≡ left self.old) × (last self.new ≡ last self.old) × (free self.new ≡ true)) };

    /// Cuts the seat of the desk that was given last. Takes no memory.
    fn end(&mut self, desk: Self::Desk)
        ensures free { free self.new ≡ true }
        ensures past { AddsPast (past self.old) (record { seat = last self.old; calls = Self.Desk.calls desk } ∷ []) (past self.new) }
        ensures left { left self.new ≡ left self.old }
        ensures last { last self.new ≡ last self.old };
}
