// The loops that a turn has still to look at.
ghost use Rattle.std.specs.Prelude.{◌≡◌, true};
ghost use Rattle.std.specs.List.{list_all};
ghost use Rattle.sk_poller.specs.Loop.{is_loop};

use crate::Loop;
use std::marker::Model;

/// The loop at hand, and those behind it.
#[derive(Drop)]
pub(crate) struct RemainingLoops<'a> {
    first: &'a Loop,
    rest: &'a [Loop],
}

impl<'a> Model for RemainingLoops<'a> {
    ghost use Rattle.std.specs.Prelude.{◌≡◌, true};
    ghost use Rattle.std.specs.List.{list_all};
    ghost use Rattle.sk_poller.specs.Loop.{Remaining, is_loop};

    ghost Value = { Remaining };

    ghost view = { λ r. record { first = r.first.now; rest = r.rest.now } };

    ghost invariant = { λ r. (is_loop r.first.now ≡ true) × (list_all is_loop r.rest.now ≡ true) };
}

impl<'a> RemainingLoops<'a> {
    pub fn new(first: &'a Loop, rest: &'a [Loop]) -> RemainingLoops<'a>
        requires first { is_loop first.now ≡ true }
        requires rest { list_all is_loop rest.now ≡ true }
        ensures { result ≡ record { first = first.now; rest = rest.now } }
    {
        RemainingLoops { first, rest }
    }

    /// The loop at hand.
    pub fn first(&self) -> &Loop
        ensures first { result.now ≡ self.now.first }
        ensures named { is_loop result.now ≡ true }
    {
        self.first
    }

    /// The loops behind the one at hand.
    pub fn rest(self) -> &'a [Loop]
        ensures rest { result.now ≡ self.entry.rest }
        ensures named { list_all is_loop result.now ≡ true }
    {
        self.rest
    }
}
