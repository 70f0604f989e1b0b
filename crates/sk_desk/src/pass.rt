// The right to seats: the numbers that weren't given yet, with a share of the hub's ledgers that has parts for their desks.
ghost use Rattle.std.specs.Prelude.{◌≡◌, ◌+◌, ◌*◌, ◌<◌, ◌^◌};
ghost use Rattle.sk_desk.specs.Counts.{nothing};
ghost use Rattle.sk_desk.specs.Pass.{HasParts, IsSplit, counts_of, joined, pass_of, seated, share_of};

use crate::{HubId, HubShare, HubTotal};
use std::marker::Model;

/// The numbers of seats that weren't given yet, and a share of the hub's ledgers. Contracts see the number that was given last, how many are
/// left behind it, the parts of the share, and what it counts: rows that were acknowledged, commands that were asked, seats that were cut.
#[derive(Drop)]
pub struct Pass<I: HubId> {
    // the number that was given last
    last: u32,
    // how many numbers are left behind it
    left: u32,
    share: HubShare<I>,
}

impl<I: HubId> Model for Pass<I> {
    ghost use Rattle.sk_desk.specs.Pass.{HasParts, PassView, pass_of};

    ghost Value = { PassView };

    ghost view = { λ p. pass_of p.last p.left p.share };

    ghost invariant = { λ p. HasParts p.last p.left p.share.parts };
}

impl<I: HubId> Pass<I> {
    // The `left` numbers behind `last`, with this share.
    pub(crate) fn new(last: u32, left: u32, share: HubShare<I>) -> Pass<I>
        requires { HasParts last left share.parts }
        ensures { result ≡ pass_of last left share }
    {
        Pass { last, left, share }
    }

    /// How many numbers are left.
    pub fn left(&self) -> u32
        ensures { result ≡ self.now.count }
    {
        self.left
    }

    /// A pass with the next `count` numbers, two parts of the share for each of them, and nothing counted. At least one number stays.
    pub fn split(&mut self, count: u32) -> Pass<I>
        requires { (0 < count) × (count < self.old.count) }
        ensures { IsSplit count self.old self.new result }
    {
        let share = self.share.split_off(2 * count as u64);
        let last = self.last;
        self.last += count;
        self.left -= count;
        Pass::new(last, count, share)
    }

    /// Adds the other's share, its parts and what it counts. The numbers that the other had left are given up.
    pub fn join(&mut self, other: Pass<I>)
        ensures { self.new ≡ joined self.old (share_of other) }
    {
        let Pass {
            last: _,
            left: _,
            share,
        } = other;
        self.put(share);
    }

    // The number that is given next.
    pub(crate) fn next_number(&self) -> u32
        requires { 0 < self.now.count }
        ensures { result ≡ self.now.given + 1 }
    {
        self.last + 1
    }

    // Gives the next number, and one part for it.
    pub(crate) fn take(&mut self) -> HubShare<I>
        requires { 0 < self.old.count }
        ensures share { result ≡ record { parts = 1; counts = nothing } }
        ensures rest { self.new ≡ seated self.old }
        ensures part { self.new.parts + 1 ≡ self.old.parts }
    {
        let share = self.share.split_off(1);
        self.last += 1;
        self.left -= 1;
        share
    }

    // Takes a share back.
    pub(crate) fn put(&mut self, share: HubShare<I>)
        ensures { self.new ≡ joined self.old share }
    {
        self.share.merge(share);
    }

    // A pass that has every part counts all.
    pub(crate) fn audit(&mut self, total: &mut HubTotal<I>)
        ensures same { (self.new ≡ self.old) × (total.new ≡ total.old) }
        ensures whole { self.old.parts ≡ 2 ^ 34 → counts_of self.old ≡ total.old }
    {
        total.audit(&mut self.share);
    }
}
