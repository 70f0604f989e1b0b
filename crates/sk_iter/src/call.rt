// A call of `iterate` that has read its cursor: it runs items, saves, and stops.
ghost use Rattle.std.specs.Prelude.{◌≡◌, ◌⊎◌, ◌≤◌, ◌<◌, ◌+◌, ◌^◌, not, IfOk};
ghost use Rattle.sk_iter.specs.Deeds.{is_saved};
ghost use Rattle.sk_iter.specs.Ends.{StopsAt};
ghost use Rattle.sk_iter.specs.Stages.{Goes, IsQuiet, RunsItem, RunsItems, Saves, pace_of};

use crate::save::save_if;
use crate::{Items, IterEnd, IterFault};
use sk_link::Link;
use sk_worker::Outcome;
use std::alloc::Global;

/// The most items between two saves of the cursor.
pub const MOST_EVERY: u32 = 1_000;

/// One more than the most items of a job, so that a number of an item is a counter of 64 bits in the store.
pub const MOST_ITEMS: u64 = 1 << 62;

/// How far a call goes, and how often it saves.
#[derive(Clone, Copy)]
pub struct Bounds {
    /// How many items there are.
    pub len: u64,
    /// The cursor is saved after so many items.
    pub every: u32,
    /// At most so many items return in the call.
    pub most: u64,
}

/// A call that has read its cursor.
#[derive(Drop)]
pub(crate) struct Call<'a> {
    pub jid: &'a str,
    pub bounds: Bounds,
    pub cursor: u64,
}

/// How many items of a call have returned, and where it stops.
#[derive(Drop)]
pub(crate) struct Stop {
    pub returned: u64,
    pub end: IterEnd,
}

impl Call<'_> {
    // Saves the next number once so many items have returned, where that is due.
    fn save_behind<L: Link>(
        &self,
        alloc: Global,
        link: &mut L,
        due: bool,
        returned: u64,
    ) -> Result<(), IterFault>
        requires { self.now.cursor + returned < 2 ^ 64 }
        ensures { Saves (L.carried link.old link.new) self.now due returned result }
    {
        save_if(alloc, link, due, self.jid, self.cursor + returned)
    }

    fn is_saved(&self, returned: u64) -> bool
        requires { 1 ≤ self.now.bounds.every }
        ensures { result ≡ is_saved self.now.bounds.every returned }
    {
        returned % self.bounds.every as u64 == 0
    }

    // The item behind `n` others returned: saves the next number where that is due.
    fn item_returned<L: Link>(
        &self,
        alloc: Global,
        link: &mut L,
        n: u64,
    ) -> Result<Outcome, IterFault>
        requires every { 1 ≤ self.now.bounds.every }
        requires small { self.now.cursor + n < 2 ^ 62 }
        ensures returned { IfOk result (λ outcome. outcome ≡ Outcome.Returned) }
        ensures saved { Saves (L.carried link.old link.new) self.now (is_saved self.now.bounds.every (n + 1)) (n + 1) result }
    {
        let due = self.is_saved(n + 1);
        match self.save_behind(alloc, link, due, n + 1) {
            Ok(()) => Ok(Outcome::Returned),
            Err(fault) => Err(fault),
        }
    }

    // Runs the item behind `n` others that returned, and saves the next number where that is due.
    fn run_item<L: Link, I: Items>(
        &self,
        alloc: Global,
        link: &mut L,
        items: &mut I,
        n: u64,
    ) -> Result<Outcome, IterFault>
        requires every { 1 ≤ self.now.bounds.every }
        requires there { self.now.cursor + n < I.count items.old }
        requires few { I.count items.old < 2 ^ 62 }
        ensures ran { RunsItem (L.carried link.old link.new) (I.told items.old) (I.told items.new) (pace_of self.now) n result }
        ensures count { I.count items.new ≡ I.count items.old }
    {
        match items.item(alloc, self.cursor + n) {
            Ok(Outcome::Returned) => self.item_returned(alloc, link, n),
            Ok(Outcome::Raised(it)) => Ok(Outcome::Raised(it)),
            Err(_) => Err(IterFault::Memory),
        }
    }

    // How the call stops where it runs no more items, so many of which have returned.
    fn end(&self, returned: u64) -> IterEnd
        requires few { self.now.cursor + returned ≤ self.now.bounds.len }
        requires most { returned ≤ self.now.bounds.most }
        requires all { (self.now.cursor + returned ≡ self.now.bounds.len) ⊎ (returned ≡ self.now.bounds.most) }
        ensures stops { StopsAt self.now.bounds self.now.cursor returned result }
        ensures quiet { IsQuiet result }
    {
        let next = self.cursor + returned;
        if next == self.bounds.len {
            IterEnd::Done
        } else {
            IterEnd::Paused(next)
        }
    }

    // Runs the items up to where the call stops.
    fn run_items<L: Link, I: Items>(
        &self,
        alloc: Global,
        link: &mut L,
        items: &mut I,
    ) -> Result<Stop, IterFault>
        requires every { 1 ≤ self.now.bounds.every }
        requires cursor { self.now.cursor ≤ self.now.bounds.len }
        requires len { I.count items.old ≡ self.now.bounds.len }
        requires few { self.now.bounds.len < 2 ^ 62 }
        ensures ran { RunsItems (L.carried link.old link.new) (I.told items.old) (I.told items.new) self.now result }
        ensures count { I.count items.new ≡ I.count items.old }
    {
        let last = self.bounds.most.min(self.bounds.len - self.cursor);
        for n in 0..last {
            match self.run_item(alloc, link, items, n) {
                Ok(Outcome::Returned) => {}
                Ok(Outcome::Raised(it)) => {
                    let end = IterEnd::Raised(self.cursor + n, it);
                    return Ok(Stop { returned: n, end });
                }
                Err(fault) => return Err(fault),
            }
        }
        let end = self.end(last);
        Ok(Stop {
            returned: last,
            end,
        })
    }

    // Saves the next number where the call stops, if it isn't saved.
    fn stop<L: Link>(&self, alloc: Global, link: &mut L, stop: Stop) -> Result<IterEnd, IterFault>
        requires every { 1 ≤ self.now.bounds.every }
        requires small { self.now.cursor + stop.returned < 2 ^ 62 }
        ensures end { IfOk result (λ end. end ≡ stop.end) }
        ensures saved { Saves (L.carried link.old link.new) self.now (not (is_saved self.now.bounds.every stop.returned)) stop.returned result }
    {
        let due = !self.is_saved(stop.returned);
        match self.save_behind(alloc, link, due, stop.returned) {
            Ok(()) => Ok(stop.end),
            Err(fault) => Err(fault),
        }
    }

    /// Runs the items, and saves the next number where the call stops, if it isn't saved.
    pub(crate) fn go<L: Link, I: Items>(
        &self,
        alloc: Global,
        link: &mut L,
        items: &mut I,
    ) -> Result<IterEnd, IterFault>
        requires every { 1 ≤ self.now.bounds.every }
        requires cursor { self.now.cursor ≤ self.now.bounds.len }
        requires len { I.count items.old ≡ self.now.bounds.len }
        requires few { self.now.bounds.len < 2 ^ 62 }
        ensures went { Goes (L.carried link.old link.new) (I.told items.old) (I.told items.new) self.now result }
        ensures count { I.count items.new ≡ I.count items.old }
    {
        match self.run_items(alloc, link, items) {
            Ok(stop) => self.stop(alloc, link, stop),
            Err(fault) => Err(fault),
        }
    }
}
