// One seat at the shared store.
ghost use Rattle.std.specs.Prelude.{◌≡◌, true, None, Ok, refl};
ghost use Rattle.sk_cmd.specs.Table.{IsRead};
ghost use Rattle.sk_model.specs.Acked.{Acknowledges};
ghost use Rattle.sk_desk.specs.Calls.{AddsCall, call_of};
ghost use Rattle.sk_desk.specs.Counts.{CountsAsk};
ghost use Rattle.sk_desk.specs.Pass.{joined, share_left};

use crate::{Book, Desk, Hub, HubId, HubShare, Pass, State};
use sk_cmd::Command;
use sk_resp::{Reply, Words};
use std::marker::Model;
use std::sync::{MutexGuard, Wait};

/// A seat at a hub. Contracts see its number, and the rows and the commands that its share counts, which has one part.
#[derive(Drop)]
pub struct LockedDesk<'a, R: Wait, I: HubId, B: Book> {
    rt: &'a R,
    hub: &'a Hub<I, B>,
    seat: u32,
    share: HubShare<I>,
    place: B::Place,
}

impl<'a, R: Wait, I: HubId, B: Book> Model for LockedDesk<'a, R, I, B> {
    ghost use Rattle.std.specs.Prelude.{◌≡◌};
    ghost use Rattle.sk_desk.specs.Pass.{DeskView};

    ghost Value = { DeskView };

    ghost view = { λ d. record { seat = d.seat; amount = d.share.counts.rows; asks = d.share.counts.asks } };

    ghost invariant = { λ d. (d.share.parts ≡ 1) × (d.share.counts.cuts ≡ 0) × B.is_for d.place d.seat };
}

impl<'a, R: Wait, I: HubId, B: Book> LockedDesk<'a, R, I, B> {
    // The desk of this seat, with its place in the book.
    pub(crate) fn new(
        rt: &'a R,
        hub: &'a Hub<I, B>,
        seat: u32,
        share: HubShare<I>,
        place: B::Place,
    ) -> LockedDesk<'a, R, I, B>
        requires part { (share.parts ≡ 1) × (share.counts.cuts ≡ 0) }
        requires place { B.is_for place seat }
        ensures { result ≡ record { seat = seat; amount = share.counts.rows; asks = share.counts.asks } }
    {
        LockedDesk {
            rt,
            hub,
            seat,
            share,
            place,
        }
    }

    /// The number of the desk's seat.
    pub fn number(&self) -> u32
        ensures { result ≡ self.now.seat }
    {
        self.seat
    }

    // The lock, which is got now.
    pub(crate) fn lock(&self) -> MutexGuard<'a, State<I, B>> {
        let hub = self.hub;
        hub.lock(self.rt)
    }

    // One command of the seat, for which the lock was got.
    pub(crate) fn ask(
        &mut self,
        state: &mut State<I, B>,
        words: &Words,
        command: Command,
        now: u64,
    ) -> Reply
        requires { B.wants_words ≡ true → IsRead words.now (Ok command) }
        ensures acked { Acknowledges command result self.old.amount self.new.amount }
        ensures asked { CountsAsk result self.old.asks self.new.asks }
        ensures seat { self.new.seat ≡ self.old.seat }
    {
        state.ask(&mut self.share, self.seat, now, words, command)
    }

    /// Cuts the seat off, and adds the desk's share to the pass: one part, what the desk's replies acknowledged, its commands, and its cut. Takes no
    /// memory.
    pub fn end(self, pass: &mut Pass<I>)
        ensures { pass.new ≡ joined pass.old (share_left self.entry) }
    {
        let LockedDesk {
            rt,
            hub,
            seat,
            mut share,
            place,
        } = self;
        hub.quit(rt, &mut share, seat, place);
        pass.put(share);
    }
}

impl<'a, R: Wait, I: HubId, B: Book> Desk for LockedDesk<'a, R, I, B> {
    ghost wants_words = { B.wants_words };

    ghost acked = { λ d. d.amount };

    ghost calls = { λ d. None };

    fn wants_words(&self) -> bool {
        B::wants_words()
    }

    /// It counts as one command, unless the journal found no memory for it.
    fn call(&mut self, words: &Words, command: Command, now: u64) -> Reply
        requires { B.wants_words ≡ true → IsRead words.now (Ok command) }
        ensures acked { Acknowledges command result self.old.amount self.new.amount }
        ensures told { AddsCall None (call_of words.now now result) None }
        ensures asked { CountsAsk result self.old.asks self.new.asks }
        ensures seat { self.new.seat ≡ self.old.seat }
    {
        self.hub
            .ask(self.rt, &mut self.share, self.seat, now, words, command)
    }

    fn call_in_series(&mut self, words: &Words, command: Command, now: u64) -> Reply
        requires { B.wants_words ≡ true → IsRead words.now (Ok command) }
        ensures acked { Acknowledges command result self.old.amount self.new.amount }
        ensures told { AddsCall None (call_of words.now now result) None }
        ensures asked { CountsAsk result self.old.asks self.new.asks }
        ensures seat { self.new.seat ≡ self.old.seat }
    {
        self.call(words, command, now)
    }

    fn end_series(&mut self) {}

    ghost untold = { λ desk none. refl };
}
