// The lock round the store, and what is left of it once no desk uses it.
ghost use Rattle.std.specs.Prelude.{◌≡◌, ◌⊎◌, ◌↔◌, ◌<◌, ◌≤◌, ◌+◌, ◌-◌, ◌^◌, length, false, true, Ok, Err, IfOk, IfErr, IfSome};
ghost use Rattle.sk_cmd.specs.Table.{IsRead};
ghost use Rattle.sk_core.specs.Whole.{KeepsLaws};
ghost use Rattle.sk_jobs.specs.Counting.{tally_of};
ghost use Rattle.sk_model.specs.Acked.{Acknowledges};
ghost use Rattle.sk_desk.specs.Counts.{CountsAsk, HasEvents, blank_share, with_cut};
ghost use Rattle.sk_desk.specs.Journal.{IsJournal};
ghost use Rattle.sk_desk.specs.Log.{AllAnswered, empty};
ghost use Rattle.sk_desk.specs.Pass.{pass_of, seated};
ghost use Rattle.sk_model.specs.World.{first};
ghost use Rattle.sk_desk.specs.State.{IsBalanced, IsConsistent, IsKept, pushed_in};
ghost use Rattle.sk_desk.specs.Writing.{WroteSome, nothing_written};

use crate::{
    Book, Entry, FullBook, HubBlank, HubId, HubShare, HubTotal, LockedDesk, Outbox, Pass, State,
};
use sk_cmd::Command;
use sk_core::Core;
use sk_model::Limits;
use sk_resp::{Memory, Reply, Words};
use sk_status::Tally;
use std::alloc::Global;
use std::collections::LinkedList;
use std::marker::Model;
use std::sync::{Mutex, MutexGuard, Wait};

/// Why there is no seat.
#[derive(Clone, Copy)]
pub enum HubFault {
    /// The pass has no number left.
    Spent,
    /// There was no memory for the seat's Cut entry.
    Memory,
}

/// A store that threads share, behind one lock.
#[derive(Drop)]
pub struct Hub<I: HubId, B: Book> {
    state: Mutex<State<I, B>>,
}

impl<I: HubId, B: Book> Hub<I, B> {
    /// An empty store with these limits, at which the hub begins, and the pass to all its seats, as [`Hub::over`] gives it. Takes no memory.
    pub fn new(alloc: Global, blank: HubBlank, limits: Limits, book: B) -> (Hub<I, B>, Pass<I>)
        requires blank { blank ≡ record { acks = I.acks; asks = I.asks; cuts = I.cuts } }
        requires start { first limits ≡ I.start }
        requires book { IfSome (B.log book) (λ log. log ≡ empty) }
        requires writing { IfSome (B.writing book) (λ writing. writing ≡ nothing_written) }
        ensures { result.1 ≡ pass_of 0 (2 ^ 32 - 1) (blank_share (2 ^ 34)) }
    {
        Hub::over(blank, Core::new(alloc, limits), book)
    }

    /// A store that is what the hub begins at, and the pass to all its seats: the numbers from 1 to 2^32 - 1, and every part of the hub's ledgers, of which
    /// each has 2^34. The book has no entries and has written nothing, where it tells that. Takes no memory.
    pub fn over(blank: HubBlank, core: Core, book: B) -> (Hub<I, B>, Pass<I>)
        requires blank { blank ≡ record { acks = I.acks; asks = I.asks; cuts = I.cuts } }
        requires start { core ≡ I.start }
        requires book { IfSome (B.log book) (λ log. log ≡ empty) }
        requires writing { IfSome (B.writing book) (λ writing. writing ≡ nothing_written) }
        ensures { result.1 ≡ pass_of 0 (2 ^ 32 - 1) (blank_share (2 ^ 34)) }
    {
        let (total, share) = blank.open::<I>();
        let state = Mutex::new(State::new(core, book, total));
        (Hub { state }, Pass::new(0, u32::MAX, share))
    }

    /// A desk with the pass's next number, and one part of its share. Spent exactly where the pass has no number left. After a fault the pass is
    /// as before.
    pub fn seat<'a, R: Wait>(
        &'a self,
        rt: &'a R,
        pass: &mut Pass<I>,
    ) -> Result<LockedDesk<'a, R, I, B>, HubFault>
        ensures seat { IfOk result (λ desk. desk ≡ record { seat = pass.new.given; amount = 0; asks = 0 }) }
        ensures pass { IfOk result (λ desk. pass.new ≡ seated pass.old) }
        ensures part { IfOk result (λ desk. pass.new.parts + 1 ≡ pass.old.parts) }
        ensures fault { IfErr result (λ fault. pass.new ≡ pass.old) }
        ensures spent { result ≡ Err HubFault.Spent ↔ pass.old.count ≡ 0 }
    {
        if pass.left() == 0 {
            return Err(HubFault::Spent);
        }
        let number = pass.next_number();
        let Ok(place) = self.enter(rt, number) else {
            return Err(HubFault::Memory);
        };
        let share = pass.take();
        Ok(LockedDesk::new(rt, self, number, share, place))
    }

    // Takes the memory of a Cut entry of this seat.
    fn enter<R: Wait>(&self, rt: &R, seat: u32) -> Result<B::Place, Memory>
        ensures { IfOk result (λ place. B.is_for place seat) }
    {
        self.state.lock(rt).enter(seat)
    }

    // The lock, which is got now.
    pub(crate) fn lock<R: Wait>(&self, rt: &R) -> MutexGuard<'_, State<I, B>> {
        self.state.lock(rt)
    }

    // One command of a seat. The lock is held for that alone: what a FLUSHALL took out is freed behind it.
    pub(crate) fn ask<R: Wait>(
        &self,
        rt: &R,
        share: &mut HubShare<I>,
        seat: u32,
        now: u64,
        words: &Words,
        command: Command,
    ) -> Reply
        requires part { 0 < share.old.parts }
        requires read { B.wants_words ≡ true → IsRead words.now (Ok command) }
        ensures parts { share.new.parts ≡ share.old.parts }
        ensures cuts { share.new.counts.cuts ≡ share.old.counts.cuts }
        ensures acked { Acknowledges command result share.old.counts.rows share.new.counts.rows }
        ensures asked { CountsAsk result share.old.counts.asks share.new.counts.asks }
    {
        let mut state = self.state.lock(rt);
        let reply = state.ask(share, seat, now, words, command);
        let removed = state.take_removed();
        drop(state);
        drop(removed);
        reply
    }

    // The cut of a seat.
    pub(crate) fn quit<R: Wait>(&self, rt: &R, share: &mut HubShare<I>, seat: u32, place: B::Place)
        requires part { 0 < share.old.parts }
        requires place { B.is_for place seat }
        ensures { share.new ≡ record share.old { counts = with_cut share.old.counts } }
    {
        self.state.lock(rt).quit(share, seat, place);
    }

    /// Gives the store and its book up. Takes no memory.
    pub fn abandon(self) {}

    /// The store and its book, once no desk is left. The store has the limits that it had at the start.
    pub fn close(self) -> Closed<I, B>
        ensures laws { KeepsLaws result.world }
        ensures limits { result.world.limits ≡ I.start.limits }
        ensures consistent { IsConsistent I.start result }
        ensures kept { IsKept B.spells I.start result }
    {
        let state = self.state.into_inner();
        state.sound();
        let State {
            core,
            book,
            total,
            before,
        } = state;
        Closed {
            core,
            book,
            total,
            before,
        }
    }
}

impl<I: HubId, B: Outbox> Hub<I, B> {
    /// What the book has written and not given out yet: the last of what it wrote of a run from the start. None where it can write no more. The lock is
    /// held for that alone.
    pub fn take<R: Wait>(&self, rt: &R, spare: B::Spare) -> Option<B::Batch>
        ensures { IfSome result (λ batch. WroteSome B.spells I.start (B.ends batch)) }
    {
        self.state.lock(rt).take(spare)
    }

    /// How far the book has written: up to a run from the start. None where it can write no more.
    pub fn mark<R: Wait>(&self, rt: &R) -> Option<B::Mark>
        ensures { IfSome result (λ mark. WroteSome B.spells I.start (B.marks mark)) }
    {
        self.state.lock(rt).mark()
    }
}

/// What a hub leaves: the store, the book and the total. Contracts see the same of it as of the state behind the lock.
#[derive(Drop)]
pub struct Closed<I: HubId, B: Book> {
    pub core: Core,
    pub book: B,
    pub total: HubTotal<I>,
    // how many rows clients had pushed before the start
    pub before: u64,
}

impl<I: HubId, B: Book> Model for Closed<I, B> {
    ghost use Rattle.std.specs.Prelude.{◌≡◌};
    ghost use Rattle.sk_desk.specs.State.{IsKept, StateView, pushed_in};

    ghost Value = { StateView };

    ghost view = { λ s. record { world = s.core; log = B.log s.book; writing = B.writing s.book; total = s.total } };

    ghost invariant = { λ s. IsKept B.spells I.start (record { world = s.core; log = B.log s.book; writing = B.writing s.book; total = s.total }) × (s.before ≡ pushed_in I.start) };
}

impl<I: HubId, B: Book> Closed<I, B> {
    /// How many rows all desks acknowledged. The pass has every part again: then that is its amount, and the number of rows that clients have pushed since
    /// the start; and the journal, where the book tells it, has an Ask for each command that the pass counts, and a Cut for each seat.
    pub fn audit(&mut self, pass: &mut Pass<I>) -> u64
        requires { pass.old.parts ≡ 2 ^ 34 }
        ensures amount { result ≡ pass.old.amount }
        ensures outside { result + pushed_in I.start ≡ self.old.world.tally.outside }
        ensures events { IfSome self.old.log (λ log. HasEvents pass.old.asks pass.old.cuts log.entries) }
        ensures same { (self.new ≡ self.old) × (pass.new ≡ pass.old) }
    {
        pass.audit(&mut self.total);
        self.core.tally().outside - self.before
    }

    /// How many rows all desks acknowledged, as `audit` tells, and the tally of all rows; the store and its book are given up. Takes no memory.
    pub fn finish(self, pass: &mut Pass<I>) -> (u64, Tally)
        requires { pass.old.parts ≡ 2 ^ 34 }
        ensures amount { result.0 ≡ pass.old.amount }
        ensures outside { result.0 + pushed_in I.start ≡ result.1.outside }
        ensures tally { result.1 ≡ tally_of self.world }
        ensures balanced { IsBalanced result.1 }
        ensures same { pass.new ≡ pass.old }
    {
        let mut closed = self;
        let sums = closed.sums(pass);
        closed.give_up();
        sums
    }

    // How many rows all desks acknowledged, and the tally of all rows.
    fn sums(&mut self, pass: &mut Pass<I>) -> (u64, Tally)
        requires { pass.old.parts ≡ 2 ^ 34 }
        ensures amount { result.0 ≡ pass.old.amount }
        ensures outside { result.0 + pushed_in I.start ≡ result.1.outside }
        ensures tally { result.1 ≡ tally_of self.old.world }
        ensures balanced { IsBalanced result.1 }
        ensures same { pass.new ≡ pass.old }
    {
        let closed = self;
        let acknowledged = closed.audit(pass);
        (acknowledged, closed.core.tally())
    }

    // The store and its book go.
    fn give_up(self) {}
}

impl<I: HubId> Closed<I, FullBook> {
    /// The journal: its entries are the events of a run from the start to this store, each with the text of that run's reply, unless the journal is
    /// starved. All that holds of every run holds of it, behind each that led to the start. Takes no memory.
    pub fn journal(&self) -> &LinkedList<Entry>
        ensures { IsJournal I.start result.now self.now.world ⊎ (2 ^ 62 ≤ length result.now) }
    {
        self.book.entries()
    }

    /// Whether the text of some reply found no memory, so that its entry has none. If not, each Ask has its reply. Takes no memory.
    pub fn is_starved(&self) -> bool
        ensures starved { IfSome self.now.log (λ log. result ≡ log.starved) }
        ensures answered { result ≡ false → IfSome self.now.log (λ log. AllAnswered log.entries) }
    {
        self.book.is_starved()
    }
}
