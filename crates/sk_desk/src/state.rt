// What stands behind the lock: the store, its book, and the total of what its desks did.
ghost use Rattle.std.specs.Prelude.{◌≡◌, ◌<◌, true, Ok, IfOk, IfSome};
ghost use Rattle.sk_cmd.specs.Table.{IsRead};
ghost use Rattle.sk_core.specs.Whole.{KeepsLaws};
ghost use Rattle.sk_desk.specs.Counts.{nothing, with_cut};
ghost use Rattle.sk_desk.specs.Log.{empty};
ghost use Rattle.sk_desk.specs.Writing.{WroteSome, nothing_written};
ghost use Rattle.sk_desk.specs.State.{Asks, IsKept, Quits};

use crate::{Book, Effect, HubId, HubShare, HubTotal, Outbox, Stamp};
use sk_cmd::Command;
use sk_core::{Core, Removed};
use sk_resp::{Memory, Reply, Say, Words};
use std::marker::Model;

/// The store, its book, and the total of what desks were answered, asked and cut. Contracts see the store's world, the book's log and the total.
/// In every state the store has the limits of the start, the total has the number of rows that clients have pushed since, the log is a journal from the
/// start to the world, with as many Asks and Cuts as the total, and what the book writes is what a log keeps of that run.
#[derive(Drop)]
pub struct State<I: HubId, B: Book> {
    pub core: Core,
    pub book: B,
    pub total: HubTotal<I>,
    // how many rows clients had pushed before the start
    pub before: u64,
}

impl<I: HubId, B: Book> Model for State<I, B> {
    ghost use Rattle.std.specs.Prelude.{◌≡◌};
    ghost use Rattle.sk_desk.specs.State.{IsKept, StateView, pushed_in};

    ghost Value = { StateView };

    ghost view = { λ s. record { world = s.core; log = B.log s.book; writing = B.writing s.book; total = s.total } };

    ghost invariant = { λ s. IsKept B.spells I.start (record { world = s.core; log = B.log s.book; writing = B.writing s.book; total = s.total }) × (s.before ≡ pushed_in I.start) };
}

impl<I: HubId, B: Book> State<I, B> {
    // The store at the start.
    pub(crate) fn new(core: Core, book: B, total: HubTotal<I>) -> State<I, B>
        requires book { IfSome (B.log book) (λ log. log ≡ empty) }
        requires writing { IfSome (B.writing book) (λ writing. writing ≡ nothing_written) }
        requires start { core ≡ I.start }
        requires total { total ≡ nothing }
        ensures { result ≡ record { world = core; log = B.log book; writing = B.writing book; total = nothing } }
    {
        let before = core.tally().outside;
        State {
            core,
            book,
            total,
            before,
        }
    }

    // Takes the memory of a Cut entry of this seat.
    pub(crate) fn enter(&mut self, seat: u32) -> Result<B::Place, Memory>
        ensures same { self.new ≡ self.old }
        ensures place { IfOk result (λ place. B.is_for place seat) }
    {
        self.book.enter(seat)
    }

    /// Lets the store do a seat's command at a moment, in milliseconds since 1970, and answers its reply. The command, whose words these are
    /// where the book wants them, is entered in it, and it is counted in the share and in the total, with the rows that the reply acknowledges. Where the book finds no
    /// memory the reply is `-OOM`, and nothing changes.
    pub fn ask(
        &mut self,
        share: &mut HubShare<I>,
        seat: u32,
        now: u64,
        words: &Words,
        command: Command,
    ) -> Reply
        requires part { 0 < share.old.parts }
        requires read { B.wants_words ≡ true → IsRead words.now (Ok command) }
        ensures parts { share.new.parts ≡ share.old.parts }
        ensures asks { Asks self.old self.new seat now words.now command result share.old share.new }
    {
        let stamp = Stamp {
            seat,
            sent_at: now,
            acts_at: self.core.acts_at(now),
            effect: Effect::of(&command),
        };
        let Ok(()) = self.book.prepare(&stamp, words) else {
            return Reply::Say(Say::Oom);
        };
        let before = self.core.tally().outside;
        let reply = self.core.step(seat, now, command);
        let added = self.core.tally().outside - before;
        self.book.note(&stamp, &reply);
        self.total.add(share, added);
        reply
    }

    // Hands out what the store has taken out and not freed. Constant time, and takes no memory.
    pub(crate) fn take_removed(&mut self) -> Option<Removed>
        ensures { self.new ≡ self.old }
    {
        self.core.take_removed()
    }

    /// Cuts the seat off, enters that at the place, and counts it in the share and in the total. Takes no memory.
    pub fn quit(&mut self, share: &mut HubShare<I>, seat: u32, place: B::Place)
        requires part { 0 < share.old.parts }
        requires place { B.is_for place seat }
        ensures quits { Quits self.old self.new seat }
        ensures share { share.new ≡ record share.old { counts = with_cut share.old.counts } }
    {
        self.core.cut(seat);
        self.book.quit(seat, place);
        self.total.cut(share);
    }

    /// What holds each time that the lock is got: of the store each live job is kept and each pushed row is accounted for, and what stands at `State`.
    pub fn sound(&self)
        ensures laws { KeepsLaws self.now.world }
        ensures kept { IsKept B.spells I.start self.now }
    {
        self.core.sound();
        let _ = &self.total;
    }
}

impl<I: HubId, B: Outbox> State<I, B> {
    // What the book has written and not given out yet.
    #[tactic(auto, using(crate::proofs::Writings::wrote, crate::proofs::Writings::idle_at))]
    pub(crate) fn take(&mut self, spare: B::Spare) -> Option<B::Batch>
        ensures same { self.new ≡ self.old }
        ensures batch { IfSome result (λ batch. WroteSome B.spells I.start (B.ends batch)) }
    {
        self.book.take(spare)
    }

    // How far the book has written.
    #[tactic(auto, using(crate::proofs::Writings::wrote))]
    pub(crate) fn mark(&self) -> Option<B::Mark>
        ensures { IfSome result (λ mark. WroteSome B.spells I.start (B.marks mark)) }
    {
        self.book.mark()
    }
}
