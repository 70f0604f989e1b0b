// One seat at the shared store, which keeps the lock from one call of a series to the next. What a FLUSHALL took out is freed behind the lock.
ghost use Rattle.std.specs.Prelude.{◌≡◌, true, None, Ok, refl};
ghost use Rattle.sk_cmd.specs.Table.{IsRead};
ghost use Rattle.sk_model.specs.Acked.{Acknowledges};
ghost use Rattle.sk_desk.specs.Calls.{AddsCall, call_of};
ghost use Rattle.sk_desk.specs.Counts.{CountsAsk};
ghost use Rattle.sk_desk.specs.Pass.{joined, share_left};

use crate::{Book, Desk, HubId, LockedDesk, Pass, State};
use sk_cmd::{Command, PlainCommand, ScriptCommand};
use sk_resp::{Reply, Words};
use std::marker::Model;
use std::sync::{MutexGuard, Wait};

/// A seat at a hub, as [`LockedDesk`] is one. It has to stay on its thread, since it may have the lock. Contracts see the same of it.
pub struct SeriesDesk<'a, R: Wait, I: HubId, B: Book> {
    desk: LockedDesk<'a, R, I, B>,
    // the lock, where a call of a series has kept it
    kept: Option<MutexGuard<'a, State<I, B>>>,
}

impl<'a, R: Wait, I: HubId, B: Book> Model for SeriesDesk<'a, R, I, B> {
    ghost use Rattle.sk_desk.specs.Pass.{DeskView};

    ghost Value = { DeskView };

    ghost view = { λ d. d.desk };
}

impl<'a, R: Wait, I: HubId, B: Book> Drop for SeriesDesk<'a, R, I, B> {
    fn drop(self) {
        let SeriesDesk { desk, kept } = self;
        drop(kept);
        drop(desk);
    }
}

// Whether the command takes short however much is stored, so that the lock may be kept behind it.
fn is_short(command: &Command) -> bool {
    !matches!(
        command,
        Command::Plain(
            PlainCommand::Flushall
                | PlainCommand::Del(..)
                | PlainCommand::Lrange(..)
                | PlainCommand::Lrem(..)
                | PlainCommand::Smembers(..)
                | PlainCommand::Hgetall(..)
                | PlainCommand::Zrem(..)
                | PlainCommand::Zrange(..)
                | PlainCommand::Zrangebyscore(..)
                | PlainCommand::Zremrangebyrank(..)
                | PlainCommand::Zremrangebyscore(..)
        ) | Command::Script(
            ScriptCommand::Due(..)
                | ScriptCommand::Rescue
                | ScriptCommand::Bpush(..)
                | ScriptCommand::Badd(..)
                | ScriptCommand::Status
        )
    )
}

impl<'a, R: Wait, I: HubId, B: Book> SeriesDesk<'a, R, I, B> {
    /// The same seat, without the lock.
    pub fn new(desk: LockedDesk<'a, R, I, B>) -> SeriesDesk<'a, R, I, B>
        ensures { result ≡ desk.entry }
    {
        SeriesDesk { desk, kept: None }
    }

    /// Ends the seat as [`LockedDesk::end`] does, without the lock.
    pub fn end(self, pass: &mut Pass<I>)
        ensures { pass.new ≡ joined pass.old (share_left self.entry) }
    {
        let SeriesDesk { desk, kept } = self;
        drop(kept);
        desk.end(pass);
    }

    // The lock, kept or got now.
    fn lock(&mut self) -> MutexGuard<'a, State<I, B>>
        ensures { self.new ≡ self.old }
    {
        match self.kept.take() {
            Some(state) => state,
            None => self.desk.lock(),
        }
    }
}

impl<'a, R: Wait, I: HubId, B: Book> Desk for SeriesDesk<'a, R, I, B> {
    ghost wants_words = { B.wants_words };

    ghost acked = { λ d. d.amount };

    ghost calls = { λ d. None };

    fn wants_words(&self) -> bool {
        B::wants_words()
    }

    fn call(&mut self, words: &Words, command: Command, now: u64) -> Reply
        requires { B.wants_words ≡ true → IsRead words.now (Ok command) }
        ensures acked { Acknowledges command result self.old.amount self.new.amount }
        ensures told { AddsCall None (call_of words.now now result) None }
        ensures asked { CountsAsk result self.old.asks self.new.asks }
        ensures seat { self.new.seat ≡ self.old.seat }
    {
        let reply = self.call_in_series(words, command, now);
        self.end_series();
        reply
    }

    fn takes_series(&self) -> bool {
        true
    }

    /// The lock is kept for the next call, unless the command may take long, or is a FLUSHALL.
    fn call_in_series(&mut self, words: &Words, command: Command, now: u64) -> Reply
        requires { B.wants_words ≡ true → IsRead words.now (Ok command) }
        ensures acked { Acknowledges command result self.old.amount self.new.amount }
        ensures told { AddsCall None (call_of words.now now result) None }
        ensures asked { CountsAsk result self.old.asks self.new.asks }
        ensures seat { self.new.seat ≡ self.old.seat }
    {
        let is_short = is_short(&command);
        let mut state = self.lock();
        let reply = self.desk.ask(&mut state, words, command, now);
        if is_short {
            self.kept = Some(state);
            return reply;
        }
        let removed = state.take_removed();
        drop(state);
        drop(removed);
        reply
    }

    fn end_series(&mut self)
        ensures { self.new ≡ self.old }
    {
        self.kept = None;
    }

    ghost untold = { λ desk none. refl };
}
