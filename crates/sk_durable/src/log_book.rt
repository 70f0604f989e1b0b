// The book of a store whose events are logged: a record for each command that may have changed the store, and for each cut, in the order in which the
// store did them. They wait here until a leader takes them to the file.
ghost use Rattle.std.specs.Prelude.{◌≡◌, [], true, None, Some, IfSome, OnOk, OnErr, refl};
ghost use Rattle.sk_commit.specs.Shared.{backed};
ghost use Rattle.sk_desk.specs.Writing.{IsIdle, WroteUpTo, nothing_written};
ghost use Rattle.sk_model.specs.Event.{Ask, Cut};
ghost use Rattle.sk_aof.specs.Bodies.{body_of};
ghost use Rattle.sk_durable.specs.Writes.{HasDraft, SpellsBody};

use sk_aof::{cut_record, draft_record};
use sk_commit::{LogId, Pending, Prefix, Taken};
use sk_desk::{Book, Effect, Outbox, Stamp};
use sk_log::{Group, LogFault, Record};
use sk_resp::{Memory, Reply, Words};
use std::alloc::Global;
use std::marker::Model;

/// Writes the records of a store's events, and tells no journal. Contracts see what it has written, until nothing can be written any more: where the
/// history has a record that didn't come this way or 2^60 of them, or there was no memory for that of a cut.
#[derive(Drop)]
pub struct LogBook<J: LogId> {
    alloc: Global,
    pending: Pending<J>,
    ended: bool,
    // it ended for want of memory
    starved: bool,
}

impl<J: LogId> Model for LogBook<J> {
    ghost use Rattle.std.specs.Prelude.{Option};
    ghost use Rattle.sk_desk.specs.Writing.{Writing};
    ghost use Rattle.sk_durable.specs.Writes.{writing_in};

    ghost Value = { Option Writing };

    ghost view = { λ book. writing_in book.ended book.pending };
}

impl<J: LogId> LogBook<J> {
    /// A book that has written nothing.
    pub fn new(alloc: Global, pending: Pending<J>) -> LogBook<J>
        requires { pending ≡ backed [] }
        ensures { result ≡ Some nothing_written }
    {
        LogBook {
            alloc,
            pending,
            ended: false,
            starved: false,
        }
    }

    /// Whether nothing can be written any more since there was no memory for the record of a cut.
    pub fn is_starved(&self) -> bool {
        self.starved
    }

    // Drafts the record of a command.
    fn draft(&mut self, stamp: &Stamp, words: &Words) -> Result<(), Memory>
        requires { IsIdle self.old }
        ensures ok { OnOk result (HasDraft (Ask stamp.now.seat stamp.now.acts_at words.now) self.old self.new) }
        ensures err { OnErr result (self.new ≡ self.old) }
    {
        if self.ended {
            return Err(Memory);
        }
        let entry = draft_record(self.alloc, stamp.seat, stamp.acts_at, words)?;
        match self.pending.draft(entry) {
            Ok(()) => Ok(()),
            Err(_) => Err(Memory),
        }
    }
}

impl<J: LogId> Book for LogBook<J> {
    type Place = Record;

    ghost is_for = { λ place seat. place ≡ body_of (Cut seat) };

    ghost wants_words = { true };

    ghost log = { λ book. None };

    ghost spells = { SpellsBody };

    ghost writing = { λ book. book };

    fn wants_words() -> bool {
        true
    }

    fn enter(&mut self, seat: u32) -> Result<Record, Memory> {
        cut_record(self.alloc, seat)
    }

    fn prepare(&mut self, stamp: &Stamp, words: &Words) -> Result<(), Memory> {
        match stamp.effect {
            Effect::Never => Ok(()),
            _ => self.draft(stamp, words),
        }
    }

    fn note(&mut self, stamp: &Stamp, reply: &Reply) {
        if stamp.effect.idles_at(reply) {
            self.pending.drop_draft();
            return;
        }
        if self.pending.keep().is_err() {
            self.ended = true;
        }
    }

    fn quit(&mut self, _seat: u32, place: Record) {
        self.pending.drop_draft();
        if let Err(fault) = self.pending.log(place) {
            self.ended = true;
            self.starved = matches!(fault, LogFault::Memory);
        }
    }

    ghost untold = { λ book none. refl };

    ghost unwritten = { λ book none. absurd (cc none) };
}

impl<J: LogId> Outbox for LogBook<J> {
    type Spare = Group;

    type Batch = Taken<J>;

    type Mark = Prefix<J>;

    ghost ends = { λ batch bodies. batch ≡ bodies };

    ghost marks = { λ mark bodies. mark ≡ bodies };

    /// None only where nothing can be written any more.
    fn take(&mut self, spare: Group) -> Option<Taken<J>>
        requires { IsIdle self.old }
        ensures same { self.new ≡ self.old }
        ensures batch { IfSome result (λ batch. WroteUpTo (λ bodies. batch ≡ bodies) self.old) }
        ensures none { result ≡ None → self.old ≡ None }
    {
        if self.ended {
            return None;
        }
        Some(self.pending.take(spare))
    }

    /// None only where nothing can be written any more.
    fn mark(&self) -> Option<Prefix<J>>
        ensures mark { IfSome result (λ mark. WroteUpTo (λ bodies. mark ≡ bodies) self.now) }
        ensures none { result ≡ None → self.now ≡ None }
    {
        if self.ended {
            return None;
        }
        Some(self.pending.seen())
    }
}
