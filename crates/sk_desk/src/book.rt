// Who keeps the journal of a store, or writes what a log keeps of it. For each command it is asked twice: for memory before the command is done, and for
// the reply afterwards.
ghost use Rattle.std.specs.Prelude.{◌≡◌, ⊤, ℕ, List, Bool, true, false, None, Option, IfOk, OnOk, OnErr, refl};
ghost use Rattle.sk_model.specs.Event.{Event};
ghost use Rattle.sk_desk.specs.Log.{IsClosed, IsOpen, Log, EntersCut, Notes, Prepares};
ghost use Rattle.sk_desk.specs.Writing.{Drafts, IsIdle, Settles, Writing, WritesCut};

use crate::Stamp;
use sk_resp::{Memory, Reply, Words};

/// A journal of all that happens to a store, where it keeps one.
pub trait Book: Drop {
    /// What has the memory of one Cut entry.
    type Place: Drop;

    /// The place is for a cut of this seat.
    ghost is_for: { Self.Place → ℕ → Type 0 };

    /// It keeps the words of the commands.
    ghost wants_words: { Bool };

    /// The entries that it has, and the one that waits for its reply, where it tells them.
    ghost log: { Self → Option Log };

    /// How it spells an event in what it writes.
    ghost spells: { Event → List ℕ → Type 0 };

    /// What it has written, and the draft that waits for its reply, where it tells that.
    ghost writing: { Self → Option Writing };

    /// Whether books of this kind keep the words of the commands. One that doesn't may be handed any, as an empty list.
    fn wants_words() -> bool
        ensures { result ≡ wants_words };

    /// Takes the memory of one Cut entry, so that a cut of this seat needs none.
    fn enter(&mut self, seat: u32) -> Result<Self::Place, Memory>
        ensures place { IfOk result (λ place. is_for place seat) }
        ensures log { log self.new ≡ log self.old }
        ensures writing { writing self.new ≡ writing self.old };

    /// Takes all memory of an entry but that of the reply's text, before the command is done, and that of a draft. After an error nothing is entered, and
    /// no draft waits.
    fn prepare(&mut self, stamp: &Stamp, words: &Words) -> Result<(), Memory>
        requires closed { IsClosed (log self.old) }
        requires idle { IsIdle (writing self.old) }
        ensures ok { OnOk result (Prepares stamp.now.seat stamp.now.sent_at words.now (log self.old) (log self.new)) }
        ensures draft { OnOk result (Drafts spells stamp.now words.now (writing self.old) (writing self.new)) }
        ensures err { OnErr result (log self.new ≡ log self.old) }
        ensures none { OnErr result (writing self.new ≡ writing self.old) };

    /// Enters what was prepared, with the text of the reply. Where there is no memory for that, the entry is without it, and the log says so from then
    /// on. The draft is written, unless the reply says that the command changed nothing. It never fails.
    fn note(&mut self, stamp: &Stamp, reply: &Reply)
        requires { IsOpen (log self.old) }
        ensures entered { Notes reply.now (log self.old) (log self.new) }
        ensures written { Settles stamp.now.effect reply.now (writing self.old) (writing self.new) };

    /// Enters and writes the seat's cut at a place that `enter` answered, and uses that up. It never fails.
    fn quit(&mut self, seat: u32, place: Self::Place)
        requires place { is_for place seat }
        requires closed { IsClosed (log self.old) }
        requires idle { IsIdle (writing self.old) }
        ensures entered { EntersCut seat (log self.old) (log self.new) }
        ensures written { WritesCut spells seat (writing self.old) (writing self.new) };

    /// A book that doesn't keep the words tells no log,
    ghost untold: { (book : Self) → wants_words ≡ false → log book ≡ None };

    /// nor what it writes.
    ghost unwritten: { (book : Self) → wants_words ≡ false → writing book ≡ None };
}

/// No journal.
#[derive(Drop)]
pub struct NoBook;

impl Book for NoBook {
    type Place = ();

    ghost is_for = { λ place seat. ⊤ };

    ghost wants_words = { false };

    ghost log = { λ book. None };

    ghost spells = { λ event body. ⊥ };

    ghost writing = { λ book. None };

    fn wants_words() -> bool {
        false
    }

    fn enter(&mut self, _seat: u32) -> Result<(), Memory> {
        Ok(())
    }

    fn prepare(&mut self, _stamp: &Stamp, _words: &Words) -> Result<(), Memory> {
        Ok(())
    }

    fn note(&mut self, _stamp: &Stamp, _reply: &Reply) {}

    fn quit(&mut self, _seat: u32, _place: ()) {}

    ghost untold = { λ book none. refl };

    ghost unwritten = { λ book none. refl };
}
