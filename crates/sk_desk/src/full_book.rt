// A book that keeps every entry. An entry is made in a list of its own, whose node is then put behind the others: that takes no memory.
ghost use Rattle.std.specs.Prelude.{◌≡◌, ◌≤◌, ◌^◌, ◌||◌, [], ◌∷◌, length, true, is_none, IfSome, MatchOption, None, Some, refl};
ghost use Rattle.sk_desk.specs.Log.{IsText, cut_entry, empty, noted};

use crate::{Ask, Book, Deed, Entry, Stamp};
use sk_resp::{Memory, Reply, Word, Words, write_reply};
use std::alloc::Global;
use std::collections::LinkedList;
use std::marker::Model;

/// A journal of all entries. Contracts see its log, which it tells as long as it has fewer than 2^62 entries.
#[derive(Drop)]
pub struct FullBook {
    alloc: Global,
    entries: LinkedList<Entry>,
    // the entry that waits for its reply
    waiting: LinkedList<Entry>,
    // the text of a reply found no memory
    starved: bool,
    // an entry found no place behind 2^62 others
    lost: bool,
}

impl Model for FullBook {
    ghost use Rattle.std.specs.Prelude.{◌≡◌, ◌≤◌, ◌^◌, Option, length, true};
    ghost use Rattle.sk_desk.specs.Log.{Log, log_in};

    ghost Value = { Option Log };

    ghost view = { λ book. log_in book.lost (record { entries = book.entries; waiting = book.waiting; starved = book.starved }) };

    ghost invariant = { λ book. book.lost ≡ true → 2 ^ 62 ≤ length book.entries };
}

/// A place in the book: the Cut entry of a seat, which isn't entered yet. Contracts see the entry, in a list of its own.
#[derive(Drop)]
pub struct CutPlace {
    entry: LinkedList<Entry>,
}

impl Model for CutPlace {
    ghost use Rattle.std.specs.Prelude.{List};
    ghost use Rattle.sk_desk.specs.declared.entry.Entry.{Entry};

    ghost Value = { List Entry };

    ghost view = { λ place. place.entry };
}

impl FullBook {
    /// A book without entries. Takes no memory.
    pub fn new(alloc: Global) -> FullBook
        ensures { result ≡ Some empty }
    {
        FullBook {
            alloc,
            entries: LinkedList::new(alloc),
            waiting: LinkedList::new(alloc),
            starved: false,
            lost: false,
        }
    }

    /// The entries, in order. Takes no memory.
    pub fn entries(&self) -> &LinkedList<Entry>
        ensures { MatchOption self.now (2 ^ 62 ≤ length result.now) (λ log. result.now ≡ log.entries) }
    {
        &self.entries
    }

    /// Whether the text of some reply found no memory, so that its entry has none. Takes no memory.
    pub fn is_starved(&self) -> bool
        ensures { IfSome self.now (λ log. result ≡ log.starved) }
    {
        self.starved
    }
}

impl Entry {
    // Keeps the text of the reply, where a command was asked.
    fn note(&mut self, text: Option<Word>)
        ensures { self.new ≡ noted text self.old }
    {
        match &mut self.deed {
            Deed::Ask(ask) => ask.reply = text,
            Deed::Cut => {}
        }
    }
}

// The reply's text, or none for want of memory.
pub(crate) fn text_of(alloc: Global, reply: &Reply) -> Option<Word>
    ensures { IsText reply.now result }
{
    let mut text = Vec::new(alloc);
    let Ok(()) = write_reply(alloc, reply, &mut text) else {
        return None;
    };
    Some(Word::new(text))
}

// There is no text of a reply, or there was none of an earlier one.
fn starves(text: &Option<Word>, before: bool) -> bool
    ensures { result ≡ (is_none text.now || before) }
{
    text.is_none() || before
}

impl Book for FullBook {
    type Place = CutPlace;

    ghost is_for = { λ place seat. place ≡ cut_entry seat ∷ [] };

    ghost wants_words = { true };

    ghost log = { λ book. book };

    ghost spells = { λ event body. ⊥ };

    ghost writing = { λ book. None };

    fn wants_words() -> bool {
        true
    }

    fn enter(&mut self, seat: u32) -> Result<CutPlace, Memory> {
        let mut entry = LinkedList::new(self.alloc);
        entry.push_back(Entry {
            seat,
            deed: Deed::Cut,
        })?;
        Ok(CutPlace { entry })
    }

    fn prepare(&mut self, stamp: &Stamp, words: &Words) -> Result<(), Memory> {
        let ask = Ask {
            now: stamp.sent_at,
            request: words.copy()?,
            reply: None,
        };
        self.waiting.push_back(Entry {
            seat: stamp.seat,
            deed: Deed::Ask(ask),
        })?;
        Ok(())
    }

    fn note(&mut self, _stamp: &Stamp, reply: &Reply) {
        let text = text_of(self.alloc, reply);
        self.starved = starves(&text, self.starved);
        if let Some(entry) = self.waiting.front_mut() {
            entry.note(text);
        }
        if self.entries.append(&mut self.waiting).is_err() {
            self.lost = true;
        }
    }

    fn quit(&mut self, _seat: u32, place: CutPlace) {
        let CutPlace { mut entry } = place;
        if self.entries.append(&mut entry).is_err() {
            self.lost = true;
        }
    }

    ghost untold = { λ book none. absurd (cc none) };

    ghost unwritten = { λ book none. refl };
}
