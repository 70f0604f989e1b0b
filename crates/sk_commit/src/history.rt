// The records that were logged since a file was handed over, in order. The list stands in proofs alone: what threads share is its length.
ghost use Rattle.std.specs.Prelude.{◌≡◌, ◌<◌, ◌^◌, ◌++◌, ◌∷◌, ◌⊎◌, [], length, MatchBool};
ghost use mathlib.Core.List.{IsPrefix};
ghost use Rattle.sk_commit.specs.Rules.{IsLonger, head_of};

use crate::LogId;
use crate::rule::{AddRecord, HistoryRule, NoGain};
use logbook::{Offer, Seen, Start, Word};
use sk_log::Record;
use std::marker::{Model, PhantomData};

/// A history without a record, which has no name yet. Contracts see its book.
#[derive(Drop)]
pub struct NewHistory {
    head: Word<Record, u64, HistoryRule>,
    seen: Seen<Record, u64, HistoryRule>,
}

impl Model for NewHistory {
    ghost use Rattle.std.specs.Prelude.{◌≡◌, []};
    ghost use Rattle.logbook.specs.Pages.{Book};
    ghost use Rattle.sk_commit.specs.Rules.{head_of};

    ghost Value = { Book };

    ghost view = { λ n. n.seen.book };

    ghost invariant = { λ n. (n.seen.log ≡ []) × (n.head ≡ head_of n.seen.book) };
}

impl NewHistory {
    /// One more history.
    pub fn new() -> NewHistory {
        let (seen, mut first, _second) = Seen::open(Start::alone(), 0, 0);
        NewHistory {
            head: Word::tracked(0, &mut first),
            seen,
        }
    }

    /// The history under its name, and the beginning of it that has no record.
    pub fn named<I: LogId>(self) -> (History<I>, Prefix<I>)
        requires { self ≡ I.book }
        ensures { result.1 ≡ [] }
    {
        let NewHistory { head, seen } = self;
        let history = History {
            head,
            of: PhantomData,
        };
        let prefix = Prefix {
            records: 0,
            seen,
            of: PhantomData,
        };
        (history, prefix)
    }
}

/// The history of a log, to which records are added: the number of them, which all threads share.
#[derive(Drop)]
pub struct History<I: LogId> {
    head: Word<Record, u64, HistoryRule>,
    of: PhantomData<I>,
    ghost head_is: { head ≡ head_of I.book },
}

/// A beginning of the history that was seen. Contracts see the bodies of its records.
#[derive(Drop)]
pub struct Prefix<I: LogId> {
    records: u64,
    seen: Seen<Record, u64, HistoryRule>,
    of: PhantomData<I>,
}

impl<I: LogId> Model for Prefix<I> {
    ghost use Rattle.std.specs.Prelude.{◌≡◌, List, length};
    ghost use Rattle.sk_log.specs.File.{Body};

    ghost Value = { List Body };

    ghost view = { λ p. p.seen.log };

    ghost invariant = { λ p. (p.records ≡ length p.seen.log) × (p.seen.book ≡ I.book) };
}

impl<I: LogId> Prefix<I> {
    /// How many records it has.
    pub fn len(&self) -> u64
        ensures { result ≡ length self.now }
    {
        self.records
    }

    /// A copy.
    pub fn again(&self) -> Prefix<I>
        ensures { result ≡ self.now }
    {
        Prefix {
            records: self.records,
            seen: self.seen.again(),
            of: PhantomData,
        }
    }

    /// The longer of two beginnings, which begins with the other: both are of one history.
    pub fn longer(&self, other: &Prefix<I>) -> Prefix<I>
        ensures one { (result ≡ self.now) ⊎ (result ≡ other.now) }
        ensures this { IsPrefix self.now result }
        ensures that { IsPrefix other.now result }
    {
        let mut both = self.seen.again();
        both.learn(&other.seen);
        if self.records < other.records {
            other.again()
        } else {
            self.again()
        }
    }

    /// Adds a record behind all that was seen, and says whether it did. It did not where the history is longer, and has then seen all of it.
    pub fn add(&mut self, history: &History<I>, entry: &Record) -> bool
        requires room { length self.old < 2 ^ 62 }
        ensures { MatchBool result (self.new ≡ self.old ++ entry.now ∷ []) (IsLonger self.old self.new) }
    {
        let mut offer: Offer<Record, u64, HistoryRule, NoGain> = self
            .seen
            .plain::<NoGain, Record, AddRecord>(entry);
        let mut pen = self.seen.no_pen();
        let records = self.records;
        let found = history
            .head
            .compare_exchange::<AddRecord, NoGain>(
                records,
                records + 1,
                &mut self.seen,
                &mut offer,
                &mut pen,
            );
        self.records = if found == records { records + 1 } else { found };
        found == records
    }
}
