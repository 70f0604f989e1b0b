// The counters of runs, each with its name.
ghost use Rattle.std.proofs.lemmas.Cmp.{nat_list_cmp_total};
ghost use Rattle.std.specs.Prelude.{◌≡◌, ◌+◌, ◌<◌, ◌≤◌, [], suc, IsSome, None, OnErr, OnOk, min};
ghost use Rattle.sk_base.specs.Score.{last_moment};
ghost use Rattle.sk_undo.specs.Versions.{begun, closed, committed, edited, undone};
ghost use Rattle.sk_undo.specs.Queries.{key_query};
ghost use Rattle.sk_counters.specs.Counters.{count_in, counted_at, last_count, name_cmp, name_of, raised};

use crate::Memory;
use crate::day::of_day;
use sk_base::limits::LAST_COUNT;
use sk_resp::Word;
use sk_undo::{Query, UndoMap};
use std::alloc::Global;
use std::cmp::Ordering;
use std::marker::Model;

/// What is counted.
#[derive(Clone, Copy)]
pub enum Counted {
    /// Runs that came to an end, whether the job returned or failed.
    Processed,
    /// Runs that failed.
    Failed,
}

impl Counted {
    // The name of its counter in all.
    fn name(self) -> &'static [u8]
        ensures { result.now ≡ name_of self }
    {
        match self {
            Counted::Processed => b"processed",
            Counted::Failed => b"failed",
        }
    }
}

/// The counters, by the bytes of their names. One that was never raised isn't there. Contracts see what stands now, and what stood at the begin of an
/// open step.
#[derive(Drop)]
pub struct Counters {
    alloc: Global,
    counts: UndoMap<Word, u64>,
}

impl Model for Counters {
    ghost use Rattle.sk_undo.specs.Versions.{Versions};
    ghost use Rattle.sk_counters.specs.Counters.{Counters as CountersSeen};

    ghost Value = { Versions CountersSeen };

    ghost view = { λ c. c.counts.list };
}

// A name looked for by its bytes.
#[derive(Drop)]
struct ByName<'a> {
    name: &'a [u8],
}

impl<'a> Query<Word> for ByName<'a> {
    ghost order = { λ query. name_cmp query.name.now };

    fn cmp_key(&self, key: &Word) -> Ordering {
        self.name.cmp(key.bytes())
    }

    ghost is_query = { λ query. key_query nat_list_cmp_total query.name.now };
}

// The next count. It stays at the last one.
fn one_more(count: u64) -> u64
    ensures { result ≡ min last_count (suc count) }
{
    count.saturating_add(1).min(LAST_COUNT)
}

// Counts one more for a name. Logarithmic.
fn raise(counts: &mut UndoMap<Word, u64>, name: Word)
    requires { 0 < counts.old.room }
    ensures list { counts.new.list ≡ edited (raised name counts.old.list.current) counts.old.list }
    ensures room { counts.old.room ≤ counts.new.room + 1 }
{
    let count = counts.get(&name).copied().unwrap_or(0);
    counts.put(name, one_more(count));
}

impl Counters {
    /// Takes no memory.
    pub fn new(alloc: Global) -> Counters
        ensures { result ≡ closed [] }
    {
        Counters {
            alloc,
            counts: UndoMap::new(alloc),
        }
    }

    /// The count of this name, where it was ever raised. Logarithmic.
    pub fn get(&self, name: &[u8]) -> Option<u64>
        ensures { result ≡ count_in self.now.current name.now }
    {
        self.counts.get(&ByName { name }).copied()
    }

    /// One more counts at this moment, in milliseconds since 1970: in all, and of the moment's day. Where memory runs out nothing has changed.
    pub fn raise(&mut self, what: Counted, moment: u64) -> Result<(), Memory>
        requires { moment ≤ last_moment }
        ensures ok { OnOk result (self.new ≡ edited (counted_at moment (name_of what) self.old.current) self.old) }
        ensures err { OnErr result (self.new ≡ self.old) }
    {
        let name = what.name();
        let total = Word::new(Vec::from_slice(self.alloc, name)?);
        let of_day = of_day(self.alloc, name, moment)?;
        self.counts.reserve(2)?;
        raise(&mut self.counts, total);
        raise(&mut self.counts, of_day);
        Ok(())
    }

    /// Opens a step. Takes no memory.
    pub fn begin(&mut self)
        requires { self.old.saved ≡ None }
        ensures { self.new ≡ begun self.old }
    {
        self.counts.begin();
    }

    /// Closes the step, and what stood at its begin stands again. Takes no memory.
    pub fn undo(&mut self)
        requires { IsSome self.old.saved }
        ensures { self.new ≡ undone self.old }
    {
        self.counts.undo();
    }

    /// Closes the step, and what stands now stays. Takes no memory.
    pub fn commit(&mut self)
        requires { IsSome self.old.saved }
        ensures { self.new ≡ committed self.old }
    {
        self.counts.commit();
    }
}
