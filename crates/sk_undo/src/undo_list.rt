// A list whose edits in an open step can be taken back. Each edit is one of the tree and, while a step is open, one more entry of the log: undo
// takes the log back from its end, and commit lets it go. Memory is taken by `reserve` alone, so what follows it can't fail half done.
ghost use Rattle.std.specs.Prelude.{◌≡◌, ℕ, ◌+◌, ◌-◌, ◌<◌, ◌≤◌, true, Option, Some, None, IsSome, List, [], ◌∷◌, ◌++◌, length, vec_len, vec_capacity, drop, map, take, OnOk, slice_index_or};
ghost use Rattle.std.specs.List.{insert, position_or_len, remove};
ghost use Rattle.std.specs.Option.{is_some};
ghost use Rattle.sk_undo.specs.Balance.{most};
ghost use Rattle.sk_undo.specs.Moves.{moved};
ghost use Rattle.std.specs.Ordering.{is_le};
ghost use Rattle.sk_undo.specs.Partitioned.{is_partitioned};
ghost use Rattle.sk_undo.specs.Sorted.{is_found, rank};
ghost use Rattle.sk_undo.specs.Versions.{begun, closed, committed, edited, undone};

use crate::edit::{Edit, shift, take_all_back};
use crate::sequence::{Sequence, Spare};
use crate::{Memory, Predicate, Probe, Visit};
use std::alloc::Global;
use std::marker::Model;

// The most entries that a list may have.
const MOST: usize = 1 << 60;

/// A list of at most 2^60 entries, each a tag, which may change, and an item. Contracts see what stands, what stood at the begin of an open step,
/// and how many further edits can't fail.
#[derive(Drop)]
pub struct UndoList<K, T> {
    entries: Sequence<(K, T)>,
    log: Vec<Edit<K, T>>,
    // Memory for entries that are yet to be put in.
    spares: Vec<Spare<(K, T)>>,
    in_step: bool,
}

impl<K, T> Model for UndoList<K, T> {
    ghost use Rattle.std.specs.Prelude.{List};
    ghost use Rattle.std.specs.Coded.{coded_list, coded×};
    ghost use Rattle.sk_undo.specs.UndoView.{UndoView, undo_view_code};

    ghost Value = { UndoView (List (K × T)) };

    ghost coded = { undo_view_code (coded_list (coded× K.code T.code)) };

    ghost use Rattle.sk_undo.specs.UndoList.{is_sound, view_in};

    ghost view = { view_in };

    ghost invariant = { is_sound };
}

// Makes memory for that many entries.
fn fill<T: Drop>(alloc: Global, spares: &mut Vec<Spare<T>>, count: usize) -> Result<(), Memory>
    ensures { OnOk result (count ≤ vec_len spares.new) }
{
    while spares.len() < count {
        spares.push(Spare::new(alloc)?)?;
    }
    Ok(())
}

fn next_spare<T: Drop>(spares: &mut Vec<Spare<T>>) -> Spare<T>
    requires { 0 < vec_len spares.old }
    ensures { vec_len spares.new + 1 ≡ vec_len spares.old }
{
    match spares.pop() {
        Some(spare) => spare,
        None => unreachable!(),
    }
}

fn push_edit<K: Drop, T: Drop>(log: &mut Vec<Edit<K, T>>, edit: Edit<K, T>)
    requires { vec_len log.old < vec_capacity log.old }
    ensures items { log.new.items ≡ log.old.items ++ edit ∷ [] }
    ensures len { vec_len log.new ≡ vec_len log.old + 1 }
    ensures capacity { vec_capacity log.new ≡ vec_capacity log.old }
{
    log.push_reserved(edit);
}

impl<K: Drop, T: Drop> UndoList<K, T> {
    /// Takes no memory.
    pub fn new(alloc: Global) -> UndoList<K, T>
        ensures { result.list ≡ closed [] }
    {
        UndoList {
            entries: Sequence::new(),
            log: Vec::new(alloc),
            spares: Vec::new(alloc),
            in_step: false,
        }
    }

    pub fn len(&self) -> usize
        ensures is { result ≡ length self.now.list.current }
        ensures small { result ≤ most }
    {
        self.entries.len()
    }

    pub fn is_open(&self) -> bool
        ensures { result ≡ is_some self.now.list.saved }
    {
        self.in_step
    }

    /// The entry at a place. Logarithmic.
    pub fn get(&self, at: usize) -> &(K, T)
        requires { at < length self.now.list.current }
        ensures { result.now ≡ slice_index_or self.now.list.current at result.now }
    {
        self.entries.get(at)
    }

    /// The place of the first entry that passes, where all behind it pass too; the length where none does. Logarithmic.
    pub fn partition_point<F: Predicate<(K, T)>>(&self, test: &F) -> usize
        requires { is_partitioned (F.passes test.now) self.now.list.current ≡ true }
        ensures is { result ≡ position_or_len (F.passes test.now) self.now.list.current }
        ensures within { result ≤ length self.now.list.current }
    {
        self.entries.partition_point(test)
    }

    /// How many entries stand before those that match what is looked for and those behind them, and whether the first of these matches. Logarithmic.
    pub fn seek<P: Probe<(K, T)>>(&self, probe: &P) -> (usize, bool)
        requires { is_partitioned (λ entry. is_le (P.order probe.now entry)) self.now.list.current ≡ true }
        ensures place { result.0 ≡ rank (P.order probe.now) self.now.list.current }
        ensures there { result.1 ≡ is_found (P.order probe.now) self.now.list.current }
        ensures within { result.0 ≤ length self.now.list.current }
        ensures inside { result.1 ≡ true → result.0 < length self.now.list.current }
    {
        self.entries.seek(probe)
    }

    /// The place of the first entry that passes, of those from the place `first` to the one before `end`, where all behind it up to `end` pass too;
    /// `end` where none does. Logarithmic.
    pub fn first_in<F: Predicate<(K, T)>>(&self, first: usize, end: usize, test: &F) -> usize
        requires order { first ≤ end }
        requires within { end ≤ length self.now.list.current }
        requires is_partitioned { is_partitioned (F.passes test.now) (drop first (take end self.now.list.current)) ≡ true }
        ensures is { result ≡ first + position_or_len (F.passes test.now) (drop first (take end self.now.list.current)) }
        ensures within { result ≤ end }
    {
        self.entries.first_in(first, end, test)
    }

    /// The place of the first entry that passes, or the length where none does. Looks at the entries one after another.
    pub fn position<F: Predicate<(K, T)>>(&self, test: &F) -> usize
        ensures is { result ≡ position_or_len (F.passes test.now) self.now.list.current }
        ensures within { result ≤ length self.now.list.current }
    {
        self.entries.position(test)
    }

    /// The place of the first entry that passes, of those from the place `first` to the one before `end`; `end` where none does. Looks at these
    /// entries one after another.
    pub fn position_in<F: Predicate<(K, T)>>(&self, first: usize, end: usize, test: &F) -> usize
        requires order { first ≤ end }
        requires within { end ≤ length self.now.list.current }
        ensures is { result ≡ first + position_or_len (F.passes test.now) (drop first (take end self.now.list.current)) }
        ensures within { result ≤ end }
    {
        self.entries.position_in(first, end, test)
    }

    /// Visits the entries from the place `first` to the one before `end`, one after another.
    pub fn walk<V: Visit<(K, T)>>(
        &self,
        first: usize,
        end: usize,
        visit: &mut V,
    ) -> Result<(), Memory>
        ensures { OnOk result (V.visited visit.new ≡ V.visited visit.old ++ map V.output (drop first (take end self.now.list.current))) }
    {
        self.entries.walk(first, end, visit)
    }

    /// Takes the memory for so many further edits.
    pub fn reserve(&mut self, edits: usize) -> Result<(), Memory>
        ensures list { self.new.list ≡ self.old.list }
        ensures ok { OnOk result (edits ≤ self.new.room) }
    {
        let alloc = *self.log.allocator();
        if edits > MOST - self.entries.len() {
            return Err(Memory);
        }
        self.log.reserve(edits)?;
        fill(alloc, &mut self.spares, edits)
    }

    /// Puts an entry in at a place.
    pub fn insert(&mut self, at: usize, entry: (K, T))
        requires within { at ≤ length self.old.list.current }
        requires room { 0 < self.old.room }
        ensures list { self.new.list ≡ edited (insert self.old.list.current at entry) self.old.list }
        ensures room { self.old.room ≤ self.new.room + 1 }
    {
        let spare = next_spare(&mut self.spares);
        self.entries.insert(at, entry, spare);
        if self.in_step {
            push_edit(&mut self.log, Edit::Put(at));
        }
    }

    /// Takes the entry at a place out. An open step keeps it until it is closed.
    pub fn drop_out(&mut self, at: usize)
        requires within { at < length self.old.list.current }
        requires room { 0 < self.old.room }
        ensures list { self.new.list ≡ edited (remove self.old.list.current at) self.old.list }
        ensures room { self.old.room ≤ self.new.room + 1 }
    {
        let (entry, spare) = self.entries.remove(at);
        if self.in_step {
            push_edit(&mut self.log, Edit::Taken(at, entry, spare));
        }
    }

    /// Moves the item at the place `from` to the place `to`, with another tag. The item isn't copied.
    pub fn shift(&mut self, from: usize, to: usize, tag: K)
        requires from { from < length self.old.list.current }
        requires to { to < length self.old.list.current }
        requires room { 0 < self.old.room }
        ensures list { self.new.list ≡ edited (moved from to tag self.old.list.current) self.old.list }
        ensures room { self.old.room ≤ self.new.room + 1 }
    {
        let old = shift(&mut self.entries, from, to, tag);
        if self.in_step {
            push_edit(&mut self.log, Edit::Moved(from, to, old));
        }
    }

    /// Takes the entry at a place out and gives it to the caller. Takes no memory.
    pub fn take(&mut self, at: usize) -> (K, T)
        requires within { at < length self.old.list.current }
        requires closed { self.old.list.saved ≡ None }
        ensures entry { result ≡ slice_index_or self.old.list.current at result }
        ensures list { self.new.list ≡ edited (remove self.old.list.current at) self.old.list }
    {
        let (entry, _) = self.entries.remove(at);
        entry
    }

    /// Takes the entries from the place `first` to the one before `end` out, and gives them to the caller. Logarithmic, and takes no memory.
    pub fn cut(&mut self, first: usize, end: usize) -> UndoList<K, T>
        requires order { first ≤ end }
        requires within { end ≤ length self.old.list.current }
        requires closed { self.old.list.saved ≡ None }
        ensures out { result.list ≡ closed (drop first (take end self.old.list.current)) }
        ensures rest { self.new.list ≡ edited (take first self.old.list.current ++ drop end self.old.list.current) self.old.list }
    {
        let alloc = *self.log.allocator();
        UndoList {
            entries: self.entries.cut(first, end),
            log: Vec::new(alloc),
            spares: Vec::new(alloc),
            in_step: false,
        }
    }

    /// Takes all entries out. Takes no memory.
    pub fn clear(&mut self)
        requires { self.old.list.saved ≡ None }
        ensures { self.new.list ≡ edited [] self.old.list }
    {
        self.entries = Sequence::new();
    }

    /// Opens a step. Takes no memory.
    pub fn begin(&mut self)
        requires { self.old.list.saved ≡ None }
        ensures list { self.new.list ≡ begun self.old.list }
        ensures room { self.new.room ≡ self.old.room }
    {
        self.in_step = true;
    }

    /// Closes the step, and what stood at its begin stands again. Takes no memory.
    pub fn undo(&mut self)
        requires { IsSome self.old.list.saved }
        ensures { self.new.list ≡ undone self.old.list }
    {
        take_all_back(&mut self.entries, &mut self.log);
        self.in_step = false;
    }

    /// Closes the step, and what stands now stays. Takes no memory.
    pub fn commit(&mut self)
        requires { IsSome self.old.list.saved }
        ensures { self.new.list ≡ committed self.old.list }
    {
        self.log.clear();
        self.in_step = false;
    }
}
