// A set in order, whose edits in an open step can be taken back. Memory is taken by `reserve` alone.
ghost use Rattle.std.specs.Prelude.{◌≡◌, ◌+◌, ◌<◌, ◌≤◌, [], not, true, IsSome, None, OnOk, length, option_map, slice_get};
ghost use Rattle.std.specs.BTreeMap.{is_at};
ghost use Rattle.std.specs.BTreeSet.{insert_key};
ghost use Rattle.std.specs.List.{list_any};
ghost use Rattle.std.specs.Option.{is_some};
ghost use Rattle.std.specs.Set.{remove_key};
ghost use Rattle.sk_undo.specs.Balance.{most};
ghost use Rattle.sk_undo.specs.Sorted.{is_sorted, rank, rank_past};
ghost use Rattle.sk_undo.specs.Versions.{begun, closed, committed, edited, undone};

use crate::{Memory, Query, UndoMap};
use std::alloc::Global;
use std::marker::Model;

/// A set of at most 2^60 keys in order. Contracts see the list of keys that stands, the one that stood at the begin of an open step, and how many
/// further edits can't fail. What is looked up is a key, or any other `Query`: then the first key that matches is meant.
#[derive(Drop)]
pub struct UndoSet<K: Ord> {
    keys: UndoMap<K, ()>,
}

impl<K: Ord> Model for UndoSet<K> {
    ghost use Rattle.std.specs.Prelude.{List};
    ghost use Rattle.std.specs.Coded.{coded_list};
    ghost use Rattle.sk_undo.specs.UndoView.{UndoView, undo_view_code};

    ghost Value = { UndoView (List K) };

    ghost coded = { undo_view_code (coded_list K.code) };

    ghost use Rattle.sk_undo.specs.UndoSet.{set_in};

    ghost view = { λ s. set_in s.keys };
}

impl<K: Ord + Drop> UndoSet<K> {
    /// Takes no memory.
    pub fn new(alloc: Global) -> UndoSet<K>
        ensures { result.list ≡ closed [] }
    {
        UndoSet {
            keys: UndoMap::new(alloc),
        }
    }

    /// How many keys there are.
    pub fn len(&self) -> usize
        ensures is { result ≡ length self.now.list.current }
        ensures small { result ≤ most }
        ensures sorted { is_sorted K.cmp self.now.list.current ≡ true }
    {
        self.keys.len()
    }

    pub fn is_open(&self) -> bool
        ensures { result ≡ is_some self.now.list.saved }
    {
        self.keys.is_open()
    }

    /// The key at an index. Logarithmic.
    pub fn at(&self, index: usize) -> Option<&K>
        ensures { option_map (λ key. key.now) result ≡ slice_get self.now.list.current index }
    {
        match self.keys.at(index) {
            Some((key, _)) => Some(key),
            None => None,
        }
    }

    /// Whether a key is there. Logarithmic.
    pub fn has<Q: Query<K>>(&self, query: &Q) -> bool
        ensures { result ≡ list_any (is_at (Q.order query.now)) self.now.list.current }
    {
        self.keys.has(query)
    }

    /// How many keys stand before those that match. Logarithmic.
    pub fn rank<Q: Query<K>>(&self, query: &Q) -> usize
        ensures is { result ≡ rank (Q.order query.now) self.now.list.current }
        ensures within { result ≤ length self.now.list.current }
    {
        self.keys.rank(query)
    }

    /// How many keys stand before those behind all that match. Logarithmic.
    pub fn rank_past<Q: Query<K>>(&self, query: &Q) -> usize
        ensures is { result ≡ rank_past (Q.order query.now) self.now.list.current }
        ensures within { result ≤ length self.now.list.current }
    {
        self.keys.rank_past(query)
    }

    /// Takes the memory for so many further edits.
    pub fn reserve(&mut self, edits: usize) -> Result<(), Memory>
        ensures list { self.new.list ≡ self.old.list }
        ensures ok { OnOk result (edits ≤ self.new.room) }
    {
        self.keys.reserve(edits)
    }

    /// Adds a key, and answers whether it is new. Logarithmic.
    pub fn insert(&mut self, key: K) -> bool
        requires { 0 < self.old.room }
        ensures answer { result ≡ not (list_any (is_at (K.cmp key)) self.old.list.current) }
        ensures list { self.new.list ≡ edited (insert_key K.cmp self.old.list.current key) self.old.list }
        ensures room { self.old.room ≤ self.new.room + 1 }
    {
        let _len = self.keys.len(); // its contract says that the keys are in order
        self.keys.add(key, ())
    }

    /// Removes a key, and answers whether it was there. An open step keeps it until it is closed. Logarithmic.
    pub fn remove<Q: Query<K>>(&mut self, query: &Q) -> bool
        requires { 0 < self.old.room }
        ensures answer { result ≡ list_any (is_at (Q.order query.now)) self.old.list.current }
        ensures list { self.new.list ≡ edited (remove_key (is_at (Q.order query.now)) self.old.list.current) self.old.list }
        ensures room { self.old.room ≤ self.new.room + 1 }
    {
        self.keys.remove(query)
    }

    /// Removes a key, where no step is open, and answers whether it was there. Takes no memory. Logarithmic.
    pub fn take<Q: Query<K>>(&mut self, query: &Q) -> bool
        requires { self.old.list.saved ≡ None }
        ensures answer { result ≡ list_any (is_at (Q.order query.now)) self.old.list.current }
        ensures list { self.new.list ≡ edited (remove_key (is_at (Q.order query.now)) self.old.list.current) self.old.list }
    {
        self.keys.take(query).is_some()
    }

    /// Removes all keys, where no step is open. Takes no memory.
    pub fn clear(&mut self)
        requires { self.old.list.saved ≡ None }
        ensures { self.new.list ≡ edited [] self.old.list }
    {
        self.keys.clear();
    }

    /// Opens a step. Takes no memory.
    pub fn begin(&mut self)
        requires { self.old.list.saved ≡ None }
        ensures list { self.new.list ≡ begun self.old.list }
        ensures room { self.new.room ≡ self.old.room }
    {
        self.keys.begin();
    }

    /// Closes the step, and what stood at its begin stands again. Takes no memory.
    pub fn undo(&mut self)
        requires { IsSome self.old.list.saved }
        ensures { self.new.list ≡ undone self.old.list }
    {
        self.keys.undo();
    }

    /// Closes the step, and what stands now stays. Takes no memory.
    pub fn commit(&mut self)
        requires { IsSome self.old.list.saved }
        ensures { self.new.list ≡ committed self.old.list }
    {
        self.keys.commit();
    }
}
