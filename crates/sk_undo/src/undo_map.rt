// A map in the order of its keys, whose edits in an open step can be taken back. Memory is taken by `reserve` alone.
ghost use Rattle.std.specs.Prelude.{◌≡◌, ◌+◌, ◌<◌, ◌≤◌, [], not, true, IsSome, None, OnOk, Some, length, option_map, slice_get};
ghost use Rattle.std.specs.BTreeMap.{insert_entry, is_at};
ghost use Rattle.std.specs.Map.{keys_of, lookup, remove_entry};
ghost use Rattle.std.specs.Option.{is_some};
ghost use Rattle.sk_undo.specs.Balance.{most};
ghost use Rattle.sk_undo.specs.Entries.{keys_in, with_entry, with_new};
ghost use Rattle.sk_undo.specs.Sorted.{is_ordered, is_sorted, rank, rank_past};
ghost use Rattle.sk_undo.specs.Versions.{begun, closed, committed, edited, undone};

use crate::search::{find, rank, rank_past, seek};
use crate::{Memory, Query, UndoList};
use std::alloc::Global;
use std::marker::Model;

/// A map of at most 2^60 entries in the order of their keys. Contracts see the list of entries that stands, the one that stood at the begin of an open
/// step, and how many further edits can't fail. What is looked up is a key, or any other `Query`: then the first entry whose key matches is meant.
#[derive(Drop)]
pub struct UndoMap<K: Ord, V> {
    // The value, which may change, as the tag of its key.
    entries: UndoList<V, K>,
}

impl<K: Ord, V> Model for UndoMap<K, V> {
    ghost use Rattle.std.specs.Prelude.{List};
    ghost use Rattle.std.specs.Coded.{coded_list, coded×};
    ghost use Rattle.sk_undo.specs.UndoView.{UndoView, undo_view_code};

    ghost Value = { UndoView (List (K × V)) };

    ghost coded = { undo_view_code (coded_list (coded× K.code V.code)) };

    ghost use Rattle.sk_undo.specs.UndoMap.{AreSorted, map_in};

    ghost view = { λ m. map_in m.entries };

    ghost invariant = { λ m. AreSorted K.cmp (map_in m.entries).list };
}

// Puts an entry in at its place, where its key has none.
fn put_new<K: Ord + Drop, V: Drop>(entries: &mut UndoList<V, K>, at: usize, key: K, value: V)
    requires room { 0 < entries.old.room }
    requires place { at ≡ rank (K.cmp key) (keys_in entries.old.list.current) }
    requires within { at ≤ length entries.old.list.current }
    ensures list { entries.new.list ≡ edited (with_new K.cmp entries.old.list.current key value) entries.old.list }
    ensures room { entries.old.room ≤ entries.new.room + 1 }
{
    entries.insert(at, (value, key));
}

#[tactic(auto, using(crate::proofs::Sorted::sorted_ordered))]
impl<K: Ord + Drop, V: Drop> UndoMap<K, V> {
    /// Takes no memory.
    pub fn new(alloc: Global) -> UndoMap<K, V>
        ensures { result.list ≡ closed [] }
    {
        UndoMap {
            entries: UndoList::new(alloc),
        }
    }

    /// How many entries there are.
    pub fn len(&self) -> usize
        ensures is { result ≡ length self.now.list.current }
        ensures small { result ≤ most }
        ensures sorted { is_sorted K.cmp (keys_of self.now.list.current) ≡ true }
    {
        self.entries.len()
    }

    pub fn is_open(&self) -> bool
        ensures { result ≡ is_some self.now.list.saved }
    {
        self.entries.is_open()
    }

    /// The entry at an index. Logarithmic.
    pub fn at(&self, index: usize) -> Option<(&K, &V)>
        ensures { option_map (λ entry. (entry.0.now, entry.1.now)) result ≡ slice_get self.now.list.current index }
    {
        if index >= self.entries.len() {
            return None;
        }
        let (value, key) = self.entries.get(index);
        Some((key, value))
    }

    /// The value of a key. Logarithmic.
    pub fn get<Q: Query<K>>(&self, query: &Q) -> Option<&V>
        ensures { option_map (λ value. value.now) result ≡ lookup (is_at (Q.order query.now)) self.now.list.current }
    {
        match find(&self.entries, query) {
            Some(at) => Some(&self.entries.get(at).0),
            None => None,
        }
    }

    /// Whether a key has an entry. Logarithmic.
    pub fn has<Q: Query<K>>(&self, query: &Q) -> bool
        ensures { result ≡ is_some (lookup (is_at (Q.order query.now)) self.now.list.current) }
    {
        find(&self.entries, query).is_some()
    }

    /// How many entries stand before those that match. Logarithmic.
    pub fn rank<Q: Query<K>>(&self, query: &Q) -> usize
        ensures is { result ≡ rank (Q.order query.now) (keys_of self.now.list.current) }
        ensures within { result ≤ length self.now.list.current }
    {
        rank(&self.entries, query)
    }

    /// How many entries stand before those behind all that match. Logarithmic.
    pub fn rank_past<Q: Query<K>>(&self, query: &Q) -> usize
        ensures is { result ≡ rank_past (Q.order query.now) (keys_of self.now.list.current) }
        ensures within { result ≤ length self.now.list.current }
    {
        rank_past(&self.entries, query)
    }

    /// Takes the memory for so many further edits.
    pub fn reserve(&mut self, edits: usize) -> Result<(), Memory>
        ensures list { self.new.list ≡ self.old.list }
        ensures ok { OnOk result (edits ≤ self.new.room) }
    {
        self.entries.reserve(edits)
    }

    /// Gives a key this value. Logarithmic.
    pub fn put(&mut self, key: K, value: V)
        requires { 0 < self.old.room }
        ensures list { self.new.list ≡ edited (insert_entry K.cmp self.old.list.current key value) self.old.list }
        ensures room { self.old.room ≤ self.new.room + 1 }
    {
        let (at, is_there) = seek(&self.entries, &key);
        if is_there {
            self.entries.shift(at, at, value);
        } else {
            put_new(&mut self.entries, at, key, value);
        }
    }

    /// Gives a key this value where it has none, and answers whether it had none. Logarithmic.
    pub fn add(&mut self, key: K, value: V) -> bool
        requires { 0 < self.old.room }
        ensures answer { result ≡ not (is_some (lookup (is_at (K.cmp key)) self.old.list.current)) }
        ensures list { self.new.list ≡ edited (with_entry K.cmp self.old.list.current key value) self.old.list }
        ensures room { self.old.room ≤ self.new.room + 1 }
    {
        let (at, is_there) = seek(&self.entries, &key);
        if is_there {
            return false;
        }
        put_new(&mut self.entries, at, key, value);
        true
    }

    /// Removes an entry, and answers whether there was one. An open step keeps it until it is closed. Logarithmic.
    pub fn remove<Q: Query<K>>(&mut self, query: &Q) -> bool
        requires { 0 < self.old.room }
        ensures answer { result ≡ is_some (lookup (is_at (Q.order query.now)) self.old.list.current) }
        ensures list { self.new.list ≡ edited (remove_entry (is_at (Q.order query.now)) self.old.list.current) self.old.list }
        ensures room { self.old.room ≤ self.new.room + 1 }
    {
        match find(&self.entries, query) {
            Some(at) => {
                self.entries.drop_out(at);
                true
            }
            None => false,
        }
    }

    /// Removes an entry and gives its value, where no step is open. Takes no memory. Logarithmic.
    pub fn take<Q: Query<K>>(&mut self, query: &Q) -> Option<V>
        requires { self.old.list.saved ≡ None }
        ensures answer { result ≡ lookup (is_at (Q.order query.now)) self.old.list.current }
        ensures list { self.new.list ≡ edited (remove_entry (is_at (Q.order query.now)) self.old.list.current) self.old.list }
    {
        match find(&self.entries, query) {
            Some(at) => Some(self.entries.take(at).0),
            None => None,
        }
    }

    /// Removes all entries, where no step is open. Takes no memory.
    pub fn clear(&mut self)
        requires { self.old.list.saved ≡ None }
        ensures { self.new.list ≡ edited [] self.old.list }
    {
        self.entries.clear();
    }

    /// Opens a step. Takes no memory.
    pub fn begin(&mut self)
        requires { self.old.list.saved ≡ None }
        ensures list { self.new.list ≡ begun self.old.list }
        ensures room { self.new.room ≡ self.old.room }
    {
        self.entries.begin();
    }

    /// Closes the step, and what stood at its begin stands again. Takes no memory.
    pub fn undo(&mut self)
        requires { IsSome self.old.list.saved }
        ensures { self.new.list ≡ undone self.old.list }
    {
        self.entries.undo();
    }

    /// Closes the step, and what stands now stays. Takes no memory.
    pub fn commit(&mut self)
        requires { IsSome self.old.list.saved }
        ensures { self.new.list ≡ committed self.old.list }
    {
        self.entries.commit();
    }
}
