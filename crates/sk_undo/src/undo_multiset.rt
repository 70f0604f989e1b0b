// A multiset in order, whose edits in an open step can be taken back. Memory is taken by `reserve` alone.
ghost use Rattle.std.specs.Prelude.{◌≡◌, ◌+◌, ◌<◌, ◌≤◌, [], true, not, IsSome, None, OnOk, filter, length, slice_index_or};
ghost use Rattle.std.specs.BTreeMap.{is_at};
ghost use Rattle.std.specs.List.{count_by, insert, list_any};
ghost use Rattle.std.specs.Option.{is_some};
ghost use Rattle.std.specs.Set.{remove_key};
ghost use Rattle.sk_undo.specs.Balance.{most};
ghost use Rattle.sk_undo.specs.Sorted.{is_ordered, rank, rank_past};
ghost use Rattle.sk_undo.specs.Versions.{begun, closed, committed, edited, undone};

use crate::search::{find, rank, rank_past, seek};
use crate::{Memory, Query, UndoList};
use std::alloc::Global;
use std::marker::Model;

/// At most 2^60 keys in order, each as often as it was put in. Contracts see the list of keys that stands, the one that stood at the begin of an open
/// step, and how many further edits can't fail.
#[derive(Drop)]
pub struct UndoMultiset<K: Ord> {
    keys: UndoList<(), K>,
}

impl<K: Ord> Model for UndoMultiset<K> {
    ghost use Rattle.std.specs.Prelude.{List};
    ghost use Rattle.std.specs.Coded.{coded_list};
    ghost use Rattle.sk_undo.specs.UndoView.{UndoView, undo_view_code};
    ghost use Rattle.sk_undo.specs.Sorted.{is_ordered};
    ghost use Rattle.sk_undo.specs.Versions.{BothPass};

    ghost Value = { UndoView (List K) };

    ghost coded = { undo_view_code (coded_list K.code) };

    ghost use Rattle.sk_undo.specs.UndoMultiset.{multiset_in};

    ghost view = { λ s. multiset_in s.keys };

    ghost invariant = { λ s. BothPass (is_ordered K.cmp) (multiset_in s.keys).list };
}

impl<K: Ord + Drop> UndoMultiset<K> {
    /// Takes no memory.
    pub fn new(alloc: Global) -> UndoMultiset<K>
        ensures { result.list ≡ closed [] }
    {
        UndoMultiset {
            keys: UndoList::new(alloc),
        }
    }

    /// How many keys there are.
    pub fn len(&self) -> usize
        ensures is { result ≡ length self.now.list.current }
        ensures small { result ≤ most }
        ensures ordered { is_ordered K.cmp self.now.list.current ≡ true }
    {
        self.keys.len()
    }

    pub fn is_open(&self) -> bool
        ensures { result ≡ is_some self.now.list.saved }
    {
        self.keys.is_open()
    }

    /// The key at an index. Logarithmic.
    pub fn at(&self, index: usize) -> &K
        requires { index < length self.now.list.current }
        ensures { result.now ≡ slice_index_or self.now.list.current index result.now }
    {
        &self.keys.get(index).1
    }

    /// How many keys stand before those that match. Logarithmic.
    pub fn rank<Q: Query<K>>(&self, query: &Q) -> usize
        ensures is { result ≡ rank (Q.order query.now) self.now.list.current }
        ensures within { result ≤ length self.now.list.current }
    {
        rank(&self.keys, query)
    }

    /// How many keys stand before those behind all that match. Logarithmic.
    pub fn rank_past<Q: Query<K>>(&self, query: &Q) -> usize
        ensures is { result ≡ rank_past (Q.order query.now) self.now.list.current }
        ensures within { result ≤ length self.now.list.current }
    {
        rank_past(&self.keys, query)
    }

    /// How many keys match. Logarithmic.
    pub fn count<Q: Query<K>>(&self, query: &Q) -> usize
        ensures is { result ≡ count_by (is_at (Q.order query.now)) self.now.list.current }
        ensures small { result ≤ most }
    {
        let _len = self.keys.len(); // its contract bounds the number
        let (first, is_there) = seek(&self.keys, query);
        if !is_there {
            return 0;
        }
        let end = rank_past(&self.keys, query);
        end.saturating_sub(first)
    }

    /// Takes the memory for so many further edits.
    pub fn reserve(&mut self, edits: usize) -> Result<(), Memory>
        ensures list { self.new.list ≡ self.old.list }
        ensures ok { OnOk result (edits ≤ self.new.room) }
    {
        self.keys.reserve(edits)
    }

    /// Puts a key in, behind those that are equal to it. Logarithmic.
    pub fn put(&mut self, key: K)
        requires { 0 < self.old.room }
        ensures list { self.new.list ≡ edited (insert self.old.list.current (rank_past (K.cmp key) self.old.list.current) key) self.old.list }
        ensures room { self.old.room ≤ self.new.room + 1 }
    {
        let at = rank_past(&self.keys, &key);
        self.keys.insert(at, ((), key));
    }

    /// Removes the first key that matches, and answers whether there was one. An open step keeps it until it is closed. Logarithmic.
    pub fn remove<Q: Query<K>>(&mut self, query: &Q) -> bool
        requires { 0 < self.old.room }
        ensures answer { result ≡ list_any (is_at (Q.order query.now)) self.old.list.current }
        ensures list { self.new.list ≡ edited (remove_key (is_at (Q.order query.now)) self.old.list.current) self.old.list }
        ensures room { self.old.room ≤ self.new.room + 1 }
    {
        match find(&self.keys, query) {
            Some(at) => {
                self.keys.drop_out(at);
                true
            }
            None => false,
        }
    }

    /// Removes the first key that matches, where no step is open, and answers whether there was one. Takes no memory. Logarithmic.
    pub fn take<Q: Query<K>>(&mut self, query: &Q) -> bool
        requires { self.old.list.saved ≡ None }
        ensures answer { result ≡ list_any (is_at (Q.order query.now)) self.old.list.current }
        ensures list { self.new.list ≡ edited (remove_key (is_at (Q.order query.now)) self.old.list.current) self.old.list }
    {
        match find(&self.keys, query) {
            Some(at) => {
                let _key = self.keys.take(at);
                true
            }
            None => false,
        }
    }

    /// Takes all keys that match out, where no step is open, and gives them to the caller. Logarithmic, and takes no memory.
    pub fn take_all<Q: Query<K>>(&mut self, query: &Q) -> UndoMultiset<K>
        requires { self.old.list.saved ≡ None }
        ensures { self.new.list ≡ edited (filter (λ key. not (is_at (Q.order query.now) key)) self.old.list.current) self.old.list }
    {
        let first = rank(&self.keys, query);
        let end = rank_past(&self.keys, query);
        UndoMultiset {
            keys: self.keys.cut(first, end),
        }
    }

    /// Removes all keys, where no step is open. Takes no memory.
    pub fn clear(&mut self)
        requires { self.old.list.saved ≡ None }
        ensures { self.new.list ≡ edited [] self.old.list }
    {
        self.keys.clear();
    }

    /// Opens a step. Takes no memory.
    pub fn begin(&mut self)
        requires { self.old.list.saved ≡ None }
        ensures list { self.new.list ≡ begun self.old.list }
        ensures room { self.new.room ≡ self.old.room }
    {
        self.keys.begin();
    }

    /// Closes the step, and what stood at its begin stands again. Takes no memory.
    pub fn undo(&mut self)
        requires { IsSome self.old.list.saved }
        ensures { self.new.list ≡ undone self.old.list }
    {
        self.keys.undo();
    }

    /// Closes the step, and what stands now stays. Takes no memory.
    pub fn commit(&mut self)
        requires { IsSome self.old.list.saved }
        ensures { self.new.list ≡ committed self.old.list }
    {
        self.keys.commit();
    }
}
