// Lists beside one another, each by its number. Each edit in an open step is one more entry of the log: undo takes the log back from its end, and
// commit lets it go. Memory is taken by `add` and `reserve` alone, so what follows it can't fail half done.
ghost use Rattle.std.specs.Prelude.{◌≡◌, ◌<◌, ◌≤◌, ◌+◌, ◌++◌, ◌∷◌, [], ℕ, IfOk, IsSome, None, OnErr, OnOk, Some, drop, length, map, slice_get, slice_index_or, take, vec_capacity, vec_len};
ghost use Rattle.std.specs.List.{position_or_len};
ghost use Rattle.std.specs.Option.{is_some};
ghost use Rattle.sk_deques.specs.DequeMoves.{IsMove, emptied, list_at, moved, with_item, with_list, without_item};
ghost use Rattle.sk_undo.specs.Versions.{begun, closed, committed, edited, undone};

use crate::deque_edit::{DequeEdit, bound, carry, cut, put, take_all_back};
use crate::{Deque, Memory};
use sk_undo::{Predicate, Visit};
use std::alloc::Global;
use std::marker::Model;
use std::mem;

/// Lists, each by its number. Contracts see what stands, what stood at the begin of an open step, for how many items each list has memory, and
/// how many further edits can't fail.
#[derive(Drop)]
pub struct UndoDeques<K, T> {
    deques: Vec<Deque<(K, T)>>,
    log: Vec<DequeEdit<K, T>>,
    in_step: bool,
}

impl<K, T> Model for UndoDeques<K, T> {
    ghost use Rattle.std.specs.Coded.{coded×};
    ghost use Rattle.sk_deques.specs.DequesView.{DequesView, deques_view_code};

    ghost Value = { DequesView (K × T) };

    ghost coded = { deques_view_code (coded× K.code T.code) };

    ghost use Rattle.sk_deques.specs.UndoDeques.{is_sound, view_in};

    ghost view = { view_in };

    ghost invariant = { is_sound };
}

fn push_edit<K: Drop, T: Drop>(log: &mut Vec<DequeEdit<K, T>>, edit: DequeEdit<K, T>)
    requires { vec_len log.old < vec_capacity log.old }
    ensures items { log.new.items ≡ log.old.items ++ edit ∷ [] }
    ensures len { vec_len log.new ≡ vec_len log.old + 1 }
    ensures capacity { vec_capacity log.new ≡ vec_capacity log.old }
{
    log.push_reserved(edit);
}

impl<K: Drop, T: Drop> UndoDeques<K, T> {
    /// No lists. Takes no memory.
    pub fn new(alloc: Global) -> UndoDeques<K, T>
        ensures { result.lists ≡ closed [] }
    {
        UndoDeques {
            deques: Vec::new(alloc),
            log: Vec::new(alloc),
            in_step: false,
        }
    }

    /// How many lists there are.
    pub fn count(&self) -> usize
        ensures { result ≡ length self.now.lists.current }
    {
        self.deques.len()
    }

    pub fn is_open(&self) -> bool
        ensures { result ≡ is_some self.now.lists.saved }
    {
        self.in_step
    }

    /// How many items a list has. Takes constant time.
    pub fn len(&self, list: usize) -> usize
        requires { list < length self.now.lists.current }
        ensures is { result ≡ length (list_at list self.now.lists.current) }
        ensures within { result ≤ slice_index_or self.now.spaces list 0 }
    {
        self.deques[list].len()
    }

    /// The item of a list at a place. Takes constant time.
    pub fn get(&self, list: usize, at: usize) -> &(K, T)
        requires list { list < length self.now.lists.current }
        requires within { at < length (list_at list self.now.lists.current) }
        ensures { slice_get (list_at list self.now.lists.current) at ≡ Some result.now }
    {
        self.deques[list].get(at)
    }

    /// The place in a list of the first item that passes, of those from the place `first` to the one before `end`; `end` where none does. Looks at
    /// these items one after another.
    pub fn position_in<F: Predicate<(K, T)>>(
        &self,
        list: usize,
        first: usize,
        end: usize,
        test: &F,
    ) -> usize
        requires list { list < length self.now.lists.current }
        requires order { first ≤ end }
        requires within { end ≤ length (list_at list self.now.lists.current) }
        ensures is { result ≡ first + position_or_len (F.passes test.now) (drop first (take end (list_at list self.now.lists.current))) }
        ensures within { result ≤ end }
    {
        self.deques[list].position_in(first, end, test)
    }

    /// Visits the items of a list from the place `first` to the one before `end`, one after another.
    pub fn walk<V: Visit<(K, T)>>(
        &self,
        list: usize,
        first: usize,
        end: usize,
        visit: &mut V,
    ) -> Result<(), Memory>
        requires { list < length self.now.lists.current }
        ensures { OnOk result (V.visited visit.new ≡ V.visited visit.old ++ map V.output (drop first (take end (list_at list self.now.lists.current)))) }
    {
        self.deques[list].walk(first, end, visit)
    }

    /// A further list, without items, also of what stood. Answers its number.
    pub fn add(&mut self) -> Result<usize, Memory>
        ensures number { IfOk result (λ list. list ≡ length self.old.lists.current) }
        ensures ok { OnOk result (self.new.lists ≡ with_list self.old.lists) }
        ensures err { OnErr result (self.new ≡ self.old) }
    {
        let list = self.deques.len();
        let deque = Deque::new(*self.deques.allocator());
        self.deques.push(deque)?;
        Ok(list)
    }

    /// Takes the memory for so many further items of a list, each with its edit.
    pub fn reserve(&mut self, list: usize, count: usize) -> Result<(), Memory>
        requires { list < length self.old.lists.current }
        ensures lists { self.new.lists ≡ self.old.lists }
        ensures spaces { (other : ℕ) → slice_index_or self.old.spaces other 0 ≤ slice_index_or self.new.spaces other 0 }
        ensures room { self.old.room ≤ self.new.room }
        ensures items { OnOk result (length (list_at list self.new.lists.current) + count ≤ slice_index_or self.new.spaces list 0) }
        ensures edits { OnOk result (count ≤ self.new.room) }
    {
        self.log.reserve(count)?;
        self.deques[list].reserve(count)
    }

    /// Takes the memory for so many further edits that put no item in.
    pub fn reserve_edits(&mut self, edits: usize) -> Result<(), Memory>
        ensures lists { self.new.lists ≡ self.old.lists }
        ensures spaces { self.new.spaces ≡ self.old.spaces }
        ensures ok { OnOk result (edits ≤ self.new.room) }
    {
        self.log.reserve(edits)?;
        Ok(())
    }

    /// Puts an item into a list at a place.
    pub fn insert(&mut self, list: usize, at: usize, entry: (K, T))
        requires list { list < length self.old.lists.current }
        requires within { at ≤ length (list_at list self.old.lists.current) }
        requires space { length (list_at list self.old.lists.current) < slice_index_or self.old.spaces list 0 }
        requires room { 0 < self.old.room }
        ensures lists { self.new.lists ≡ edited (with_item list at entry self.old.lists.current) self.old.lists }
        ensures spaces { self.new.spaces ≡ self.old.spaces }
        ensures room { self.old.room ≤ self.new.room + 1 }
    {
        put(&mut self.deques, list, at, entry);
        if self.in_step {
            push_edit(&mut self.log, DequeEdit::Put(list, at));
        }
    }

    /// Takes the item of a list at a place out. An open step keeps it until it is closed.
    pub fn drop_out(&mut self, list: usize, at: usize)
        requires list { list < length self.old.lists.current }
        requires within { at < length (list_at list self.old.lists.current) }
        requires room { 0 < self.old.room }
        ensures lists { self.new.lists ≡ edited (without_item list at self.old.lists.current) self.old.lists }
        ensures spaces { self.new.spaces ≡ self.old.spaces }
        ensures room { self.old.room ≤ self.new.room + 1 }
    {
        bound(&self.deques, list);
        let entry = cut(&mut self.deques, list, at);
        if self.in_step {
            push_edit(&mut self.log, DequeEdit::Taken(list, at, entry));
        }
    }

    /// Moves the item at the place `i` of the list `from` to the place `j` of the list `to`, which may be the same, with another tag. It isn't copied.
    pub fn shift(&mut self, from: usize, i: usize, to: usize, j: usize, tag: K)
        requires fits { IsMove from i to j self.old.lists.current self.old.spaces }
        requires room { 0 < self.old.room }
        ensures lists { self.new.lists ≡ edited (moved from i to j tag self.old.lists.current) self.old.lists }
        ensures spaces { self.new.spaces ≡ self.old.spaces }
        ensures room { self.old.room ≤ self.new.room + 1 }
    {
        bound(&self.deques, from);
        let old = carry(&mut self.deques, from, i, to, j, tag);
        if self.in_step {
            push_edit(&mut self.log, DequeEdit::Moved(from, i, to, j, old));
        }
    }

    /// Takes the item of a list at a place out and gives it to the caller. Takes no memory.
    pub fn take(&mut self, list: usize, at: usize) -> (K, T)
        requires list { list < length self.old.lists.current }
        requires within { at < length (list_at list self.old.lists.current) }
        requires closed { self.old.lists.saved ≡ None }
        ensures item { slice_get (list_at list self.old.lists.current) at ≡ Some result }
        ensures lists { self.new.lists ≡ edited (without_item list at self.old.lists.current) self.old.lists }
        ensures spaces { self.new.spaces ≡ self.old.spaces }
        ensures room { self.new.room ≡ self.old.room }
    {
        cut(&mut self.deques, list, at)
    }

    /// Takes all items of a list out, and gives them to the caller with the memory that they are kept in. Takes constant time, and no memory.
    pub fn take_all(&mut self, list: usize) -> Deque<(K, T)>
        requires list { list < length self.old.lists.current }
        requires closed { self.old.lists.saved ≡ None }
        ensures items { result.items ≡ list_at list self.old.lists.current }
        ensures rest { self.new.lists ≡ edited (emptied list self.old.lists.current) self.old.lists }
    {
        let none = Deque::new(*self.deques.allocator());
        mem::replace(&mut self.deques[list], none)
    }

    /// Gives the memory of a list without items back, where no step is open.
    pub fn give_back(&mut self, list: usize)
        requires list { list < length self.old.lists.current }
        requires empty { list_at list self.old.lists.current ≡ [] }
        requires closed { self.old.lists.saved ≡ None }
        ensures { self.new.lists ≡ self.old.lists }
    {
        self.deques[list] = Deque::new(*self.deques.allocator());
    }

    /// Opens a step. Takes no memory.
    pub fn begin(&mut self)
        requires { self.old.lists.saved ≡ None }
        ensures lists { self.new.lists ≡ begun self.old.lists }
        ensures spaces { self.new.spaces ≡ self.old.spaces }
        ensures room { self.new.room ≡ self.old.room }
    {
        self.in_step = true;
    }

    /// Closes the step, and what stood at its begin stands again. Takes no memory.
    pub fn undo(&mut self)
        requires { IsSome self.old.lists.saved }
        ensures { self.new.lists ≡ undone self.old.lists }
    {
        take_all_back(&mut self.deques, &mut self.log);
        self.in_step = false;
    }

    /// Closes the step, and what stands now stays. Takes no memory.
    pub fn commit(&mut self)
        requires { IsSome self.old.lists.saved }
        ensures { self.new.lists ≡ committed self.old.lists }
    {
        self.log.clear();
        self.in_step = false;
    }
}
