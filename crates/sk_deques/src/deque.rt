// A list in a ring buffer. An item comes and goes at either end in constant time; in the middle it moves the items of the shorter side.
ghost use Rattle.std.specs.Prelude.{◌≡◌, ◌+◌, ◌++◌, ◌<◌, ◌≤◌, OnOk, [], drop, length, map, slice_index_or, take};
ghost use Rattle.std.specs.List.{position_or_len};
ghost use Rattle.sk_deques.specs.Deque.{cut_at, put_at};

use crate::Memory;
use sk_undo::{Predicate, Visit};
use std::alloc::Global;
use std::collections::VecDeque;
use std::marker::Model;

/// A list with memory for more items. Contracts see its items, and for how many there is memory in all.
#[derive(Drop)]
pub struct Deque<T> {
    ring: VecDeque<T>,
    // For how many items there is memory, as far as was promised.
    space: usize,
}

impl<T> Model for Deque<T> {
    ghost use Rattle.std.specs.Prelude.{◌≤◌, length};
    ghost use Rattle.std.specs.VecDeque.{deque_capacity};
    ghost use Rattle.sk_deques.specs.Deque.{Deque as DequeSeen, deque_code};

    ghost Value = { DequeSeen T };

    ghost coded = { deque_code T.code };

    ghost view = { λ l. record { items = l.ring.items; space = l.space } };

    ghost invariant = { λ l. (length l.ring.items ≤ l.space) × (l.space ≤ deque_capacity l.ring) };
}

impl<T: Drop> Deque<T> {
    /// Takes no memory.
    pub fn new(alloc: Global) -> Deque<T>
        ensures { result.items ≡ [] }
    {
        Deque {
            ring: VecDeque::new(alloc),
            space: 0,
        }
    }

    pub fn len(&self) -> usize
        ensures is { result ≡ length self.now.items }
        ensures within { result ≤ self.now.space }
    {
        self.ring.len()
    }

    /// The item at a place. Takes constant time.
    pub fn get(&self, at: usize) -> &T
        requires { at < length self.now.items }
        ensures { result.now ≡ slice_index_or self.now.items at result.now }
    {
        &self.ring[at]
    }

    /// The place of the first item that passes, of those from the place `first` to the one before `end`; `end` where none does. Looks at these
    /// items one after another.
    pub fn position_in<F: Predicate<T>>(&self, first: usize, end: usize, test: &F) -> usize
        requires order { first ≤ end }
        requires within { end ≤ length self.now.items }
        ensures is { result ≡ first + position_or_len (F.passes test.now) (drop first (take end self.now.items)) }
        ensures within { result ≤ end }
    {
        let (front, back) = self.ring.as_slices();
        let turn = front.len();
        let stop = end.min(turn);
        let mut at = first;
        while at < stop {
            if test.test(&front[at]) {
                return at;
            }
            at += 1;
        }
        while at < end {
            if test.test(&back[at - turn]) {
                return at;
            }
            at += 1;
        }
        end
    }

    /// Visits the items from the place `first` to the one before `end`, one after another.
    pub fn walk<V: Visit<T>>(&self, first: usize, end: usize, visit: &mut V) -> Result<(), Memory>
        ensures { OnOk result (V.visited visit.new ≡ V.visited visit.old ++ map V.output (drop first (take end self.now.items))) }
    {
        let stop = end.min(self.len());
        let mut at = first;
        while at < stop {
            visit.visit(self.get(at))?;
            at += 1;
        }
        Ok(())
    }

    /// Takes the memory for so many further items.
    pub fn reserve(&mut self, count: usize) -> Result<(), Memory>
        ensures items { self.new.items ≡ self.old.items }
        ensures space { self.old.space ≤ self.new.space }
        ensures ok { OnOk result (length self.new.items + count ≤ self.new.space) }
    {
        self.ring.reserve(count)?;
        self.space = self.space.max(self.ring.len() + count);
        Ok(())
    }

    /// Puts an item in at a place.
    pub fn put(&mut self, at: usize, item: T)
        requires within { at ≤ length self.old.items }
        requires room { length self.old.items < self.old.space }
        ensures { self.new ≡ put_at at item self.old }
    {
        if at == 0 {
            self.ring.push_front_reserved(item);
        } else if at == self.ring.len() {
            self.ring.push_back_reserved(item);
        } else {
            match self.ring.insert(at, item) {
                Ok(()) => {}
                Err(_) => unreachable!(),
            }
        }
    }

    /// Takes the item at a place out.
    pub fn cut(&mut self, at: usize) -> T
        requires { at < length self.old.items }
        ensures item { result ≡ slice_index_or self.old.items at result }
        ensures rest { self.new ≡ cut_at at self.old }
    {
        let item = if at == 0 {
            self.ring.pop_front()
        } else if at + 1 == self.ring.len() {
            self.ring.pop_back()
        } else {
            self.ring.remove(at)
        };
        match item {
            Some(item) => item,
            None => unreachable!(),
        }
    }
}
