// A list as a weight-balanced tree: each node keeps the number of its items, so that an item is found, put in and taken out by its place in
// logarithmic time. The memory of an item can be made before it is put in, and comes back with it when it is taken out.
ghost use Rattle.std.specs.Prelude.{◌≡◌, ◌+◌, ◌-◌, ◌*◌, ◌^◌, ◌<◌, ◌≤◌, ◌∷◌, ◌++◌, true, length, slice_get, slice_index_or, MatchOption, IfSome, OnOk, drop, map, take, option_map, unwrap_or, [], ◌↔◌, IsTrue};
ghost use Rattle.std.specs.List.{insert, position_or_len, remove};
ghost use Rattle.sk_undo.specs.Balance.{DifferBy, most};
ghost use Rattle.std.specs.Ordering.{is_le};
ghost use Rattle.sk_undo.specs.Partitioned.{is_partitioned};
ghost use Rattle.sk_undo.specs.Sorted.{is_found, is_match_or, rank};
ghost use Rattle.sk_undo.specs.Moves.{with_tag};
ghost use Rattle.sk_undo.specs.Node.{IsNear, items_in};

use crate::{Memory, Predicate, Probe, Visit};
use std::alloc::Global;
use std::marker::Model;
use std::mem;

/// A list of at most 2^60 items. Contracts see the list.
#[cycle(sequence)]
#[derive(Drop)]
pub struct Sequence<T> {
    root: Option<Box<Node<T>>>,
}

#[cycle(sequence)]
#[derive(Drop)]
enum Node<T> {
    Empty,
    // The left side, the item, the number of items in all, the right side.
    Fork(Sequence<T>, T, usize, Sequence<T>),
}

/// The memory that one item is kept in.
#[derive(Drop)]
pub struct Spare<T> {
    node: Box<Node<T>>,
}

impl<T: Drop> Spare<T> {
    pub fn new(alloc: Global) -> Result<Spare<T>, Memory> {
        Ok(Spare {
            node: Box::new(alloc, Node::Empty)?,
        })
    }
}

// A sequence taken apart at its root.
#[derive(Drop)]
struct Parts<T> {
    left: Sequence<T>,
    item: T,
    right: Sequence<T>,
    spare: Spare<T>,
}

impl<T> Model for Sequence<T> {
    ghost use Rattle.std.specs.Prelude.{IfSome, List, [], length, option_map, unwrap_or};
    ghost use Rattle.std.specs.Coded.{coded_list};

    ghost Value = { List T };

    ghost coded = { coded_list T.code };

    ghost use Rattle.sk_undo.specs.Node.{IsCounted, items_in};

    ghost view = { λ a. unwrap_or (option_map (λ b. items_in b.value) a.root) [] };

    ghost invariant = { λ a. IfSome a.root (λ b. IsCounted b.value) };

    ghost size = { length };

    ghost use Rattle.std.proofs.Common.{arith, length-append};

    ghost size_decreases = { λ a h. Prim.grind (arith, length-append) };
}

impl<T: Drop> Sequence<T> {
    /// Takes no memory.
    pub fn new() -> Sequence<T>
        ensures { result ≡ [] }
    {
        Sequence { root: None }
    }

    #[inline(always)]
    pub fn len(&self) -> usize
        ensures is { result ≡ length self.now }
        ensures small { result ≤ most }
    {
        match &self.root {
            None => 0,
            Some(node) => match &**node {
                Node::Empty => 0,
                Node::Fork(_, _, n, _) => *n,
            },
        }
    }

    // The sides of the root and its item.
    #[inline(always)]
    fn sides(&self) -> Option<(&Sequence<T>, &T, &Sequence<T>)>
        ensures is { MatchOption result (self.now ≡ []) (λ p. self.now ≡ p.0.now ++ p.1.now ∷ p.2.now) }
        ensures small { length self.now ≤ most }
    {
        match &self.root {
            None => None,
            Some(node) => match &**node {
                Node::Empty => None,
                Node::Fork(l, x, _, r) => Some((l, x, r)),
            },
        }
    }

    pub fn get(&self, at: usize) -> &T
        requires { at < length self.now }
        ensures { result.now ≡ slice_index_or self.now at result.now }
    {
        match self.sides() {
            None => unreachable!(),
            Some((l, x, r)) => {
                let here = l.len();
                if at < here {
                    l.get(at)
                } else if at == here {
                    x
                } else {
                    r.get(at - here - 1)
                }
            }
        }
    }

    /// The place of the first item that passes, where all behind it pass too; the length where none does. Logarithmic.
    pub fn partition_point<F: Predicate<T>>(&self, test: &F) -> usize
        requires { is_partitioned (F.passes test.now) self.now ≡ true }
        ensures is { result ≡ position_or_len (F.passes test.now) self.now }
        ensures within { result ≤ length self.now }
    {
        let _len = self.len(); // its contract bounds the sums
        self.point_behind(test, 0)
    }

    // The same behind so many items.
    #[tactic(auto, using(crate::proofs::Descents::first_left, crate::proofs::Descents::first_right, crate::proofs::Descents::partitioned_left, crate::proofs::Descents::partitioned_right))]
    fn point_behind<F: Predicate<T>>(&self, test: &F, before: usize) -> usize
        requires is_partitioned { is_partitioned (F.passes test.now) self.now ≡ true }
        requires small { before + length self.now ≤ most }
        ensures is { result ≡ before + position_or_len (F.passes test.now) self.now }
        ensures within { result ≤ before + length self.now }
    {
        match self.sides() {
            None => before,
            Some((l, x, r)) => {
                if test.test(x) {
                    l.point_behind(test, before)
                } else {
                    r.point_behind(test, before + l.len() + 1)
                }
            }
        }
    }

    /// How many items stand before those that match what is looked for and those behind them, and whether the first of these matches. Logarithmic.
    pub fn seek<P: Probe<T>>(&self, probe: &P) -> (usize, bool)
        requires { is_partitioned (λ x. is_le (P.order probe.now x)) self.now ≡ true }
        ensures place { result.0 ≡ rank (P.order probe.now) self.now }
        ensures there { result.1 ≡ is_found (P.order probe.now) self.now }
        ensures within { result.0 ≤ length self.now }
        ensures inside { result.1 ≡ true → result.0 < length self.now }
    {
        let _len = self.len(); // its contract bounds the places
        self.seek_behind(probe, 0, false)
    }

    // The same behind so many items. `last` is the answer where all items stand before it.
    #[tactic(auto, using(crate::proofs::Descents::first_left, crate::proofs::Descents::first_right, crate::proofs::Descents::partitioned_left, crate::proofs::Descents::partitioned_right, crate::proofs::Descents::match_left, crate::proofs::Descents::match_right))]
    fn seek_behind<P: Probe<T>>(&self, probe: &P, before: usize, last: bool) -> (usize, bool)
        requires rises { is_partitioned (λ x. is_le (P.order probe.now x)) self.now ≡ true }
        requires small { before + length self.now ≤ most }
        ensures place { result.0 ≡ before + rank (P.order probe.now) self.now }
        ensures there { result.1 ≡ is_match_or (P.order probe.now) last (slice_get self.now (rank (P.order probe.now) self.now)) }
        ensures within { result.0 ≤ before + length self.now }
    {
        match self.sides() {
            None => (before, last),
            Some((l, x, r)) => {
                let order = probe.probe(x);
                if order.is_le() {
                    l.seek_behind(probe, before, order.is_eq())
                } else {
                    r.seek_behind(probe, before + l.len() + 1, last)
                }
            }
        }
    }

    /// The place of the first item that passes, of those from the place `first` to the one before `end`, where all behind it up to `end` pass too;
    /// `end` where none does. Logarithmic.
    #[tactic(auto, using(crate::proofs::Ranges::range_left, crate::proofs::Ranges::range_right, crate::proofs::Searches::first_before, crate::proofs::Searches::first_behind, crate::proofs::Searches::partitioned_first, crate::proofs::Searches::partitioned_second))]
    pub fn first_in<F: Predicate<T>>(&self, first: usize, end: usize, test: &F) -> usize
        requires order { first ≤ end }
        requires within { end ≤ length self.now }
        requires is_partitioned { is_partitioned (F.passes test.now) (drop first (take end self.now)) ≡ true }
        ensures is { result ≡ first + position_or_len (F.passes test.now) (drop first (take end self.now)) }
        ensures within { result ≤ end }
    {
        match self.sides() {
            None => end,
            Some((l, x, r)) => {
                let here = l.len();
                if end <= here {
                    l.first_in(first, end, test)
                } else if here < first {
                    here + 1 + r.first_in(first - here - 1, end - here - 1, test)
                } else if test.test(x) {
                    l.first_in(first, here, test)
                } else {
                    here + 1 + r.first_in(0, end - here - 1, test)
                }
            }
        }
    }

    /// The place of the first item that passes, or the length where none does. Looks at the items one after another.
    #[tactic(auto, using(crate::proofs::Descents::position_left, crate::proofs::Descents::position_right))]
    pub fn position<F: Predicate<T>>(&self, test: &F) -> usize
        ensures is { result ≡ position_or_len (F.passes test.now) self.now }
        ensures within { result ≤ length self.now }
    {
        match self.sides() {
            None => 0,
            Some((l, x, r)) => {
                let at = l.position(test);
                if at < l.len() || test.test(x) {
                    at
                } else {
                    at + 1 + r.position(test)
                }
            }
        }
    }

    /// The place of the first item that passes, of those from the place `first` to the one before `end`; `end` where none does. Looks at these
    /// items one after another.
    #[tactic(auto, using(crate::proofs::Ranges::range_left, crate::proofs::Ranges::range_right, crate::proofs::Searches::found_left, crate::proofs::Searches::found_here, crate::proofs::Searches::found_right))]
    pub fn position_in<F: Predicate<T>>(&self, first: usize, end: usize, test: &F) -> usize
        requires order { first ≤ end }
        requires within { end ≤ length self.now }
        ensures is { result ≡ first + position_or_len (F.passes test.now) (drop first (take end self.now)) }
        ensures within { result ≤ end }
    {
        match self.sides() {
            None => end,
            Some((l, x, r)) => {
                let here = l.len();
                if end <= here {
                    l.position_in(first, end, test)
                } else if here < first {
                    here + 1 + r.position_in(first - here - 1, end - here - 1, test)
                } else {
                    let at = l.position_in(first, here, test);
                    if at < here {
                        at
                    } else if test.test(x) {
                        here
                    } else {
                        here + 1 + r.position_in(0, end - here - 1, test)
                    }
                }
            }
        }
    }

    /// Visits the items from the place `first` to the one before `end`, one after another.
    #[tactic(auto, using(crate::proofs::Ranges::range_left, crate::proofs::Ranges::range_right, crate::proofs::Ranges::range_around))]
    pub fn walk<V: Visit<T>>(&self, first: usize, end: usize, visit: &mut V) -> Result<(), Memory>
        ensures { OnOk result (V.visited visit.new ≡ V.visited visit.old ++ map V.output (drop first (take end self.now))) }
    {
        match self.sides() {
            None => Ok(()),
            Some((l, x, r)) => {
                let here = l.len();
                if end <= here {
                    l.walk(first, end, visit)
                } else if here < first {
                    r.walk(first - here - 1, end - here - 1, visit)
                } else {
                    l.walk(first, here, visit)?;
                    visit.visit(x)?;
                    r.walk(0, end - here - 1, visit)
                }
            }
        }
    }

    /// Puts an item in at a place. Takes no memory.
    #[tactic(auto, using(crate::proofs::Sides::insert_left, crate::proofs::Sides::insert_past))]
    pub fn insert(&mut self, at: usize, item: T, spare: Spare<T>)
        requires within { at ≤ length self.old }
        requires small { length self.old < most }
        ensures is { self.new ≡ insert self.old at item }
        ensures len { length self.new ≡ length self.old + 1 }
    {
        match &mut self.root {
            None => *self = fork(Sequence::new(), item, Sequence::new(), spare),
            Some(node) => match &mut **node {
                Node::Empty => *self = fork(Sequence::new(), item, Sequence::new(), spare),
                Node::Fork(left, _, n, right) => {
                    let here = left.len();
                    if at <= here {
                        left.insert(at, item, spare);
                    } else {
                        right.insert(at - here - 1, item, spare);
                    }
                    if are_level(left, right) {
                        *n += 1;
                    } else {
                        let root = mem::replace(&mut self.root, None);
                        *self = turned(root);
                    }
                }
            },
        }
    }

    /// Takes out the item at a place, with the memory that it was kept in. Takes no memory.
    #[tactic(auto, using(crate::proofs::Sides::remove_left, crate::proofs::Sides::remove_past, crate::proofs::Sides::remove_here, crate::proofs::Sides::remove_by_last))]
    pub fn remove(&mut self, at: usize) -> (T, Spare<T>)
        requires { at < length self.old }
        ensures item { result.0 ≡ slice_index_or self.old at result.0 }
        ensures rest { self.new ≡ remove self.old at }
        ensures len { length self.new + 1 ≡ length self.old }
        ensures small { length self.old ≤ most }
    {
        match &mut self.root {
            None => unreachable!(),
            Some(node) => match &mut **node {
                Node::Empty => unreachable!(),
                Node::Fork(left, own, n, right) => {
                    let here = left.len();
                    let out = if at < here {
                        left.remove(at)
                    } else if here < at {
                        right.remove(at - here - 1)
                    } else if here == 0 {
                        let rest = mem::replace(right, Sequence::new());
                        let root = mem::replace(&mut self.root, None);
                        *self = rest;
                        return alone(root);
                    } else {
                        let (last, free) = left.remove(here - 1);
                        (mem::replace(own, last), free)
                    };
                    if are_level(left, right) {
                        *n -= 1;
                    } else {
                        let root = mem::replace(&mut self.root, None);
                        *self = turned(root);
                    }
                    out
                }
            },
        }
    }

    #[inline(always)]
    fn open(self) -> Option<Parts<T>>
        ensures is { MatchOption result (self ≡ []) (λ p. self ≡ p.left ++ p.item ∷ p.right) }
        ensures balanced { IfSome result (λ p. DifferBy 0 (length p.left) (length p.right)) }
        ensures small { length self ≤ most }
    {
        let mut node = self.root?;
        match mem::replace(&mut *node, Node::Empty) {
            Node::Empty => None,
            Node::Fork(left, item, _, right) => Some(Parts {
                left,
                item,
                right,
                spare: Spare { node },
            }),
        }
    }
}

impl<K: Drop, T: Drop> Sequence<(K, T)> {
    /// Gives the entry at a place another tag, and answers the one that it had. Takes no memory.
    #[tactic(auto, using(crate::proofs::Tags::tag_left, crate::proofs::Tags::tag_here, crate::proofs::Tags::tag_right, crate::proofs::Tags::get_left, crate::proofs::Tags::get_here, crate::proofs::Tags::get_right))]
    pub fn retag(&mut self, at: usize, tag: K) -> K
        requires { at < length self.old }
        ensures is { self.new ≡ with_tag at tag self.old }
        ensures tag { option_map (λ e. e.0) (slice_get self.old at) ≡ Some result }
        ensures len { length self.new ≡ length self.old }
    {
        match &mut self.root {
            None => unreachable!(),
            Some(node) => match &mut **node {
                Node::Empty => unreachable!(),
                Node::Fork(left, entry, _, right) => {
                    let here = left.len();
                    if at < here {
                        left.retag(at, tag)
                    } else if here < at {
                        right.retag(at - here - 1, tag)
                    } else {
                        mem::replace(&mut entry.0, tag)
                    }
                }
            },
        }
    }
}

// A node over two balanced sides.
#[inline(always)]
fn fork<T: Drop>(left: Sequence<T>, item: T, right: Sequence<T>, spare: Spare<T>) -> Sequence<T>
    requires small { length left + length right < most }
    requires balanced { DifferBy 0 (length left) (length right) }
    ensures { result ≡ left ++ item ∷ right }
{
    let n = left.len() + right.len() + 1;
    let Spare { mut node } = spare;
    *node = Node::Fork(left, item, n, right);
    Sequence { root: Some(node) }
}

// Whether neither side is too long.
#[inline(always)]
fn are_level<T: Drop>(left: &Sequence<T>, right: &Sequence<T>) -> bool
    ensures { IsTrue result ↔ DifferBy 0 (length left.now) (length right.now) }
{
    left.len() + 1 <= 3 * (right.len() + 1) && right.len() + 1 <= 3 * (left.len() + 1)
}

// The node at a root after an edit of one item, balanced again.
#[inline(never)]
fn turned<T: Drop>(root: Option<Box<Node<T>>>) -> Sequence<T>
    requires { IfSome root (λ node. IsNear node.value) }
    ensures { result ≡ unwrap_or (option_map (λ node. items_in node.value) root) [] }
{
    match root {
        None => Sequence::new(),
        Some(mut node) => match mem::replace(&mut *node, Node::Empty) {
            Node::Empty => Sequence::new(),
            Node::Fork(left, item, _, right) => join(left, item, right, Spare { node }),
        },
    }
}

// The item of a root that has no other one, and the memory that it is kept in.
#[tactic(auto, using(crate::proofs::Sides::alone))]
fn alone<T: Drop>(root: Option<Box<Node<T>>>) -> (T, Spare<T>)
    requires { length (unwrap_or (option_map (λ node. items_in node.value) root) []) ≡ 1 }
    ensures { unwrap_or (option_map (λ node. items_in node.value) root) [] ≡ result.0 ∷ [] }
{
    match root {
        None => unreachable!(),
        Some(mut node) => match mem::replace(&mut *node, Node::Empty) {
            Node::Empty => unreachable!(),
            Node::Fork(_, item, _, _) => (item, Spare { node }),
        },
    }
}

// A node over two sides, balanced again where one side is too long: by an edit of one item, or since a third of its weight was put to it.
#[inline(always)]
fn join<T: Drop>(left: Sequence<T>, item: T, right: Sequence<T>, spare: Spare<T>) -> Sequence<T>
    requires small { length left + length right < most }
    requires left { 3 * (length left + 1) ≤ 13 * (length right + 1) + 6 }
    requires right { 3 * (length right + 1) ≤ 13 * (length left + 1) + 6 }
    ensures { result ≡ left ++ item ∷ right }
{
    if left.len() + 1 > 3 * (right.len() + 1) {
        rotate_right(left, item, right, spare)
    } else if right.len() + 1 > 3 * (left.len() + 1) {
        rotate_left(left, item, right, spare)
    } else {
        fork(left, item, right, spare)
    }
}

// The left side is too long: its item comes to the root, or that of its own right side where that is too long in turn.
#[inline(never)]
fn rotate_right<T: Drop>(
    left: Sequence<T>,
    item: T,
    right: Sequence<T>,
    spare: Spare<T>,
) -> Sequence<T>
    requires small { length left + length right < most }
    requires more { 3 * (length right + 1) < length left + 1 }
    requires nearly { 3 * (length left + 1) ≤ 13 * (length right + 1) + 6 }
    ensures { result ≡ left ++ item ∷ right }
{
    match left.open() {
        None => unreachable!(),
        Some(
            Parts {
                left: outer,
                item: top,
                right: inner,
                spare: free,
            },
        ) => {
            if inner.len() + 1 < 2 * (outer.len() + 1) {
                return fork(outer, top, fork(inner, item, right, spare), free);
            }
            match inner.open() {
                None => unreachable!(),
                Some(middle) => {
                    let left = fork(outer, top, middle.left, free);
                    let right = fork(middle.right, item, right, spare);
                    fork(left, middle.item, right, middle.spare)
                }
            }
        }
    }
}

// The right side is too long.
#[inline(never)]
fn rotate_left<T: Drop>(
    left: Sequence<T>,
    item: T,
    right: Sequence<T>,
    spare: Spare<T>,
) -> Sequence<T>
    requires small { length left + length right < most }
    requires more { 3 * (length left + 1) < length right + 1 }
    requires nearly { 3 * (length right + 1) ≤ 13 * (length left + 1) + 6 }
    ensures { result ≡ left ++ item ∷ right }
{
    match right.open() {
        None => unreachable!(),
        Some(
            Parts {
                left: inner,
                item: top,
                right: outer,
                spare: free,
            },
        ) => {
            if inner.len() + 1 < 2 * (outer.len() + 1) {
                return fork(fork(left, item, inner, spare), top, outer, free);
            }
            match inner.open() {
                None => unreachable!(),
                Some(middle) => {
                    let left = fork(left, item, middle.left, spare);
                    let right = fork(middle.right, top, outer, free);
                    fork(left, middle.item, right, middle.spare)
                }
            }
        }
    }
}

// A node over any two sides. Logarithmic: it comes in where the longer side is as long as the shorter one.
fn link<T: Drop>(left: Sequence<T>, item: T, right: Sequence<T>, spare: Spare<T>) -> Sequence<T>
    requires small { length left + length right < most }
    ensures { result ≡ left ++ item ∷ right }
{
    if left.len() + 1 > 3 * (right.len() + 1) {
        match left.open() {
            None => unreachable!(),
            Some(top) => {
                let inner = link(top.right, item, right, spare);
                join(top.left, top.item, inner, top.spare)
            }
        }
    } else if right.len() + 1 > 3 * (left.len() + 1) {
        match right.open() {
            None => unreachable!(),
            Some(top) => {
                let inner = link(left, item, top.left, spare);
                join(inner, top.item, top.right, top.spare)
            }
        }
    } else {
        fork(left, item, right, spare)
    }
}

// Two lists, one behind the other. Logarithmic.
fn glue<T: Drop>(mut left: Sequence<T>, right: Sequence<T>) -> Sequence<T>
    requires small { length left + length right ≤ most }
    ensures { result ≡ left ++ right }
{
    let len = left.len();
    if len == 0 {
        return right;
    }
    let (last, spare) = left.remove(len - 1);
    link(left, last, right, spare)
}

// The items before a place, and those from it on. Logarithmic.
#[tactic(auto, using(crate::proofs::Cuts::take_past, crate::proofs::Cuts::drop_past, crate::proofs::Cuts::take_before, crate::proofs::Cuts::drop_before))]
fn split<T: Drop>(list: Sequence<T>, at: usize) -> (Sequence<T>, Sequence<T>)
    requires { at ≤ length list }
    ensures before { result.0 ≡ take at list }
    ensures behind { result.1 ≡ drop at list }
{
    match list.open() {
        None => (Sequence::new(), Sequence::new()),
        Some(top) => {
            let here = top.left.len();
            if at <= here {
                let (before, behind) = split(top.left, at);
                (before, link(behind, top.item, top.right, top.spare))
            } else {
                let (before, behind) = split(top.right, at - here - 1);
                (link(top.left, top.item, before, top.spare), behind)
            }
        }
    }
}

impl<T: Drop> Sequence<T> {
    /// Takes the items from the place `first` to the one before `end` out, and gives them to the caller. Logarithmic, and takes no memory.
    #[tactic(auto, using(crate::proofs::Cuts::take_take, crate::proofs::Cuts::left_short))]
    pub fn cut(&mut self, first: usize, end: usize) -> Sequence<T>
        requires order { first ≤ end }
        requires within { end ≤ length self.old }
        ensures out { result ≡ drop first (take end self.old) }
        ensures rest { self.new ≡ take first self.old ++ drop end self.old }
    {
        let _len = self.len(); // its contract bounds what is left
        let all = mem::replace(self, Sequence::new());
        let (front, behind) = split(all, end);
        let (before, out) = split(front, first);
        *self = glue(before, behind);
        out
    }
}
