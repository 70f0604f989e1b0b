// Where what is looked for stands among tagged keys in order, found in logarithmic time.
ghost use Rattle.std.specs.Prelude.{◌≡◌, ◌<◌, ◌≤◌, true, IfSome, length};
ghost use Rattle.std.specs.Option.{is_some};
ghost use Rattle.std.specs.Ordering.{is_le, is_lt};
ghost use Rattle.sk_undo.specs.Entries.{keys_in};
ghost use Rattle.sk_undo.specs.Sorted.{is_found, is_ordered, rank, rank_past};

use crate::{Predicate, Probe, Query, UndoList};
use std::cmp::Ordering;

// Passes the keys that match, and those behind them.
#[derive(Drop)]
struct From<'a, Q> {
    query: &'a Q,
}

impl<'a, K: Ord, V, Q: Query<K>> Predicate<(V, K)> for From<'a, Q> {
    ghost passes = { λ t e. is_le (Q.order t.query.now e.1) };

    fn test(&self, entry: &(V, K)) -> bool {
        self.query.cmp_key(&entry.1).is_le()
    }
}

// Passes the keys behind those that match.
#[derive(Drop)]
struct Past<'a, Q> {
    query: &'a Q,
}

impl<'a, K: Ord, V, Q: Query<K>> Predicate<(V, K)> for Past<'a, Q> {
    ghost passes = { λ t e. is_lt (Q.order t.query.now e.1) };

    fn test(&self, entry: &(V, K)) -> bool {
        self.query.cmp_key(&entry.1).is_lt()
    }
}

// How what is looked for compares with a key.
#[derive(Drop)]
struct Sought<'a, Q> {
    query: &'a Q,
}

impl<'a, K: Ord, V, Q: Query<K>> Probe<(V, K)> for Sought<'a, Q> {
    ghost order = { λ t e. Q.order t.query.now e.1 };

    fn probe(&self, entry: &(V, K)) -> Ordering {
        self.query.cmp_key(&entry.1)
    }
}

/// How many keys stand before those that match.
pub fn rank<K: Ord + Drop, V: Drop, Q: Query<K>>(entries: &UndoList<V, K>, query: &Q) -> usize
    requires { is_ordered K.cmp (keys_in entries.now.list.current) ≡ true }
    ensures is { result ≡ rank (Q.order query.now) (keys_in entries.now.list.current) }
    ensures within { result ≤ length entries.now.list.current }
{
    entries.partition_point(&From { query })
}

/// How many keys stand before those behind all that match.
pub fn rank_past<K: Ord + Drop, V: Drop, Q: Query<K>>(entries: &UndoList<V, K>, query: &Q) -> usize
    requires { is_ordered K.cmp (keys_in entries.now.list.current) ≡ true }
    ensures is { result ≡ rank_past (Q.order query.now) (keys_in entries.now.list.current) }
    ensures within { result ≤ length entries.now.list.current }
{
    entries.partition_point(&Past { query })
}

/// How many keys stand before those that match, and whether one does.
pub fn seek<K: Ord + Drop, V: Drop, Q: Query<K>>(
    entries: &UndoList<V, K>,
    query: &Q,
) -> (usize, bool)
    requires { is_ordered K.cmp (keys_in entries.now.list.current) ≡ true }
    ensures place { result.0 ≡ rank (Q.order query.now) (keys_in entries.now.list.current) }
    ensures there { result.1 ≡ is_found (Q.order query.now) (keys_in entries.now.list.current) }
    ensures within { result.0 ≤ length entries.now.list.current }
    ensures inside { result.1 ≡ true → result.0 < length entries.now.list.current }
{
    entries.seek(&Sought { query })
}

/// The index of the first key that matches.
pub fn find<K: Ord + Drop, V: Drop, Q: Query<K>>(
    entries: &UndoList<V, K>,
    query: &Q,
) -> Option<usize>
    requires { is_ordered K.cmp (keys_in entries.now.list.current) ≡ true }
    ensures there { is_some result ≡ is_found (Q.order query.now) (keys_in entries.now.list.current) }
    ensures place { IfSome result (λ at. at ≡ rank (Q.order query.now) (keys_in entries.now.list.current)) }
    ensures within { IfSome result (λ at. at < length entries.now.list.current) }
{
    match seek(entries, query) {
        (at, true) => Some(at),
        (_, false) => None,
    }
}
