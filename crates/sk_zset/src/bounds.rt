// Where a range of scores begins and ends in an ordered list of pairs.
ghost use Rattle.std.specs.Prelude.{◌≡◌, ◌-◌, ◌≤◌, not, true, length};
ghost use Rattle.std.specs.List.{count_by, filter, position_or_len};
ghost use Rattle.std.specs.Ordering.{int_cmp};
ghost use Rattle.sk_zset.specs.Bounds.{is_above, is_below, is_between};
ghost use Rattle.sk_zset.specs.Order.{is_ordered};
ghost use Rattle.sk_zset.specs.Pairs.{part, without_ranks};

use sk_base::{Bound, Score};
use sk_resp::Word;
use sk_undo::{Predicate, UndoList};
use std::cmp::Ordering;

pub fn compare(a: Score, b: Score) -> Ordering
    ensures { result ≡ int_cmp a b }
{
    a.micros().cmp(&b.micros())
}

// Passes a pair that isn't below a range that begins at the bound.
#[derive(Drop)]
struct Reached {
    low: Bound,
}

impl Predicate<(Score, Word)> for Reached {
    ghost passes = { λ t p. not (is_below t.low p.0) };

    fn test(&self, pair: &(Score, Word)) -> bool {
        match self.low {
            Bound::Low => true,
            Bound::High => false,
            Bound::At(score) => compare(pair.0, score).is_ge(),
            Bound::Past(score) => compare(pair.0, score).is_gt(),
        }
    }
}

// Passes a pair that is above a range that ends at the bound.
#[derive(Drop)]
struct Left {
    high: Bound,
}

impl Predicate<(Score, Word)> for Left {
    ghost passes = { λ t p. is_above t.high p.0 };

    fn test(&self, pair: &(Score, Word)) -> bool {
        match self.high {
            Bound::Low => true,
            Bound::High => false,
            Bound::At(score) => compare(score, pair.0).is_lt(),
            Bound::Past(score) => compare(score, pair.0).is_le(),
        }
    }
}

// The rank at which a range that begins at the bound begins.
fn begin_of(pairs: &UndoList<Score, Word>, low: Bound) -> usize
    requires { is_ordered pairs.now.list.current ≡ true }
    ensures is { result ≡ position_or_len (λ p. not (is_below low p.0)) pairs.now.list.current }
    ensures within { result ≤ length pairs.now.list.current }
{
    pairs.partition_point(&Reached { low })
}

// The rank at which a range that ends at the bound has ended.
fn end_of(pairs: &UndoList<Score, Word>, high: Bound) -> usize
    requires { is_ordered pairs.now.list.current ≡ true }
    ensures is { result ≡ position_or_len (λ p. is_above high p.0) pairs.now.list.current }
    ensures within { result ≤ length pairs.now.list.current }
{
    pairs.partition_point(&Left { high })
}

/// How many pairs are below a range that begins at the bound.
pub fn count_below(pairs: &UndoList<Score, Word>, low: Bound) -> usize
    requires { is_ordered pairs.now.list.current ≡ true }
    ensures { result ≡ count_by (λ p. is_below low p.0) pairs.now.list.current }
{
    begin_of(pairs, low)
}

/// The rank at which a range begins, and that at which it has ended.
pub fn range_of(pairs: &UndoList<Score, Word>, low: Bound, high: Bound) -> (usize, usize)
    requires { is_ordered pairs.now.list.current ≡ true }
    ensures is { filter (is_between low high) pairs.now.list.current ≡ part result.0 (result.1 - result.0) pairs.now.list.current }
    ensures others { filter (λ p. not (is_between low high p)) pairs.now.list.current ≡ without_ranks result.0 (result.1 - result.0) pairs.now.list.current }
    ensures count { count_by (is_between low high) pairs.now.list.current ≡ result.1 - result.0 }
    ensures order { result.0 ≤ result.1 }
    ensures within { result.1 ≤ length pairs.now.list.current }
{
    let first = begin_of(pairs, low);
    (first, end_of(pairs, high).max(first))
}
