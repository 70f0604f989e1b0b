// Where a pair stands, and where it is to stand.
ghost use Rattle.std.specs.Prelude.{◌≡◌, ◌<◌, ◌≤◌, Some, true, false, not, length};
ghost use Rattle.std.specs.List.{position_or_len};
ghost use Rattle.sk_zset.specs.Order.{is_ordered};
ghost use Rattle.sk_zset.specs.Pair.{names, precedes};
ghost use Rattle.sk_zset.specs.Pairs.{has, score_of};

use crate::bounds::compare;
use sk_base::Score;
use sk_resp::{Word, compare_bytes};
use sk_undo::{Predicate, UndoList};
use std::cmp::Ordering;

// Passes the pair of a score and a member, and those that stand behind it.
#[derive(Drop)]
struct From<'a> {
    score: Score,
    member: &'a [u8],
}

impl<'a> Predicate<(Score, Word)> for From<'a> {
    ghost passes = { λ t p. not (precedes p (t.score, t.member.now)) };

    fn test(&self, pair: &(Score, Word)) -> bool {
        let scores = compare(pair.0, self.score);
        match scores {
            Ordering::Equal => compare_bytes(pair.1.bytes(), self.member).is_ge(),
            _ => scores.is_ge(),
        }
    }
}

/// The rank of the member's pair, which has this score.
pub fn place_of(pairs: &UndoList<Score, Word>, score: Score, member: &[u8]) -> usize
    requires ordered { is_ordered pairs.now.list.current ≡ true }
    requires there { score_of member.now pairs.now.list.current ≡ Some score }
    ensures is { result ≡ position_or_len (names member.now) pairs.now.list.current }
    ensures within { result < length pairs.now.list.current }
{
    pairs.partition_point(&From { score, member })
}

/// The rank that a pair is to have, whose member has none yet.
pub fn place_for(pairs: &UndoList<Score, Word>, score: Score, member: &[u8]) -> usize
    requires ordered { is_ordered pairs.now.list.current ≡ true }
    requires new { has member.now pairs.now.list.current ≡ false }
    ensures is { result ≡ position_or_len (precedes (score, member.now)) pairs.now.list.current }
    ensures within { result ≤ length pairs.now.list.current }
{
    pairs.partition_point(&From { score, member })
}
