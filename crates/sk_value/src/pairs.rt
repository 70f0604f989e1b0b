// The commands that read a sorted set (Redis, "Sorted sets"): one body for whatever lists pairs of a score and a member in order.
ghost use Rattle.std.specs.Prelude.{◌≡◌, ◌≤◌, ◌<◌, ◌^◌, List, length, map, drop, take, filter, IfOk};
ghost use Rattle.sk_base.specs.Score.{score_text};
ghost use Rattle.sk_resp.specs.Reply.{wire};
ghost use Rattle.sk_resp.specs.Spelling.{bulk};
ghost use Rattle.sk_zset.specs.Bounds.{is_between};
ghost use Rattle.sk_zset.specs.Pair.{Pair};
ghost use Rattle.sk_zset.specs.Pairs.{score_of};
ghost use Rattle.sk_value.specs.Answer.{AnswersWith, texts};
ghost use Rattle.sk_value.specs.Lists.{range_of};
ghost use Rattle.sk_value.specs.Sorted.{between, limited, listed, look_sorted};

use crate::items::{end_index, first_index};
use crate::replies::counted;
use crate::{KeysFault, ReadOp};
use sk_base::{Bound, Score};
use sk_cmd::RangeOptions;
use sk_resp::{Memory, Replies, Reply, Word};
use sk_zset::ZSet;
use std::alloc::Global;

/// What lists pairs of a score and a member, by score and then by the members' bytes.
pub trait Pairs {
    /// The pairs in order.
    ghost pairs: { Self → List Pair };

    /// How many pairs there are.
    fn len(&self) -> u64
        ensures is { result ≡ length (pairs self.now) }
        ensures small { result < 2 ^ 63 };

    /// The member's score.
    fn score(&self, member: &[u8]) -> Option<Score>
        ensures { result ≡ score_of member.now (pairs self.now) };

    /// Copies of at most `count` pairs from the rank `first` on.
    fn range(&self, alloc: Global, first: u64, count: u64) -> Result<Vec<(Score, Word)>, Memory>
        ensures { IfOk result (λ copies. copies.items ≡ take count (drop first (pairs self.now))) };

    /// Copies of the pairs with a score within the bounds: at most `count` of them, behind the first `skip`.
    fn by_score(
        &self,
        alloc: Global,
        low: Bound,
        high: Bound,
        skip: u64,
        count: u64,
    ) -> Result<Vec<(Score, Word)>, Memory>
        ensures { IfOk result (λ copies. copies.items ≡ take count (drop skip (filter (is_between low high) (pairs self.now)))) };
}

impl Pairs for ZSet {
    ghost pairs = { λ set. set.current };

    fn len(&self) -> u64 {
        self.len()
    }

    fn score(&self, member: &[u8]) -> Option<Score> {
        self.score(member)
    }

    fn range(&self, alloc: Global, first: u64, count: u64) -> Result<Vec<(Score, Word)>, Memory> {
        self.range(alloc, first, count)
    }

    fn by_score(
        &self,
        alloc: Global,
        low: Bound,
        high: Bound,
        skip: u64,
        count: u64,
    ) -> Result<Vec<(Score, Word)>, Memory> {
        self.by_score(alloc, low, high, skip, count)
    }
}

/// What `ZCARD key`, `ZSCORE key member`, `ZRANGE key first last [WITHSCORES]` and `ZRANGEBYSCORE key min max [WITHSCORES] [LIMIT skip count]`
/// answer (Redis, "Sorted sets"). Another command is `WrongType`.
pub fn look_sorted<P: Pairs>(alloc: Global, pairs: &P, look: &ReadOp) -> Result<Reply, KeysFault>
    ensures { AnswersWith (look_sorted look.now (P.pairs pairs.now)) result }
{
    match look {
        ReadOp::Zcard => Ok(counted(pairs.len() as usize)),
        ReadOp::Zscore(member) => match pairs.score(member.bytes()) {
            None => Ok(Reply::Null),
            Some(score) => Ok(Reply::Bulk(text_of(alloc, score)?)),
        },
        ReadOp::Zrange(first, last, scores) => Ok(range(alloc, pairs, *first, *last, *scores)?),
        ReadOp::Zrangebyscore(least, greatest, options) => {
            Ok(by_score(alloc, pairs, *least, *greatest, options)?)
        }
        _ => Err(KeysFault::WrongType),
    }
}

// The members from index `first` to index `last`, both included.
#[tactic(auto, using(crate::proofs::Ranks::ranked))]
fn range<P: Pairs>(
    alloc: Global,
    pairs: &P,
    first: i64,
    last: i64,
    scores: bool,
) -> Result<Reply, Memory>
    ensures { IfOk result (λ reply. reply ≡ texts (listed scores (range_of first last (P.pairs pairs.now)))) }
{
    let count = pairs.len() as usize;
    let start = first_index(first, count);
    let end = end_index(last, count);
    let part = pairs.range(alloc, start as u64, end.saturating_sub(start) as u64)?;
    Ok(Reply::Array(Replies::new(listed(alloc, part, scores)?)))
}

// The members with a score within the bounds, as far as the options give them.
fn by_score<P: Pairs>(
    alloc: Global,
    pairs: &P,
    least: Bound,
    greatest: Bound,
    options: &RangeOptions,
) -> Result<Reply, Memory>
    ensures { IfOk result (λ reply. reply ≡ texts (listed options.now.with_scores (limited options.now.limit (between least greatest (P.pairs pairs.now))))) }
{
    let (skip, count) = window(options.limit, pairs.len());
    let part = pairs.by_score(alloc, least, greatest, skip, count)?;
    let replies = listed(alloc, part, options.with_scores)?;
    Ok(Reply::Array(Replies::new(replies)))
}

// How many pairs `LIMIT` leaves out, and how many it gives at most, where there are at most `most`.
fn window(limit: Option<(i64, i64)>, most: u64) -> (u64, u64)
    ensures { (pairs : List Pair) → length pairs ≤ most → take result.1 (drop result.0 pairs) ≡ limited limit pairs }
{
    let Some((skip, count)) = limit else {
        return (0, most);
    };
    if skip < 0 {
        return (0, 0);
    }
    if count < 0 {
        return (skip as u64, most);
    }
    (skip as u64, count as u64)
}

// The text of the score.
fn text_of(alloc: Global, score: Score) -> Result<Word, Memory>
    ensures { IfOk result (λ text. text ≡ score_text score) }
{
    let mut text = Vec::new(alloc);
    score.write(alloc, &mut text)?;
    Ok(Word::new(text))
}

// The members in order, as replies, each followed by its score where the scores are asked for.
fn listed(alloc: Global, pairs: Vec<(Score, Word)>, scores: bool) -> Result<Vec<Reply>, Memory>
    ensures { IfOk result (λ replies. map wire replies.items ≡ map bulk (listed scores pairs.items)) }
{
    let mut replies = Vec::new(alloc);
    for (score, member) in pairs {
        replies.push(Reply::Bulk(member))?;
        if scores {
            replies.push(Reply::Bulk(text_of(alloc, score)?))?;
        }
    }
    Ok(replies)
}
