// A sorted set over a list with undo of pairs, in order, and a map with undo from each member to its score: a member's score is looked up, and its
// pair is then found by both. Each edit is one of the list and one of the map.
ghost use Rattle.std.specs.Prelude.{◌≡◌, ◌+◌, ◌-◌, ◌<◌, ◌≤◌, ◌^◌, ℕ, ℤ, nat_lt, true, not, cond, List, [], ◌∷◌, drop, filter, length, option_map, slice_get, slice_index_or, take, None, Some, IfOk, IfSome, IsSome, OnErr, OnOk};
ghost use Rattle.std.specs.List.{count_by, remove};
ghost use Rattle.sk_undo.specs.Versions.{begun, closed, committed, edited, undone};
ghost use Rattle.sk_zset.specs.Bounds.{is_below, is_between};
ghost use Rattle.sk_zset.specs.Order.{InOrder};
ghost use Rattle.sk_zset.specs.Pairs.{added, first_due, has, lowest_above, pair_of, part, rank, score_of, trimmed, without, without_ranks};

use crate::Memory;
use crate::bounds::{compare, count_below, range_of};
use crate::by_bytes::ByBytes;
use crate::copies::copy_part;
use crate::edits::{add_pair, drop_pair};
use crate::find::place_of;
use sk_base::{Bound, Score};
use sk_resp::Word;
use sk_undo::{UndoList, UndoMap};
use std::alloc::Global;
use std::marker::Model;

/// Pairs of a score and a member, by score and then by the members' bytes, each member once. Contracts see the list of the pairs: what stands
/// now, and what stood at the begin of an open step. A rank is a pair's place in that list, from 0.
#[derive(Drop)]
pub struct ZSet {
    pairs: UndoList<Score, Word>,
    scores: UndoMap<Word, Score>,
}

impl Model for ZSet {
    ghost use Rattle.std.specs.Prelude.{List};
    ghost use Rattle.sk_undo.specs.Versions.{Versions};
    ghost use Rattle.sk_zset.specs.Pair.{Pair};

    ghost Value = { Versions (List Pair) };

    ghost use Rattle.sk_zset.specs.Scores.{IsTied};

    ghost view = { λ z. z.pairs.list };

    ghost invariant = { λ z. IsTied z.pairs.list z.scores.list };
}

impl ZSet {
    /// Takes no memory.
    pub fn new(alloc: Global) -> ZSet
        ensures { result ≡ closed [] }
    {
        ZSet {
            pairs: UndoList::new(alloc),
            scores: UndoMap::new(alloc),
        }
    }

    /// How many pairs there are (`ZCARD`).
    pub fn len(&self) -> u64
        ensures is { result ≡ length self.now.current }
        ensures small { result < 2 ^ 63 }
        ensures order { InOrder self.now }
    {
        self.pairs.len() as u64
    }

    /// Adds a pair, and answers whether its member is new (`ZADD`). A member that was there gets the new score.
    pub fn add(&mut self, score: Score, member: Word) -> Result<bool, Memory>
        ensures answer { IfOk result (λ new. new ≡ not (has member self.old.current)) }
        ensures ok { OnOk result (self.new ≡ edited (added (score, member) self.old.current) self.old) }
        ensures err { OnErr result (self.new ≡ self.old) }
    {
        let was = self.score(member.bytes());
        if was == Some(score) {
            return Ok(false);
        }
        let name = member.copy()?;
        self.pairs.reserve(2)?;
        self.scores.reserve(1)?;
        add_pair(&mut self.pairs, was, score, member);
        self.scores.put(name, score);
        Ok(was.is_none())
    }

    /// Takes the member's pair out and gives it to the caller. Takes no memory.
    #[tactic(auto, unfolding(crate::specs::Pairs::without))]
    pub fn take(&mut self, member: &[u8]) -> Option<(Score, Word)>
        requires { self.old.saved ≡ None }
        ensures pair { result ≡ pair_of member.now self.old.current }
        ensures rest { self.new ≡ edited (without member.now self.old.current) self.old }
    {
        match self.place_of(member) {
            Some(at) => Some(self.take_at(at)),
            None => None,
        }
    }

    // Takes the pair at a rank out and gives it to the caller.
    fn take_at(&mut self, at: usize) -> (Score, Word)
        requires within { at < length self.old.current }
        requires closed { self.old.saved ≡ None }
        ensures pair { result ≡ slice_index_or self.old.current at result }
        ensures rest { self.new ≡ edited (remove self.old.current at) self.old }
    {
        let _len = self.scores.len(); // its contract says that the members are in order
        let pair = self.pairs.take(at);
        self.scores.take(&pair.1);
        pair
    }

    // Takes out so many pairs from a rank on.
    #[tactic(auto, using(crate::proofs::Order::without_ranks_none))]
    fn take_part(&mut self, first: usize, count: usize)
        requires within { first + count ≤ length self.old.current }
        requires closed { self.old.saved ≡ None }
        ensures { self.new ≡ edited (without_ranks first count self.old.current) self.old }
    {
        let mut left = count;
        while left > 0 {
            self.take_at(first);
            left -= 1;
        }
    }

    /// Takes the member's pair out, and answers whether there was one. An open step keeps the pair until it is closed.
    pub fn drop_out(&mut self, member: &[u8]) -> Result<bool, Memory>
        ensures answer { IfOk result (λ was. was ≡ has member.now self.old.current) }
        ensures ok { OnOk result (self.new ≡ edited (without member.now self.old.current) self.old) }
        ensures err { OnErr result (self.new ≡ self.old) }
    {
        let was = self.score(member);
        let _len = self.scores.len(); // its contract says that the members are in order
        self.pairs.reserve(1)?;
        self.scores.reserve(1)?;
        drop_pair(&mut self.pairs, was, member);
        Ok(self.scores.remove(&ByBytes { bytes: member }))
    }

    /// The member's score (`ZSCORE`). Logarithmic.
    pub fn score(&self, member: &[u8]) -> Option<Score>
        ensures { result ≡ score_of member.now self.now.current }
    {
        self.scores.get(&ByBytes { bytes: member }).copied()
    }

    // The rank of the member's pair.
    fn place_of(&self, member: &[u8]) -> Option<usize>
        ensures is { result ≡ rank member.now self.now.current }
        ensures within { IfSome result (λ at. at < length self.now.current) }
    {
        match self.score(member) {
            Some(score) => Some(place_of(&self.pairs, score, member)),
            None => None,
        }
    }

    /// How many pairs stand before the member's. Logarithmic.
    pub fn rank(&self, member: &[u8]) -> Option<u64>
        ensures { result ≡ rank member.now self.now.current }
    {
        self.place_of(member).map(|at| at as u64)
    }

    /// The pair at a rank.
    pub fn get(&self, at: u64) -> Option<(Score, &Word)>
        ensures { option_map (λ p. (p.0, p.1.now)) result ≡ slice_get self.now.current at }
    {
        if at < self.pairs.len() as u64 {
            let (score, member) = self.pairs.get(at as usize);
            Some((*score, member))
        } else {
            None
        }
    }

    /// Copies of at most `count` pairs from the rank `first` on (`ZRANGE`).
    #[tactic(auto, using(crate::proofs::Windows::take_all))]
    pub fn range(&self, alloc: Global, first: u64, count: u64) -> Result<Vec<(Score, Word)>, Memory>
        ensures { IfOk result (λ copies. copies.items ≡ take count (drop first self.now.current)) }
    {
        copy_part(alloc, &self.pairs, 0, self.pairs.len(), first, count)
    }

    /// How many pairs are below a range of scores that begins at the bound.
    pub fn count_below(&self, low: Bound) -> u64
        ensures { result ≡ count_by (λ p. is_below low p.0) self.now.current }
    {
        count_below(&self.pairs, low) as u64
    }

    /// How many pairs have a score within the bounds. Logarithmic.
    pub fn count_between(&self, low: Bound, high: Bound) -> u64
        ensures { result ≡ count_by (is_between low high) self.now.current }
    {
        let (first, end) = range_of(&self.pairs, low, high);
        (end - first) as u64
    }

    /// Copies of the pairs with a score within the bounds: at most `count` of them, behind the first `skip` (`ZRANGEBYSCORE`).
    pub fn by_score(
        &self,
        alloc: Global,
        low: Bound,
        high: Bound,
        skip: u64,
        count: u64,
    ) -> Result<Vec<(Score, Word)>, Memory>
        ensures { IfOk result (λ copies. copies.items ≡ take count (drop skip (filter (is_between low high) self.now.current))) }
    {
        let (first, end) = range_of(&self.pairs, low, high);
        copy_part(alloc, &self.pairs, first, end, skip, count)
    }

    /// Takes out at most `count` pairs from the rank `first` on, and answers how many they were (`ZREMRANGEBYRANK`). Takes no memory.
    pub fn remove_ranks(&mut self, first: u64, count: u64) -> u64
        requires { self.old.saved ≡ None }
        ensures count { result ≡ length (part first count self.old.current) }
        ensures rest { self.new ≡ edited (without_ranks first count self.old.current) self.old }
    {
        let len = self.pairs.len();
        let from = len.min(first as usize);
        let size = (len - from).min(count as usize);
        self.take_part(from, size);
        size as u64
    }

    /// Takes out the pairs with a score within the bounds, and answers how many they were (`ZREMRANGEBYSCORE`). Takes no memory.
    pub fn remove_scores(&mut self, low: Bound, high: Bound) -> u64
        requires { self.old.saved ≡ None }
        ensures count { result ≡ count_by (is_between low high) self.old.current }
        ensures rest { self.new ≡ edited (filter (λ p. not (is_between low high p)) self.old.current) self.old }
    {
        let (first, end) = range_of(&self.pairs, low, high);
        self.take_part(first, end - first);
        (end - first) as u64
    }

    /// Takes the first pair out and gives it to the caller, where there are more than `keep`. Takes no memory.
    pub fn trim_low(&mut self, keep: u64) -> Option<(Score, Word)>
        requires { self.old.saved ≡ None }
        ensures pair { result ≡ lowest_above keep self.old.current }
        ensures rest { self.new ≡ edited (trimmed keep self.old.current) self.old }
    {
        if keep < self.pairs.len() as u64 {
            Some(self.take_at(0))
        } else {
            None
        }
    }

    /// The first member, where its score is at most `now`.
    pub fn first_due(&self, now: Score) -> Option<&[u8]>
        ensures { option_map (λ member. member.now) result ≡ first_due now self.now.current }
    {
        if self.pairs.len() == 0 {
            return None;
        }
        let pair = self.pairs.get(0);
        if compare(pair.0, now).is_le() {
            Some(pair.1.bytes())
        } else {
            None
        }
    }

    /// Opens a step. Takes no memory.
    pub fn begin(&mut self)
        requires { self.old.saved ≡ None }
        ensures { self.new ≡ begun self.old }
    {
        self.pairs.begin();
        self.scores.begin();
    }

    /// Closes the step, and what stood at its begin stands again. Takes no memory.
    pub fn undo(&mut self)
        requires { IsSome self.old.saved }
        ensures { self.new ≡ undone self.old }
    {
        self.pairs.undo();
        self.scores.undo();
    }

    /// Closes the step, and what stands now stays. Takes no memory.
    pub fn commit(&mut self)
        requires { IsSome self.old.saved }
        ensures { self.new ≡ committed self.old }
    {
        self.pairs.commit();
        self.scores.commit();
    }
}
