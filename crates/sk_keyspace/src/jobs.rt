// A set of jobs, as the commands on sorted sets read it.
ghost use Rattle.std.specs.Prelude.{◌≡◌, ◌≤◌, IfOk, drop, length, map, take};
ghost use Rattle.sk_keyspace.specs.Sorted.{rows_between, rows_of};
ghost use Rattle.sk_places.specs.Rows.{pair_of};

use sk_base::{Bound, Score};
use sk_cmd::Scored;
use sk_places::{Place, Places};
use sk_resp::{Memory, Word};
use sk_value::Pairs;
use std::alloc::Global;

/// A set of jobs: pairs of a score and a text.
#[derive(Drop)]
pub struct Jobs<'a> {
    pub places: &'a Places,
    pub set: Scored,
}

impl<'a> Jobs<'a> {
    // Copies of at most `count` pairs, behind the first `skip`, of those from the rank `first` to the one before `end`.
    #[tactic(auto, using(crate::proofs::Scores::part_of_part))]
    fn part(
        &self,
        alloc: Global,
        first: usize,
        end: usize,
        skip: u64,
        count: u64,
    ) -> Result<Vec<(Score, Word)>, Memory>
        requires order { first ≤ end }
        requires within { end ≤ length (rows_of self.now.set self.now.places.now) }
        ensures { IfOk result (λ list. list.items ≡ take count (drop skip (map pair_of (rows_between first end self.now.set self.now.places.now)))) }
    {
        let from = first + (end - first).min(skip as usize);
        let to = from + (end - from).min(count as usize);
        self.places.pairs(alloc, self.set, from, to)
    }
}

impl<'a> Pairs for Jobs<'a> {
    ghost pairs = { λ jobs. map pair_of (rows_of jobs.set jobs.places.now) };

    #[tactic(auto, using(crate::proofs::Scores::how_many_pairs))]
    fn len(&self) -> u64 {
        self.places.len(&Place::Set(self.set)) as u64
    }

    #[tactic(auto, using(crate::proofs::Scores::score_is))]
    fn score(&self, member: &[u8]) -> Option<Score> {
        match self.places.find(&Place::Set(self.set), member) {
            Some((score, _)) => Some(score),
            None => None,
        }
    }

    #[tactic(auto, using(crate::proofs::Scores::all_pairs))]
    fn range(&self, alloc: Global, first: u64, count: u64) -> Result<Vec<(Score, Word)>, Memory> {
        self.part(
            alloc,
            0,
            self.places.len(&Place::Set(self.set)),
            first,
            count,
        )
    }

    #[tactic(auto, using(crate::proofs::Scores::pairs_between))]
    fn by_score(
        &self,
        alloc: Global,
        low: Bound,
        high: Bound,
        skip: u64,
        count: u64,
    ) -> Result<Vec<(Score, Word)>, Memory> {
        let (first, end) = self.places.range_of(self.set, low, high);
        self.part(alloc, first, end, skip, count)
    }
}
