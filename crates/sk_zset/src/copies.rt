// Copies of pairs that stand together, for callers that keep them.
ghost use Rattle.std.specs.Prelude.{◌≡◌, ◌-◌, ◌≤◌, IfOk, drop, length, take};
ghost use Rattle.sk_zset.specs.Pairs.{part};

use crate::Memory;
use sk_base::Score;
use sk_resp::Word;
use sk_undo::{UndoList, Visit};
use std::alloc::Global;

// Copies each pair that a walk visits.
#[derive(Drop)]
struct Copies {
    pairs: Vec<(Score, Word)>,
}

impl Visit<(Score, Word)> for Copies {
    type Output = (Score, Word);

    ghost output = { λ p. p };

    ghost visited = { λ c. c.pairs.items };

    fn visit(&mut self, pair: &(Score, Word)) -> Result<(), Memory> {
        let copy = pair.1.copy()?;
        self.pairs.push((pair.0, copy))?;
        Ok(())
    }
}

/// Copies at most `count` pairs, behind the first `skip`, of the pairs from the rank `first` to the one before `end`.
#[tactic(auto, using(crate::proofs::Windows::window, crate::proofs::Windows::map_same))]
pub fn copy_part(
    alloc: Global,
    pairs: &UndoList<Score, Word>,
    first: usize,
    end: usize,
    skip: u64,
    count: u64,
) -> Result<Vec<(Score, Word)>, Memory>
    requires order { first ≤ end }
    requires within { end ≤ length pairs.now.list.current }
    ensures { IfOk result (λ copies. copies.items ≡ take count (drop skip (part first (end - first) pairs.now.list.current))) }
{
    let from = first + (end - first).min(skip as usize);
    let to = from + (end - from).min(count as usize);
    let mut copies = Copies {
        pairs: Vec::new(alloc),
    };
    pairs.walk(from, to, &mut copies)?;
    Ok(copies.pairs)
}
