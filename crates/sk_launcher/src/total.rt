// The counts of all workers.
ghost use Rattle.std.specs.Prelude.{◌≡◌, map};
ghost use Rattle.sk_launcher.specs.Counting.{plus, total_from};

use crate::Counts;
use crate::tally::Tally;

// The sums. One above 2^64 - 1 is told as that.
fn plus(a: Counts, b: Counts) -> Counts
    ensures { result ≡ plus a b }
{
    Counts {
        done: a.done.saturating_add(b.done),
        retried: a.retried.saturating_add(b.retried),
        buried: a.buried.saturating_add(b.buried),
        discarded: a.discarded.saturating_add(b.discarded),
    }
}

/// These counts with those of further workers.
pub(crate) fn total(sum: Counts, tallies: &[Tally]) -> Counts
    ensures { result ≡ total_from sum (map (λ t. t.counts) tallies.now) }
{
    match tallies {
        [first, rest @ ..] => total(plus(sum, first.counts()), rest),
        [] => sum,
    }
}
