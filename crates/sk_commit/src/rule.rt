// The rule by which a history grows: its one word is its length, and a step adds a record behind all others.

use logbook::{Gain, Plain, Play, Rule};
use sk_log::Record;

/// The rule of a history.
pub struct HistoryRule;

impl Rule<Record, u64> for HistoryRule {
    ghost use Rattle.std.specs.Prelude.{[]};
    ghost use base.Fml.{ftrue};
    ghost use Rattle.sk_commit.specs.Rules.{IsKept};

    ghost holds = { λ cells log. IsKept cells log };

    ghost first = { [] };

    ghost hinted = { λ n log. Unit {0} };

    ghost shows = { λ log. [] };

    ghost keeps = { λ names log. ftrue };

    ghost moves = { λ ask before after answer. Unit {0} };
}

/// What a step trades with its caller: nothing.
pub struct NoGain;

impl Gain<Record, u64> for NoGain {
    ghost use base.Fml.{ftrue};

    ghost after = { λ names about answer. ftrue };
}

/// A step that adds a record.
pub struct AddRecord;

impl Play<Record, u64> for AddRecord {
    ghost use Rattle.sk_commit.specs.Rules.{Adds};

    ghost then = { Adds };
}

impl Plain<Record, Record, u64> for AddRecord {
    ghost use Rattle.std.specs.Prelude.{None};

    ghost ask = { λ entry. entry };

    ghost state = { λ entry. None };
}
