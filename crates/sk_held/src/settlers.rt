// Where the sessions of a server get their settlers.
ghost use Rattle.std.specs.Prelude.{◌≡◌, ◌-◌, ◌^◌, Bool, IfSome, IsSome, None, true, false};

use crate::Settler;
use sk_base::Failed;

/// Gives each session of a server a settler, where replies wait until what was done before them is stored.
pub trait Settlers {
    type Settler: Settler;

    /// Whether replies wait.
    ghost holds_back: { Bool };

    /// A settler that hasn't failed yet, where replies wait, and else none.
    fn settler(&self) -> Option<Self::Settler>
        ensures held { holds_back ≡ true → IsSome result }
        ensures none { holds_back ≡ false → result ≡ None }
        ensures fresh { IfSome result (λ settler. Self.Settler.settle_faults settler ≡ 0) };
}

/// No settlers: replies don't wait.
#[derive(Clone, Copy)]
pub struct NoSettlers;

/// What nobody waits for.
#[derive(Clone, Copy)]
pub struct NoSettler;

impl Settler for NoSettler {
    ghost settled = { λ _. 2 ^ 64 - 1 };

    ghost settle_faults = { λ _. 0 };

    ghost stored = { λ _. Unit {0} };

    fn settle(&mut self) -> Result<(), Failed> {
        Ok(())
    }

    fn faults(&self) -> u64 {
        0
    }
}

impl Settlers for NoSettlers {
    type Settler = NoSettler;

    ghost holds_back = { false };

    fn settler(&self) -> Option<NoSettler> {
        None
    }
}
