// The items of a job, each known by its number.
ghost use Rattle.std.specs.Prelude.{◌≡◌, ◌<◌, ℕ, [], ◌∷◌, List, Option, IfOk, OnErr};

use crate::Memory;
use sk_worker::Outcome;
use std::alloc::Global;

/// The items that a job goes through, as `each_iteration` of Sidekiq's iterable jobs runs them (wiki page "Iteration"). Item `index`, from 0 on, is the
/// same one in each run of the job.
pub trait Items {
    ghost use Rattle.sk_base.specs.Outside.{Takes};
    ghost use Rattle.sk_iter.specs.Event.{ItemRun};

    /// How many there are.
    ghost count: { Self → ℕ };

    /// The items that were run, in order, each with what it came to, where it tells them.
    ghost told: { Self → Option (List ItemRun) };

    /// How many there are. It stays so.
    fn len(&self) -> u64
        ensures { result ≡ count self.now };

    /// Runs the item with this number. Where there is no memory it may end without an outcome.
    fn item(&mut self, alloc: Global, index: u64) -> Result<Outcome, Memory>
        requires { index < count self.old }
        ensures ran { IfOk result (λ outcome. Takes (told self.old) (record { index = index; outcome = outcome } ∷ []) (told self.new)) }
        ensures err { OnErr result (Takes (told self.old) [] (told self.new)) }
        ensures count { count self.new ≡ count self.old };
}
