// Jobs, and what a run of one comes to.
ghost use Rattle.std.specs.Prelude.{[], ◌∷◌, List, Option, IfOk, OnErr};

use crate::Memory;
use sk_payload::Head;
use sk_resp::Text;
use std::alloc::Global;

/// The error of a run.
#[derive(Drop)]
pub struct Raised {
    /// The name of its class. A retry keeps its first 255 characters.
    pub class: Text,
    /// A retry keeps its first 1,000 characters.
    pub message: Text,
}

/// What a run came to.
#[derive(Drop)]
pub enum Outcome {
    Returned,
    Raised(Raised),
}

/// What runs the jobs of a class, as `perform` of Sidekiq's job classes.
pub trait Job: Drop {
    ghost use Rattle.sk_base.specs.Outside.{Takes};
    ghost use Rattle.sk_worker.specs.Run.{Run};

    /// Its runs that came to an end, where it tells them.
    ghost runs: { Self → Option (List Run) };

    /// Runs the job with this head. Where there is no memory it may end without an outcome.
    fn run(&mut self, alloc: Global, head: &Head) -> Result<Outcome, Memory>
        ensures ran { IfOk result (λ outcome. Takes (runs self.old) (record { head = head.now; outcome = outcome } ∷ []) (runs self.new)) }
        ensures err { OnErr result (Takes (runs self.old) [] (runs self.new)) };
}
