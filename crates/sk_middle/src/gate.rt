// What is asked before a job runs.
ghost use Rattle.std.specs.Prelude.{Result};
ghost use Rattle.std.specs.declared.alloc.AllocError.{AllocError};
ghost use Rattle.sk_payload.specs.declared.head.Head.{Head};
ghost use Rattle.sk_middle.specs.declared.gate.Verdict.{Verdict};

use crate::Memory;
use sk_payload::Head;
use sk_worker::Raised;

/// What a gate says of a run that is to begin.
#[derive(Drop)]
pub enum Verdict {
    /// The job behind the gate runs.
    Go,
    /// That job doesn't run, and the run raises this error.
    Raise(Raised),
}

/// What is asked before each run of a job, as a class of Sidekiq's server middleware is (wiki page "Middleware").
pub trait Gate: Drop {
    /// What it may answer of a head.
    ghost answers: { Self → Head → Result Verdict AllocError → Type 0 };

    /// What becomes of the run of this head. It may be asked of every head.
    fn ask(&self, head: &Head) -> Result<Verdict, Memory>
        ensures { answers self.now head.now result };
}
