// The runs of a wrapped job, for proofs alone.
ghost use Rattle.std.specs.Prelude.{◌≡◌, ◌++◌, ◌∷◌, [], List};
ghost use Rattle.std.specs.Borrow.{ftrue};
ghost use Rattle.sk_middle.specs.GatedRun.{GatedRun, gated_runs_code};

use crate::runner::Runner;
use sk_payload::Head;
use sk_worker::Outcome;
use std::marker::Model;

/// The runs of a wrapped job since it was wrapped. Only proofs read them: a log takes no memory, and its methods do nothing when they run.
#[derive(Drop)]
pub struct RunLog {
    pub ghost gated: { List GatedRun } by { gated_runs_code },
}

impl Model for RunLog {
    ghost also_owns = { λ _. ftrue };
}

// It owns nothing.
unsafe impl Send for RunLog {}

impl RunLog {
    pub(crate) fn new() -> RunLog
        ensures { result.gated ≡ [] }
    {
        RunLog {}
    }

    // The log with one more run.
    pub(crate) fn and(&self, head: &Head, outcome: &Outcome, by: &Runner) -> RunLog
        ensures { result.gated ≡ self.now.gated ++ record { run = record { head = head.now; outcome = outcome.now }; by = by.now } ∷ [] }
    {
        RunLog {}
    }
}
