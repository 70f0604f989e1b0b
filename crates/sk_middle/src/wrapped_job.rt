// A job behind a gate, which lets each run of it begin, or raises an error in its place.
ghost use Rattle.std.specs.Prelude.{◌≡◌};
ghost use Rattle.sk_middle.specs.GatedRun.{TellsInner, wrapped_runs};

use crate::Memory;
use crate::gate::{Gate, Verdict};
use crate::run_log::RunLog;
use crate::runner::Runner;
use sk_payload::Head;
use sk_worker::{Job, Outcome};
use std::alloc::Global;
use std::snapshot::Snapshot;

/// A job behind a gate (Sidekiq's wiki, "Middleware").
#[derive(Drop)]
pub struct WrappedJob<J: Job, G> {
    /// The job that runs where the gate answers [`Verdict::Go`].
    pub inner: J,
    /// What is asked before each run.
    pub gate: G,
    /// The inner job as it was wrapped, for proofs alone.
    pub first: Snapshot<J>,
    /// The runs since then, for proofs alone.
    pub log: RunLog,
    ghost tells: { ∥ TellsInner (J.runs first.value) log.gated (J.runs inner) ∥₁ },
}

/// Puts a gate before the job. Takes no memory.
pub fn wrap<J: Job, G: Gate>(inner: J, gate: G) -> WrappedJob<J, G>
    ensures inner { result.inner ≡ inner }
    ensures gate { result.gate ≡ gate }
    ensures runs { ⟦<WrappedJob<J, G> as Job>⟧.runs result ≡ J.runs inner }
{
    let first = Snapshot::of(&inner);
    WrappedJob {
        inner,
        gate,
        first,
        log: RunLog::new(),
    }
}

impl<J: Job, G: Gate> Job for WrappedJob<J, G> {
    ghost use Rattle.std.specs.Prelude.{[], IfOk, OnErr};
    ghost use Rattle.sk_base.specs.Outside.{Takes};
    ghost use Rattle.sk_middle.specs.GatedRun.{TellsOne};
    ghost use Rattle.sk_middle.specs.Running.{RunsGated};

    ghost runs = { λ w. wrapped_runs (J.runs w.first.value) w.log.gated (J.runs w.inner) };

    /// Asks the gate, and runs the inner job where that answers [`Verdict::Go`]. Where it raises an error, or has no memory, that is the answer, and the
    /// inner job doesn't run.
    fn run(&mut self, alloc: Global, head: &Head) -> Result<Outcome, Memory>
        ensures ran { IfOk result (λ o. TellsOne (⟦<WrappedJob<J, G> as Job>⟧.runs self.old) head.now o (⟦<WrappedJob<J, G> as Job>⟧.runs self.new)) }
        ensures err { OnErr result (Takes (⟦<WrappedJob<J, G> as Job>⟧.runs self.old) [] (⟦<WrappedJob<J, G> as Job>⟧.runs self.new)) }
        ensures gated { RunsGated (G.answers self.old.gate head.now) J.runs self.old.inner self.old.log.gated head.now result
            self.new.inner self.new.log.gated }
        ensures gate { self.new.gate ≡ self.old.gate }
        ensures first { self.new.first ≡ self.old.first }
    {
        match self.gate.ask(head)? {
            Verdict::Go => {
                let outcome = self.inner.run(alloc, head)?;
                self.log = self.log.and(head, &outcome, &Runner::Inner);
                Ok(outcome)
            }
            Verdict::Raise(raised) => {
                let outcome = Outcome::Raised(raised);
                self.log = self.log.and(head, &outcome, &Runner::Gate);
                Ok(outcome)
            }
        }
    }
}
