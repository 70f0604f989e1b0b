// A job that tells its runs, whatever the job in it tells.
ghost use Rattle.std.specs.Prelude.{◌≡◌, [], Some};
ghost use Rattle.sk_middle.specs.GatedRun.{runs_of};

use crate::Memory;
use crate::run_log::RunLog;
use crate::runner::Runner;
use sk_payload::Head;
use sk_worker::{Job, Outcome};
use std::alloc::Global;

/// A job that tells the runs of the job in it, and what each came to. Only proofs read them, and keeping them takes no memory.
#[derive(Drop)]
pub struct ToldJob<J: Job> {
    /// The job that runs.
    pub inner: J,
    /// Its runs since then, for proofs alone.
    pub log: RunLog,
}

/// Has the job tell its runs from now on. Takes no memory.
pub fn told<J: Job>(inner: J) -> ToldJob<J>
    ensures inner { result.inner ≡ inner }
    ensures runs { ⟦<ToldJob<J> as Job>⟧.runs result ≡ Some [] }
{
    ToldJob {
        inner,
        log: RunLog::new(),
    }
}

impl<J: Job> Job for ToldJob<J> {
    ghost use Rattle.std.specs.Prelude.{[], IfOk, OnErr};
    ghost use Rattle.sk_base.specs.Outside.{Takes};
    ghost use Rattle.sk_middle.specs.GatedRun.{TellsOne};
    ghost use Rattle.sk_middle.specs.Running.{RunsInner};

    ghost runs = { λ job. Some (runs_of job.log.gated) };

    /// Runs the inner job.
    fn run(&mut self, alloc: Global, head: &Head) -> Result<Outcome, Memory>
        ensures ran { IfOk result (λ o. TellsOne (⟦<ToldJob<J> as Job>⟧.runs self.old) head.now o (⟦<ToldJob<J> as Job>⟧.runs self.new)) }
        ensures err { OnErr result (Takes (⟦<ToldJob<J> as Job>⟧.runs self.old) [] (⟦<ToldJob<J> as Job>⟧.runs self.new)) }
        ensures inner { RunsInner J.runs self.old.inner self.old.log.gated head.now result self.new.inner self.new.log.gated }
    {
        let outcome = self.inner.run(alloc, head)?;
        self.log = self.log.and(head, &outcome, &Runner::Inner);
        Ok(outcome)
    }
}
