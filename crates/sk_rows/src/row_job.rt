// The jobs of rows.
ghost use Rattle.std.specs.Prelude.{None};

use sk_app::{Fail, Flip, Note};
use sk_middle::{ToldJob, told};
use sk_payload::Head;
use sk_row_calls::Import;
use sk_worker::{Job, Memory, Outcome};
use std::alloc::Global;
use std::sync::Arc;
use std::sync::atomic::{AtomicU64, Ordering};

/// A job of a row. It tells contracts none of its runs.
#[derive(Drop)]
pub enum RowJob {
    /// It returns, and counts its runs.
    Counted(Arc<AtomicU64, Global>),
    Note(ToldJob<Note>),
    Flip(Flip),
    Fail(Fail),
    Import(ToldJob<Import>),
}

impl RowJob {
    pub fn note() -> RowJob {
        RowJob::Note(told(Note))
    }

    pub fn import(job: Import) -> RowJob {
        RowJob::Import(told(job))
    }
}

impl Job for RowJob {
    ghost runs = { λ _. None };

    fn run(&mut self, alloc: Global, head: &Head) -> Result<Outcome, Memory> {
        match self {
            RowJob::Counted(runs) => {
                runs.fetch_add(1, Ordering::SeqCst);
                Ok(Outcome::Returned)
            }
            RowJob::Note(job) => job.run(alloc, head),
            RowJob::Flip(job) => job.run(alloc, head),
            RowJob::Fail(job) => job.run(alloc, head),
            RowJob::Import(job) => job.run(alloc, head),
        }
    }
}
