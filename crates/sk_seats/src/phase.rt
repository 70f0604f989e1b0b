// What a seat is doing, and what becomes of the jobs in its hands.
ghost use Rattle.std.specs.Prelude.{◌≡◌, ◌<◌, Some, length, slice_get};
ghost use Rattle.sk_seats.specs.JobFilter.{with_jobs, without_job, without_jobs};
ghost use Rattle.sk_seats.specs.Phases.{holding, releasing_at, staging_at, works_of};
ghost use Rattle.sk_seats.specs.Works.{most_works};
ghost use Rattle.sk_seats.specs.declared.work.Work.{Work};

use crate::job_filter::JobFilter;
use crate::work::Stage;
use crate::works::Works;
use sk_payload::JobText;
use sk_resp::Text;

/// What a seat is doing. A seat is one connection: a client's, or that of one thread of a worker process.
#[derive(Drop)]
pub enum Phase {
    /// No worker's seat.
    Plain,
    /// A worker's, of the process of this identity, with these jobs in its hands.
    Joined(Text, Works),
}

impl Phase {
    /// A worker's seat has fetched a job. Takes no memory.
    pub(crate) fn hold(&mut self, payload: JobText)
        requires { length (works_of self.old) < most_works }
        ensures { self.new ≡ holding payload self.old }
    {
        if let Phase::Joined(_, works) = self {
            works.hold(payload);
        }
    }

    /// The work at an index of those in the seat's hands is at this stage from now on. Takes no memory.
    pub(crate) fn stage(&mut self, at: usize, stage: Stage)
        requires { at < length (works_of self.old) }
        ensures { self.new ≡ staging_at at stage self.old }
    {
        if let Phase::Joined(_, works) = self {
            works.stage(at, stage);
        }
    }

    /// The seat lets go of the work at an index of those in its hands. Takes no memory.
    pub(crate) fn release(&mut self, at: usize)
        requires { at < length (works_of self.old) }
        ensures { self.new ≡ releasing_at at self.old }
    {
        if let Phase::Joined(_, works) = self {
            works.release(at);
        }
    }

    /// Counts the jobs in the seat's hands.
    pub(crate) fn count_in(&self, filter: &mut JobFilter)
        ensures { filter.new ≡ with_jobs (works_of self.now) filter.old }
    {
        if let Phase::Joined(_, works) = self {
            filter.add_all(works.list());
        }
    }

    /// No longer counts the jobs in the seat's hands.
    pub(crate) fn count_out(&self, filter: &mut JobFilter)
        ensures { filter.new ≡ without_jobs (works_of self.now) filter.old }
    {
        if let Phase::Joined(_, works) = self {
            filter.remove_all(works.list());
        }
    }

    /// No longer counts the job at an index of those in the seat's hands.
    pub(crate) fn count_out_at(&self, at: usize, filter: &mut JobFilter)
        requires { at < length (works_of self.now) }
        ensures { (work : Work) → slice_get (works_of self.now) at ≡ Some work → filter.new ≡ without_job work.payload filter.old }
    {
        if let Phase::Joined(_, works) = self {
            filter.remove(&works.get(at).payload);
        }
    }
}
