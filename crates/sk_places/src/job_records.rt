// How many rows name each job, and which jobs are live: one number under a job's id, so that a command looks a job up once. Beside it are the totals
// of what was pushed.
ghost use Rattle.std.specs.Prelude.{◌≡◌, ◌+◌, ◌<◌, ◌≤◌, IsSome, None, Some, OnErr, OnOk, [], length, option_map, true, false};
ghost use Rattle.sk_undo.specs.Balance.{most};
ghost use Rattle.sk_resp.specs.WordOrder.{text_cmp};
ghost use Rattle.sk_undo.specs.Sorted.{is_sorted};
ghost use Rattle.sk_undo.specs.Versions.{begun, closed, committed, edited, undone};
ghost use Rattle.sk_payload.specs.Head.{jid_of};
ghost use Rattle.sk_places.specs.Cleared.{every_deleted};
ghost use Rattle.sk_places.specs.Ends.{left};
ghost use Rattle.sk_places.specs.JobRecords.{count_named, is_new, job_recorded, recorded, row_added, row_left, row_pushed};
ghost use Rattle.sk_places.specs.LiveJobs.{ended, job_pushed, no_jobs, one_if, pushed};
ghost use Rattle.sk_table.specs.Counts.{count_in};
ghost use Rattle.sk_places.specs.Totals.{accounted, count_end, count_push, last_outside, last_push, pushes_in, IsCountable};

use crate::job_numbers::JobNumbers;
use crate::{Ending, Memory, Origin, Totals};
use sk_payload::JobText;
use std::alloc::Global;
use std::marker::Model;

/// How many rows name each job, which jobs are live, and how many rows were ever pushed and what became of them. Contracts see what stands now, and
/// what stood at the begin of an open step.
#[derive(Drop)]
pub struct JobRecords {
    numbers: JobNumbers,
    totals: Totals,
    // What the totals were at the begin of the open step.
    totals_then: Totals,
}

impl Model for JobRecords {
    ghost use Rattle.sk_undo.specs.Versions.{Versions};
    ghost use Rattle.sk_places.specs.JobRecords.{Recorded};

    ghost Value = { Versions Recorded };

    ghost use Rattle.sk_undo.specs.Versions.{map_versions};
    ghost use Rattle.sk_places.specs.JobRecords.{live_in, records_in};
    ghost use Rattle.sk_places.specs.LiveJobs.{AreAccounted, jobs_in};

    ghost view = { λ r. records_in r.numbers.list r.totals r.totals_then };

    ghost invariant = { λ r. AreAccounted (jobs_in (map_versions live_in r.numbers.list) r.totals r.totals_then) };
}

// The bytes of the id of the payload's job, where it has one.
fn jid_of(payload: &JobText) -> Option<&[u8]>
    ensures { option_map (λ jid. jid.now) result ≡ jid_of payload.now }
{
    payload.jid()
}

// A row is pushed of a job that is fresh, or that isn't and was live or wasn't.
fn count_push(totals: &mut Totals, from: Origin, fresh: bool, live: bool)
    requires countable { IsCountable from totals.old }
    requires few { accounted totals.old (one_if live) ≤ pushes_in totals.old }
    ensures { totals.new ≡ count_named fresh live (count_push from totals.old) }
{
    totals.count_push(from);
    if fresh {
        return;
    }
    totals.again += 1;
    if live {
        totals.count_end(Ending::Muddled);
    }
}

// A job ends in this way, if it is live.
fn count_end(totals: &mut Totals, how: Ending, live: bool)
    requires { accounted totals.old 0 ≤ last_push }
    ensures { totals.new ≡ count_end how (one_if live) totals.old }
{
    if live {
        totals.count_end(how);
    }
}

impl JobRecords {
    /// No row names a job, none is live, and no row was pushed. Takes no memory.
    pub fn new(alloc: Global) -> JobRecords
        ensures { result ≡ closed (recorded [] no_jobs) }
    {
        JobRecords {
            numbers: JobNumbers::new(alloc),
            totals: Totals::none(),
            totals_then: Totals::none(),
        }
    }

    /// How many jobs are live.
    pub fn live_count(&self) -> usize
        ensures is { result ≡ length self.now.current.lived.live }
        ensures small { result ≤ most }
    {
        self.numbers.live_count()
    }

    /// How many rows name the job.
    pub fn count_of(&self, jid: &[u8]) -> u32
        ensures { result ≡ count_in jid.now self.now.current.counts }
    {
        self.numbers.get(jid).rows
    }

    /// Has the processor fetch what is recorded of a job whose id has this hash, and answers 0 where nothing is.
    pub fn look_at(&self, hash: u32) -> u32 {
        self.numbers.look_at(hash)
    }

    /// How many rows were ever pushed, and what became of them.
    pub fn totals(&self) -> Totals
        ensures { result ≡ self.now.current.lived.totals }
    {
        self.totals
    }

    /// How many rows were ever pushed.
    pub fn push_count(&self) -> u64
        ensures is { result ≡ pushes_in self.now.current.lived.totals }
        ensures small { result ≤ last_push }
        ensures outside { self.now.current.lived.totals.outside ≤ last_outside }
    {
        self.totals.pushes()
    }

    /// Where no row is left and each job that lives ends as deleted: none is live, and these are counted. Takes no memory.
    pub fn all_deleted(&self, alloc: Global) -> JobRecords
        ensures is { result ≡ closed (recorded [] (every_deleted self.now.current.lived)) }
        ensures order { is_sorted text_cmp self.now.current.lived.live ≡ true }
    {
        self.numbers.in_order();
        let mut totals = self.totals;
        totals.count_deleted(self.numbers.live_count() as u64);
        JobRecords {
            numbers: JobNumbers::new(alloc),
            totals,
            totals_then: totals,
        }
    }

    // A row without a job is pushed.
    fn push_bare(&mut self, from: Origin)
        requires { IsCountable from self.old.current.lived.totals }
        ensures { self.new ≡ edited (recorded self.old.current.counts (job_pushed from false None self.old.current.lived)) self.old }
    {
        self.totals.count_push(from);
        self.totals.bare += 1;
    }

    // A row of this job is pushed.
    fn push_job(
        &mut self,
        payload: &JobText,
        jid: &[u8],
        from: Origin,
        held: bool,
    ) -> Result<(), Memory>
        requires named { jid_of payload.now ≡ Some jid.now }
        requires countable { IsCountable from self.old.current.lived.totals }
        ensures ok { OnOk result (self.new ≡ edited (job_recorded from held jid.now self.old.current) self.old) }
        ensures err { OnErr result (self.new ≡ self.old) }
    {
        let known = self.numbers.prepare_row(payload)?;
        let fresh = known.is_new(held);
        self.numbers.put(jid, known, known.pushed(fresh));
        count_push(&mut self.totals, from, fresh, known.live);
        Ok(())
    }

    /// A row of this payload is pushed. Its job lives from now on where it is fresh: no row names it, and it isn't held in a worker's hands; else it is
    /// muddled. Clients push no more than 2^62 rows, and with the store's own there are no more than 2^63.
    pub fn push(&mut self, payload: &JobText, from: Origin, held: bool) -> Result<(), Memory>
        requires { IsCountable from self.old.current.lived.totals }
        ensures ok { OnOk result (self.new ≡ edited (row_pushed from held payload.now self.old.current) self.old) }
        ensures err { OnErr result (self.new ≡ self.old) }
    {
        match jid_of(payload) {
            Some(jid) => self.push_job(payload, jid, from, held),
            None => {
                self.push_bare(from);
                Ok(())
            }
        }
    }

    /// One more row of this payload is counted. The id of its job is kept in this payload from now on, so that an older one can go.
    pub fn add(&mut self, payload: &JobText) -> Result<(), Memory>
        ensures ok { OnOk result (self.new ≡ edited (row_added payload.now self.old.current) self.old) }
        ensures err { OnErr result (self.new ≡ self.old) }
    {
        if let Some(jid) = jid_of(payload) {
            self.numbers.renew(payload)?;
            let known = self.numbers.prepare_row(payload)?;
            self.numbers.put(jid, known, known.more());
        }
        Ok(())
    }

    /// One row less of this payload is counted.
    pub fn drop_out(&mut self, payload: &JobText) -> Result<(), Memory>
        ensures ok { OnOk result (self.new ≡ edited (row_left None payload.now self.old.current) self.old) }
        ensures err { OnErr result (self.new ≡ self.old) }
    {
        if let Some(jid) = jid_of(payload) {
            let known = self.numbers.prepare(payload)?;
            self.numbers.put(jid, known, known.less());
        }
        Ok(())
    }

    /// The same, and its job ends in this way, if it is live.
    pub fn drop_ended(&mut self, payload: &JobText, how: Ending) -> Result<(), Memory>
        ensures ok { OnOk result (self.new ≡ edited (row_left (Some how) payload.now self.old.current) self.old) }
        ensures err { OnErr result (self.new ≡ self.old) }
    {
        if let Some(jid) = jid_of(payload) {
            let known = self.numbers.prepare(payload)?;
            self.numbers.put(jid, known, known.less().ended());
            count_end(&mut self.totals, how, known.live);
        }
        Ok(())
    }

    /// One row less of this payload is counted, where no step is open. Takes no memory.
    pub fn take(&mut self, payload: &JobText)
        requires { self.old.saved ≡ None }
        ensures { self.new ≡ edited (row_left None payload.now self.old.current) self.old }
    {
        if let Some(jid) = jid_of(payload) {
            let known = self.numbers.get(jid);
            self.numbers.replace(jid, known, known.less());
        }
    }

    /// The same, and its job ends in this way, if it is live. Takes no memory.
    pub fn take_ended(&mut self, payload: &JobText, how: Ending)
        requires { self.old.saved ≡ None }
        ensures { self.new ≡ edited (row_left (Some how) payload.now self.old.current) self.old }
    {
        if let Some(jid) = jid_of(payload) {
            let known = self.numbers.get(jid);
            self.numbers.replace(jid, known, known.less().ended());
            count_end(&mut self.totals, how, known.live);
        }
    }

    /// One row less of this payload is counted, and its job ends in this way, if it does and is live; no step is open. Takes no memory.
    pub fn leave(&mut self, payload: &JobText, how: Option<Ending>)
        requires { self.old.saved ≡ None }
        ensures { self.new ≡ edited (row_left how payload.now self.old.current) self.old }
    {
        match how {
            Some(how) => self.take_ended(payload, how),
            None => self.take(payload),
        }
    }

    /// The same in an open step.
    pub fn leave_in_step(&mut self, payload: &JobText, how: Option<Ending>) -> Result<(), Memory>
        ensures ok { OnOk result (self.new ≡ edited (row_left how payload.now self.old.current) self.old) }
        ensures err { OnErr result (self.new ≡ self.old) }
    {
        match how {
            Some(how) => self.drop_ended(payload, how),
            None => self.drop_out(payload),
        }
    }

    /// The job of this payload ends in this way, if it is live, where no step is open. Takes no memory.
    pub fn end(&mut self, payload: &JobText, how: Ending)
        requires { self.old.saved ≡ None }
        ensures { self.new ≡ edited (recorded self.old.current.counts (ended how payload.now self.old.current.lived)) self.old }
    {
        if let Some(jid) = jid_of(payload) {
            let known = self.numbers.get(jid);
            self.numbers.replace(jid, known, known.ended());
            count_end(&mut self.totals, how, known.live);
        }
    }

    /// Opens a step. Takes no memory.
    pub fn begin(&mut self)
        requires { self.old.saved ≡ None }
        ensures { self.new ≡ begun self.old }
    {
        self.numbers.begin();
        self.totals_then = self.totals;
    }

    /// Closes the step, and what stood at its begin stands again. Takes no memory.
    pub fn undo(&mut self)
        requires { IsSome self.old.saved }
        ensures { self.new ≡ undone self.old }
    {
        self.numbers.undo();
        self.totals = self.totals_then;
    }

    /// Closes the step, and what stands now stays. Takes no memory.
    pub fn commit(&mut self)
        requires { IsSome self.old.saved }
        ensures { self.new ≡ committed self.old }
    {
        self.numbers.commit();
    }
}
