// One number under the id of each job: how many rows name it, and whether it is live. Memory is taken before the first edit.
ghost use Rattle.std.specs.Prelude.{◌≡◌, ◌+◌, ◌<◌, ◌≤◌, [], true, false, IfOk, IsSome, None, OnOk, length};
ghost use Rattle.std.specs.List.Sorted.{IsStrictlySortedBy};
ghost use Rattle.std.specs.Map.{keys_of};
ghost use Rattle.sk_resp.specs.WordOrder.{text_cmp};
ghost use Rattle.sk_undo.specs.Balance.{most};
ghost use Rattle.sk_undo.specs.Versions.{begun, closed, committed, undone};
ghost use Rattle.sk_payload.specs.Head.{jid_of};
ghost use Rattle.sk_table.specs.Counts.{count_in, with_count};
ghost use Rattle.sk_places.specs.Index.{IsReady, IsReadyFor};
ghost use Rattle.sk_places.specs.JobRecords.{counts_in, live_after, live_in, live_mark, live_with, IsRecordOf};
ghost use Rattle.sk_places.specs.LiveJobs.{is_among};

use crate::Memory;
use crate::job_key::JobKey;
use crate::job_record::JobRecord;
use sk_payload::JobText;
use sk_table::UndoCounts;
use std::alloc::Global;
use std::marker::Model;

/// What is recorded of each job, as one number under its id. Contracts see the list of these numbers: what stands, and what stood at the begin of an
/// open step; and under which ids they can be changed without memory.
#[derive(Drop)]
pub struct JobNumbers {
    numbers: UndoCounts<JobKey>,
    // How many jobs are live.
    live: usize,
    // How many were at the begin of the open step.
    live_then: usize,
}

impl Model for JobNumbers {
    ghost use Rattle.sk_table.specs.CountsView.{CountsView, counts_view_code};
    ghost use Rattle.sk_places.specs.JobRecords.{AreLiveCounted};

    ghost Value = { CountsView };

    ghost coded = { counts_view_code };

    ghost view = { λ j. j.numbers };

    ghost invariant = { λ j. AreLiveCounted j.numbers.list j.live j.live_then };
}

// How many jobs are live, where one of them was or wasn't, and now is or isn't.
fn live_after(live: usize, before: bool, after: bool) -> usize
    requires some { before ≡ true → 0 < live }
    requires few { live ≤ most }
    ensures { result ≡ live_after live before after }
{
    if after && !before {
        live + 1
    } else if before && !after {
        live - 1
    } else {
        live
    }
}

impl JobNumbers {
    /// Nothing is recorded. Takes no memory.
    pub fn new(alloc: Global) -> JobNumbers
        ensures { result.list ≡ closed [] }
    {
        JobNumbers {
            numbers: UndoCounts::new(alloc),
            live: 0,
            live_then: 0,
        }
    }

    /// How many jobs are live.
    pub fn live_count(&self) -> usize
        ensures is { result ≡ length (live_in self.now.list.current) }
        ensures small { result ≤ most }
    {
        self.numbers.len();
        self.live
    }

    /// Does nothing: its contract says that the ids ascend.
    pub fn in_order(&self)
        ensures { IsStrictlySortedBy text_cmp (keys_of self.now.list.current) }
    {
        self.numbers.in_order();
    }

    /// Has the processor fetch what is recorded of a job whose id has this hash, and answers 0 where nothing is.
    pub fn look_at(&self, hash: u32) -> u32 {
        self.numbers.look_at(hash)
    }

    /// What is recorded of the job.
    pub fn get(&self, jid: &[u8]) -> JobRecord
        ensures rows { result.rows ≡ count_in jid.now (counts_in self.now.list.current) }
        ensures live { result.live ≡ is_among jid.now (live_in self.now.list.current) }
        ensures few { result.rows < live_mark }
    {
        self.numbers.in_order();
        JobRecord::of(self.numbers.count(jid))
    }

    /// Takes the memory for a change of what is recorded of the payload's job, and answers that; nothing where it has no job.
    pub fn prepare(&mut self, payload: &JobText) -> Result<JobRecord, Memory>
        ensures list { self.new.list ≡ self.old.list }
        ensures is { IfOk result (λ r. IsRecordOf r (jid_of payload.now) self.old.list.current) }
        ensures few { IfOk result (λ r. r.rows < live_mark) }
        ensures ready { OnOk result (IsReady (jid_of payload.now) self.new) }
    {
        let Some(key) = JobKey::of(payload)? else {
            return Ok(JobRecord::none());
        };
        let Some(again) = JobKey::of(payload)? else {
            return Ok(JobRecord::none());
        };
        self.numbers.in_order();
        Ok(JobRecord::of(self.numbers.prepare(key, again)?))
    }

    /// The same for one more row. It is refused where 2^31 - 2 rows name the job.
    pub fn prepare_row(&mut self, payload: &JobText) -> Result<JobRecord, Memory>
        ensures list { self.new.list ≡ self.old.list }
        ensures is { IfOk result (λ r. IsRecordOf r (jid_of payload.now) self.old.list.current) }
        ensures few { IfOk result (λ r. r.rows + 1 < live_mark) }
        ensures ready { OnOk result (IsReady (jid_of payload.now) self.new) }
    {
        let record = self.prepare(payload)?;
        if record.is_full() {
            return Err(Memory);
        }
        Ok(record)
    }

    /// This is recorded of a job that was prepared, of which the other was. Takes no memory.
    pub fn put(&mut self, jid: &[u8], before: JobRecord, after: JobRecord)
        requires ready { IsReadyFor jid.now self.old }
        requires before { before.live ≡ is_among jid.now (live_in self.old.list.current) }
        requires few { after.rows < live_mark }
        ensures counts { counts_in self.new.list.current ≡ with_count jid.now after.rows (counts_in self.old.list.current) }
        ensures live { live_in self.new.list.current ≡ live_with after.live jid.now (live_in self.old.list.current) }
        ensures same_live { after.live ≡ before.live → live_in self.new.list.current ≡ live_in self.old.list.current }
        ensures saved { self.new.list.saved ≡ self.old.list.saved }
    {
        self.numbers.in_order();
        self.numbers.len();
        self.live = live_after(self.live, before.live, after.live);
        self.numbers.put(jid, after.number());
    }

    /// The same where no step is open, and where no more is recorded than was. Takes no memory.
    pub fn replace(&mut self, jid: &[u8], before: JobRecord, after: JobRecord)
        requires closed { self.old.list.saved ≡ None }
        requires rows { before.rows ≡ count_in jid.now (counts_in self.old.list.current) }
        requires live { before.live ≡ is_among jid.now (live_in self.old.list.current) }
        requires few { before.rows < live_mark }
        requires no_more_rows { after.rows ≤ before.rows }
        requires no_more_live { after.live ≡ true → before.live ≡ true }
        ensures counts { counts_in self.new.list.current ≡ with_count jid.now after.rows (counts_in self.old.list.current) }
        ensures live { live_in self.new.list.current ≡ live_with after.live jid.now (live_in self.old.list.current) }
        ensures same_counts { after.rows ≡ before.rows → counts_in self.new.list.current ≡ counts_in self.old.list.current }
        ensures same_live { after.live ≡ before.live → live_in self.new.list.current ≡ live_in self.old.list.current }
        ensures saved { self.new.list.saved ≡ self.old.list.saved }
    {
        self.numbers.in_order();
        if before.is_none() {
            return;
        }
        self.numbers.len();
        self.live = live_after(self.live, before.live, after.live);
        self.numbers.replace(jid, after.number());
    }

    /// The id of the payload's job, if anything is recorded of it, is kept in this payload from now on, so that an older one can go.
    pub fn renew(&mut self, payload: &JobText) -> Result<(), Memory>
        ensures { self.new ≡ self.old }
    {
        if let Some(key) = JobKey::of(payload)? {
            self.numbers.renew(key);
        }
        Ok(())
    }

    /// Opens a step. Takes no memory.
    pub fn begin(&mut self)
        requires { self.old.list.saved ≡ None }
        ensures { self.new.list ≡ begun self.old.list }
    {
        self.numbers.begin();
        self.live_then = self.live;
    }

    /// Closes the step, and what stood at its begin stands again. Takes no memory.
    pub fn undo(&mut self)
        requires { IsSome self.old.list.saved }
        ensures { self.new.list ≡ undone self.old.list }
    {
        self.numbers.undo();
        self.live = self.live_then;
    }

    /// Closes the step, and what stands now stays. Takes no memory.
    pub fn commit(&mut self)
        requires { IsSome self.old.list.saved }
        ensures { self.new.list ≡ committed self.old.list }
    {
        self.numbers.commit();
    }
}
