// The rows of the sets of jobs: each set has a list of its own, by score and text.
ghost use Rattle.std.specs.Prelude.{◌≡◌, ◌+◌, ◌<◌, ◌≤◌, [], IsSome, None, OnOk, length, slice_index_or};
ghost use Rattle.std.specs.List.{insert, remove};
ghost use Rattle.sk_undo.specs.Versions.{begun, closed, committed, edited, undone};
ghost use Rattle.sk_places.specs.JobSets.{begin_of, entry_in, items_of, others_of};

use crate::Memory;
use sk_base::Score;
use sk_cmd::Scored;
use sk_payload::JobText;
use sk_undo::UndoList;
use std::alloc::Global;
use std::marker::Model;

/// The schedule, the retries and the dead jobs, each a list of scores and payloads. Contracts see one list of entries, in the order of the sets: what
/// stands now, and what stood at the begin of an open step; and how many further edits can't fail.
#[derive(Drop)]
pub struct JobSets {
    schedule: UndoList<Score, JobText>,
    retry: UndoList<Score, JobText>,
    dead: UndoList<Score, JobText>,
}

impl Model for JobSets {
    ghost use Rattle.std.specs.Prelude.{List};
    ghost use Rattle.sk_undo.specs.UndoView.{UndoView};
    ghost use Rattle.sk_places.specs.Entries.{Entry};

    ghost Value = { UndoView (List Entry) };

    ghost use Rattle.sk_places.specs.JobSets.{AreInStep, sets_view};

    ghost view = { λ s. sets_view s.schedule s.retry s.dead };

    ghost invariant = { λ s. AreInStep s.schedule.list s.retry.list s.dead.list };
}

impl JobSets {
    /// Takes no memory.
    pub fn new(alloc: Global) -> JobSets
        ensures { result.list ≡ closed [] }
    {
        JobSets {
            schedule: UndoList::new(alloc),
            retry: UndoList::new(alloc),
            dead: UndoList::new(alloc),
        }
    }

    /// The list of one set.
    pub fn of(&self, set: Scored) -> &UndoList<Score, JobText>
        ensures { result.now.list.current ≡ items_of set self.now.list.current }
    {
        match set {
            Scored::Schedule => &self.schedule,
            Scored::Retry => &self.retry,
            Scored::Dead => &self.dead,
        }
    }

    /// Takes the memory for so many further edits of each set.
    pub fn reserve(&mut self, edits: usize) -> Result<(), Memory>
        ensures list { self.new.list ≡ self.old.list }
        ensures ok { OnOk result (edits ≤ self.new.room) }
    {
        self.schedule.reserve(edits)?;
        self.retry.reserve(edits)?;
        self.dead.reserve(edits)
    }

    /// Puts an item into a set, at an index.
    pub fn insert(&mut self, set: Scored, at: usize, item: (Score, JobText))
        requires within { at ≤ length (items_of set self.old.list.current) }
        requires room { 0 < self.old.room }
        ensures list { self.new.list ≡ edited (insert self.old.list.current (begin_of set self.old.list.current + at) (entry_in set item)) self.old.list }
        ensures room { self.old.room ≤ self.new.room + 1 }
    {
        match set {
            Scored::Schedule => self.schedule.insert(at, item),
            Scored::Retry => self.retry.insert(at, item),
            Scored::Dead => self.dead.insert(at, item),
        }
    }

    /// Takes the item of a set at an index out. An open step keeps it until it is closed.
    pub fn drop_out(&mut self, set: Scored, at: usize)
        requires within { at < length (items_of set self.old.list.current) }
        requires room { 0 < self.old.room }
        ensures list { self.new.list ≡ edited (remove self.old.list.current (begin_of set self.old.list.current + at)) self.old.list }
        ensures room { self.old.room ≤ self.new.room + 1 }
    {
        match set {
            Scored::Schedule => self.schedule.drop_out(at),
            Scored::Retry => self.retry.drop_out(at),
            Scored::Dead => self.dead.drop_out(at),
        }
    }

    /// Takes the item of a set at an index out and gives it to the caller. Takes no memory.
    pub fn take(&mut self, set: Scored, at: usize) -> (Score, JobText)
        requires within { at < length (items_of set self.old.list.current) }
        requires closed { self.old.list.saved ≡ None }
        ensures item { result ≡ slice_index_or (items_of set self.old.list.current) at result }
        ensures list { self.new.list ≡ edited (remove self.old.list.current (begin_of set self.old.list.current + at)) self.old.list }
    {
        match set {
            Scored::Schedule => self.schedule.take(at),
            Scored::Retry => self.retry.take(at),
            Scored::Dead => self.dead.take(at),
        }
    }

    /// Takes all items of a set out and gives them to the caller. Takes constant time, and no memory.
    pub fn take_all(&mut self, set: Scored) -> UndoList<Score, JobText>
        requires { self.old.list.saved ≡ None }
        ensures own { result.list ≡ closed (items_of set self.old.list.current) }
        ensures rest { self.new.list ≡ edited (others_of set self.old.list.current) self.old.list }
    {
        match set {
            Scored::Schedule => all_of(&mut self.schedule),
            Scored::Retry => all_of(&mut self.retry),
            Scored::Dead => all_of(&mut self.dead),
        }
    }

    /// Opens a step. Takes no memory.
    pub fn begin(&mut self)
        requires { self.old.list.saved ≡ None }
        ensures list { self.new.list ≡ begun self.old.list }
    {
        self.schedule.begin();
        self.retry.begin();
        self.dead.begin();
    }

    /// Closes the step, and what stood at its begin stands again. Takes no memory.
    pub fn undo(&mut self)
        requires { IsSome self.old.list.saved }
        ensures { self.new.list ≡ undone self.old.list }
    {
        self.schedule.undo();
        self.retry.undo();
        self.dead.undo();
    }

    /// Closes the step, and what stands now stays. Takes no memory.
    pub fn commit(&mut self)
        requires { IsSome self.old.list.saved }
        ensures { self.new.list ≡ committed self.old.list }
    {
        self.schedule.commit();
        self.retry.commit();
        self.dead.commit();
    }
}

// Takes all items of a list out and gives them to the caller.
fn all_of(items: &mut UndoList<Score, JobText>) -> UndoList<Score, JobText>
    requires { items.old.list.saved ≡ None }
    ensures own { result.list ≡ closed items.old.list.current }
    ensures rest { items.new.list ≡ edited [] items.old.list }
{
    let len = items.len();
    items.cut(0, len)
}
