// What came of jobs that were sent on.
ghost use Rattle.std.specs.Prelude.{◌≡◌, ◌+◌, ◌<◌, ◌^◌, ◌++◌, [], IfOk, OnOk};
ghost use Rattle.sk_model.specs.Jobs.{Routed, reports};
ghost use Rattle.sk_model.specs.Outcome.{Realizes};
ghost use Rattle.sk_model.specs.World.{World};
ghost use Rattle.sk_jobs.specs.Routing.{IsRouted};

use sk_resp::{Memory, Replies, Reply, Word};
use sk_value::{as_reply, counted};
use std::alloc::Global;

/// What came of jobs that were sent from a place to their queues, or to the dead set.
#[derive(Drop)]
pub struct Report {
    /// How many went to their queues.
    pub moved: usize,
    /// How many were buried.
    pub buried: usize,
    /// The batch and the kind of each firing, one after another.
    pub fired: Vec<Word>,
    /// The texts that the dead set dropped.
    pub trimmed: Vec<Word>,
}

impl Report {
    /// What is told where nothing was sent on.
    pub fn nothing(alloc: Global) -> Report
        ensures none { (result.moved ≡ 0) × (result.buried ≡ 0) }
        ensures texts { (result.fired.items ≡ []) × (result.trimmed.items ≡ []) }
    {
        Report {
            moved: 0,
            buried: 0,
            fired: Vec::new(alloc),
            trimmed: Vec::new(alloc),
        }
    }

    /// What is told of one that went to its queue.
    pub fn one_moved(alloc: Global) -> Report
        ensures one { (result.moved ≡ 1) × (result.buried ≡ 0) }
        ensures texts { (result.fired.items ≡ []) × (result.trimmed.items ≡ []) }
    {
        Report {
            moved: 1,
            ..Report::nothing(alloc)
        }
    }

    /// What came of more jobs is told behind.
    pub fn append(&mut self, more: Report) -> Result<(), Memory>
        requires moved { self.old.moved + more.moved < 2 ^ 64 }
        requires buried { self.old.buried + more.buried < 2 ^ 64 }
        ensures moved { self.new.moved ≡ self.old.moved + more.moved }
        ensures buried { self.new.buried ≡ self.old.buried + more.buried }
        ensures fired { OnOk result (self.new.fired.items ≡ self.old.fired.items ++ more.fired.items) }
        ensures trimmed { OnOk result (self.new.trimmed.items ≡ self.old.trimmed.items ++ more.trimmed.items) }
    {
        let (mut fired, mut trimmed) = (more.fired, more.trimmed);
        self.moved += more.moved;
        self.buried += more.buried;
        self.fired.append(&mut fired)?;
        self.trimmed.append(&mut trimmed)?;
        Ok(())
    }

    /// How many were moved and buried, what was fired, and the texts that the dead set dropped.
    pub fn into_reply(self, alloc: Global) -> Result<Reply, Memory>
        requires { self.moved + self.buried < 2 ^ 63 }
        ensures { IfOk result (λ reply. (old new : World) (sent : Routed) → IsRouted old new self sent → Realizes old (reports sent) reply new) }
    {
        let mut parts = Vec::with_capacity(alloc, 4)?;
        parts.push(counted(self.moved))?;
        parts.push(counted(self.buried))?;
        parts.push(as_reply(alloc, self.fired)?)?;
        parts.push(as_reply(alloc, self.trimmed)?)?;
        Ok(Reply::Array(Replies::new(parts)))
    }
}
