// Where a leader finds what waits: behind a lock that those who log hold, too.
ghost use Rattle.std.specs.Prelude.{List, IfSome};
ghost use Rattle.sk_log.specs.File.{Body};

use crate::{LogId, Pending, Prefix, Taken};
use sk_log::{Group, LogFault, Record};
use std::marker::Model;
use std::sync::{Mutex, Wait};

/// What waits, behind its lock. No clause can say through a lock that a leader gets all that waits; that what it gets are the last records of the
/// history up to some place, `Taken` says of itself.
pub trait Backlog<I: LogId> {
    /// All that waits goes to a leader, who gives a group for what comes next. The lock is held for that alone, and the leader holds none. None where
    /// nothing can be logged any more.
    fn take<R: Wait>(&self, rt: &R, spare: Group) -> Option<Taken<I>>
        ensures { IfSome result (λ taken. I.holds taken) };
}

/// A backlog by itself, of a history of which nothing else is said.
#[derive(Drop)]
pub struct PlainBacklog<I: LogId> {
    pending: Mutex<Pending<I>>,
}

impl<I: LogId> Model for PlainBacklog<I> {
    ghost use Rattle.std.specs.Prelude.{List};
    ghost use Rattle.sk_log.specs.File.{Body};

    ghost Value = { Unit {0} };

    ghost view = { λ b. tt };

    ghost invariant = { λ b. (history : List Body) → I.holds history };
}

impl<I: LogId> PlainBacklog<I> {
    /// The backlog of what is logged here.
    pub fn new(pending: Pending<I>) -> PlainBacklog<I>
        requires { (history : List Body) → I.holds history }
    {
        PlainBacklog {
            pending: Mutex::new(pending),
        }
    }

    /// Logs a record, and answers what was logged so far. The faults are those of [`Pending::log`].
    pub fn log<R: Wait>(&self, rt: &R, entry: Record) -> Result<Prefix<I>, LogFault> {
        let mut pending = self.pending.lock(rt);
        pending.drop_draft();
        pending.log(entry)?;
        Ok(pending.seen())
    }
}

impl<I: LogId> Backlog<I> for PlainBacklog<I> {
    fn take<R: Wait>(&self, rt: &R, spare: Group) -> Option<Taken<I>> {
        let mut pending = self.pending.lock(rt);
        pending.drop_draft();
        Some(pending.take(spare))
    }
}
