// The settler of one connection to a store whose events are logged.
ghost use Rattle.std.specs.Prelude.{◌≡◌, ◌+◌, ◌-◌, ◌^◌, true, None, min, IfSome, OnErr, OnOk};
ghost use mathlib.Core.List.{IsPrefix};
ghost use Rattle.sk_base.specs.Outside.{HasCause};
ghost use Rattle.sk_held.specs.Counts.{CountsOks};
ghost use Rattle.sk_durable.specs.Writes.{Has, IsKeptLog, IsStored};

use crate::{HubBacklog, Mark, SyncMode};
use sk_base::Failed;
use sk_commit::{Committer, Durable, LogId};
use sk_desk::HubId;
use sk_disk::Disk;
use sk_held::Settler;
use std::marker::Model;
use std::sync::Wait;

/// Has all that was logged so far stored, or waits for who does. Where its mode says so, it looks only whether the log goes on. Contracts see what was stored
/// when it last settled, the mark that it asked for then, and how often it has settled and failed to.
#[derive(Drop)]
pub struct LogSettler<'a, R: Wait, D: Disk + Drop, I: HubId, J: LogId, M: SyncMode> {
    rt: &'a R,
    backlog: &'a HubBacklog<'a, I, J>,
    committer: &'a Committer<D, J>,
    mode: &'a M,
    mark: Option<Mark<I, J>>,
    durable: Option<Durable<J>>,
    settled: u64,
    faults: u64,
}

impl<'a, R: Wait, D: Disk + Drop, I: HubId, J: LogId, M: SyncMode> Model
    for LogSettler<'a, R, D, I, J, M> {
    ghost use Rattle.sk_durable.specs.Writes.{SettlerView};

    ghost Value = { SettlerView };

    ghost view = { λ s. record { mark = s.mark; durable = s.durable; settled = s.settled; faults = s.faults } };
}

// What a settle found stored, with the mark of all that was logged before, where it has all of that.
#[derive(Drop)]
pub(crate) struct Found<I: HubId, J: LogId> {
    mark: Option<Mark<I, J>>,
    durable: Durable<J>,
}

impl<'a, R: Wait, D: Disk + Drop, I: HubId, J: LogId, M: SyncMode> LogSettler<'a, R, D, I, J, M> {
    /// It has settled nothing yet.
    pub fn new(
        rt: &'a R,
        backlog: &'a HubBacklog<'a, I, J>,
        committer: &'a Committer<D, J>,
        mode: &'a M,
    ) -> LogSettler<'a, R, D, I, J, M>
        ensures { result ≡ record { mark = None; durable = None; settled = 0; faults = 0 } }
    {
        LogSettler {
            rt,
            backlog,
            committer,
            mode,
            mark: None,
            durable: None,
            settled: 0,
            faults: 0,
        }
    }

    /// Has stored what is logged by now, whose mark bears the number. None where the log has ended.
    pub(crate) fn store(&self, number: u64) -> Option<Found<I, J>>
        ensures kept { IfSome result (λ found. IsKeptLog I.start found.durable) }
        ensures all { IfSome result (λ found. Has number found.mark found.durable) }
    {
        self.backlog.sound();
        let mark = self.backlog.mark(self.rt, number)?;
        let durable = self
            .committer
            .settle(self.rt, self.backlog, mark.prefix())
            .ok()?;
        Some(Found {
            mark: Some(mark),
            durable,
        })
    }

    // What is stored by now. None where the log has ended.
    fn look(&self) -> Option<Found<I, J>>
        ensures { IfSome result (λ found. IsKeptLog I.start found.durable) }
    {
        self.backlog.sound();
        let durable = self.committer.stored(self.rt).ok()?;
        Some(Found {
            mark: None,
            durable,
        })
    }

    // What is stored when it has settled for the so-many-th time.
    fn find(&self, number: u64) -> Option<Found<I, J>>
        ensures kept { IfSome result (λ found. IsKeptLog I.start found.durable) }
        ensures all { M.waits ≡ true → IfSome result (λ found. Has number found.mark found.durable) }
    {
        if self.mode.only_looks() {
            return self.look();
        }
        self.store(number)
    }
}

impl<'a, R: Wait, D: Disk + Drop, I: HubId, J: LogId, M: SyncMode> Settler
    for LogSettler<'a, R, D, I, J, M> {
    ghost settled = { λ s. s.settled };

    ghost settle_faults = { λ s. s.faults };

    ghost stored = { λ s. IsStored M.waits I.start s };

    /// What is stored then is what a log keeps of a run of the store from the start. Where its mode waits, all that was logged when it was called is in that,
    /// by a mark that the store gave it under the number of this settle. It fails for good once the log has ended: where the disk fails, the file is full, or
    /// nothing can be logged any more.
    fn settle(&mut self) -> Result<(), Failed>
        ensures counts { CountsOks self.old.settled self.new.settled result }
        ensures cause { HasCause self.old.faults self.new.faults result }
        ensures stored { OnOk result (IsStored M.waits I.start self.new) }
        ensures kept { OnErr result (IsStored M.waits I.start self.old → IsStored M.waits I.start self.new) }
        ensures number { OnOk result (self.new.settled ≡ min (self.old.settled + 1) (2 ^ 64 - 1)) }
    {
        let number = self.settled.saturating_add(1);
        let Some(found) = self.find(number) else {
            self.faults = self.faults.saturating_add(1);
            return Err(Failed);
        };
        self.mark = found.mark;
        self.durable = Some(found.durable);
        self.settled = number;
        Ok(())
    }

    fn faults(&self) -> u64 {
        self.faults
    }
}
