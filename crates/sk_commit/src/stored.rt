// The file of a shared log, which has a beginning of the history.
ghost use Rattle.std.specs.Prelude.{◌≡◌, ◌⊎◌, ◌≤◌, [], IfOk, length, true};
ghost use mathlib.Core.List.{IsPrefix};
ghost use Rattle.sk_commit.specs.Shared.{HasBehind, IsStart, KeepsSome};

use crate::{Broken, Halt, LogId, Prefix, Taken};
use sk_disk::Disk;
use sk_log::{Group, Log, LogFault};
use std::marker::Model;

/// A file, and the records that were stored in it since it was handed over. Contracts see these. Whatever a crash leaves is a log of what stood in
/// the file then, and of these, of which holds what holds of all that leaders take; and so was, with others of which that holds, whatever a crash might
/// have left before.
#[derive(Drop)]
pub struct Stored<D: Disk + Drop, I: LogId> {
    disk: D,
    log: Log,
    prefix: Prefix<I>,
}

impl<D: Disk + Drop, I: LogId> Model for Stored<D, I> {
    ghost use Rattle.std.specs.Prelude.{◌≤◌, List};
    ghost use Rattle.sk_log.specs.File.{Body};
    ghost use Rattle.sk_commit.specs.Shared.{HasBehind, KeepsSome};

    ghost Value = { List Body };

    ghost view = { λ s. s.prefix };

    ghost invariant = { λ s. HasBehind I.starts s.prefix s.log (D.may_leave s.disk) × I.holds s.prefix × (I.faults ≤ D.disk_faults s.disk)
        × KeepsSome D.moment D.left_since I.starts I.holds I.since s.disk };
}

/// A beginning of the history that is in the file, at whose end a leader once took it. Only the file itself makes one. Contracts see the bodies of its
/// records.
#[derive(Drop)]
pub struct Durable<I: LogId> {
    prefix: Prefix<I>,
}

impl<I: LogId> Model for Durable<I> {
    ghost use Rattle.std.specs.Prelude.{List};
    ghost use Rattle.sk_log.specs.File.{Body};

    ghost Value = { List Body };

    ghost view = { λ d. d.prefix };

    ghost invariant = { λ d. I.holds d.prefix };
}

impl<I: LogId> Durable<I> {
    /// How many records it has.
    pub fn len(&self) -> u64
        ensures { result ≡ length self.now }
    {
        self.prefix.len()
    }

    /// A copy.
    pub fn again(&self) -> Durable<I>
        ensures { result ≡ self.now }
    {
        Durable {
            prefix: self.prefix.again(),
        }
    }

    /// Whether all that was seen is in it.
    pub fn reaches(&self, me: &Prefix<I>) -> bool
        ensures has { result ≡ true → IsPrefix me.now self.now }
        ensures holds { I.holds self.now }
    {
        if self.prefix.len() < me.len() {
            return false;
        }
        let _both = self.prefix.longer(me);
        true
    }
}

// Why a log ends that couldn't be appended to.
fn halt_at(fault: LogFault) -> Halt
    requires { (fault ≡ LogFault.Disk) ⊎ (fault ≡ LogFault.Full) }
    ensures disk { result ≡ Halt.Disk → fault ≡ LogFault.Disk }
    ensures full { result ≡ Halt.Full → fault ≡ LogFault.Full }
{
    match fault {
        LogFault::Disk => Halt::Disk,
        LogFault::Full => Halt::Full,
        _ => unreachable!(),
    }
}

impl<D: Disk + Drop, I: LogId> Stored<D, I> {
    /// A file that was just made or opened, and the beginning of the history that has no record.
    pub fn new(disk: D, log: Log, prefix: Prefix<I>) -> Stored<D, I>
        requires prefix { prefix ≡ [] }
        requires holds { I.holds [] }
        requires start { IsStart I.starts log (D.may_leave disk) }
        requires count { D.disk_faults disk ≡ I.faults }
        requires since { D.moment disk ≡ I.since }
        ensures { result ≡ [] }
    {
        Stored { disk, log, prefix }
    }

    /// What is stored of the history.
    pub fn durable(&self) -> Durable<I>
        ensures { result ≡ self.now }
    {
        Durable {
            prefix: self.prefix.again(),
        }
    }

    /// Stores what a leader took, with two syncs for all of it, and answers the leader's group beside the file: all of the history up to the group's
    /// end is in the file then. Broken where the disk failed, the file would be too long, or another group comes next: the log has ended.
    pub fn store(self, taken: Taken<I>) -> Result<(Stored<D, I>, Group), Broken<D, I>>
        requires { I.holds taken }
        ensures stored { IfOk result (λ r. r.0 ≡ taken) }
        ensures grows { IfOk result (λ r. IsPrefix self r.0) }
    {
        let Stored {
            mut disk,
            mut log,
            prefix,
        } = self;
        let (next, before, group) = taken.into_parts();
        if before != prefix.len() {
            return Err(Broken::new(disk, Halt::Astray));
        }
        let _both = prefix.longer(&next);
        if let Err(fault) = log.append_all(&mut disk, &group) {
            return Err(Broken::new(disk, halt_at(fault)));
        }
        let stored = Stored {
            disk,
            log,
            prefix: next,
        };
        Ok((stored, group))
    }

    /// The log ends: nothing more can be logged.
    pub fn give_up(self) -> Broken<D, I>
        ensures { result ≡ Halt.Astray }
    {
        let Stored {
            disk,
            log: _,
            prefix: _,
        } = self;
        Broken::new(disk, Halt::Astray)
    }

    /// The file and its log.
    pub fn into_parts(self) -> (D, Log)
        ensures log { HasBehind I.starts self result.1 (D.may_leave result.0) }
        ensures holds { I.holds self }
        ensures count { I.faults ≤ D.disk_faults result.0 }
        ensures left { KeepsSome D.moment D.left_since I.starts I.holds I.since result.0 }
    {
        let Stored {
            disk,
            log,
            prefix: _,
        } = self;
        (disk, log)
    }
}
