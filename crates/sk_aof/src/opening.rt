// Opening the log of a store: what it keeps is run again on an empty store. Nothing is written.
ghost use Rattle.std.specs.Prelude.{◌≡◌, ◌≤◌, ℕ, List, Err, IfOk, IsErrOf};
ghost use Rattle.sk_base.specs.Outside.{Rose};
ghost use Rattle.sk_log.specs.File.{Begins};
ghost use Rattle.sk_log.specs.Reading.{IsDamaged, OnlyRead};
ghost use Rattle.sk_log.specs.declared.fault.LogFault.TheVariants.{Damaged, Disk as DiskFault, Full, NotALog};
ghost use Rattle.sk_model.specs.World.{first};
ghost use Rattle.sk_aof.specs.Accepted.{Refuses, Runs};
ghost use Rattle.sk_aof.specs.Stored.{GivesBack, IsStored};

use crate::replay::Replay;
use sk_core::Core;
use sk_disk::Disk;
use sk_log::{Log, LogFault};
use sk_model::Limits;
use std::alloc::Global;

/// Opens the log of a store with these limits, and gives the store back as its log has it. A file that is a log of what was logged of a run of such a
/// store gives that run's last world, or the disk fails, or there is no memory.
pub fn open<D: Disk>(alloc: Global, disk: &mut D, limits: Limits) -> Result<(Log, Core), LogFault>
    // It writes nothing: what a crash leaves might have been left before.
    ensures only_read { OnlyRead D.reads D.may_leave D.moment D.left_since disk.old disk.new }

    // The store is what the log's events lead to from an empty one, and the log may be appended to.
    ensures stored { IfOk result (λ r. IsStored limits (D.reads disk.old) (D.may_leave disk.new) r.0 r.1) }

    // What was logged of a run gives the run's last world.
    ensures holds { GivesBack limits (D.reads disk.old) result }

    // A file that doesn't begin as a log does; a place where no record stands, or one that is no event's or that the store refuses.
    ensures not_a_log { result ≡ Err NotALog → (c : List ℕ) → D.reads disk.old c → Begins c → ⊥ }
    ensures damaged { (at : ℕ) → result ≡ Err (Damaged at) → IsDamaged Runs Refuses (D.reads disk.old) at (first limits) }

    // It is never full. A fault of the disk comes only where its count rose.
    ensures room { result ≡ Err Full → ⊥ }
    ensures later { D.disk_faults disk.old ≤ D.disk_faults disk.new }
    ensures disk { IsErrOf result DiskFault → Rose (D.disk_faults disk.old) (D.disk_faults disk.new) }
{
    let mut replay = Replay::new(alloc, limits);
    match sk_log::open(alloc, disk, &mut replay) {
        Ok(log) => Ok((log, replay.into_core())),
        Err(fault) => {
            replay.close();
            Err(fault)
        }
    }
}
