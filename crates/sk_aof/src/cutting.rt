// Cutting off all seats of a store whose log was opened: nobody is connected to it any more.
ghost use Rattle.std.specs.Prelude.{◌≡◌, ◌≤◌, IfErr, IsErrOf, OnOk};
ghost use Rattle.sk_base.specs.Outside.{Rose};
ghost use Rattle.sk_log.specs.declared.fault.LogFault.TheVariants.{Disk as DiskFault};
ghost use Rattle.sk_aof.specs.Cuts.{AllPlain, CutsOff, CutsStop, LeavesCuts};

use crate::entry::cut_record;
use sk_core::Core;
use sk_disk::Disk;
use sk_log::{Log, LogFault};
use std::alloc::Global;

/// Cuts off each seat that isn't Plain, in the order of their numbers. Each cut is in the log before its seat is cut off.
pub fn cut_all<D: Disk>(
    alloc: Global,
    log: &mut Log,
    disk: &mut D,
    core: &mut Core,
) -> Result<(), LogFault>
    // A crash at any moment leaves the log with the first few of the cuts; at Ok it has all of them.
    ensures any_moment { LeavesCuts D.may_leave D.moment D.left_since log.old disk.old disk.new }
    ensures ok { OnOk result (CutsOff D.may_leave D.moment D.left_since log.old disk.old core.old log.new disk.new core.new) }
    ensures plain { OnOk result (AllPlain core.new) }

    // It ends at the first cut that the log can't take. A fault of the disk comes only where its count rose.
    ensures err { IfErr result (CutsStop D.may_leave D.moment D.left_since log.old disk.old core.old core.new) }
    ensures later { D.disk_faults disk.old ≤ D.disk_faults disk.new }
    ensures disk { IsErrOf result DiskFault → Rose (D.disk_faults disk.old) (D.disk_faults disk.new) }
{
    let mut after = None;
    while let Some(seat) = core.next_seat(after) {
        let entry = cut_record(alloc, seat)?;
        log.append(disk, &entry)?;
        core.cut(seat);
        after = Some(seat);
    }
    Ok(())
}
