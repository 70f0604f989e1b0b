// A pipe over a file: the log is made or opened, its seats are cut off, and then it is talked over.
ghost use Rattle.std.specs.Prelude.{◌≡◌, ◌≤◌, ℕ, List, Err, IfErr, IfOk, IsErrOf};
ghost use Rattle.sk_base.specs.Outside.{Rose};
ghost use Rattle.sk_log.specs.File.{Begins};
ghost use Rattle.sk_log.specs.Reading.{IsDamaged};
ghost use Rattle.sk_log.specs.declared.fault.LogFault.TheVariants.{Damaged, Disk as DiskFault, Full, NotALog};
ghost use Rattle.sk_model.specs.World.{first};
ghost use Rattle.sk_aof.specs.Accepted.{Refuses, Runs};
ghost use Rattle.sk_aof.specs.Piping.{FillsUp, IsNoLog, IsReady, IsReopened, Pipes, StaysShut, StopsBefore};

use crate::{LogEnd, cut_all, open, talk};
use sk_base::{Sink, Source};
use sk_core::Core;
use sk_disk::Disk;
use sk_log::{Log, LogFault};
use sk_model::Limits;
use sk_pipe::{PipeEnd, Session};
use std::alloc::Global;

// The store of a log, with all its seats cut off.
fn reopen<D: Disk>(alloc: Global, disk: &mut D, limits: Limits) -> Result<(Log, Core), LogFault>
    ensures ready { IfOk result (λ r. IsReopened D.reads D.may_leave D.moment D.left_since limits disk.old r disk.new) }
    ensures stops { IfErr result (StaysShut D.reads D.may_leave D.moment D.left_since limits disk.old disk.new) }
    ensures not_a_log { result ≡ Err NotALog → (c : List ℕ) → D.reads disk.old c → Begins c → ⊥ }
    ensures damaged { (at : ℕ) → result ≡ Err (Damaged at) → IsDamaged Runs Refuses (D.reads disk.old) at (first limits) }
    ensures later { D.disk_faults disk.old ≤ D.disk_faults disk.new }
    ensures disk { IsErrOf result DiskFault → Rose (D.disk_faults disk.old) (D.disk_faults disk.new) }
{
    let (mut log, mut core) = open(alloc, disk, limits)?;
    match cut_all(alloc, &mut log, disk, &mut core) {
        Ok(()) => Ok((log, core)),
        Err(fault) => {
            Session::over(alloc, core).close();
            Err(fault)
        }
    }
}

/// The store of a log, whose seats are cut off, since nobody is connected to it any more. Where the file is empty the log is made.
pub fn ready<D: Disk>(alloc: Global, disk: &mut D, limits: Limits) -> Result<(Log, Core), LogFault>
    ensures ready { IfOk result (λ r. IsReady D.reads D.may_leave D.moment D.left_since limits disk.old r disk.new) }
    ensures stops { IfErr result (StopsBefore D.reads D.may_leave D.moment D.left_since limits disk.old disk.new) }
    ensures not_a_log { result ≡ Err NotALog → (c : List ℕ) → D.reads disk.old c → IsNoLog c }
    ensures damaged { (at : ℕ) → result ≡ Err (Damaged at) → IsDamaged Runs Refuses (D.reads disk.old) at (first limits) }
    ensures later { D.disk_faults disk.old ≤ D.disk_faults disk.new }
    ensures disk { IsErrOf result DiskFault → Rose (D.disk_faults disk.old) (D.disk_faults disk.new) }
{
    if disk.size()? == 0 {
        let log = Log::create(disk)?;
        return Ok((log, Core::new(alloc, limits)));
    }
    reopen(alloc, disk, limits)
}

/// A pipe over the log of a store with these limits. Where the file is empty the log is made; else it is opened, and each seat that the store has for
/// a worker is cut off, since nobody is connected any more. Then commands are read from the source until its end, or until a QUIT or SHUTDOWN is
/// accepted, and each event is in the log before its reply is written to the sink. The first fault of the log ends the pipe: where that is before the
/// talk, nothing is read or written, and in the talk the last reply isn't written.
pub fn log_pipe<S: Source, K: Sink, D: Disk>(
    alloc: Global,
    source: &mut S,
    sink: &mut K,
    disk: &mut D,
    limits: Limits,
) -> LogEnd
    // What the file and the store were before the talk, and how that went; or why there was none.
    ensures is { Pipes D.reads D.may_leave D.moment D.left_since S.left K.taken limits source.old source.new sink.old sink.new disk.old disk.new result }

    // `NotALog` is a file with bytes that doesn't begin as a log does; `Damaged` a place where no record stands, or one that the store refuses.
    ensures not_a_log { result ≡ LogEnd.Fault NotALog → (c : List ℕ) → D.reads disk.old c → IsNoLog c }
    ensures damaged { (at : ℕ) → result ≡ LogEnd.Fault (Damaged at) → IsDamaged Runs Refuses (D.reads disk.old) at (first limits) }

    // `Full` is a file that would have more than 2^50 bytes with the next record.
    ensures full { result ≡ LogEnd.Fault Full → FillsUp D.reads D.may_leave D.moment D.left_since limits disk.old }

    // A fault of the disk comes only where its count rose.
    ensures later { D.disk_faults disk.old ≤ D.disk_faults disk.new }
    ensures disk { result ≡ LogEnd.Fault DiskFault → Rose (D.disk_faults disk.old) (D.disk_faults disk.new) }

    // So does one of the source or the sink.
    ensures read_fault { result ≡ LogEnd.Pipe PipeEnd.ReadFault → Rose (S.read_faults source.old) (S.read_faults source.new) }
    ensures write_fault { result ≡ LogEnd.Pipe PipeEnd.WriteFault → Rose (K.write_faults sink.old) (K.write_faults sink.new) }
    ensures source_count { S.read_faults source.old ≤ S.read_faults source.new }
    ensures sink_count { K.write_faults sink.old ≤ K.write_faults sink.new }
{
    match ready(alloc, disk, limits) {
        Ok(store) => talk(alloc, source, sink, disk, store),
        Err(fault) => LogEnd::Fault(fault),
    }
}
