// A talk over a store whose events are logged.
ghost use Rattle.std.specs.Prelude.{◌≡◌, ◌≤◌};
ghost use Rattle.sk_base.specs.Outside.{Rose};
ghost use Rattle.sk_log.specs.declared.fault.LogFault.TheVariants.{Disk as DiskFault};
ghost use Rattle.sk_aof.specs.Causes.{Blames, IsHindrance};
ghost use Rattle.sk_aof.specs.Talking.{IsEnd, SessionTalks, Talked};

use crate::LogEnd;
use crate::log_session::LogSession;
use sk_base::{Sink, Source};
use sk_core::Core;
use sk_disk::Disk;
use sk_log::{Log, LogFault};
use sk_pipe::{PipeEnd, Session, as_pipe_end};
use sk_talk::{TalkEnd, relay};
use std::alloc::Global;

// The end of the pipe: that of its talk, or why its log can't go on.
fn log_end(end: TalkEnd, fault: Option<LogFault>) -> LogEnd
    ensures { IsEnd end fault result }
{
    match end {
        TalkEnd::Lost => LogEnd::Fault(fault.unwrap_or(LogFault::Memory)),
        end => LogEnd::Pipe(as_pipe_end(end)),
    }
}

// Reads commands from the source, and lets the session answer them.
fn converse<'a, S: Source, K: Sink, D: Disk>(
    alloc: Global,
    session: &mut LogSession<'a, D>,
    source: &mut S,
    sink: &mut K,
) -> TalkEnd
    ensures same { session.new.disk.ghost_name ≡ session.old.disk.ghost_name }
    ensures talks { SessionTalks D.may_leave D.moment D.left_since S.left K.taken source.old source.new sink.old sink.new session.old result session.new }
    ensures blames { Blames (D.disk_faults session.old.disk.now) session.old.fault (D.disk_faults session.new.disk.now) session.new.fault }

    // A fault of the outside is the end only where its count rose.
    ensures read_fault { result ≡ TalkEnd.ReadFault → Rose (S.read_faults source.old) (S.read_faults source.new) }
    ensures write_fault { result ≡ TalkEnd.WriteFault → Rose (K.write_faults sink.old) (K.write_faults sink.new) }
    ensures source_count { S.read_faults source.old ≤ S.read_faults source.new }
    ensures sink_count { K.write_faults sink.old ≤ K.write_faults sink.new }
{
    relay(alloc, session, source, sink)
}

/// Reads commands from the source until its end, or until a QUIT or SHUTDOWN is accepted, over a store and the log that it was opened from.
/// Each event is in the log before its reply is written to the sink; the first that the log refuses ends the talk, and its reply isn't written.
pub fn talk<S: Source, K: Sink, D: Disk>(
    alloc: Global,
    source: &mut S,
    sink: &mut K,
    disk: &mut D,
    store: (Log, Core),
) -> LogEnd
    ensures talked { Talked D.may_leave D.moment D.left_since S.left K.taken source.old source.new sink.old sink.new store disk.old disk.new result }

    // The log ends at a fault of the disk only where its count rose, at a full file, or for want of memory.
    ensures later { D.disk_faults disk.old ≤ D.disk_faults disk.new }
    ensures disk { result ≡ LogEnd.Fault DiskFault → Rose (D.disk_faults disk.old) (D.disk_faults disk.new) }
    ensures only { (fault : LogFault) → result ≡ LogEnd.Fault fault → IsHindrance fault }

    // A fault of the outside is the end only where its count rose.
    ensures read_fault { result ≡ LogEnd.Pipe PipeEnd.ReadFault → Rose (S.read_faults source.old) (S.read_faults source.new) }
    ensures write_fault { result ≡ LogEnd.Pipe PipeEnd.WriteFault → Rose (K.write_faults sink.old) (K.write_faults sink.new) }
    ensures source_count { S.read_faults source.old ≤ S.read_faults source.new }
    ensures sink_count { K.write_faults sink.old ≤ K.write_faults sink.new }
{
    let (log, core) = store;
    let mut session = Session::over(alloc, core);
    let mut logged = LogSession {
        alloc,
        session: &mut session,
        log,
        disk,
        fault: None,
    };
    let end = converse(alloc, &mut logged, source, sink);
    let LogSession {
        alloc: _,
        session: _,
        log: _,
        disk: _,
        fault,
    } = logged;
    session.close();
    log_end(end, fault)
}
