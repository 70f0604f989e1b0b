// The program `serve --log`: its words are read, the file is opened, connections are served from the store that it keeps, the file is left on its shelf,
// and the summary is written.
ghost use Rattle.std.specs.Prelude.{◌≡◌, ◌<◌, ◌≤◌};
ghost use Rattle.sk_base.specs.Outside.{Rose};
ghost use Rattle.sk_base.specs.declared.limits.TheConstants.{MOST_LOOPS_SERVED};
ghost use Rattle.sk_app.specs.LogServeOutcomes.{IsOutcomeOf};
ghost use Rattle.sk_app.specs.LogServing.{DoLogServe, IsNoLine, Leaves, LogServeCauses, LogServeEnds, OverFile};

use crate::Unserved;
use crate::serve::summary;
use crate::unserved::settle;
use sk_aof::ready;
use sk_base::{Clock, Sink};
use sk_disk::{Disk, Shelf};
use sk_durable::{KeptEnd, KeptFault, KeptStore, serve_kept};
use sk_edge::Door;
use sk_line::{LogServeLine, read_log_serve};
use sk_pipe::SHIPPED_LIMITS;
use sk_resp::Word;
use sk_serve::{OpenGate, Served};
use std::alloc::Global;
use std::sync::Wait;
use std::thread::Threads;
use std::time;

// What the server's end comes to.
fn outcome_at(alloc: Global, end: Result<Served, KeptFault>) -> Result<Word, Unserved>
    ensures { IsOutcomeOf end result }
{
    match end {
        Ok(served) => Ok(summary(alloc, &served)?),
        Err(fault) => Err(Unserved::Kept(fault)),
    }
}

// Serves from the store that the file keeps, and gives the file back.
fn serve_over<
    R: Threads + Wait + Sync + time::Clock,
    D: Disk + Drop + Send,
    N: Door,
    C: Clock + Send,
>(
    rt: &R,
    alloc: Global,
    line: &LogServeLine,
    mut disk: D,
    net: &mut N,
    clock: &C,
) -> (Result<Word, Unserved>, Option<D>)
where
    N::Ear: Send,
    requires loops { (0 < line.now.loops) × (line.now.loops ≤ MOST_LOOPS_SERVED) }
    ensures told { OverFile N.Door N.Ear.Ear N.Conn.Source N.Conn.Sink C.Clock D.Disk line.now disk net.old net.new result.1 result.0 }
    ensures later { N.door_faults net.old ≤ N.door_faults net.new }
{
    let (log, core) = match ready(alloc, &mut disk, SHIPPED_LIMITS) {
        Ok(store) => store,
        Err(fault) => return (Err(Unserved::Log(fault)), Some(disk)),
    };
    let store = KeptStore {
        core,
        log,
        disk,
        sync_every: line.sync_every,
    };
    let loops = line.loops as usize;
    let sessions = u64::from(line.sessions);
    let kept = serve_kept(
        rt, alloc, store, net, line.port, loops, sessions, clock, &OpenGate,
    );
    let KeptEnd { end, disk } = kept;
    (outcome_at(alloc, end), disk)
}

// Leaves the file on its shelf, where it was given back.
fn leave<H: Shelf>(shelf: &mut H, back: Option<H::Disk>)
    ensures left { Leaves H.Shelf shelf.old back shelf.new }
    ensures whole { H.shelf_faults shelf.new ≡ H.shelf_faults shelf.old }
{
    if let Some(disk) = back {
        shelf.leave(disk);
    }
}

// What `serve --log` comes to.
fn outcome_by<R: Threads + Wait + Sync + time::Clock, N: Door, H: Shelf, C: Clock + Send>(
    rt: &R,
    alloc: Global,
    words: &[String],
    net: &mut N,
    shelf: &mut H,
    clock: &C,
) -> Result<Word, Unserved>
where
    N::Ear: Send,
    H::Disk: Send,
    ensures ran { DoLogServe N.Door N.Ear.Ear N.Conn.Source N.Conn.Sink C.Clock H.Disk.Disk H.Shelf words.now
        net.old shelf.old net.new shelf.new result }
    ensures later { N.door_faults net.old ≤ N.door_faults net.new }
{
    let line = read_log_serve(alloc, words)?;
    let disk = shelf.open(line.path.text())?;
    let (outcome, back) = serve_over(rt, alloc, &line, disk, net, clock);
    leave(shelf, back);
    outcome
}

/// Serves as [`run_serve`](crate::run_serve) does, from the store that the file of the words keeps ([`sk_durable::serve_kept`]), with the limits of
/// the program's store. The words begin with `serve`, and say whether replies wait for the file. Answers 0 with the summary, 4 where the sink failed,
/// 5 where there was no memory, 2 for words that are no line of it, 6 where the door or an ear failed or seats were used up, 10 where the file can't
/// be opened, read or written or nothing more could be logged, 11 where it is no log or is damaged, which is told, and 12 where it is full.
pub fn run_log_serve<
    R: Threads + Wait + Sync + time::Clock,
    K: Sink,
    N: Door,
    H: Shelf,
    C: Clock + Send,
>(
    rt: &R,
    alloc: Global,
    words: &[String],
    sink: &mut K,
    net: &mut N,
    shelf: &mut H,
    clock: &C,
) -> u8
where
    N::Ear: Send,
    H::Disk: Send,
    ensures told { LogServeEnds N.Door N.Ear.Ear N.Conn.Source N.Conn.Sink C.Clock H.Disk.Disk H.Shelf K.Sink words.now
        sink.old net.old shelf.old sink.new net.new shelf.new result }

    // With status 6 the door or an ear failed or seats were used up, with 10 the shelf or its file failed or nothing more could be logged, with 11 the
    // file is no log or is damaged, which is told, and with 12 it is full. No other status is above 5: so a line of it is done, where nothing of that
    // comes, there is memory, and the sink takes the summary.
    ensures causes { LogServeCauses N.Door N.Ear.Ear N.Conn.Source N.Conn.Sink C.Clock H.Disk.Disk H.Shelf
        net.old shelf.old net.new shelf.new result }

    // With status 4 the sink's count of faults rose.
    ensures sink_cause { result ≡ 4 → Rose (K.write_faults sink.old) (K.write_faults sink.new) }

    // With status 2 the words are no line of it, nothing was written or opened, and no port was listened at.
    ensures refused { result ≡ 2 → IsNoLine words.now }
    ensures untouched { result ≡ 2 → (sink.new ≡ sink.old) × (net.new ≡ net.old) × (shelf.new ≡ shelf.old) }

    // The door's count of faults doesn't fall.
    ensures later { N.door_faults net.old ≤ N.door_faults net.new }
{
    let outcome = outcome_by(rt, alloc, words, net, shelf, clock);
    settle(alloc, sink, outcome)
}
