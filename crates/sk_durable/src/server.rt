// A server over a store that a file keeps: accept loops in threads over one store and one log, whose replies wait until what was done before them is in
// the file, or a thread beside them that stores it from time to time. Once the loops have ended, what waits still is stored, and the store and the file
// are closed.
ghost use Rattle.std.specs.Prelude.{◌≡◌, ◌<◌, ◌≤◌, ◌+◌, ◌-◌, ◌^◌, [], false, Some, Ok, Err, IfOk, IfErr, IfSome, vec_len};
ghost use Rattle.sk_base.specs.Outside.{Rose};
ghost use Rattle.sk_commit.specs.Shared.{IsStart, KeepsSome};
ghost use Rattle.sk_desk.specs.Counts.{blank_share};
ghost use Rattle.sk_desk.specs.Pass.{pass_of};
ghost use Rattle.sk_durable.specs.Serving.{EndsSo, HasAll, IsHalted, IsToldAs, KeptServed, NamedEnds, OutlivesCrashes, WaitedEnded, is_always, unheard_fault};
ghost use Rattle.sk_durable.specs.Writes.{TellsOf};

use crate::flush_timer::flush;
use crate::{FlushTimer, HubBacklog, LogBook, LogSettlers, SyncAlways, SyncMode};
use sk_base::Clock;
use sk_base::limits::MOST_LOOPS_SERVED;
use sk_commit::{Broken, Committer, Halt, LogId, NewHistory, Pending, Stored};
use sk_core::Core;
use sk_desk::{Closed, Hub, HubBlank, HubId, Outbox, Pass};
use sk_disk::Disk;
use sk_edge::{Door, DoorFault, Ear};
use sk_log::{Group, Log};
use sk_serve::{Gate, ServeFault, Served, Shared, serve_at};
use sk_status::Tally;
use std::alloc::Global;
use std::marker::Brand;
use std::sync::Wait;
use std::thread::{self, Threads};
use std::time;

/// A store, the log that keeps it, the disk that this is on, and when what is logged goes there.
#[derive(Drop)]
pub struct KeptStore<D: Disk + Drop> {
    pub core: Core,
    pub log: Log,
    pub disk: D,
    /// None: each reply waits until all that was logged before it is stored. Else replies don't wait, and what is logged is stored so many milliseconds
    /// after one another: a crash loses what was done since the last time.
    pub sync_every: Option<u32>,
}

/// Why a server over a kept store ended before it was done. Of several causes it is the first of these.
#[derive(Clone, Copy)]
pub enum KeptFault {
    /// The disk failed: its count of faults rose.
    Disk,
    /// With the next records the file would have more than 2^50 bytes.
    Full,
    /// Nothing more could be logged. No clause says when this comes, and nothing makes it: a history is written by its server alone.
    Astray,
    /// The door or an ear failed: its count of faults rose.
    Failed,
    /// A loop had used up its seats' numbers when it accepted one more connection.
    Spent,
    /// There was no memory: to begin with, for a seat, or for the record of a cut. Nothing says when this comes.
    Memory,
}

impl From<ServeFault> for KeptFault {
    ghost use Rattle.sk_durable.specs.Serving.{kept_fault};

    ghost from_gives = { λ fault kept. kept ≡ kept_fault fault };

    fn from(fault: ServeFault) -> KeptFault {
        match fault {
            ServeFault::Failed => KeptFault::Failed,
            ServeFault::Spent => KeptFault::Spent,
            ServeFault::Memory => KeptFault::Memory,
            ServeFault::Unsettled => KeptFault::Astray,
        }
    }
}

/// How a server over a kept store ended, and the disk that has its file, unless there was no memory at all.
#[derive(Drop)]
pub struct KeptEnd<D: Drop> {
    pub end: Result<Served, KeptFault>,
    pub disk: Option<D>,
}

// Stores what waits still.
fn store_last<I: HubId, J: LogId, D: Disk + Drop>(
    closed: &mut Closed<I, LogBook<J>>,
    stored: Stored<D, J>,
    spare: Group,
) -> Result<D, Broken<D, J>>
    requires { TellsOf I.start J.holds }
    ensures all { IfOk result (λ disk. HasAll D.may_leave J.starts I.start closed.old.world disk) }
    ensures left { IfOk result (KeepsSome D.moment D.left_since J.starts J.holds J.since) }
    ensures same { closed.new ≡ closed.old }
{
    let Some(taken) = closed.book.take(spare) else {
        return Err(stored.give_up());
    };
    let (stored, _spare) = stored.store(taken)?;
    let (disk, _log) = stored.into_parts();
    Ok(disk)
}

// The file, with all that was logged.
fn close_file<I: HubId, J: LogId, D: Disk + Drop>(
    closed: &mut Closed<I, LogBook<J>>,
    committer: Committer<D, J>,
    spare: Group,
) -> Result<D, Option<Broken<D, J>>>
    requires { TellsOf I.start J.holds }
    ensures all { IfOk result (λ disk. HasAll D.may_leave J.starts I.start closed.old.world disk) }
    ensures left { IfOk result (KeepsSome D.moment D.left_since J.starts J.holds J.since) }
    ensures same { closed.new ≡ closed.old }
{
    let stored = committer.close()?;
    match store_last(closed, stored, spare) {
        Ok(disk) => Ok(disk),
        Err(broken) => Err(Some(broken)),
    }
}

// What the end of a log is told as, whose book was starved of memory or wasn't.
fn halt_fault(why: Halt, starved: bool) -> KeptFault
    ensures { IsToldAs why result }
{
    match why {
        Halt::Disk => KeptFault::Disk,
        Halt::Full => KeptFault::Full,
        Halt::Astray if starved => KeptFault::Memory,
        Halt::Astray => KeptFault::Astray,
    }
}

// The end of a server whose log has ended.
fn halted<J: LogId, D: Disk + Drop>(broken: Option<Broken<D, J>>, starved: bool) -> KeptEnd<D>
    ensures { IsHalted D.Disk J.LogId broken result }
{
    let Some(broken) = broken else {
        return KeptEnd {
            end: Err(halt_fault(Halt::Astray, starved)),
            disk: None,
        };
    };
    let (disk, why) = broken.into_parts();
    KeptEnd {
        end: Err(halt_fault(why, starved)),
        disk: Some(disk),
    }
}

// The loops, each of whose sessions has a settler of its own in this mode.
fn run_loops<I, J, R, D, M, E, K, G>(
    rt: &R,
    alloc: Global,
    hub: &Hub<I, LogBook<J>>,
    committer: &Committer<D, J>,
    mode: &M,
    pass: &mut Pass<I>,
    ears: &mut Vec<E>,
    sessions: u64,
    clock: &K,
    gate: &G,
) -> Result<u64, ServeFault>
where
    I: HubId + Send + Sync,
    J: LogId + Send + Sync,
    R: Threads + Wait + Sync,
    D: Disk + Drop + Send,
    M: SyncMode + Sync,
    E: Ear + Send,
    K: Clock + Send,
    G: Gate + Sync,
    requires tells { TellsOf I.start J.holds }
    requires pass { pass.old ≡ pass_of 0 (2 ^ 32 - 1) (blank_share (2 ^ 34)) }
    requires ears { (0 < vec_len ears.old) × (vec_len ears.old ≤ MOST_LOOPS_SERVED) }
    ensures parts { pass.new.parts ≡ pass.old.parts }
    ensures ended { WaitedEnded M.waits I.start E.Ear E.Conn.Source E.Conn.Sink K.Clock
        sessions pass.new.amount ears.old ears.new result }
{
    let others = ears.len() - 1;
    let backlog = HubBacklog::new(hub);
    let settlers = LogSettlers::new(rt, &backlog, committer, mode);
    serve_at(
        &Shared::new(rt, alloc, hub, &settlers, gate, others, sessions),
        pass,
        ears,
        clock,
    )
}

// The loops over this store and this log. Each session's settles wait, unless what is logged is stored so many milliseconds after one another: then a
// thread beside the loops stores it, until they have ended. Where that thread can't be made, they wait, too.
fn run_all<I, J, R, D, E, K, G>(
    rt: &R,
    alloc: Global,
    hub: &Hub<I, LogBook<J>>,
    committer: &Committer<D, J>,
    sync_every: Option<u32>,
    pass: &mut Pass<I>,
    ears: &mut Vec<E>,
    sessions: u64,
    clock: &K,
    gate: &G,
) -> Result<u64, ServeFault>
where
    I: HubId + Send + Sync,
    J: LogId + Send + Sync,
    R: Threads + Wait + time::Clock + Sync,
    D: Disk + Drop + Send,
    E: Ear + Send,
    K: Clock + Send,
    G: Gate + Sync,
    requires tells { TellsOf I.start J.holds }
    requires pass { pass.old ≡ pass_of 0 (2 ^ 32 - 1) (blank_share (2 ^ 34)) }
    requires ears { (0 < vec_len ears.old) × (vec_len ears.old ≤ MOST_LOOPS_SERVED) }
    ensures parts { pass.new.parts ≡ pass.old.parts }
    ensures ended { WaitedEnded (is_always sync_every) I.start E.Ear E.Conn.Source E.Conn.Sink K.Clock
        sessions pass.new.amount ears.old ears.new result }
{
    let Some(millis) = sync_every else {
        return run_loops(
            rt,
            alloc,
            hub,
            committer,
            &SyncAlways,
            pass,
            ears,
            sessions,
            clock,
            gate,
        );
    };
    let timer = FlushTimer::new(millis);
    let (_, ended) = thread::join_mut(
        rt,
        &mut ||
            requires { TellsOf I.start J.holds }
        { flush(rt, hub, committer, &timer) },
        &mut ||
            requires tells { TellsOf I.start J.holds }
            requires pass { pass.now ≡ pass_of 0 (2 ^ 32 - 1) (blank_share (2 ^ 34)) }
            requires ears { (0 < vec_len ears.now) × (vec_len ears.now ≤ MOST_LOOPS_SERVED) }
            ensures parts { pass.exit.now.parts ≡ pass.entry.now.parts }
            ensures ended { WaitedEnded false I.start E.Ear E.Conn.Source E.Conn.Sink K.Clock
                sessions pass.exit.now.amount ears.entry.now ears.exit.now result }
        {
            let ended = run_loops(
                rt, alloc, hub, committer, &timer, pass, ears, sessions, clock, gate,
            );
            timer.end(rt);
            ended
        },
    );
    ended
}

// The end of a server whose file has all that was logged.
fn end_of(
    ended: Result<u64, ServeFault>,
    acknowledged: u64,
    tally: Tally,
) -> Result<Served, KeptFault>
    ensures { EndsSo ended acknowledged tally result }
{
    match ended {
        Ok(sessions) => Ok(Served {
            sessions,
            acknowledged,
            tally,
        }),
        Err(fault) => Err(KeptFault::from(fault)),
    }
}

// The end of a server that had no memory to begin with. Nothing was done to its disk.
fn starved<J: LogId, D: Disk + Drop>(log: &Log, disk: D) -> KeptEnd<D>
    requires holds { J.holds [] }
    requires start { IsStart J.starts log.now (D.may_leave disk) }
    requires since { D.moment disk ≡ J.since }
    ensures end { result.end ≡ Err KeptFault.Memory }
    ensures left { IfSome result.disk (KeepsSome D.moment D.left_since J.starts J.holds J.since) }
{
    let _ = log;
    KeptEnd {
        end: Err(KeptFault::Memory),
        disk: Some(disk),
    }
}

// Serves over these ears from the store, and has them back at the end. The hub is that of `I`, and the log that of `J`.
fn serve_on<I, J, R, D, E, K, G>(
    rt: &R,
    alloc: Global,
    named: (HubBlank, NewHistory),
    store: KeptStore<D>,
    ears: &mut Vec<E>,
    sessions: u64,
    clock: &K,
    gate: &G,
) -> KeptEnd<D>
where
    I: HubId + Send + Sync,
    J: LogId + Send + Sync,
    R: Threads + Wait + time::Clock + Sync,
    D: Disk + Drop + Send,
    E: Ear + Send,
    K: Clock + Send,
    G: Gate + Sync,
    requires blank { named.0 ≡ record { acks = I.acks; asks = I.asks; cuts = I.cuts } }
    requires begins { store.core ≡ I.start }
    requires id { named.1 ≡ J.book }
    requires start { IsStart J.starts store.log (D.may_leave store.disk) }
    requires count { D.disk_faults store.disk ≡ J.faults }
    requires since { D.moment store.disk ≡ J.since }
    requires holds { J.holds [] }
    requires tells { TellsOf I.start J.holds }
    requires ears { (0 < vec_len ears.old) × (vec_len ears.old ≤ MOST_LOOPS_SERVED) }
    ensures ended { NamedEnds D.Disk E.Ear E.Conn.Source E.Conn.Sink K.Clock J.LogId store.sync_every I.start
        sessions ears.old ears.new result }
    ensures left { IfSome result.disk (KeepsSome D.moment D.left_since J.starts J.holds J.since) }
{
    let KeptStore {
        core,
        log,
        disk,
        sync_every,
    } = store;
    let (Ok(first), Ok(spare), Ok(last)) = (Group::new(alloc), Group::new(alloc), Group::new(alloc))
    else {
        return starved::<J, D>(&log, disk);
    };
    let (history, prefix) = named.1.named::<J>();
    let committer = Committer::new(Stored::new(disk, log, prefix.again()), spare);
    let book = LogBook::new(alloc, Pending::new(history, prefix, first));
    let (hub, mut pass) = Hub::<I, LogBook<J>>::over(named.0, core, book);
    let ended = run_all(
        rt, alloc, &hub, &committer, sync_every, &mut pass, ears, sessions, clock, gate,
    );
    let mut closed = hub.close();
    let file = close_file(&mut closed, committer, last);
    let starved = closed.book.is_starved();
    let (acknowledged, tally) = closed.finish(&mut pass);
    let disk = match file {
        Ok(disk) => disk,
        Err(broken) => return halted(broken, starved),
    };
    KeptEnd {
        end: end_of(ended, acknowledged, tally),
        disk: Some(disk),
    }
}

// What a door that gave no ears is answered as.
fn unheard_at(fault: DoorFault) -> KeptFault
    ensures { result ≡ unheard_fault fault }
{
    match fault {
        DoorFault::Failed => KeptFault::Failed,
        DoorFault::Memory => KeptFault::Memory,
    }
}

// The end of a server whose door gave no ears.
fn unheard<D: Disk + Drop>(store: KeptStore<D>, fault: DoorFault) -> KeptEnd<D>
    ensures end { result.end ≡ Err (unheard_fault fault) }
    ensures left { OutlivesCrashes D.Disk store.log store.core store.disk result.disk }
{
    let KeptStore {
        core: _,
        log: _,
        disk,
        sync_every: _,
    } = store;
    KeptEnd {
        end: Err(unheard_at(fault)),
        disk: Some(disk),
    }
}

/// Serves connections at the port as [`sk_serve::serve`] does, from a store that a file keeps. Each reply is handed on once all that was logged before it
/// is in the file, unless that is stored from time to time. The file is given back with the whole journal in it, unless the log has ended: then no reply
/// is handed on any more, and the server ends. Whichever it is, a crash at any moment leaves a beginning of the journal.
pub fn serve_kept<
    R: Threads + Wait + time::Clock + Sync,
    D: Disk + Drop + Send,
    N: Door,
    K: Clock + Send,
    G: Gate + Sync,
>(
    rt: &R,
    alloc: Global,
    store: KeptStore<D>,
    door: &mut N,
    port: u16,
    loops: usize,
    sessions: u64,
    clock: &K,
    gate: &G,
) -> KeptEnd<D>
where
    N::Ear: Send,
    requires { (0 < loops) × (loops ≤ MOST_LOOPS_SERVED) }
    // The door gave an ear to each loop, which gave its connections in order. What was done is in the file. Where each reply waits, a connection took
    // something only where all that was logged when its session last settled was in the file.
    ensures ended { KeptServed D.Disk N.Ear.Ear N.Conn.Source N.Conn.Sink K.Clock N.Door store
        sessions loops door.old door.new result }
    // A crash at any moment of the call leaves a log of what the file was and, behind that, of what a log keeps of a run of the store.
    ensures left { OutlivesCrashes D.Disk store.log store.core store.disk result.disk }
    ensures later { N.door_faults door.old ≤ N.door_faults door.new }
{
    let mut ears = match door.listen(port, loops) {
        Ok(ears) => ears,
        Err(fault) => return unheard(store, fault),
    };
    let end = serve_on::<Brand, Brand, R, D, N::Ear, K, G>(
        rt,
        alloc,
        (HubBlank::new(), NewHistory::new()),
        store,
        &mut ears,
        sessions,
        clock,
        gate,
    );
    door.gather(ears);
    end
}
