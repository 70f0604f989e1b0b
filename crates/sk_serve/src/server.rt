// A server: accept loops in threads over one store, each with an ear, a clock and a pass of its own. Once they have ended their passes are joined, the
// ears go back to the door, and the store is closed.
ghost use Rattle.std.specs.Prelude.{◌≡◌, ◌+◌, ◌-◌, ◌*◌, ◌/◌, ◌^◌, ◌<◌, ◌≤◌, ℕ, OnOk, Some, Err, true, false, map, reverse, vec_len, vec_capacity, All};
ghost use Rattle.std.specs.List.{Any, sum_by};
ghost use Rattle.sk_desk.specs.Counts.{blank_share};
ghost use Rattle.sk_desk.specs.Pass.{pass_of};
ghost use Rattle.sk_model.specs.World.{first};
ghost use Rattle.sk_serve.specs.Attending.{Attends, IsAtOnce};
ghost use Rattle.sk_serve.specs.Server.{HasEnded, HaveEnded, IsFresh, IsGravest, IsSettled, IsUsed, LoopsEnded, LoopsRun, NoneAt, Runs};

use crate::accept_loop::{AcceptLoop, LoopEnd};
use crate::gate::Gate;
use crate::serve_end::{ServeEnd, ServeFault, Served};
use crate::shared::Shared;
use sk_base::Clock;
use sk_base::limits::MOST_LOOPS_SERVED;
use sk_desk::{Book, Hub, HubBlank, HubId, NoBook, Pass};
use sk_edge::{Door, DoorFault, Ear};
use sk_held::{NoSettlers, Settlers};
use sk_model::Limits;
use std::alloc::Global;
use std::marker::Brand;
use std::sync::Wait;
use std::thread;
use std::thread::Threads;

// A loop for each ear, with as many seat numbers each. They stand the other way round.
fn loops_for<E: Ear, K: Clock, I: HubId>(
    ears: &mut Vec<E>,
    loops: &mut Vec<AcceptLoop<E, K, I>>,
    clock: &K,
    pass: &mut Pass<I>,
    numbers: u32,
)
    requires some { 0 < numbers }
    requires few { numbers * vec_len ears.old < pass.old.count }
    requires room { (vec_len loops.old ≡ 0) × (vec_len ears.old ≤ vec_capacity loops.old) }
    ensures len { vec_len loops.new ≡ vec_len ears.old }
    ensures fresh { All (IsFresh numbers) loops.new.items }
    ensures amount { pass.new.amount ≡ pass.old.amount }
    ensures parts { pass.new.parts + 2 * (numbers * vec_len ears.old) ≡ pass.old.parts }
    ensures ears { map (λ it. it.ear) loops.new.items ≡ reverse ears.old.items }
    ensures emptied { (vec_len ears.new ≡ 0) × (vec_capacity ears.new ≡ vec_capacity ears.old) }
{
    while let Some(ear) = ears.pop() {
        let own = pass.split(numbers);
        loops.push_reserved(AcceptLoop::new(ear, clock.twin(), own, numbers));
    }
}

// Takes the ears and the passes back, and counts the sessions. The ears stand as they stood at first.
fn gather<E: Ear, K: Clock, I: HubId>(
    mut loops: Vec<AcceptLoop<E, K, I>>,
    ears: &mut Vec<E>,
    pass: &mut Pass<I>,
) -> u64
    requires few { vec_len loops ≤ MOST_LOOPS_SERVED }
    requires room { (vec_len ears.old ≡ 0) × (vec_len loops ≤ vec_capacity ears.old) }
    ensures parts { (n : ℕ) → All (λ it. it.numbers ≡ n) loops.items → pass.new.parts ≡ pass.old.parts + 2 * (n * vec_len loops) }
    ensures sessions { result ≡ sum_by (λ it. it.served) loops.items }
    ensures amount { pass.new.amount ≡ pass.old.amount + sum_by (λ it. it.pass.amount) loops.items }
    ensures ears { ears.new.items ≡ reverse (map (λ it. it.ear) loops.items) }
{
    let mut sessions: u64 = 0;
    while let Some(it) = loops.pop() {
        let (ear, own, served) = it.into_parts();
        ears.push_reserved(ear);
        sessions += u64::from(served);
        pass.join(own);
    }
    sessions
}

// The loops in so many threads. In one thread they run one after another, and no further thread is started.
fn run_all<
    R: Threads + Wait + Sync,
    E: Ear + Send,
    K: Clock + Send,
    I: HubId + Send + Sync,
    B: Book + Send,
    W: Settlers + Sync,
    G: Gate + Sync,
>(shared: &Shared<'_, R, I, B, W, G>, threads: usize, loops: &mut [AcceptLoop<E, K, I>])
where
    B::Place: Send,
    W::Settler: Send,
    requires { 0 < threads }
    ensures { LoopsRun W.holds_back B.wants_words E.Ear E.Conn.Source E.Conn.Sink K.Clock W.Settler.Settler
        shared.now.others loops.old loops.new }
{
    shared.resume();
    thread::for_each_mut(
        shared.rt,
        loops,
        threads,
        &|_: usize, it: &mut AcceptLoop<E, K, I>|
            ensures { Runs E.Ear (Attends W.holds_back B.wants_words E.Conn.Source E.Conn.Sink K.Clock W.Settler.Settler)
                shared.entry.now.others it.old it.new }
        { it.run(shared) },
    );
}

fn some_failed<E: Ear, K: Clock, I: HubId>(loops: &[AcceptLoop<E, K, I>]) -> bool
    ensures some { result ≡ true → Any (λ it. it.end ≡ LoopEnd.Failed) loops.now }
    ensures none { result ≡ false → NoneAt LoopEnd.Failed loops.now }
{
    loops.iter().any(|it| it.is_at(LoopEnd::Failed))
}

fn some_spent<E: Ear, K: Clock, I: HubId>(loops: &[AcceptLoop<E, K, I>]) -> bool
    ensures some { result ≡ true → Any (λ it. IsUsed it) loops.now }
    ensures none { result ≡ false → NoneAt LoopEnd.Spent loops.now }
{
    loops.iter().any(|it| it.is_spent())
}

fn some_unsettled<E: Ear, K: Clock, I: HubId>(loops: &[AcceptLoop<E, K, I>]) -> bool
    ensures some { result ≡ true → Any (λ it. it.end ≡ LoopEnd.Unsettled) loops.now }
    ensures none { result ≡ false → NoneAt LoopEnd.Unsettled loops.now }
{
    loops.iter().any(|it| it.is_at(LoopEnd::Unsettled))
}

fn some_starved<E: Ear, K: Clock, I: HubId>(loops: &[AcceptLoop<E, K, I>]) -> bool
    ensures some { result ≡ true → Any (λ it. it.end ≡ LoopEnd.Memory) loops.now }
    ensures none { result ≡ false → NoneAt LoopEnd.Memory loops.now }
{
    loops.iter().any(|it| it.is_at(LoopEnd::Memory))
}

// The loops' gravest fault.
fn fault_of<E: Ear, K: Clock, I: HubId>(loops: &[AcceptLoop<E, K, I>]) -> Option<ServeFault>
    ensures { IsGravest loops.now result }
{
    if some_failed(loops) {
        return Some(ServeFault::Failed);
    }
    if some_spent(loops) {
        return Some(ServeFault::Spent);
    }
    if some_starved(loops) {
        return Some(ServeFault::Memory);
    }
    if some_unsettled(loops) {
        return Some(ServeFault::Unsettled);
    }
    None
}

fn have_served<E: Ear, K: Clock, I: HubId>(loops: &[AcceptLoop<E, K, I>], sessions: u64) -> bool
    ensures { result ≡ true → All (λ it. it.served ≡ sessions) loops.now }
{
    loops.iter().all(|it| it.has_served(sessions))
}

fn some_shut<E: Ear, K: Clock, I: HubId>(loops: &[AcceptLoop<E, K, I>]) -> bool
    ensures { result ≡ true → Any (λ it. it.shut ≡ true) loops.now }
{
    loops.iter().any(|it| it.is_shut())
}

// A session ended by SHUTDOWN, or there is a bound, and each loop served as many.
fn is_settled<E: Ear, K: Clock, I: HubId>(loops: &[AcceptLoop<E, K, I>], sessions: u64) -> bool
    ensures { result ≡ true → IsSettled sessions loops.now }
{
    if sessions != 0 && have_served(loops, sessions) {
        return true;
    }
    some_shut(loops)
}

// Runs the loops in threads, and then, as long as there is no cause to end, one after another.
fn run_on<
    R: Threads + Wait + Sync,
    E: Ear + Send,
    K: Clock + Send,
    I: HubId + Send + Sync,
    B: Book + Send,
    W: Settlers + Sync,
    G: Gate + Sync,
>(
    shared: &Shared<'_, R, I, B, W, G>,
    threads: usize,
    loops: &mut [AcceptLoop<E, K, I>],
) -> Result<(), ServeFault>
where
    B::Place: Send,
    W::Settler: Send,
    requires { 0 < threads }
    ensures ran { LoopsRun W.holds_back B.wants_words E.Ear E.Conn.Source E.Conn.Sink K.Clock W.Settler.Settler
        shared.now.others loops.old loops.new }
    ensures settled { OnOk result (IsSettled shared.now.sessions loops.new) }
    ensures whole { OnOk result (NoneAt LoopEnd.Failed loops.new × NoneAt LoopEnd.Unsettled loops.new) }
    ensures failed { result ≡ Err ServeFault.Failed → Any (λ it. it.end ≡ LoopEnd.Failed) loops.new }
    ensures spent { result ≡ Err ServeFault.Spent → Any (λ it. IsUsed it) loops.new }
    ensures unsettled { result ≡ Err ServeFault.Unsettled → Any (λ it. it.end ≡ LoopEnd.Unsettled) loops.new }
{
    run_all(shared, threads, loops);
    for _ in shared.rt.forever() {
        if let Some(fault) = fault_of(loops) {
            return Err(fault);
        }
        if is_settled(loops, shared.sessions) {
            return Ok(());
        }
        run_all(shared, 1, loops);
    }
    unreachable!()
}

/// Serves over these ears, 1 to 64, a loop in a thread for each, and has them back at the end. Each loop serves one connection after another, on a new
/// seat, until all end as [`serve`] says. Answers how many connections were served, where no session was unsettled. The pass is a whole one, and is one
/// again then, with what the replies of the sessions acknowledged.
pub fn serve_at<
    I: HubId + Send + Sync,
    R: Threads + Wait + Sync,
    E: Ear + Send,
    K: Clock + Send,
    B: Book + Send,
    W: Settlers + Sync,
    G: Gate + Sync,
>(
    shared: &Shared<'_, R, I, B, W, G>,
    pass: &mut Pass<I>,
    ears: &mut Vec<E>,
    clock: &K,
) -> Result<u64, ServeFault>
where
    B::Place: Send,
    W::Settler: Send,
    requires pass { pass.old ≡ pass_of 0 (2 ^ 32 - 1) (blank_share (2 ^ 34)) }
    requires ears { (vec_len ears.old ≤ MOST_LOOPS_SERVED) × (shared.now.others + 1 ≡ vec_len ears.old) }
    ensures parts { pass.new.parts ≡ pass.old.parts }
    ensures ended { LoopsEnded E.Ear (Attends W.holds_back B.wants_words E.Conn.Source E.Conn.Sink K.Clock W.Settler.Settler)
        shared.now.sessions (vec_len ears.old) pass.new.amount ears.old.items ears.new.items result }
{
    let count = ears.len();
    let Ok(mut loops) = Vec::with_capacity(shared.alloc, count) else {
        return Err(ServeFault::Memory);
    };
    let numbers = (u32::MAX - 1) / count as u32;
    loops_for(ears, &mut loops, clock, pass, numbers);
    let ended = run_on(shared, count, loops.as_mut_slice());
    let served = gather(loops, ears, pass);
    match ended {
        Ok(()) => Ok(served),
        Err(fault) => Err(fault),
    }
}

// Serves over these ears from an empty store, and has them back at the end. The hub is that of `I`.
fn serve_on<
    I: HubId + Send + Sync,
    R: Threads + Wait + Sync,
    E: Ear + Send,
    K: Clock + Send,
    G: Gate + Sync,
>(
    rt: &R,
    alloc: Global,
    blank: HubBlank,
    ears: &mut Vec<E>,
    sessions: u64,
    limits: Limits,
    clock: &K,
    gate: &G,
) -> Result<Served, ServeFault>
    requires blank { blank ≡ record { acks = I.acks; asks = I.asks; cuts = I.cuts } }
    requires start { first limits ≡ I.start }
    requires ears { (0 < vec_len ears.old) × (vec_len ears.old ≤ MOST_LOOPS_SERVED) }
    ensures { HaveEnded E.Ear (IsAtOnce E.Conn.Source E.Conn.Sink K.Clock) sessions (vec_len ears.old) ears.old.items ears.new.items result }
{
    let others = ears.len() - 1;
    let (hub, mut pass) = Hub::<I, NoBook>::new(alloc, blank, limits, NoBook);
    let ended = serve_at(
        &Shared::new(rt, alloc, &hub, &NoSettlers, gate, others, sessions),
        &mut pass,
        ears,
        clock,
    );
    match ended {
        Ok(served) => {
            let (acknowledged, tally) = hub.close().finish(&mut pass);
            Ok(Served {
                sessions: served,
                acknowledged,
                tally,
            })
        }
        Err(fault) => {
            hub.abandon();
            Err(fault)
        }
    }
}

/// Serves connections at the port, by so many accept loops, 1 to 64, each in a thread. Each serves one connection after another, on a new seat of one
/// store with these limits, and ends after `sessions` connections, where that isn't 0, or once a session of any of them ended by SHUTDOWN. What the
/// sessions' replies acknowledged is what the store counts as pushed from outside.
pub fn serve<R: Threads + Wait + Sync, N: Door, K: Clock + Send, G: Gate + Sync>(
    rt: &R,
    alloc: Global,
    door: &mut N,
    port: u16,
    loops: usize,
    sessions: u64,
    limits: Limits,
    clock: &K,
    gate: &G,
) -> ServeEnd
where
    N::Ear: Send,
    requires { (0 < loops) × (loops ≤ MOST_LOOPS_SERVED) }
    // The door gave an ear to each loop, which gave its connections in order. Each of them took what its session calls for, and was left to its ear.
    ensures ended { HasEnded N.Door N.Ear.Ear (IsAtOnce N.Conn.Source N.Conn.Sink K.Clock) sessions loops door.old door.new result }
    ensures later { N.door_faults door.old ≤ N.door_faults door.new }
{
    let mut ears = match door.listen(port, loops) {
        Ok(ears) => ears,
        Err(DoorFault::Failed) => return ServeEnd::Failed,
        Err(DoorFault::Memory) => return ServeEnd::Memory,
    };
    let served = serve_on::<Brand, R, N::Ear, K, G>(
        rt,
        alloc,
        HubBlank::new(),
        &mut ears,
        sessions,
        limits,
        clock,
        gate,
    );
    door.gather(ears);
    match served {
        Ok(served) => ServeEnd::Served(served),
        Err(fault) => ServeEnd::from(fault),
    }
}
