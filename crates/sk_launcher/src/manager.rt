// The threads: the poller's and the workers'.
ghost use Rattle.std.specs.Prelude.{◌≡◌, ◌≤◌, ◌<◌, ◌↔◌, All, IsTrue, false, length};
ghost use Rattle.sk_worker.specs.Promises.{Answers};
ghost use Rattle.sk_launcher.specs.Polling.{PollerAdvances, own_poller};
ghost use Rattle.sk_launcher.specs.Promises.{StaffAdvances, TookAll};
ghost use Rattle.sk_launcher.specs.Working.{WorkerAdvances, hired_worker};

use crate::poller_thread::PollerThread;
use crate::shared::Shared;
use crate::worker_thread::WorkerThread;
use sk_base::Clock;
use sk_edge::PcgDice;
use sk_link::Link;
use std::sync::Wait;
use std::thread;
use std::thread::Threads;

// The workers in so many threads. In one thread they take their turns one worker after another, and no further thread is started.
fn run_workers<R: Threads + Sync, L: Link + Drop + Send, C: Clock + Send>(
    rt: &R,
    shared: &Shared,
    threads: usize,
    workers: &mut [WorkerThread<L, C, PcgDice>],
)
    requires { 0 < threads }
    ensures { StaffAdvances L.carried C.Clock runs shared.now.turns workers.old workers.new }
{
    thread::for_each_mut(
        rt,
        workers,
        threads,
        &|_: usize, worker: &mut WorkerThread<L, C, PcgDice>|
            ensures { WorkerAdvances L.carried Answers shared.entry.now.turns
                (hired_worker C.moments runs worker.old) (hired_worker C.moments runs worker.new) }
        { worker.run(shared) },
    );
}

// The poller in a thread, and each worker in one.
fn run_all<
    R: Threads + Sync,
    P: Link + Drop + Send,
    K: Clock + Send,
    L: Link + Drop + Send,
    C: Clock + Send,
>(
    rt: &R,
    shared: &Shared,
    poller: &mut PollerThread<P, K, PcgDice>,
    workers: &mut [WorkerThread<L, C, PcgDice>],
)
    requires { 0 < length workers.old }
    ensures poller { PollerAdvances P.carried shared.now.polls (own_poller K.moments poller.old) (own_poller K.moments poller.new) }
    ensures workers { StaffAdvances L.carried C.Clock runs shared.now.turns workers.old workers.new }
{
    let threads = workers.len();
    thread::join_mut(
        rt,
        &mut || poller.run(shared),
        &mut ||
            requires { 0 < threads }
            ensures { StaffAdvances L.carried C.Clock runs shared.entry.now.turns workers.entry.now workers.exit.now }
        { run_workers(rt, shared, threads, workers) },
    );
}

/// None of them met a fault.
pub(crate) fn are_whole<L: Link + Drop, C: Clock>(workers: &[WorkerThread<L, C, PcgDice>]) -> bool
    ensures { All (λ w. w.processor.worker.ended ≡ false) workers.now → IsTrue result }
{
    workers.iter().all(
        |worker: &WorkerThread<L, C, PcgDice>| -> bool
            ensures { IsTrue result ↔ worker.now.processor.worker.ended ≡ false }
        { !worker.is_broken() },
    )
}

fn have_taken<L: Link + Drop, C: Clock>(workers: &[WorkerThread<L, C, PcgDice>], turns: u64) -> bool
    ensures { IsTrue result → All (λ w. turns ≤ w.processor.tally.taken) workers.now }
{
    workers.iter().all(
        |worker: &WorkerThread<L, C, PcgDice>| -> bool
            ensures { IsTrue result ↔ turns ≤ worker.now.processor.tally.taken }
        { turns <= worker.taken() },
    )
}

/// All of them in threads. Where turns are left then, and none has met a fault, they are taken here.
pub(crate) fn run_on<R: Threads + Wait + Sync, L: Link + Drop + Send, C: Clock + Send>(
    rt: &R,
    shared: &Shared,
    poller: &mut PollerThread<L, C, PcgDice>,
    workers: &mut [WorkerThread<L, C, PcgDice>],
)
    requires { 0 < length workers.old }
    ensures poller { PollerAdvances L.carried shared.now.polls (own_poller C.moments poller.old) (own_poller C.moments poller.new) }
    ensures workers { StaffAdvances L.carried C.Clock runs shared.now.turns workers.old workers.new }
    ensures same { length workers.new ≡ length workers.old }
    ensures all { TookAll shared.now.polls shared.now.turns poller.new workers.new }
{
    run_all(rt, shared, poller, workers);
    for _ in rt.forever() {
        if poller.fault.is_some() || !are_whole(workers) {
            return;
        }
        if shared.polls <= poller.taken && have_taken(workers, shared.turns) {
            return;
        }
        poller.run(shared);
        run_workers(rt, shared, 1, workers);
    }
    unreachable!()
}
