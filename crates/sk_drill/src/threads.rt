// The threads of a drill: one that pushes, one that polls, and one for each worker.
ghost use Rattle.std.specs.Prelude.{◌<◌, All, length, vec_len};
ghost use Rattle.std.specs.List.{AllByRecursion, AllZip};
ghost use Rattle.sk_drill.specs.Crews.{IsReady, Worked};

use crate::duty::Duty;
use crate::work_duty::WorkDuty;
use sk_lane::Seats;
use std::alloc::Global;
use std::thread;
use std::thread::Threads;

// The workers, each in a thread.
fn run_workers<R: Threads + Sync, S: Seats + Drop + Send>(
    rt: &R,
    alloc: Global,
    workers: &mut [WorkDuty<S>],
)
where
    S::Desk: Send,
    requires some { 0 < length workers.old }
    requires ready { All (IsReady S.Seats) workers.old }
    ensures { AllZip (Worked S.Seats runs) workers.old workers.new }
{
    let threads = workers.len();
    thread::for_each_mut(
        rt,
        workers,
        threads,
        &|_: usize, worker: &mut WorkDuty<S>|
            requires { IsReady S.Seats worker.now }
            ensures { Worked S.Seats runs worker.old worker.new }
        { worker.run(alloc) },
    );
}

// All of them, until each has done its duty.
fn run_all<R: Threads + Sync, P: Duty + Send, Q: Duty + Send, S: Seats + Drop + Send>(
    rt: &R,
    alloc: Global,
    pushing: &mut P,
    polling: &mut Q,
    workers: &mut [WorkDuty<S>],
)
where
    S::Desk: Send,
    requires some { 0 < length workers.old }
    requires pushing { P.ready pushing.old }
    requires polling { Q.ready polling.old }
    requires workers { All (IsReady S.Seats) workers.old }
    ensures pushed { P.did pushing.old pushing.new }
    ensures polled { Q.did polling.old polling.new }
    ensures worked { AllZip (Worked S.Seats runs) workers.old workers.new }
{
    thread::join_mut(
        rt,
        &mut ||
            requires { P.ready pushing.now }
        { pushing.run(alloc) },
        &mut ||
            requires polling { Q.ready polling.now }
            requires some { 0 < length workers.now }
            requires ready { All (IsReady S.Seats) workers.now }
            ensures polled { Q.did polling.entry.now polling.exit.now }
            ensures worked { AllZip (Worked S.Seats runs) workers.entry.now workers.exit.now }
        { run_others(rt, alloc, polling, workers) },
    );
}

// The poller, and the workers.
fn run_others<R: Threads + Sync, Q: Duty + Send, S: Seats + Drop + Send>(
    rt: &R,
    alloc: Global,
    polling: &mut Q,
    workers: &mut [WorkDuty<S>],
)
where
    S::Desk: Send,
    requires some { 0 < length workers.old }
    requires polling { Q.ready polling.old }
    requires workers { All (IsReady S.Seats) workers.old }
    ensures polled { Q.did polling.old polling.new }
    ensures worked { AllZip (Worked S.Seats runs) workers.old workers.new }
{
    thread::join_mut(
        rt,
        &mut ||
            requires { Q.ready polling.now }
        { polling.run(alloc) },
        &mut ||
            requires some { 0 < length workers.now }
            requires ready { All (IsReady S.Seats) workers.now }
            ensures { AllZip (Worked S.Seats runs) workers.entry.now workers.exit.now }
        { run_workers(rt, alloc, workers) },
    );
}

/// The same of workers in a `Vec`.
pub(crate) fn run_crew<R: Threads + Sync, P: Duty + Send, Q: Duty + Send, S: Seats + Drop + Send>(
    rt: &R,
    alloc: Global,
    pushing: &mut P,
    polling: &mut Q,
    workers: &mut Vec<WorkDuty<S>>,
)
where
    S::Desk: Send,
    requires some { 0 < vec_len workers.old }
    requires pushing { P.ready pushing.old }
    requires polling { Q.ready polling.old }
    requires workers { AllByRecursion (IsReady S.Seats) workers.old.items }
    ensures pushed { P.did pushing.old pushing.new }
    ensures polled { Q.did polling.old polling.new }
    ensures worked { AllZip (Worked S.Seats runs) workers.old.items workers.new.items }
{
    run_all(rt, alloc, pushing, polling, workers.as_mut_slice());
}
