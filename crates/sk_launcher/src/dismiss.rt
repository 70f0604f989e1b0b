// How a worker leaves, and gives back what it was made of.
ghost use Rattle.std.specs.Prelude.{◌≡◌, ◌≤◌, ◌<◌, ◌+◌, ◌++◌, [], vec_len, vec_capacity, option_map, option_to_list, IfOk};
ghost use Rattle.sk_base.specs.declared.limits.TheConstants.{MOST_WORKERS};
ghost use Rattle.sk_launcher.specs.Faults.{by_work};
ghost use Rattle.sk_launcher.specs.Promises.{Dismisses, DismissesAll, HasRoom, IsEmpty, KeepsRoom};

use crate::LaunchFault;
use crate::processor::Processor;
use crate::tally::Tally;
use crate::worker_thread::WorkerThread;
use sk_base::Clock;
use sk_edge::{Door, PcgDice};
use sk_link::WireLink;
use sk_policy::DelayRule;
use sk_worker::{Registry, WorkFault};
use std::alloc::{AllocError, Global};

/// What workers gave back when they had left: their teams, their plain rules, their turns, and their faults. It has room for those of all workers.
#[derive(Drop)]
pub(crate) struct Returns {
    pub teams: Vec<Registry>,
    pub rules: Vec<DelayRule>,
    pub tallies: Vec<Tally>,
    pub faults: Vec<LaunchFault>,
}

impl Returns {
    /// Room for so many teams with their plain rules, and for what so many workers, the poller and the launcher give back.
    pub fn with_room(alloc: Global, teams: usize, workers: usize) -> Result<Returns, AllocError>
        requires { workers ≤ MOST_WORKERS }
        ensures empty { IfOk result IsEmpty }
        ensures room { IfOk result (λ r. HasRoom teams workers r) }
    {
        Ok(Returns {
            teams: Vec::with_capacity(alloc, teams)?,
            rules: Vec::with_capacity(alloc, teams)?,
            tallies: Vec::with_capacity(alloc, workers)?,
            faults: Vec::with_capacity(alloc, workers + 2)?,
        })
    }
}

// A worker's fault is one of those of all.
fn keep_fault(faults: &mut Vec<LaunchFault>, fault: Option<WorkFault>)
    requires { vec_len faults.old < vec_capacity faults.old }
    ensures faults { faults.new.items ≡ faults.old.items ++ option_to_list (option_map by_work fault) }
    ensures room { vec_capacity faults.new ≡ vec_capacity faults.old }
    ensures few { vec_len faults.new ≤ vec_len faults.old + 1 }
{
    if let Some(fault) = fault {
        faults.push_reserved(LaunchFault::from(fault));
    }
}

// A worker leaves.
fn dismiss<N: Door, C: Clock>(
    alloc: Global,
    mut worker: WorkerThread<WireLink<N::Conn>, C, PcgDice>,
    net: &mut N,
    returns: &mut Returns,
)
    requires teams { vec_len returns.old.teams < vec_capacity returns.old.teams }
    requires rules { vec_len returns.old.rules < vec_capacity returns.old.rules }
    requires tallies { vec_len returns.old.tallies < vec_capacity returns.old.tallies }
    requires faults { vec_len returns.old.faults < vec_capacity returns.old.faults }
    ensures gone { Dismisses N.Door N.Conn.Source N.Conn.Sink C.Clock runs worker net.old returns.old net.new returns.new }
    ensures room { KeepsRoom returns.old returns.new }
    ensures teams { vec_len returns.new.teams ≡ vec_len returns.old.teams + 1 }
    ensures rules { vec_len returns.new.rules ≡ vec_len returns.old.rules + 1 }
    ensures tallies { vec_len returns.new.tallies ≡ vec_len returns.old.tallies + 1 }
    ensures few { vec_len returns.new.faults ≤ vec_len returns.old.faults + 1 }
    ensures faults { N.door_faults net.new ≡ N.door_faults net.old }
{
    worker.leave(alloc);
    let WorkerThread {
        processor,
        pace: _,
        link,
        clock: _,
        dice: _,
    } = worker;
    let Processor {
        worker,
        registry,
        tally,
        fault,
    } = processor;
    returns.teams.push_reserved(registry);
    returns.rules.push_reserved(worker.plain);
    returns.tallies.push_reserved(tally);
    keep_fault(&mut returns.faults, fault);
    net.leave(link.into_conn());
}

/// The workers leave, in their order.
pub(crate) fn dismiss_all<N: Door, C: Clock>(
    alloc: Global,
    staff: Vec<WorkerThread<WireLink<N::Conn>, C, PcgDice>>,
    net: &mut N,
    returns: &mut Returns,
)
    requires teams { vec_len returns.old.teams + vec_len staff ≤ vec_capacity returns.old.teams }
    requires rules { vec_len returns.old.rules + vec_len staff ≤ vec_capacity returns.old.rules }
    requires tallies { vec_len returns.old.tallies + vec_len staff ≤ vec_capacity returns.old.tallies }
    requires faults { vec_len returns.old.faults + vec_len staff ≤ vec_capacity returns.old.faults }
    ensures gone { DismissesAll N.Door N.Conn.Source N.Conn.Sink C.Clock runs staff net.old returns.old net.new returns.new }
    ensures room_of_teams { vec_capacity returns.new.teams ≡ vec_capacity returns.old.teams }
    ensures room_of_rules { vec_capacity returns.new.rules ≡ vec_capacity returns.old.rules }
    ensures room { vec_capacity returns.new.faults ≡ vec_capacity returns.old.faults }
    ensures teams { vec_len returns.new.teams ≡ vec_len returns.old.teams + vec_len staff }
    ensures rules { vec_len returns.new.rules ≡ vec_len returns.old.rules + vec_len staff }
    ensures few { vec_len returns.new.faults ≤ vec_len returns.old.faults + vec_len staff }
    ensures faults { N.door_faults net.new ≡ N.door_faults net.old }
{
    for worker in staff {
        dismiss(alloc, worker, net, returns);
    }
}
