// A soak: a load is run by a store of its own, turn by turn.
ghost use Rattle.std.specs.Prelude.{◌≡◌, ◌+◌, ◌<◌, ◌≤◌, ◌^◌, IfOk};
ghost use Rattle.sk_jobs.specs.Counting.{tally_of};
ghost use Rattle.sk_model.specs.World.{first};
ghost use Rattle.sk_pipe.specs.Run.{shipped};
ghost use Rattle.sk_drill.specs.Load.{opening_part, turn_part};
ghost use Rattle.sk_drill.specs.Soaked.{DoesPart, IsBalanced, IsSummaryOf};

use crate::load::Load;
use crate::play::play;
use crate::turn::turn;
use crate::{Memory, Summary};
use sk_core::Core;
use sk_pipe::SHIPPED_LIMITS;
use std::alloc::Global;

/// The turns that there are for each job.
const TURNS_A_JOB: u64 = 20;

// Does the events with which a load begins, and counts them.
fn begin(alloc: Global, load: &mut Load, core: &mut Core) -> Result<u64, Memory>
    ensures done { IfOk result (λ count. DoesPart (opening_part load.old) count load.new core.old core.new) }
    ensures small { IfOk result (λ count. count < 2 ^ 63) }
{
    let events = load.opening()?;
    let count = events.len() as u64;
    play(alloc, core, events)?;
    Ok(count)
}

// Does the events of the next turn, and counts them.
fn take_turn(alloc: Global, load: &mut Load, core: &mut Core) -> Result<u64, Memory>
    requires moment { load.old.moment < 2 ^ 62 }
    requires crons { load.old.crons < 2 ^ 62 }
    ensures done { IfOk result (λ count. DoesPart (turn_part load.old core.old) count load.new core.old core.new) }
    ensures small { IfOk result (λ count. count < 2 ^ 63) }
{
    let events = turn(load, core)?;
    let count = events.len() as u64;
    play(alloc, core, events)?;
    Ok(count)
}

/// What came of it: how many events there were, and the tally of the store behind them.
pub(crate) fn summary(core: &Core, events: u64) -> Summary
    ensures is { result ≡ record { events = events; tally = tally_of core.now } }
    ensures balanced { IsBalanced result.tally }
{
    Summary {
        events,
        tally: core.tally(),
    }
}

// Runs a load of `jobs` jobs, made from the number `seed`, on an empty store.
fn run_load(alloc: Global, seed: u64, jobs: u64, core: &mut Core) -> Result<Summary, Memory>
    requires few { jobs ≤ 1000000 }
    requires empty { core.old ≡ first shipped }
    ensures run { IfOk result (IsSummaryOf seed jobs) }
    ensures balanced { IfOk result (λ s. IsBalanced s.tally) }
{
    let mut load = Load::new(alloc, seed, jobs);
    let mut events = begin(alloc, &mut load, core)?;
    for turns in 0..TURNS_A_JOB * jobs {
        events += take_turn(alloc, &mut load, core)?;
    }
    Ok(summary(core, events))
}

/// Runs a load of `jobs` jobs, made from the number `seed`, on an empty store with the program's limits, and answers how many events there were and the
/// store's tally. The same numbers make the same load. There are at most 1,000,000 jobs.
///
/// Two processes beat, one leads, and the first jobs are pushed, a thousand at most, and two batches. Then there are twenty turns for each job. In each
/// time goes on, and a client pushes, the poller does its round, a worker's seat is cut off, or a worker joins, fetches, gives back, fails, finishes or
/// releases a job, as the words of the generator say (O'Neill's PCG XSH RR 64/32).
pub fn soak(alloc: Global, seed: u64, jobs: u64) -> Result<Summary, Memory>
    requires { jobs ≤ 1000000 }

    // The summary is that of the load's run, in which there was memory for each event, and all that holds of every run holds of it.
    ensures run { IfOk result (IsSummaryOf seed jobs) }

    // Each row that was pushed had no head, or its job was there already, is live, or has ended.
    ensures balanced { IfOk result (λ s. IsBalanced s.tally) }
{
    let mut core = Core::new(alloc, SHIPPED_LIMITS);
    run_load(alloc, seed, jobs, &mut core)
}
