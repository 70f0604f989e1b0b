// Drills. Which thread comes first is not settled: of a drill only that is told which is the same whoever does.
ghost use Rattle.std.specs.Prelude.{◌≡◌, ◌≤◌, IfOk, vec_len};

use sk_compare::Difference;
use sk_desk::{Deed, FullBook};
use sk_drill::{DrillEnd, Drilled, drill};
use sk_policy::DelayRule;
use sk_row_calls::text::{count_within, invalid, number};
use sk_row_calls::{Output, add_difference};
use sk_worker::Registry;
use std::alloc::{AllocError, Global};
use std::io;
use std::sync::Wait;
use std::sync::atomic::{AtomicU64, Ordering};
use std::thread::Threads;

// How many entries of the journal cut a seat off.
fn cuts(book: &FullBook) -> u64 {
    let mut cuts = 0u64;
    for entry in book.entries() {
        cuts = cuts.saturating_add(u64::from(matches!(entry.deed, Deed::Cut)));
    }
    cuts
}

fn yes_or_no(holds: bool) -> &'static str {
    if holds { "yes" } else { "no" }
}

/// What a row says of a drill: the seed, and how many jobs, workers and crashes there are.
#[derive(Clone, Copy)]
struct Plan {
    seed: u64,
    jobs: u32,
    workers: u32,
    crashes: u32,
}

// The plan that the words say, with workers for whom there are teams. Others are invalid data.
fn plan_of(words: &[String], teams: usize) -> io::Result<Plan>
    ensures jobs { IfOk result (λ plan. (1 ≤ plan.jobs) × (plan.jobs ≤ 20000)) }
    ensures workers { IfOk result (λ plan. (1 ≤ plan.workers) × (plan.workers ≤ 16) × (plan.workers ≤ teams)) }
    ensures crashes { IfOk result (λ plan. plan.crashes ≤ 1000000) }
{
    let [seed, jobs, workers, crashes, ..] = words else {
        return Err(invalid());
    };
    let seed = number(seed)?;
    let jobs = count_within(jobs, 1, 20_000)?;
    let workers = count_within(workers, 1, 16)?;
    let crashes = count_within(crashes, 0, 1_000_000)?;
    if workers as usize > teams {
        return Err(invalid());
    }
    Ok(Plan {
        seed,
        jobs,
        workers,
        crashes,
    })
}

/// What a row tells of the runs of its jobs, beside how many there were.
#[derive(Clone, Copy)]
struct Runs {
    runs: u64,
    // no team has a class
    are_told: bool,
    // no run may be cut off before its end is told
    are_even: bool,
}

impl Runs {
    // Appends how many runs there were and how many returned, or whether these are as many.
    fn add_to(&self, out: &mut Output, returned: u64) {
        if self.are_told {
            out.count(", runs ", self.runs, "");
            out.count(", returned ", returned, "");
        } else if self.are_even {
            out.say(", each run returned: ");
            out.say(yes_or_no(self.runs == returned));
        }
    }
}

// Appends the tally of a drill whose stories and whose journal were alike.
fn add_drilled(out: &mut Output, drilled: &Drilled, runs: Runs) {
    let tally = &drilled.summary.tally;
    let one_each = cuts(&drilled.book) == drilled.stories.len() as u64;
    out.count("alike, outside ", tally.outside, "");
    out.count(", inner ", tally.inner, "");
    out.say(", a cut for each story: ");
    out.say(yes_or_no(one_each));
    runs.add_to(out, tally.returned);
}

// Appends how a drill ended.
fn add_end(alloc: Global, out: &mut Output, end: DrillEnd, runs: Runs) -> Result<(), AllocError> {
    match end {
        DrillEnd::Alike(drilled) => add_drilled(out, &drilled, runs),
        DrillEnd::Differs {
            seat,
            place,
            told,
            noted,
        } => {
            let difference = Difference {
                seat,
                place,
                told,
                noted,
            };
            add_difference(alloc, out, difference)?;
        }
        DrillEnd::Memory => out.say("no memory"),
    }
    out.say("\n");
    Ok(())
}

/// What comes of a row `SEED JOBS WORKERS CRASHES CLASS` with these teams: how many jobs were pushed from outside and by callbacks, and whether each
/// story has one cut. Where no team has a class, how many runs there were and how many returned. Else, without crashes, whether they are as many: a
/// crash may come between the end of a run and its SK.OK. Other words are invalid data.
pub fn drill_row<R: Threads + Wait + Sync>(
    rt: &R,
    alloc: Global,
    words: &[String],
    teams: &mut Vec<Registry>,
    rules: Vec<DelayRule>,
    runs: &AtomicU64,
) -> io::Result<Output>
    requires { vec_len rules ≡ vec_len teams.old }
{
    let plan = plan_of(words, teams.len())?;
    let end = drill(
        rt,
        alloc,
        plan.seed,
        u64::from(plan.jobs),
        plan.workers,
        plan.crashes,
        teams,
        rules,
    );
    let runs = Runs {
        runs: runs.load(Ordering::SeqCst),
        are_told: words.len() == 4,
        are_even: plan.crashes == 0,
    };
    let mut out = Output::new(alloc);
    add_end(alloc, &mut out, end, runs)?;
    Ok(out)
}
