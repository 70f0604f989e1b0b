// A drill: threads at one store with a journal, which is compared with what they tell.
ghost use Rattle.std.specs.Prelude.{◌≡◌, ◌<◌, ◌≤◌, ◌-◌, ◌^◌, ◌∷◌, IfErr, IfOk, IfSome, MatchOption, None, Ok, length, true, vec_len};
ghost use Rattle.std.specs.List.{AllByRecursion};
ghost use Rattle.sk_desk.specs.State.{IsConsistent};
ghost use Rattle.sk_jobs.specs.Counting.{tally_of};
ghost use Rattle.sk_drill.specs.Soaked.{IsBalanced};
ghost use Rattle.sk_drill.specs.Crews.{AreStories, HaveOwnSeats, Room, StandApart, classes_of};
ghost use Rattle.sk_drill.specs.Drilled.{Drills, EndsAs, IsAnswered, IsRecorded, plan_of, shipped};

use crate::crew::{Posts, run_drill};
use crate::plan::Plan;
use crate::soaking::summary;
use crate::{DrillEnd, Drilled, Memory, Summary};
use sk_compare::{Difference, compare};
use sk_desk::{Book, Closed, FullBook, Hub, HubBlank, HubId, Pass};
use sk_lane::{HubSeats, Story};
use sk_pipe::SHIPPED_LIMITS;
use sk_policy::DelayRule;
use sk_worker::Registry;
use std::alloc::Global;
use std::collections::VecDeque;
use std::marker::Brand;
use std::sync::Wait;
use std::thread::Threads;

/// How many entries a journal may have.
const MOST_ENTRIES: usize = 1 << 62;

// Where the stories and the journal differ.
fn compared<I: HubId>(
    alloc: Global,
    closed: &Closed<I, FullBook>,
    stories: &[Story],
) -> Result<Option<Difference>, Memory>
    requires { IsConsistent shipped closed.now }
    ensures { IfOk result (IsRecorded closed.now stories.now) }
{
    let journal = closed.book.entries();
    if journal.len() >= MOST_ENTRIES {
        return Err(Memory);
    }
    compare(alloc, stories, journal)
}

// The book of a store that is given up.
fn into_book<I: HubId>(closed: Closed<I, FullBook>) -> FullBook
    ensures { result ≡ closed.log }
{
    let Closed {
        core: _core,
        book,
        total: _total,
        before: _before,
    } = closed;
    book
}

// What the store counts behind its last event.
fn summed<I: HubId>(closed: &Closed<I, FullBook>) -> Summary
    ensures tally { result.tally ≡ tally_of closed.now.world }
    ensures balanced { IsBalanced result.tally }
    ensures events { MatchOption closed.now.log (2 ^ 62 ≤ result.events) (λ log. result.events ≡ length log.entries) }
{
    summary(&closed.core, closed.book.entries().len() as u64)
}

// How the drill ends, by what the comparison came to.
fn end_by(came: Result<Option<Difference>, Memory>, drilled: Drilled) -> DrillEnd
    ensures alike { came ≡ Ok None → result ≡ DrillEnd.Alike drilled }
    ensures differs { IfOk came (λ r. IfSome r (λ d. result ≡ DrillEnd.Differs d.seat d.place d.told d.noted)) }
    ensures memory { IfErr came (λ e. result ≡ DrillEnd.Memory) }
{
    match came {
        Ok(None) => DrillEnd::Alike(drilled),
        Ok(
            Some(
                Difference {
                    seat,
                    place,
                    told,
                    noted,
                },
            ),
        ) => DrillEnd::Differs {
            seat,
            place,
            told,
            noted,
        },
        Err(_) => DrillEnd::Memory,
    }
}

// How the drill ends.
fn finish<I: HubId>(alloc: Global, closed: Closed<I, FullBook>, stories: Vec<Story>) -> DrillEnd
    requires sound { IsConsistent shipped closed }
    requires apart { HaveOwnSeats stories.items }
    requires answered { AllByRecursion IsAnswered stories.items }
    ensures { EndsAs stories.items result }
{
    let came = compared(alloc, &closed, &stories);
    let summary = summed(&closed);
    let book = into_book(closed);
    end_by(
        came,
        Drilled {
            summary,
            stories,
            book,
        },
    )
}

// Seats for each thread: one for the thread that pushes, one for the poller's, and for each worker's as many as it has turns and crashes, and one more.
fn posts<'a, R: Wait, I: HubId, B: Book>(
    rt: &'a R,
    alloc: Global,
    hub: &'a Hub<I, B>,
    pass: &mut Pass<I>,
    plan: Plan,
    workers: u32,
) -> Result<Posts<HubSeats<'a, R, I, B>>, Memory>
    requires workers { workers ≤ 16 }
    requires plan { (1 ≤ plan.jobs) × (plan.jobs ≤ 20000) × (plan.crashes ≤ 1000000) }
    requires count { (pass.old.given ≡ 0) × (pass.old.count ≡ 2 ^ 32 - 1) }
    ensures len { IfOk result (λ posts. length posts.working.items ≡ workers) }
    ensures room { IfOk result (λ posts. AllByRecursion (λ s. Room true s.pass.count plan.jobs) posts.working.items) }
    ensures apart { IfOk result (λ p. StandApart (λ s. s.pass.given) (λ s. s.pass.count) 0 (p.pushing ∷ p.polling ∷ p.working.items)) }
{
    let count = 2 * plan.jobs as u32 + plan.crashes + 1;
    let pushing = HubSeats {
        rt,
        hub,
        pass: pass.split(1),
    };
    let polling = HubSeats {
        rt,
        hub,
        pass: pass.split(1),
    };
    let mut working = VecDeque::new(alloc);
    for _worker in 0..workers {
        working.push_back(HubSeats {
            rt,
            hub,
            pass: pass.split(count),
        })?;
    }
    Ok(Posts {
        pushing,
        polling,
        working,
    })
}

// All stories of the threads, at this store.
fn stories_at<R: Threads + Wait + Sync, I: HubId + Send + Sync>(
    rt: &R,
    alloc: Global,
    hub: &Hub<I, FullBook>,
    pass: &mut Pass<I>,
    plan: Plan,
    workers: u32,
    teams: &mut Vec<Registry>,
    rules: Vec<DelayRule>,
) -> Result<Vec<Story>, Memory>
    requires workers { (1 ≤ workers) × (workers ≤ 16) × (workers ≤ vec_len teams.old) }
    requires rules { vec_len rules ≡ vec_len teams.old }
    requires plan { (1 ≤ plan.jobs) × (plan.jobs ≤ 20000) × (plan.crashes ≤ 1000000) }
    requires count { (pass.old.given ≡ 0) × (pass.old.count ≡ 2 ^ 32 - 1) }
    ensures stories { IfOk result (λ s. AreStories runs plan workers rules.items teams.old.items teams.new.items s.items) }
    ensures teams { classes_of teams.new.items ≡ classes_of teams.old.items }
{
    let posts = posts(rt, alloc, hub, pass, plan, workers)?;
    run_drill(rt, alloc, plan, posts, teams, rules)
}

// Runs the drill at the hub of `I`.
fn drill_on<I: HubId + Send + Sync, R: Threads + Wait + Sync>(
    rt: &R,
    alloc: Global,
    blank: HubBlank,
    plan: Plan,
    workers: u32,
    teams: &mut Vec<Registry>,
    rules: Vec<DelayRule>,
) -> DrillEnd
    requires blank { blank ≡ record { acks = I.acks; asks = I.asks; cuts = I.cuts } }
    requires start { I.start ≡ shipped }
    requires workers { (1 ≤ workers) × (workers ≤ 16) × (workers ≤ vec_len teams.old) }
    requires rules { vec_len rules ≡ vec_len teams.old }
    requires plan { (1 ≤ plan.jobs) × (plan.jobs ≤ 20000) × (plan.crashes ≤ 1000000) }
    ensures told { Drills runs plan workers rules.items teams.old.items teams.new.items result }
    ensures teams { classes_of teams.new.items ≡ classes_of teams.old.items }
{
    let book = FullBook::new(alloc);
    let (hub, mut pass) = Hub::<I, FullBook>::new(alloc, blank, SHIPPED_LIMITS, book);
    match stories_at(rt, alloc, &hub, &mut pass, plan, workers, teams, rules) {
        Ok(stories) => finish(alloc, hub.close(), stories),
        Err(_) => {
            hub.abandon();
            DrillEnd::Memory
        }
    }
}

/// Lets threads work at one store, which keeps a journal of all that happens to it, and compares that with what each thread tells of its seats.
///
/// - One thread pushes the jobs 1 to `jobs` one by one to the queue `default`. There are 1 to 20,000.
/// - One takes as many turns of a poller of the process `w:0:d`, without periodic jobs. A turn that ends at an error reply counts, and the poller goes on.
/// - Each of the workers, 1 to 16 and no more than there are teams, does a [`lane`](sk_lane::lane) with the team and the rule of its place, and with
///   `crashes / workers` crashes, rounded down. There are at most 1,000,000 crashes.
///
/// Each link to a seat reads a clock of its own before each call. The clocks begin at 1,700,000,000,000 ms; those of the poller's thread go on by 1,000 ms
/// at each reading, and the others stand. The store has the program's limits. The teams stand in their order again, whatever came of it.
pub fn drill<R: Threads + Wait + Sync>(
    rt: &R,
    alloc: Global,
    seed: u64,
    jobs: u64,
    workers: u32,
    crashes: u32,
    teams: &mut Vec<Registry>,
    rules: Vec<DelayRule>,
) -> DrillEnd
    requires jobs { (1 ≤ jobs) × (jobs ≤ 20000) }
    requires workers { (1 ≤ workers) × (workers ≤ 16) × (workers ≤ vec_len teams.old) }
    requires crashes { crashes ≤ 1000000 }

    // There is a plain rule for each team.
    requires rules { vec_len rules ≡ vec_len teams.old }

    // The stories are those of all threads, and the drill ends as they compare with the journal, which is a run of the store. Where they are alike, the
    // tally counts each push that was answered by a number, and nothing that the store pushed itself.
    ensures told { Drills runs (plan_of seed jobs workers crashes) workers rules.items teams.old.items teams.new.items result }

    // The teams have their classes still.
    ensures teams { classes_of teams.new.items ≡ classes_of teams.old.items }
{
    let plan = Plan {
        seed,
        jobs,
        crashes: crashes / workers,
    };
    drill_on::<Brand, R>(rt, alloc, HubBlank::new(), plan, workers, teams, rules)
}
