// The crew of a drill: a thread that pushes, the poller's, and a worker for each of the first teams. It is hired, works in threads, and is dismissed:
// then the teams stand again in their order, whatever came of it.
ghost use Rattle.std.specs.Prelude.{◌≡◌, ◌<◌, ◌≤◌, ◌+◌, ◌*◌, ◌++◌, ◌∷◌, [], IfOk, OnOk, Some, length, map, true, vec_capacity, vec_len};
ghost use Rattle.std.specs.List.{AllByRecursion};
ghost use Rattle.std.specs.Global.{Vec};
ghost use Rattle.sk_lane.specs.declared.story.Story.{Story};
ghost use Rattle.sk_drill.specs.Crews.{AreStories, Assigned, HiresOne, IsHired, IsJoined, IsReady, Room, StandApart, TellAll, classes_of};

use crate::Memory;
use crate::plan::Plan;
use crate::poll_duty::PollDuty;
use crate::push_duty::PushDuty;
use crate::threads::run_crew;
use crate::work_duty::WorkDuty;
use sk_lane::{Seats, Story};
use sk_policy::DelayRule;
use sk_worker::Registry;
use std::alloc::Global;
use std::collections::VecDeque;
use std::mem;
use std::sync::Wait;
use std::thread::Threads;

// What workers are made of: one of each goes to each worker.
#[derive(Drop)]
struct Outfit<S: Drop> {
    seats: VecDeque<S>,
    teams: VecDeque<Registry>,
    rules: VecDeque<DelayRule>,
}

// Hires the worker of this number.
fn hire_one<S: Seats + Drop>(plan: Plan, number: u32, outfit: &mut Outfit<S>) -> WorkDuty<S>
    requires seats { 0 < length outfit.old.seats.items }
    requires teams { 0 < length outfit.old.teams.items }
    requires rules { 0 < length outfit.old.rules.items }
    requires jobs { (1 ≤ plan.jobs) × (plan.jobs ≤ 20000) }
    requires number { (1 ≤ number) × (number ≤ 16) }
    requires room { AllByRecursion (λ s. Room (S.free s) (S.left s) plan.jobs) outfit.old.seats.items }
    ensures hired { HiresOne plan number outfit.old.teams.items outfit.old.rules.items result outfit.new.teams.items outfit.new.rules.items }
    ensures ready { IsReady S.Seats result }
    ensures seats { outfit.old.seats.items ≡ result.seats ∷ outfit.new.seats.items }
    ensures fewer { length outfit.new.seats.items + 1 ≡ length outfit.old.seats.items }
    ensures room { AllByRecursion (λ s. Room (S.free s) (S.left s) plan.jobs) outfit.new.seats.items }
{
    let Some(seats) = outfit.seats.pop_front() else {
        unreachable!()
    };
    let Some(registry) = outfit.teams.pop_front() else {
        unreachable!()
    };
    let Some(rule) = outfit.rules.pop_front() else {
        unreachable!()
    };
    WorkDuty {
        seats,
        plan,
        number,
        registry,
        rule: Some(rule),
        stories: None,
    }
}

// Hires so many workers.
fn hire_all<S: Seats + Drop>(
    plan: Plan,
    count: u32,
    outfit: &mut Outfit<S>,
    staff: &mut Vec<WorkDuty<S>>,
)
    requires vacant { (vec_len staff.old ≡ 0) × (count ≤ vec_capacity staff.old) }
    requires count { count ≤ 16 }
    requires seats { count ≤ length outfit.old.seats.items }
    requires teams { count ≤ length outfit.old.teams.items }
    requires rules { count ≤ length outfit.old.rules.items }
    requires jobs { (1 ≤ plan.jobs) × (plan.jobs ≤ 20000) }
    requires room { AllByRecursion (λ s. Room (S.free s) (S.left s) plan.jobs) outfit.old.seats.items }
    ensures hired { Assigned (IsHired plan) 1 outfit.old.teams.items outfit.old.rules.items staff.new.items }
    ensures ready { AllByRecursion (IsReady S.Seats) staff.new.items }
    ensures teams { map (λ w. w.registry) staff.new.items ++ outfit.new.teams.items ≡ outfit.old.teams.items }
    ensures seats { map (λ w. w.seats) staff.new.items ++ outfit.new.seats.items ≡ outfit.old.seats.items }
    ensures len { vec_len staff.new ≡ count }
{
    for i in 0..count {
        let worker = hire_one(plan, i + 1, outfit);
        staff.push_reserved(worker);
    }
}

// Keeps the stories of one more worker. Whether each worker so far has its own.
fn keep(lanes: &mut Vec<Vec<Story>>, whole: bool, stories: Option<Vec<Story>>) -> bool
    requires { vec_len lanes.old < vec_capacity lanes.old }
    ensures kept { result ≡ true → (whole ≡ true) × ((lane : Vec Story) × (stories ≡ Some lane) × (lanes.new.items ≡ lanes.old.items ++ lane ∷ [])) }
    ensures len { vec_len lanes.new ≤ vec_len lanes.old + 1 }
    ensures capacity { vec_capacity lanes.new ≡ vec_capacity lanes.old }
{
    match stories {
        Some(stories) => {
            lanes.push_reserved(stories);
            whole
        }
        None => false,
    }
}

// The teams come back, and the stories of each worker, where all have theirs.
fn dismiss<S: Seats + Drop>(
    staff: Vec<WorkDuty<S>>,
    back: &mut Vec<Registry>,
    lanes: &mut Vec<Vec<Story>>,
) -> Result<(), Memory>
    requires teams { vec_len back.old + vec_len staff ≤ vec_capacity back.old }
    requires lanes { (lanes.old.items ≡ []) × (vec_len staff ≤ vec_capacity lanes.old) }
    ensures back { back.new.items ≡ back.old.items ++ map (λ w. w.registry) staff.items }
    ensures lanes { OnOk result (map (λ w. w.stories) staff.items ≡ map Some lanes.new.items) }
    ensures capacity { vec_capacity back.new ≡ vec_capacity back.old }
{
    let mut whole = true;
    for worker in staff {
        let WorkDuty {
            seats: _seats,
            plan: _,
            number: _,
            registry,
            rule: _rule,
            stories,
        } = worker;
        back.push_reserved(registry);
        whole = keep(lanes, whole, stories);
    }
    if whole { Ok(()) } else { Err(Memory) }
}

// The teams that had no worker come back behind the others.
fn return_teams(mut left: VecDeque<Registry>, back: &mut Vec<Registry>)
    requires { vec_len back.old + length left.items ≤ vec_capacity back.old }
    ensures { back.new.items ≡ back.old.items ++ left.items }
{
    while let Some(team) = left.pop_front() {
        back.push_reserved(team);
    }
}

// All stories, in the order of the threads.
fn join_stories(
    alloc: Global,
    pushed: Option<Story>,
    polled: Option<Story>,
    lanes: Vec<Vec<Story>>,
) -> Result<Vec<Story>, Memory>
    ensures { IfOk result (λ stories. IsJoined pushed polled (map (λ lane. lane.items) lanes.items) stories.items) }
{
    let Some(pushing) = pushed else {
        return Err(Memory);
    };
    let Some(polling) = polled else {
        return Err(Memory);
    };
    let mut stories = Vec::new(alloc);
    stories.push(pushing)?;
    stories.push(polling)?;
    for lane in lanes {
        let mut lane = lane;
        stories.append(&mut lane)?;
    }
    Ok(stories)
}

/// Seats for each thread.
#[derive(Drop)]
pub(crate) struct Posts<S: Drop> {
    pub pushing: S,
    pub polling: S,
    pub working: VecDeque<S>,
}

// The threads run. Then the workers are dismissed, and all stories are joined.
fn run_hired<R: Threads + Sync, S: Seats + Drop + Send>(
    rt: &R,
    alloc: Global,
    pushing: PushDuty<S>,
    polling: PollDuty<S>,
    staff: Vec<WorkDuty<S>>,
    back: &mut Vec<Registry>,
    lanes: Vec<Vec<Story>>,
) -> Result<Vec<Story>, Memory>
where
    S::Desk: Send,
    requires some { 0 < vec_len staff }
    requires teams { vec_len staff ≤ vec_capacity back.old }
    requires lanes { (lanes.items ≡ []) × (vec_len staff ≤ vec_capacity lanes) }
    requires empty { back.old.items ≡ [] }
    requires free { (S.free pushing.seats ≡ true) × (S.free polling.seats ≡ true) }
    requires ready { AllByRecursion (IsReady S.Seats) staff.items }
    ensures told { IfOk result (λ stories. TellAll S.Seats runs pushing polling staff.items back.new.items stories.items) }
    ensures back { classes_of back.new.items ≡ classes_of (map (λ w. w.registry) staff.items) }
    ensures len { vec_len back.new ≡ vec_len staff }
    ensures capacity { vec_capacity back.new ≡ vec_capacity back.old }
{
    let mut pushing = pushing;
    let mut polling = polling;
    let mut staff = staff;
    let mut lanes = lanes;
    run_crew(rt, alloc, &mut pushing, &mut polling, &mut staff);
    let dismissed = dismiss(staff, back, &mut lanes);
    let PushDuty {
        seats: _pushing_seats,
        jobs: _,
        story: pushed,
    } = pushing;
    let PollDuty {
        seats: _polling_seats,
        turns: _,
        story: polled,
    } = polling;
    dismissed?;
    join_stories(alloc, pushed, polled, lanes)
}

/// Runs the threads of a drill, each on its seats, with as many workers as there are seats for them, and answers all their stories. Each worker has the
/// team and the rule of its place. The teams stand in their order again.
pub(crate) fn run_drill<R: Threads + Sync, S: Seats + Drop + Send>(
    rt: &R,
    alloc: Global,
    plan: Plan,
    posts: Posts<S>,
    teams: &mut Vec<Registry>,
    rules: Vec<DelayRule>,
) -> Result<Vec<Story>, Memory>
where
    S::Desk: Send,
    requires some { (0 < length posts.working.items) × (length posts.working.items ≤ 16) }
    requires teams { length posts.working.items ≤ vec_len teams.old }
    requires rules { vec_len rules ≡ vec_len teams.old }
    requires jobs { (1 ≤ plan.jobs) × (plan.jobs ≤ 20000) }
    requires free { (S.free posts.pushing ≡ true) × (S.free posts.polling ≡ true) }
    requires room { AllByRecursion (λ s. Room (S.free s) (S.left s) plan.jobs) posts.working.items }
    requires apart { StandApart S.last S.left 0 (posts.pushing ∷ posts.polling ∷ posts.working.items) }
    ensures stories { IfOk result (λ s. AreStories runs plan (length posts.working.items) rules.items teams.old.items teams.new.items s.items) }
    ensures teams { classes_of teams.new.items ≡ classes_of teams.old.items }
{
    let Posts {
        pushing,
        polling,
        working,
    } = posts;
    let count = working.len();
    let mut staff = Vec::with_capacity(alloc, count)?;
    let lanes = Vec::with_capacity(alloc, count)?;
    let mut back = Vec::with_capacity(alloc, teams.len())?;
    let mut outfit = Outfit {
        seats: working,
        teams: VecDeque::from(mem::replace(teams, Vec::new(alloc))),
        rules: VecDeque::from(rules),
    };
    hire_all(plan, count as u32, &mut outfit, &mut staff);
    let pushing = PushDuty {
        seats: pushing,
        jobs: plan.jobs,
        story: None,
    };
    let polling = PollDuty {
        seats: polling,
        turns: plan.jobs,
        story: None,
    };
    let stories = run_hired(rt, alloc, pushing, polling, staff, &mut back, lanes);
    return_teams(outfit.teams, &mut back);
    *teams = back;
    stories
}
