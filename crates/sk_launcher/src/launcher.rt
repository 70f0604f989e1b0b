// One launch: it makes the connections, starts the poller and the workers, lets them take their turns in threads, and gives everything back.
ghost use Rattle.std.specs.Prelude.{◌≡◌, ◌≤◌, ◌<◌, ◌+◌, ◌-◌, ◌^◌, ◌∷◌, ◌++◌, [], IfOk, IfErr, OnErr, OnOk, None, length, map, option_map, option_to_list, true, vec_len, vec_capacity};
ghost use Rattle.std.specs.List.{list_all};
ghost use Rattle.sk_base.specs.declared.limits.TheConstants.{MOST_PREFETCH, MOST_WORKERS};
ghost use Rattle.sk_cron.specs.Offset.{IsOffset};
ghost use Rattle.sk_launcher.specs.Connections.{Each, Gives, Keeping, classes_of, rules_of};
ghost use Rattle.sk_launcher.specs.Counting.{total_from};
ghost use Rattle.sk_launcher.specs.Launching.{Hindered, IsLeastOf, hindrance_of};
ghost use Rattle.sk_launcher.specs.Faults.{by_poll};
ghost use Rattle.sk_launcher.specs.Polling.{own_poller};
ghost use Rattle.sk_launcher.specs.Promises.{Begins, DoneByTeams, Employ, Ended, Failed, Fills, FillsSettings, HasOutfits, HasRoom, IsEmpty, RunsProcess, Wire, Works, WorksThrough, told_by};
ghost use Rattle.sk_launcher.specs.Seeding.{Seeds, SeedsAll};
ghost use Rattle.sk_launcher.specs.Teams.{teams_of};
ghost use Rattle.sk_poller.specs.Loop.{is_loop};
ghost use Rattle.sk_poller.specs.Stage.{watch_of};

use crate::dismiss::{Returns, dismiss_all};
use crate::faults::least;
use crate::hire::{Outfit, hire_all};
use crate::launch_end::LaunchEnd;
use crate::manager::{are_whole, run_on};
use crate::poller_thread::PollerThread;
use crate::shared::Shared;
use crate::total::total;
use crate::worker_thread::WorkerThread;
use crate::{Counts, LaunchFault, WorkSettings};
use sk_base::{Clock, Dice};
use sk_edge::{Door, PcgDice};
use sk_link::{Link, WireLink};
use sk_policy::DelayRule;
use sk_poller::{Loop, Poller};
use sk_resp::Text;
use sk_worker::Registry;
use std::alloc::{AllocError, Global};
use std::collections::VecDeque;
use std::mem;
use std::sync::Wait;
use std::thread::Threads;

// A dice of its own, by two words.
fn own_dice<D: Dice>(dice: &mut D) -> PcgDice
    ensures { Seeds (D.words dice.old) result (D.words dice.new) }
{
    let state = dice.word();
    let stream = dice.word();
    PcgDice::from_words(state, stream)
}

// So many of them.
fn own_dices<D: Dice>(
    alloc: Global,
    count: usize,
    dice: &mut D,
) -> Result<VecDeque<PcgDice>, AllocError>
    ensures count { IfOk result (λ own. length own.items ≡ count) }
    ensures seeded { IfOk result (λ own. Each Seeds (D.words dice.old) own.items (D.words dice.new)) }
{
    let mut own = Vec::with_capacity(alloc, count)?;
    while own.len() < count {
        own.push_reserved(own_dice(dice));
    }
    Ok(VecDeque::from(own))
}

// How many turns a worker takes. With 0 it goes on until a fault: 2^64 - 1 turns have no end.
fn turns_of(settings: &WorkSettings) -> u64
    ensures is { 0 < settings.now.turns → result ≡ settings.now.turns }
    ensures few { 0 < settings.now.turns → result < 2 ^ 64 - 1 }
    ensures endless { settings.now.turns ≡ 0 → result ≡ 2 ^ 64 - 1 }
{
    if settings.turns == 0 {
        u64::MAX
    } else {
        u64::from(settings.turns)
    }
}

// Where workers go on until a fault there are no counts: should they come to an end without one, the launcher waits until the process is ended.
fn settle<R: Wait>(rt: &R, turns: u32, end: LaunchEnd) -> LaunchEnd
    ensures same { result ≡ end }
    ensures turns { result.fault ≡ None → 0 < turns }
{
    if end.fault.is_none() && turns == 0 {
        for _ in rt.forever() {}
        unreachable!()
    }
    end
}

// What a launcher has before its first turn: the poller's name, dice and connection, the workers' dice, and room for all that comes back.
#[derive(Drop)]
struct Ready<N: Door> {
    ident: Text,
    own: PcgDice,
    others: VecDeque<PcgDice>,
    returns: Returns,
    conn: N::Conn,
}

fn make_ready<N: Door, D: Dice>(
    alloc: Global,
    settings: &WorkSettings,
    teams: usize,
    net: &mut N,
    dice: &mut D,
) -> Result<Ready<N>, LaunchFault>
    requires { settings.now.threads ≤ MOST_WORKERS }
    ensures given { IfOk result (λ r. (r.ident ≡ settings.now.ident)
        × Gives (told_by N.Door net.old) r.conn (told_by N.Door net.new)) }
    ensures dice { IfOk result (λ r. length r.others.items ≡ settings.now.threads) }
    ensures seeded { IfOk result (λ r. SeedsAll (D.words dice.old) r.own r.others.items (D.words dice.new)) }
    ensures empty { IfOk result (λ r. IsEmpty r.returns) }
    ensures err { OnErr result (told_by N.Door net.new ≡ told_by N.Door net.old) }
    ensures cause { IfErr result (λ f. Hindered (Failed N.Door net.old net.new) (f ∷ [])) }
    ensures room { IfOk result (λ r. HasRoom teams settings.now.threads r.returns) }
    ensures later { N.door_faults net.old ≤ N.door_faults net.new }
{
    let count = settings.threads as usize;
    let returns = Returns::with_room(alloc, teams, count)?;
    let own = own_dice(dice);
    let others = own_dices(alloc, count, dice)?;
    let ident = settings.ident.copy()?;
    let conn = net.connect(settings.address.host.text(), settings.address.port)?;
    Ok(Ready {
        ident,
        own,
        others,
        returns,
        conn,
    })
}

// A poller over a new connection, which takes its first turn.
fn start_poller<N: Door, C: Clock>(
    alloc: Global,
    poller: Poller,
    conn: N::Conn,
    clock: &C,
    dice: PcgDice,
) -> PollerThread<WireLink<N::Conn>, C, PcgDice>
    ensures once { result.fault ≡ None → result.taken ≡ 1 }
    ensures most { result.taken ≤ 1 }
    ensures begun { Begins (Wire N.Conn.Source N.Conn.Sink) conn (watch_of poller) dice (own_poller C.moments result) }
{
    let mut poller = PollerThread {
        poller,
        link: WireLink::new(alloc, conn),
        clock: clock.twin(),
        dice,
        taken: 0,
        fault: None,
    };
    poller.first(alloc);
    poller
}

// The poller and the workers take their turns in threads, over links of any kind.
#[tactic(auto, using(crate::proofs::Crossing::payload_send, crate::proofs::Crossing::order_send, crate::proofs::Crossing::tally_send))]
fn run_threads<R: Threads + Wait + Sync, L: Link + Drop + Send, C: Clock + Send>(
    rt: &R,
    shared: &Shared,
    poller: &mut PollerThread<L, C, PcgDice>,
    staff: &mut Vec<WorkerThread<L, C, PcgDice>>,
)
    requires { 0 < vec_len staff.old }
    ensures worked { Works L.carried C.Clock runs poller.old staff.old poller.new staff.new }
    ensures same { vec_len staff.new ≡ vec_len staff.old }
    ensures taken { Fills shared.now.polls shared.now.turns C.Clock runs poller.old staff.old poller.new staff.new }
{
    run_on(rt, shared, poller, staff.as_mut_slice());
}

// They do, where as many workers were hired as there are to be, and nobody had a fault.
fn work<R: Threads + Wait + Sync, N: Door, C: Clock + Send>(
    rt: &R,
    alloc: Global,
    settings: &WorkSettings,
    poller: &mut PollerThread<WireLink<N::Conn>, C, PcgDice>,
    staff: &mut Vec<WorkerThread<WireLink<N::Conn>, C, PcgDice>>,
)
    requires { 1 ≤ settings.now.threads }
    ensures worked { Works (Wire N.Conn.Source N.Conn.Sink) C.Clock runs poller.old staff.old poller.new staff.new }
    ensures same { vec_len staff.new ≡ vec_len staff.old }
    ensures taken { vec_len staff.old ≡ settings.now.threads → FillsSettings settings.now C.Clock runs poller.old staff.old poller.new staff.new }
{
    if staff.len() != settings.threads as usize {
        return;
    }
    if !are_whole(staff) {
        return;
    }
    run_threads(rt, &Shared::new(alloc, turns_of(settings)), poller, staff);
}

// Workers are hired, and all take their turns, where the poller had no fault.
fn employ<R: Threads + Wait + Sync, N: Door, C: Clock + Send>(
    rt: &R,
    alloc: Global,
    settings: &WorkSettings,
    poller: &mut PollerThread<WireLink<N::Conn>, C, PcgDice>,
    staff: &mut Vec<WorkerThread<WireLink<N::Conn>, C, PcgDice>>,
    outfit: &mut Outfit,
    net: &mut N,
    clock: &C,
) -> Result<(), LaunchFault>
    requires threads { 1 ≤ settings.now.threads }
    requires prefetch { (1 ≤ settings.now.prefetch) × (settings.now.prefetch ≤ MOST_PREFETCH) }
    requires room { (vec_len staff.old ≡ 0) × (settings.now.threads ≤ vec_capacity staff.old) }
    requires outfit { HasOutfits settings.now.threads outfit.old }
    requires begun { poller.old.taken ≤ 1 }
    ensures is { Employ N.Door N.Conn.Source N.Conn.Sink C.Clock runs settings.now poller.old poller.new
        net.old outfit.old net.new outfit.new staff.new }
    ensures cause { Hindered (Failed N.Door net.old net.new) (hindrance_of result) }
    ensures all { OnOk result (WorksThrough settings.now C.Clock runs poller.new staff.new) }
    ensures few { vec_len staff.new ≤ settings.now.threads }
    ensures left { length outfit.new.teams.items + vec_len staff.new ≡ length outfit.old.teams.items }
    ensures later { N.door_faults net.old ≤ N.door_faults net.new }
{
    if poller.fault.is_some() {
        return Ok(());
    }
    let hired = hire_all(alloc, settings, outfit, net, clock, staff);
    work::<R, N, C>(rt, alloc, settings, poller, staff);
    hired
}

// The poller gives back its connection, its fault, and its periodic jobs.
fn dismiss_poller<N: Door, C: Clock>(
    poller: PollerThread<WireLink<N::Conn>, C, PcgDice>,
    net: &mut N,
    faults: &mut Vec<LaunchFault>,
) -> Vec<Loop>
    requires { vec_len faults.old < vec_capacity faults.old }
    ensures loops { result.items ≡ poller.poller.loops.items }
    ensures kept { Keeping (told_by N.Door net.old) poller.link.conn (told_by N.Door net.new) }
    ensures given { faults.new.items ≡ faults.old.items ++ option_to_list (option_map by_poll poller.fault) }
    ensures few { vec_len faults.new ≤ vec_len faults.old + 1 }
    ensures room { vec_capacity faults.new ≡ vec_capacity faults.old }
    ensures faults { N.door_faults net.new ≡ N.door_faults net.old }
{
    let PollerThread {
        poller,
        link,
        clock: _,
        dice: _,
        taken: _,
        fault,
    } = poller;
    net.leave(link.into_conn());
    if let Some(fault) = fault {
        faults.push_reserved(LaunchFault::from(fault));
    }
    poller.loops
}

// The teams that had no worker come back behind the others.
fn return_teams(mut left: VecDeque<Registry>, teams: &mut Vec<Registry>)
    requires { vec_len teams.old + length left.items ≤ vec_capacity teams.old }
    ensures { teams_of runs teams.new.items ≡ teams_of runs teams.old.items ++ teams_of runs left.items }
{
    while let Some(team) = left.pop_front() {
        teams.push_reserved(team);
    }
}

// The plain rules that no worker had come back behind the others.
fn return_rules(mut left: VecDeque<DelayRule>, rules: &mut Vec<DelayRule>)
    requires { vec_len rules.old + length left.items ≤ vec_capacity rules.old }
    ensures { rules.new.items ≡ rules.old.items ++ left.items }
{
    while let Some(rule) = left.pop_front() {
        rules.push_reserved(rule);
    }
}

// What came back: the teams, the plain rules, and how it ended, by the counts of all turns behind those before it, and a fault with the least status.
fn answer(before: Counts, returns: Returns) -> (Vec<Registry>, Vec<DelayRule>, LaunchEnd)
    requires { 0 ≤ 1 }
    ensures teams { result.0.items ≡ returns.teams.items }
    ensures rules { result.1.items ≡ returns.rules.items }
    ensures counts { result.2.counts ≡ total_from before (map (λ t. t.counts) returns.tallies.items) }
    ensures fault { IsLeastOf returns.faults.items result.2.fault }
{
    let Returns {
        teams,
        rules,
        tallies,
        faults,
    } = returns;
    let end = LaunchEnd {
        counts: total(before, &tallies),
        fault: least(faults),
    };
    (teams, rules, end)
}

// What kept the launcher from having all its workers is one of the faults of all.
fn keep_hindrance(hired: Result<(), LaunchFault>, faults: &mut Vec<LaunchFault>)
    requires { vec_len faults.old < vec_capacity faults.old }
    ensures { faults.new.items ≡ faults.old.items ++ hindrance_of hired }
{
    if let Err(fault) = hired {
        faults.push_reserved(fault);
    }
}

// Workers are hired, work and leave.
fn run_process<R: Threads + Wait + Sync, N: Door, C: Clock + Send>(
    rt: &R,
    alloc: Global,
    settings: &WorkSettings,
    mut poller: PollerThread<WireLink<N::Conn>, C, PcgDice>,
    mut staff: Vec<WorkerThread<WireLink<N::Conn>, C, PcgDice>>,
    mut outfit: Outfit,
    net: &mut N,
    clock: &C,
    returns: &mut Returns,
) -> Vec<Loop>
    requires threads { 1 ≤ settings.now.threads }
    requires prefetch { (1 ≤ settings.now.prefetch) × (settings.now.prefetch ≤ MOST_PREFETCH) }
    requires room { (vec_len staff ≡ 0) × (settings.now.threads ≤ vec_capacity staff) }
    requires outfit { HasOutfits settings.now.threads outfit }
    requires begun { poller.taken ≤ 1 }
    requires empty { IsEmpty returns.old }
    requires returns { HasRoom (length outfit.teams.items) settings.now.threads returns.old }
    requires paired { length outfit.rules.items ≡ length outfit.teams.items }
    ensures process { RunsProcess N.Door N.Conn.Source N.Conn.Sink C.Clock runs settings.now poller net.old outfit net.new returns.new }
    ensures teams { classes_of returns.new.teams.items ≡ classes_of outfit.teams.items }
    ensures rules { rules_of returns.new.teams.items ≡ rules_of outfit.teams.items }
    ensures plain { returns.new.rules.items ≡ outfit.rules.items }
    ensures loops { result.items ≡ poller.poller.loops.items }
    ensures done { DoneByTeams runs outfit returns.new }
    ensures later { N.door_faults net.old ≤ N.door_faults net.new }
{
    let hired = employ(
        rt,
        alloc,
        settings,
        &mut poller,
        &mut staff,
        &mut outfit,
        net,
        clock,
    );
    let loops = dismiss_poller(poller, net, &mut returns.faults);
    dismiss_all(alloc, staff, net, returns);
    return_teams(outfit.teams, &mut returns.teams);
    return_rules(outfit.rules, &mut returns.rules);
    keep_hindrance(hired, &mut returns.faults);
    loops
}

/// One launch by these settings: its poller and its workers start, take their turns, and give everything back, the periodic jobs and the plain rules
/// too. Answers how it ended, with the counts of its workers behind those in the sum.
pub(crate) fn launch_once<R: Threads + Wait + Sync, N: Door, C: Clock + Send, D: Dice>(
    rt: &R,
    alloc: Global,
    own: &mut WorkSettings,
    teams: &mut Vec<Registry>,
    rules: &mut Vec<DelayRule>,
    net: &mut N,
    clock: &C,
    dice: &mut D,
    sum: Counts,
) -> LaunchEnd
    requires teams { vec_len rules.old ≡ vec_len teams.old }
    requires few { vec_len teams.old ≤ MOST_WORKERS }
    requires threads { (1 ≤ own.old.threads) × (own.old.threads ≤ vec_len teams.old) }
    requires prefetch { (1 ≤ own.old.prefetch) × (own.old.prefetch ≤ MOST_PREFETCH) }
    requires offset { IsOffset own.old.offset }
    requires loops { list_all is_loop own.old.loops.items ≡ true }
    ensures told { Ended N.Door N.Conn.Source N.Conn.Sink D.Dice runs rules.old own.old sum
        net.old dice.old teams.old result net.new dice.new teams.new }
    ensures teams { classes_of teams.new.items ≡ classes_of teams.old.items }
    ensures rules { rules_of teams.new.items ≡ rules_of teams.old.items }
    ensures plain { rules.new.items ≡ rules.old.items }
    ensures same { own.new ≡ record own.old { loops = own.new.loops } }
    ensures loops { own.new.loops.items ≡ own.old.loops.items }
    ensures later { N.door_faults net.old ≤ N.door_faults net.new }
{
    let Ok(staff) = Vec::with_capacity(alloc, own.threads as usize) else {
        return LaunchEnd::hindered(sum, LaunchFault::Memory);
    };
    let ready = match make_ready(alloc, own, teams.len(), net, dice) {
        Ok(ready) => ready,
        Err(fault) => return LaunchEnd::hindered(sum, fault),
    };
    let Ready {
        ident,
        own: dice,
        others,
        mut returns,
        conn,
    } = ready;
    let loops = mem::replace(&mut own.loops, Vec::new(alloc));
    let poller = start_poller::<N, C>(
        alloc,
        Poller::new(ident, loops, own.offset),
        conn,
        clock,
        dice,
    );
    let outfit = Outfit {
        teams: VecDeque::from(mem::replace(teams, Vec::new(alloc))),
        rules: VecDeque::from(mem::replace(rules, Vec::new(alloc))),
        dice: others,
    };
    own.loops = run_process(
        rt,
        alloc,
        own,
        poller,
        staff,
        outfit,
        net,
        clock,
        &mut returns,
    );
    let (back, plain, end) = answer(sum, returns);
    *teams = back;
    *rules = plain;
    settle(rt, own.turns, end)
}
