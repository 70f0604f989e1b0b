// Launches one after another: where the server goes away, they wait for it.
ghost use Rattle.std.specs.Prelude.{◌≡◌, ◌≤◌, IfOk, OnOk, true, vec_len};
ghost use Rattle.std.specs.List.{list_all};
ghost use Rattle.sk_base.specs.declared.limits.TheConstants.{MOST_PREFETCH, MOST_WORKERS};
ghost use Rattle.sk_cron.specs.Offset.{IsOffset};
ghost use Rattle.sk_launcher.specs.Connections.{classes_of, rules_of};
ghost use Rattle.sk_launcher.specs.Patience.{numbered};
ghost use Rattle.sk_launcher.specs.Promises.{Launches};
ghost use Rattle.sk_poller.specs.Loop.{is_loop};

use crate::launcher::launch_once;
use crate::series::Series;
use crate::{Counts, LaunchFault, WorkSettings};
use sk_base::{Clock, Dice};
use sk_edge::Door;
use sk_policy::DelayRule;
use sk_resp::Text;
use sk_worker::Registry;
use std::alloc::{AllocError, Global};
use std::sync::Wait;
use std::thread::Threads;

// The process's name in the launch with this number: from the second on with the number behind it.
fn numbered(alloc: Global, ident: &Text, number: u64) -> Result<Text, AllocError>
    ensures { IfOk result (λ text. text ≡ numbered ident.now number) }
{
    if number <= 1 {
        return ident.copy();
    }
    let text = format!(in alloc; "{}-{number}", ident.text())?;
    Ok(Text::new(text))
}

// The launch with this number gets its name.
fn rename(
    alloc: Global,
    settings: &mut WorkSettings,
    ident: &Text,
    number: u64,
) -> Result<(), AllocError>
    ensures renamed { OnOk result (settings.new ≡ record settings.old { ident = numbered ident.now number }) }
{
    settings.ident = numbered(alloc, ident, number)?;
    Ok(())
}

// Launches, until one is the last.
fn launch_on<R: Threads + Wait + Sync, N: Door, C: Clock + Send, D: Dice>(
    rt: &R,
    alloc: Global,
    ident: &Text,
    own: &mut WorkSettings,
    teams: &mut Vec<Registry>,
    rules: &mut Vec<DelayRule>,
    net: &mut N,
    clock: &C,
    dice: &mut D,
) -> Result<Counts, LaunchFault>
    requires ident { ident.now ≡ own.old.ident }
    requires teams { vec_len rules.old ≡ vec_len teams.old }
    requires few { vec_len teams.old ≤ MOST_WORKERS }
    requires threads { (1 ≤ own.old.threads) × (own.old.threads ≤ vec_len teams.old) }
    requires prefetch { (1 ≤ own.old.prefetch) × (own.old.prefetch ≤ MOST_PREFETCH) }
    requires offset { IsOffset own.old.offset }
    requires loops { list_all is_loop own.old.loops.items ≡ true }
    ensures told { Launches N.Door N.Conn.Source N.Conn.Sink D.Dice runs rules.old
        net.old dice.old teams.old net.new dice.new teams.new own.old result }
    ensures teams { classes_of teams.new.items ≡ classes_of teams.old.items }
    ensures rules { rules_of teams.new.items ≡ rules_of teams.old.items }
    ensures later { N.door_faults net.old ≤ N.door_faults net.new }
{
    let mut series = Series::new(own.patience);
    let mut waiting = clock.twin();
    for _ in rt.forever() {
        let end = launch_once(
            rt,
            alloc,
            own,
            teams,
            rules,
            net,
            clock,
            dice,
            series.counts,
        );
        match series.go_on(end) {
            Ok(seconds) => waiting.pause(u64::from(seconds) * 1000),
            Err(last) => return last.result(),
        }
        let Ok(()) = rename(alloc, own, ident, series.number) else {
            return Err(LaunchFault::Memory);
        };
    }
    unreachable!()
}

/// Starts a poller and as many workers as the settings say, each with a connection, a clock and a dice of its own, and lets them take their turns in
/// threads. Answers how many turns of the workers came to each answer.
///
/// The first worker has the first of the teams and the first of the rules (the rule of classes that have no job), and so on. Once it has joined, a
/// worker takes as many turns as the settings say, and the poller one more; where they say 0, all go on until a fault. Between two turns the poller
/// pauses 5,000 ms, and a worker that found no job pauses 1,000 ms. Where a thread meets a fault, each other one ends before its next turn. At the end
/// each worker without a fault gives back the jobs that it holds; the connections go back to the door, in the order of making, and the teams stand in
/// their order again, with their rules, whatever came of it.
///
/// Two words of `dice` start the poller's own dice, and two more that of each worker, in order.
///
/// A launch that ended since its server is away (the door gave no connection, or a link failed, or it ended and nothing of a reply had come) is followed
/// by another one, where the settings have patience: after 1 second, then 2, 4 and so on, 30 at most, and no more of them in all than the patience says
/// since it last had a connection. The further ones have the names `NAME-2`, `NAME-3` and so on, so that the heartbeat of none that is gone goes on. Each
/// takes its turns anew; the counts are those of all.
///
/// Errors: of several faults one with the least [`status`](LaunchFault::status); of several launches that of the last.
pub fn launch<R: Threads + Wait + Sync, N: Door, C: Clock + Send, D: Dice>(
    rt: &R,
    alloc: Global,
    mut settings: WorkSettings,
    teams: &mut Vec<Registry>,
    mut rules: Vec<DelayRule>,
    net: &mut N,
    clock: &C,
    dice: &mut D,
) -> Result<Counts, LaunchFault>
    requires teams { vec_len rules ≡ vec_len teams.old }
    requires few { vec_len teams.old ≤ MOST_WORKERS }
    requires threads { (1 ≤ settings.threads) × (settings.threads ≤ vec_len teams.old) }
    requires prefetch { (1 ≤ settings.prefetch) × (settings.prefetch ≤ MOST_PREFETCH) }
    requires offset { IsOffset settings.offset }
    requires loops { list_all is_loop settings.loops.items ≡ true }
    ensures told { Launches N.Door N.Conn.Source N.Conn.Sink D.Dice runs rules net.old dice.old teams.old net.new dice.new teams.new settings result }
    ensures teams { classes_of teams.new.items ≡ classes_of teams.old.items }
    ensures rules { rules_of teams.new.items ≡ rules_of teams.old.items }
    ensures later { N.door_faults net.old ≤ N.door_faults net.new }
{
    let Ok(ident) = settings.ident.copy() else {
        return Err(LaunchFault::Memory);
    };
    launch_on(
        rt,
        alloc,
        &ident,
        &mut settings,
        teams,
        &mut rules,
        net,
        clock,
        dice,
    )
}
