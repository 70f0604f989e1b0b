// The program `work`: its words are read, a poller and workers take their turns over connections of their own, anew where their server went away and
// there is patience, and how the turns ended is written.
ghost use Rattle.std.specs.Prelude.{◌≡◌, ◌≤◌, Err, IfOk, vec_len};
ghost use Rattle.sk_base.specs.Outside.{Rose};
ghost use Rattle.sk_base.specs.declared.limits.TheConstants.{MOST_WORKERS};
ghost use Rattle.sk_app.specs.Working.{IsOutcome, summary_text};
ghost use Rattle.sk_launcher.specs.Connections.{classes_of, rules_of};
ghost use Rattle.sk_app.specs.declared.failure.Failure.TheVariants.{Line};
ghost use Rattle.sk_app.specs.Promises.{DoWork, WorkDone, WorkEnds};

use crate::Failure;
use crate::ending::conclude;
use sk_base::{Clock, Dice, Sink};
use sk_edge::Door;
use sk_launcher::{Counts, LaunchFault, launch};
use sk_line::read_work;
use sk_policy::DelayRule;
use sk_resp::Word;
use sk_worker::Registry;
use std::alloc::{AllocError, Global};
use std::sync::Wait;
use std::thread::Threads;

// How many turns came to each answer.
fn summary(alloc: Global, counts: &Counts) -> Result<Word, AllocError>
    ensures { IfOk result (λ text. text ≡ summary_text counts.now) }
{
    let line = format!(in alloc;
        "done {} retried {} buried {} discarded {}\n",
        counts.done, counts.retried, counts.buried, counts.discarded
    )?;
    Ok(Word::new(line.into_bytes()))
}

// What the launcher's end comes to.
fn outcome_at(alloc: Global, launched: Result<Counts, LaunchFault>) -> Result<Word, Failure>
    ensures told { IsOutcome launched result }
    ensures never { result ≡ Err Line → ⊥ }
{
    let counts = launched?;
    Ok(summary(alloc, &counts)?)
}

// What `work` comes to.
fn outcome_by<R: Threads + Wait + Sync, N: Door, C: Clock + Send, D: Dice>(
    rt: &R,
    alloc: Global,
    words: &[String],
    teams: &mut Vec<Registry>,
    rules: Vec<DelayRule>,
    net: &mut N,
    clock: &C,
    dice: &mut D,
) -> Result<Word, Failure>
    requires rules { vec_len rules ≡ vec_len teams.old }
    requires few { vec_len teams.old ≤ MOST_WORKERS }
    ensures told { DoWork N.Door N.Conn.Source N.Conn.Sink runs words.now rules net.old teams.old net.new teams.new result }
    ensures teams { classes_of teams.new.items ≡ classes_of teams.old.items }
    ensures rules { rules_of teams.new.items ≡ rules_of teams.old.items }
    ensures untouched { result ≡ Err Line → (net.new ≡ net.old) × (teams.new ≡ teams.old) }
{
    let settings = read_work(alloc, words, teams.len() as u32)?;
    outcome_at(
        alloc,
        launch(rt, alloc, settings, teams, rules, net, clock, dice),
    )
}

/// Runs a poller and workers as the words say, which begin with `work`, the i-th worker with the i-th of the teams and of the plain rules. Then it writes
/// how many turns came to each answer, and answers 0. Answers 4 where the sink failed, and else what [`Failure::status`] says.
pub fn run_work<R: Threads + Wait + Sync, K: Sink, N: Door, C: Clock + Send, D: Dice>(
    rt: &R,
    alloc: Global,
    words: &[String],
    teams: &mut Vec<Registry>,
    rules: Vec<DelayRule>,
    sink: &mut K,
    net: &mut N,
    clock: &C,
    dice: &mut D,
) -> u8
    requires rules { vec_len rules ≡ vec_len teams.old }
    requires few { vec_len teams.old ≤ MOST_WORKERS }
    ensures told { WorkEnds K.Sink N.Door N.Conn.Source N.Conn.Sink runs words.now rules sink.old net.old teams.old sink.new net.new teams.new result }

    // The teams stand in their order again, with their rules.
    ensures teams { classes_of teams.new.items ≡ classes_of teams.old.items }
    ensures rules { rules_of teams.new.items ≡ rules_of teams.old.items }

    // A line of `work` is done, unless a fault ends its turns, where the sink takes the counts.
    ensures completes { WorkDone N.Door N.Conn.Source N.Conn.Sink runs words.now net.old teams.old net.new teams.new result }

    // With status 4 the sink's count of faults rose.
    ensures sink_cause { result ≡ 4 → Rose (K.write_faults sink.old) (K.write_faults sink.new) }

    // With status 2 nothing was written, no connection was made, and no worker ran.
    ensures untouched { result ≡ 2 → (sink.new ≡ sink.old) × (net.new ≡ net.old) × (teams.new ≡ teams.old) }
{
    let outcome = outcome_by(rt, alloc, words, teams, rules, net, clock, dice);
    conclude(alloc, sink, outcome)
}
