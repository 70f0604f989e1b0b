// The program `drill`: its words are read, threads push, poll and work at one store, their stories are compared with its journal, and the summary is
// written, or where they differ.
ghost use Rattle.std.specs.Prelude.{◌≡◌, ◌≢◌, ◌≤◌, Err, IfOk, OnErr, vec_len};
ghost use Rattle.sk_base.specs.Outside.{Rose};
ghost use Rattle.sk_base.specs.declared.limits.TheConstants.{MOST_WORKERS};
ghost use Rattle.sk_drill.specs.DrillText.{drill_text};
ghost use Rattle.sk_launcher.specs.Connections.{classes_of};
ghost use Rattle.sk_line.specs.Drill.{IsDrill};
ghost use Rattle.sk_line.specs.declared.drill_line.DrillLine.{DrillLine};
ghost use Rattle.sk_app.specs.Completing.{DoneOr};
ghost use Rattle.sk_app.specs.Drilling.{IsOutcome, RunsDrill};
ghost use Rattle.sk_app.specs.Ending.{Ends};
ghost use Rattle.sk_app.specs.Promises.{texts};
ghost use Rattle.sk_app.specs.declared.failure.Failure.TheVariants.{Line, Memory};

use crate::Failure;
use crate::ending::conclude;
use sk_base::Sink;
use sk_compare::Difference;
use sk_drill::{DrillEnd, Drilled, Summary, drill, write_drill};
use sk_line::{DrillLine, read_drill};
use sk_policy::DelayRule;
use sk_resp::Word;
use sk_worker::Registry;
use std::alloc::Global;
use std::sync::Wait;
use std::thread::Threads;

// The summary of a drill, whose stories and journal are given up.
fn summary_of(drilled: Drilled) -> Summary
    ensures { result ≡ drilled.summary }
{
    drilled.summary
}

// What is written of a drill whose stories and journal are alike.
fn written(alloc: Global, line: DrillLine, summary: &Summary) -> Result<Word, Failure>
    ensures told { IfOk result (λ text. text ≡ drill_text line.seed line.jobs line.workers line.crashes summary.now) }
    ensures err { OnErr result (result ≡ Err Memory) }
{
    Ok(write_drill(
        alloc,
        line.seed,
        u64::from(line.jobs),
        line.workers,
        line.crashes,
        summary,
    )?)
}

// What the end of a drill comes to.
fn outcome_at(alloc: Global, line: DrillLine, end: DrillEnd) -> Result<Word, Failure>
    ensures told { IsOutcome line end result }
    ensures never { result ≡ Err Line → ⊥ }
{
    match end {
        DrillEnd::Alike(drilled) => written(alloc, line, &summary_of(drilled)),
        DrillEnd::Differs {
            seat,
            place,
            told,
            noted,
        } => Err(Failure::Differs(Difference {
            seat,
            place,
            told,
            noted,
        })),
        DrillEnd::Memory => Err(Failure::Memory),
    }
}

// What `drill` comes to.
fn outcome_by<R: Threads + Wait + Sync>(
    rt: &R,
    alloc: Global,
    words: &[String],
    teams: &mut Vec<Registry>,
    rules: Vec<DelayRule>,
) -> Result<Word, Failure>
    requires rules { vec_len rules ≡ vec_len teams.old }
    requires few { vec_len teams.old ≤ MOST_WORKERS }
    ensures told { RunsDrill runs rules.items teams.old teams.new (texts words.now) result }
    ensures teams { classes_of teams.new.items ≡ classes_of teams.old.items }
    ensures untouched { result ≡ Err Line → teams.new ≡ teams.old }
{
    let line = read_drill(alloc, words, teams.len() as u32)?;
    let end = drill(
        rt,
        alloc,
        line.seed,
        u64::from(line.jobs),
        line.workers,
        line.crashes,
        teams,
        rules,
    );
    outcome_at(alloc, line, end)
}

/// Lets a thread push jobs to a store of its own, and a poller and workers, the i-th with the i-th of the teams and of the plain rules, do what the
/// words say, which begin with `drill` ([`sk_drill::drill`]); compares what each thread tells with the journal; and writes the number of the journal's
/// entries and the tally. Answers the status: 0; 2 for words that are no line of `drill`; 4 where the sink failed; 5 where there was no memory; 8 where
/// what is told differs from the journal, and then both texts are written.
pub fn run_drill<R: Threads + Wait + Sync, K: Sink>(
    rt: &R,
    alloc: Global,
    words: &[String],
    teams: &mut Vec<Registry>,
    rules: Vec<DelayRule>,
    sink: &mut K,
) -> u8
    requires rules { vec_len rules ≡ vec_len teams.old }
    requires few { vec_len teams.old ≤ MOST_WORKERS }
    ensures told { Ends K.Sink sink.old sink.new result (RunsDrill runs rules.items teams.old teams.new (texts words.now)) }

    // A line of `drill` is done, where the sink takes what is written: all is alike, or there is a difference.
    ensures completes { (line : DrillLine) → IsDrill (vec_len teams.old) (texts words.now) line → result ≢ 4 → DoneOr (result ≡ 8) result }

    // The teams stand in their order again.
    ensures teams { classes_of teams.new.items ≡ classes_of teams.old.items }

    // With status 4 the sink's count of faults rose.
    ensures sink_cause { result ≡ 4 → Rose (K.write_faults sink.old) (K.write_faults sink.new) }

    // With status 2 nothing was written, and no worker ran.
    ensures untouched { result ≡ 2 → (sink.new ≡ sink.old) × (teams.new ≡ teams.old) }
{
    let outcome = outcome_by(rt, alloc, words, teams, rules);
    conclude(alloc, sink, outcome)
}
