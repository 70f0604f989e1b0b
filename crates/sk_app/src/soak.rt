// The program `soak`: its words are read, a run of a store is made from the number in them, and its summary is written.
ghost use Rattle.std.specs.Prelude.{◌≡◌, ◌≢◌, ◌≤◌, ◌⊎◌, Err};
ghost use Rattle.sk_base.specs.Outside.{Rose};
ghost use Rattle.sk_line.specs.Soak.{IsSoak};
ghost use Rattle.sk_line.specs.declared.soak_line.SoakLine.{SoakLine};
ghost use Rattle.sk_line.specs.declared.soak_line.TheConstants.{MOST_SOAKED};
ghost use Rattle.sk_app.specs.Ending.{Ends};
ghost use Rattle.sk_app.specs.Soaking.{SoakRun, Soaks};
ghost use Rattle.sk_app.specs.declared.failure.Failure.TheVariants.{Line};
ghost use Rattle.sk_app.specs.Promises.{texts};

use crate::Failure;
use crate::ending::conclude;
use sk_base::Sink;
use sk_drill::{soak, write_soak};
use sk_line::{SoakLine, read_soak};
use sk_resp::Word;
use std::alloc::Global;

// The summary of the run that a line asks for.
fn summary(alloc: Global, line: SoakLine) -> Result<Word, Failure>
    requires { line.jobs ≤ MOST_SOAKED }
    ensures told { Soaks line result }
    ensures never { result ≡ Err Line → ⊥ }
{
    let jobs = u64::from(line.jobs);
    let summary = soak(alloc, line.seed, jobs)?;
    Ok(write_soak(alloc, line.seed, jobs, &summary)?)
}

// What `soak` comes to.
fn outcome_by(alloc: Global, words: &[String]) -> Result<Word, Failure>
    ensures { SoakRun (texts words.now) result }
{
    let line = read_soak(alloc, words)?;
    summary(alloc, line)
}

/// Runs a load of jobs, made from the numbers of the words, which begin with `soak`, on a store of its own ([`sk_drill::soak`]), and writes how many
/// events there were, and the tally. Answers the status: 0, 2 for words that are no line of `soak`, 4 where the sink failed, 5 where there was no memory.
pub fn run_soak<K: Sink>(alloc: Global, words: &[String], sink: &mut K) -> u8
    ensures told { Ends K.Sink sink.old sink.new result (SoakRun (texts words.now)) }

    // A line of `soak` is done, where the sink takes its summary.
    ensures completes { (line : SoakLine) → IsSoak (texts words.now) line → result ≢ 4 → (result ≡ 0) ⊎ (result ≡ 5) }

    // With status 4 the sink's count of faults rose.
    ensures sink_cause { result ≡ 4 → Rose (K.write_faults sink.old) (K.write_faults sink.new) }

    // With status 2 nothing was written.
    ensures untouched { result ≡ 2 → sink.new ≡ sink.old }
{
    let outcome = outcome_by(alloc, words);
    conclude(alloc, sink, outcome)
}
