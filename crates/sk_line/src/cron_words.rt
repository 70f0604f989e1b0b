// Periodic jobs, each a word of the command line: five fields of a cron text, a class and a queue, with single spaces between them.
ghost use Rattle.std.specs.Prelude.{◌≡◌, codes, length, map};
ghost use Rattle.std.specs.List.{AllZip};
ghost use Rattle.clap.specs.Words.{found_of, rows_of};
ghost use Rattle.sk_line.specs.Lines.{Reads, ReadsAs};
ghost use Rattle.sk_line.specs.Work.{IsLoop, IsLoopBy, joined, words_in};
ghost use Rattle.sk_cron.specs.Times.{Means};
ghost use Rattle.sk_poller.specs.Loop.{is_loop};

use crate::LineFault;
use crate::cut::cut;
use crate::value::{is_named, text, words_in};
use clap::ArgMatches;
use sk_base::limits::LONGEST_NAME;
use sk_cron::Cron;
use sk_poller::Loop;
use sk_resp::Text;
use std::alloc::Global;

#[tactic(auto, unfolding(sk_poller::specs::Loop::is_loop))]
fn is_loop(job: &Loop) -> bool
    ensures { result ≡ is_loop job.now }
{
    is_named(job.name.text(), LONGEST_NAME)
        && is_named(job.class.text(), LONGEST_NAME)
        && is_named(job.queue.text(), LONGEST_NAME)
}

// When it runs, by the five fields.
fn cron(alloc: Global, fields: &[&str]) -> Result<Cron, LineFault>
    ensures { Reads (Means (joined (codes " ") (map (λ field. field.now) fields.now))) result }
{
    let text = fields.join(alloc, " ")?;
    match Cron::read(&text) {
        Ok(cron) => Ok(cron),
        Err(_) => Err(LineFault::Refused),
    }
}

// The periodic job with this name, of seven parts.
fn loop_by(alloc: Global, name: &str, parts: &[&str]) -> Result<Loop, LineFault>
    requires { length parts.now ≡ 7 }
    ensures { Reads (IsLoopBy name.now (map (λ part. part.now) parts.now)) result }
{
    let cron = cron(alloc, &parts[..5])?;
    let job = Loop {
        name: text(alloc, name)?,
        cron,
        class: text(alloc, parts[5])?,
        queue: text(alloc, parts[6])?,
    };
    if is_loop(&job) {
        Ok(job)
    } else {
        Err(LineFault::Refused)
    }
}

/// The periodic job that a word asks for.
pub fn loop_of(alloc: Global, word: &str) -> Result<Loop, LineFault>
    ensures { Reads (IsLoop word.now) result }
{
    let parts = cut(alloc, word, ' ')?;
    if parts.len() == 7 {
        loop_by(alloc, word, &parts)
    } else {
        Err(LineFault::Refused)
    }
}

// The periodic jobs that these words ask for.
fn loops(alloc: Global, words: &[&str]) -> Result<Vec<Loop>, LineFault>
    ensures { ReadsAs (λ loops. loops.items) (AllZip IsLoop (map (λ word. word.now) words.now)) result }
{
    let mut loops = Vec::new(alloc);
    for word in words {
        loops.push(loop_of(alloc, word)?)?;
    }
    Ok(loops)
}

/// The periodic jobs of a command line, in order.
pub fn loops_of(alloc: Global, matches: &ArgMatches<'_>) -> Result<Vec<Loop>, LineFault>
    ensures { ReadsAs (λ loops. loops.items) (AllZip IsLoop (words_in (rows_of (found_of matches.now)) (codes "CRON"))) result }
{
    match words_in(matches, "CRON") {
        Some(words) => loops(alloc, words),
        None => Ok(Vec::new(alloc)),
    }
}
