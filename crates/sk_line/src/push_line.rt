// The command line of `push`: `push [--host HOST] [--port PORT] [--queue QUEUE] [--retry true|false|COUNT] [--retry-for SECONDS] [--at SCORE]
// [--unique SECONDS] CLASS ARGS`.
ghost use Rattle.std.specs.Prelude.{◌≡◌, IfOk, map, string_bytes};
ghost use Rattle.clap.specs.Words.{app_of, found_of, rows_of};
ghost use Rattle.sk_line.specs.Lines.{Reads};
ghost use Rattle.sk_line.specs.Push.{IsPush, IsPushValues, push_app};

use crate::LineFault;
use crate::address::{address_of, addressed};
use crate::defaults::{QUEUE, RETRY};
use crate::help_lines::{
    ARGS_HELP, AT_HELP, CLASS_HELP, QUEUE_HELP, RETRY_FOR_HELP, RETRY_HELP, UNIQUE_HELP,
};
use crate::matches::matches_of;
use crate::option::{Options, optional, positional, with_default};
use crate::value::{args_of, retry_of, score_of, seconds_of, text_of};
use clap::{ArgMatches, Command};
use sk_base::Score;
use sk_launcher::Address;
use sk_payload::{Args, Retry};
use sk_resp::Text;
use std::alloc::Global;

/// What the words of `push` ask for.
#[derive(Drop)]
pub struct PushLine {
    /// The store that takes the job.
    pub address: Address,
    /// The job's queue.
    pub queue: Text,
    /// How often the job is tried again. A count is from 0 to 1,000,000,000.
    pub retry: Retry,
    /// For how long it is tried again, in seconds, from 1 to 1,000,000,000.
    pub retry_for: Option<u32>,
    /// When it is due, in seconds since 1970; None: now.
    pub at: Option<Score>,
    /// For how long it is unique, in seconds, from 1 to 1,000,000,000.
    pub unique: Option<u32>,
    /// The class that runs it.
    pub class: Text,
    /// Its arguments.
    pub args: Args,
}

/// The options of `push`.
pub fn push_command<'a>(alloc: Global) -> Options<'a>
    ensures { IfOk result (λ c. app_of c ≡ push_app) }
{
    let options = addressed(alloc, Ok(Command::new(alloc, "push")));
    let options = with_default(alloc, options, "queue", QUEUE, QUEUE_HELP);
    let options = with_default(alloc, options, "retry", RETRY, RETRY_HELP);
    let options = optional(alloc, options, "retry-for", RETRY_FOR_HELP);
    let options = optional(alloc, options, "at", AT_HELP);
    let options = optional(alloc, options, "unique", UNIQUE_HELP);
    let options = positional(alloc, options, "CLASS", CLASS_HELP);
    positional(alloc, options, "ARGS", ARGS_HELP)
}

// Their values.
fn line_of(alloc: Global, matches: &ArgMatches<'_>) -> Result<PushLine, LineFault>
    ensures { Reads (IsPushValues (rows_of (found_of matches.now))) result }
{
    let retry = retry_of(matches, "retry")?;
    let retry_for = seconds_of(matches, "retry-for")?;
    let at = score_of(matches, "at")?;
    let unique = seconds_of(matches, "unique")?;
    let address = address_of(alloc, matches)?;
    let queue = text_of(alloc, matches, "queue")?;
    let class = text_of(alloc, matches, "CLASS")?;
    let args = args_of(alloc, matches, "ARGS")?;
    Ok(PushLine {
        address,
        queue,
        retry,
        retry_for,
        at,
        unique,
        class,
        args,
    })
}

/// What the words, which begin with `push`, ask for.
///
/// Errors: `Refused` exactly where they are no line of `push`.
pub fn read_push(alloc: Global, words: &[String]) -> Result<PushLine, LineFault>
    ensures { Reads (IsPush (map string_bytes words.now)) result }
{
    let command = push_command(alloc)?;
    let matches = matches_of(command, words)?;
    line_of(alloc, &matches)
}
