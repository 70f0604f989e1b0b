// The command line of `pipe` with a file: `pipe --log FILE`.
ghost use Rattle.std.specs.Prelude.{◌≡◌, IfOk, map, string_bytes};
ghost use Rattle.clap.specs.Words.{app_of, found_of, rows_of};
ghost use Rattle.sk_line.specs.Lines.{Reads};
ghost use Rattle.sk_line.specs.Log.{IsLog, IsLogValues, log_app};

use crate::LineFault;
use crate::help_lines::LOG_HELP;
use crate::matches::matches_of;
use crate::option::{Options, optional};
use crate::value::path_of;
use clap::{ArgMatches, Command};
use sk_resp::Text;
use std::alloc::Global;

/// What the words of `pipe --log` ask for.
#[derive(Drop)]
pub struct LogLine {
    /// The file that keeps the store. It isn't empty.
    pub path: Text,
}

/// The options of `pipe`.
pub fn log_command<'a>(alloc: Global) -> Options<'a>
    ensures { IfOk result (λ c. app_of c ≡ log_app) }
{
    optional(alloc, Ok(Command::new(alloc, "pipe")), "log", LOG_HELP)
}

// Their values.
fn line_of(alloc: Global, matches: &ArgMatches<'_>) -> Result<LogLine, LineFault>
    ensures { Reads (IsLogValues (rows_of (found_of matches.now))) result }
{
    let path = path_of(alloc, matches, "log")?;
    Ok(LogLine { path })
}

/// What the words, which begin with `pipe`, ask for.
///
/// Errors: `Refused` exactly where they are no line of `pipe` with a file. So `pipe` alone is none.
pub fn read_log(alloc: Global, words: &[String]) -> Result<LogLine, LineFault>
    ensures { Reads (IsLog (map string_bytes words.now)) result }
{
    let command = log_command(alloc)?;
    let matches = matches_of(command, words)?;
    line_of(alloc, &matches)
}
