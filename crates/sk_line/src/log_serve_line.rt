// The command line of `serve` with a file: `serve --log FILE [--sync always|MILLIS] [--port PORT] [--loops LOOPS] [--sessions SESSIONS]`.
ghost use Rattle.std.specs.Prelude.{◌≡◌, IfOk, codes, map, string_bytes};
ghost use Rattle.clap.specs.Words.{app_of, found_of, rows_of};
ghost use Rattle.sk_line.specs.Lines.{Reads};
ghost use Rattle.sk_line.specs.LogServe.{IsLogServe, IsLogServeValues, IsSync, log_serve_app};
ghost use Rattle.sk_line.specs.Values.{Has};

use crate::defaults::SYNC;
use crate::help_lines::{SERVE_LOG_HELP, SYNC_HELP};
use crate::matches::matches_of;
use crate::option::{Options, optional, with_default};
use crate::serve_line::{ServeLine, serve_command};
use crate::value::{number, path_of, text_in};
use crate::{LineFault, serve_line};
use clap::ArgMatches;
use sk_resp::Text;
use std::alloc::Global;

/// The most milliseconds from one time that what was logged is stored to the next: an hour.
pub const MOST_SYNC_EVERY: u32 = 3_600_000;

/// What the words of `serve --log` ask for.
#[derive(Drop)]
pub struct LogServeLine {
    /// The file that keeps the store. It isn't empty.
    pub path: Text,
    /// When what was logged is stored: every so many milliseconds, from 1 to 3,600,000; None: before each reply.
    pub sync_every: Option<u32>,
    /// The port of TCP that it listens at, from 1 to 65,535.
    pub port: u16,
    /// How many accept loops it runs, from 1 to 64. So many connections are served at a time.
    pub loops: u32,
    /// After how many connections a loop ends; 0: never.
    pub sessions: u32,
}

/// The options of `serve`, the one that names the file, and the one that says when it is written.
pub fn log_serve_command<'a>(alloc: Global) -> Options<'a>
    ensures { IfOk result (λ c. app_of c ≡ log_serve_app) }
{
    let options = optional(alloc, serve_command(alloc), "log", SERVE_LOG_HELP);
    with_default(alloc, options, "sync", SYNC, SYNC_HELP)
}

// When what was logged is stored: `always`, or every so many milliseconds.
fn sync(text: &str) -> Result<Option<u32>, LineFault>
    ensures { Reads (IsSync text.now) result }
{
    if text == "always" {
        return Ok(None);
    }
    match number(text, 1, MOST_SYNC_EVERY) {
        Some(millis) => Ok(Some(millis)),
        None => Err(LineFault::Refused),
    }
}

/// When what was logged is stored, as the option says.
pub fn sync_of(matches: &ArgMatches<'_>) -> Result<Option<u32>, LineFault>
    ensures { Reads (Has IsSync (rows_of (found_of matches.now)) (codes "sync")) result }
{
    match text_in(matches, "sync") {
        Some(text) => sync(text),
        None => Err(LineFault::Refused),
    }
}

// Their values.
fn line_of(alloc: Global, matches: &ArgMatches<'_>) -> Result<LogServeLine, LineFault>
    ensures { Reads (IsLogServeValues (rows_of (found_of matches.now))) result }
{
    let path = path_of(alloc, matches, "log")?;
    let sync_every = sync_of(matches)?;
    let serve = serve_line::line_of(matches)?;
    Ok(LogServeLine {
        path,
        sync_every,
        port: serve.port,
        loops: serve.loops,
        sessions: serve.sessions,
    })
}

/// What the words, which begin with `serve`, ask for.
///
/// Errors: `Refused` exactly where they are no line of `serve` with a file. So `serve` without `--log FILE` is none.
pub fn read_log_serve(alloc: Global, words: &[String]) -> Result<LogServeLine, LineFault>
    ensures { Reads (IsLogServe (map string_bytes words.now)) result }
{
    let command = log_serve_command(alloc)?;
    let matches = matches_of(command, words)?;
    line_of(alloc, &matches)
}
