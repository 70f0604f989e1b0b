// The command line of `serve`: `serve [--port PORT] [--loops LOOPS] [--sessions SESSIONS]`.
ghost use Rattle.std.specs.Prelude.{◌≡◌, IfOk, map, string_bytes};
ghost use Rattle.clap.specs.Words.{app_of, found_of, rows_of};
ghost use Rattle.sk_line.specs.Lines.{IsServe, IsServeValues, Reads, serve_app};

use crate::LineFault;
use crate::address::port_of;
use crate::defaults::{LOOPS, PORT, SESSIONS};
use crate::help_lines::{LOOPS_HELP, SERVE_PORT_HELP, SESSIONS_HELP};
use crate::matches::matches_of;
use crate::option::{Options, with_default};
use crate::value::number_of;
use clap::{ArgMatches, Command};
use sk_base::limits::MOST_LOOPS_SERVED;
use std::alloc::Global;

/// What the words of `serve` ask for.
#[derive(Clone, Copy)]
pub struct ServeLine {
    /// The port of TCP that it listens at, from 1 to 65,535.
    pub port: u16,
    /// How many accept loops it runs, from 1 to 64. So many connections are served at a time.
    pub loops: u32,
    /// After how many connections a loop ends; 0: never.
    pub sessions: u32,
}

/// The options of `serve`.
pub fn serve_command<'a>(alloc: Global) -> Options<'a>
    ensures { IfOk result (λ c. app_of c ≡ serve_app) }
{
    let options = Ok(Command::new(alloc, "serve"));
    let options = with_default(alloc, options, "port", PORT, SERVE_PORT_HELP);
    let options = with_default(alloc, options, "loops", LOOPS, LOOPS_HELP);
    with_default(alloc, options, "sessions", SESSIONS, SESSIONS_HELP)
}

/// Their values.
pub(crate) fn line_of(matches: &ArgMatches<'_>) -> Result<ServeLine, LineFault>
    ensures { Reads (IsServeValues (rows_of (found_of matches.now))) result }
{
    let port = port_of(matches)?;
    let loops = number_of(matches, "loops", 1, MOST_LOOPS_SERVED as u32)?;
    let sessions = number_of(matches, "sessions", 0, u32::MAX)?;
    Ok(ServeLine {
        port,
        loops,
        sessions,
    })
}

/// What the words, which begin with `serve`, ask for.
///
/// Errors: `Refused` exactly where they are no line of `serve`.
pub fn read_serve(alloc: Global, words: &[String]) -> Result<ServeLine, LineFault>
    ensures { Reads (IsServe (map string_bytes words.now)) result }
{
    let command = serve_command(alloc)?;
    let matches = matches_of(command, words)?;
    line_of(&matches)
}
