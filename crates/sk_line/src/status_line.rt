// The command line of `status`: `status [--host HOST] [--port PORT]`.
ghost use Rattle.std.specs.Prelude.{◌≡◌, IfOk, map, string_bytes};
ghost use Rattle.clap.specs.Words.{app_of, found_of, rows_of};
ghost use Rattle.sk_line.specs.Lines.{IsStatus, IsStatusValues, Reads, status_app};

use crate::LineFault;
use crate::address::{address_of, addressed};
use crate::matches::matches_of;
use crate::option::Options;
use clap::{ArgMatches, Command};
use sk_launcher::Address;
use std::alloc::Global;

/// What the words of `status` ask for.
#[derive(Drop)]
pub struct StatusLine {
    /// The store that is asked.
    pub address: Address,
}

/// The options of `status`.
pub fn status_command<'a>(alloc: Global) -> Options<'a>
    ensures { IfOk result (λ c. app_of c ≡ status_app) }
{
    addressed(alloc, Ok(Command::new(alloc, "status")))
}

// Their values.
fn line_of(alloc: Global, matches: &ArgMatches<'_>) -> Result<StatusLine, LineFault>
    ensures { Reads (IsStatusValues (rows_of (found_of matches.now))) result }
{
    let address = address_of(alloc, matches)?;
    Ok(StatusLine { address })
}

/// What the words, which begin with `status`, ask for.
///
/// Errors: `Refused` exactly where they are no line of `status`.
pub fn read_status(alloc: Global, words: &[String]) -> Result<StatusLine, LineFault>
    ensures { Reads (IsStatus (map string_bytes words.now)) result }
{
    let command = status_command(alloc)?;
    let matches = matches_of(command, words)?;
    line_of(alloc, &matches)
}
