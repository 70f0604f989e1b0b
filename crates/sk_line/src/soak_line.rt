// The command line of `soak`: `soak SEED JOBS`.
ghost use Rattle.std.specs.Prelude.{◌≡◌, IfOk, map, string_bytes};
ghost use Rattle.clap.specs.Words.{app_of, found_of, rows_of};
ghost use Rattle.sk_line.specs.Lines.{Reads};
ghost use Rattle.sk_line.specs.Soak.{IsSoak, IsSoakValues, soak_app};

use crate::LineFault;
use crate::help_lines::{JOBS_HELP, SEED_HELP};
use crate::matches::matches_of;
use crate::option::{Options, positional};
use crate::value::{number_of, seed_of};
use clap::{ArgMatches, Command};
use std::alloc::Global;

/// The most jobs of a soak.
pub const MOST_SOAKED: u32 = 1_000_000;

/// What the words of `soak` ask for.
#[derive(Clone, Copy)]
pub struct SoakLine {
    /// What the run is made from.
    pub seed: u64,
    /// How many jobs it has, from 1 to 1,000,000.
    pub jobs: u32,
}

/// The options of `soak`.
pub fn soak_command<'a>(alloc: Global) -> Options<'a>
    ensures { IfOk result (λ c. app_of c ≡ soak_app) }
{
    let options = Ok(Command::new(alloc, "soak"));
    let options = positional(alloc, options, "SEED", SEED_HELP);
    positional(alloc, options, "JOBS", JOBS_HELP)
}

// Their values.
fn line_of(matches: &ArgMatches<'_>) -> Result<SoakLine, LineFault>
    ensures { Reads (IsSoakValues (rows_of (found_of matches.now))) result }
{
    let seed = seed_of(matches, "SEED")?;
    let jobs = number_of(matches, "JOBS", 1, MOST_SOAKED)?;
    Ok(SoakLine { seed, jobs })
}

/// What the words, which begin with `soak`, ask for.
///
/// Errors: `Refused` exactly where they are no line of `soak`.
pub fn read_soak(alloc: Global, words: &[String]) -> Result<SoakLine, LineFault>
    ensures { Reads (IsSoak (map string_bytes words.now)) result }
{
    let command = soak_command(alloc)?;
    let matches = matches_of(command, words)?;
    line_of(&matches)
}
