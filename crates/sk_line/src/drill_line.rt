// The command line of `drill`: `drill SEED JOBS WORKERS CRASHES`.
ghost use Rattle.std.specs.Prelude.{◌≡◌, IfOk, map, string_bytes};
ghost use Rattle.clap.specs.Words.{app_of, found_of, rows_of};
ghost use Rattle.sk_line.specs.Drill.{IsDrill, IsDrillValues, drill_app};
ghost use Rattle.sk_line.specs.Lines.{Reads};

use crate::LineFault;
use crate::help_lines::{CRASHES_HELP, DRILL_JOBS_HELP, SEED_HELP, WORKERS_HELP};
use crate::matches::matches_of;
use crate::option::{Options, positional};
use crate::value::{number_of, seed_of};
use clap::{ArgMatches, Command};
use std::alloc::Global;

/// The most jobs of a drill.
pub const MOST_DRILLED: u32 = 20_000;

/// The most crashes of a drill.
pub const MOST_CRASHES: u32 = 1_000_000;

/// What the words of `drill` ask for.
#[derive(Clone, Copy)]
pub struct DrillLine {
    /// What the words of the workers' crashes and dice are made from.
    pub seed: u64,
    /// How many jobs are pushed, from 1 to 20,000.
    pub jobs: u32,
    /// How many workers run, each in a thread of its own, from 1 to the number of teams.
    pub workers: u32,
    /// How many crashes the workers may have together, from 0 to 1,000,000.
    pub crashes: u32,
}

/// The options of `drill`.
pub fn drill_command<'a>(alloc: Global) -> Options<'a>
    ensures { IfOk result (λ c. app_of c ≡ drill_app) }
{
    let options = Ok(Command::new(alloc, "drill"));
    let options = positional(alloc, options, "SEED", SEED_HELP);
    let options = positional(alloc, options, "JOBS", DRILL_JOBS_HELP);
    let options = positional(alloc, options, "WORKERS", WORKERS_HELP);
    positional(alloc, options, "CRASHES", CRASHES_HELP)
}

// Their values, where there are so many teams.
fn line_of(matches: &ArgMatches<'_>, teams: u32) -> Result<DrillLine, LineFault>
    ensures { Reads (IsDrillValues teams (rows_of (found_of matches.now))) result }
{
    let seed = seed_of(matches, "SEED")?;
    let jobs = number_of(matches, "JOBS", 1, MOST_DRILLED)?;
    let workers = number_of(matches, "WORKERS", 1, teams)?;
    let crashes = number_of(matches, "CRASHES", 0, MOST_CRASHES)?;
    Ok(DrillLine {
        seed,
        jobs,
        workers,
        crashes,
    })
}

/// What the words, which begin with `drill`, ask for, where there are so many teams.
///
/// Errors: `Refused` exactly where they are no line of `drill`.
pub fn read_drill(alloc: Global, words: &[String], teams: u32) -> Result<DrillLine, LineFault>
    ensures { Reads (IsDrill teams (map string_bytes words.now)) result }
{
    let command = drill_command(alloc)?;
    let matches = matches_of(command, words)?;
    line_of(&matches, teams)
}
