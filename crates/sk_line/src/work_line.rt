// The command line of `work`: `work [--host HOST] [--port PORT] [--ident NAME] [--queues NAME[:WEIGHT],..] [--strict] [--threads COUNT] [--turns COUNT]
// [--offset MINUTES] [--prefetch COUNT] [--patience SECONDS] [CRON ..]`, where a CRON is one word: five fields of a cron text, a class and a queue.
ghost use Rattle.std.specs.Prelude.{◌≡◌, ◌≤◌, IfOk, codes, map, string_bytes};
ghost use Rattle.clap.specs.Words.{app_of, found_of, rows_of};
ghost use Rattle.sk_line.specs.Lines.{Reads};
ghost use Rattle.sk_line.specs.Values.{Has};
ghost use Rattle.sk_line.specs.Work.{IsOffsetText, IsWork, IsWorkValues, work_app};

use crate::LineFault;
use crate::address::{address_of, addressed};
use crate::cron_words::loops_of;
use crate::defaults::{IDENT, OFFSET, PATIENCE, PREFETCH, QUEUE, THREADS, TURNS};
use crate::help_lines::{
    CRON_HELP, IDENT_HELP, OFFSET_HELP, PATIENCE_HELP, PREFETCH_HELP, QUEUES_HELP, STRICT_HELP,
    THREADS_HELP, TURNS_HELP,
};
use crate::matches::matches_of;
use crate::option::{Options, flag, positionals, with_default};
use crate::queues::order_of;
use crate::value::{name_of, number_of};
use clap::{ArgMatches, Command};
use sk_base::limits::{LAST_OFFSET, LONGEST_NAME, MOST_PREFETCH, OFFSET_UTC};
use sk_launcher::WorkSettings;
use std::alloc::Global;

/// For how many seconds `work` waits at most for a server that is away: a day.
pub const MOST_PATIENCE: u32 = 86_400;

/// The options of `work`.
pub fn work_command<'a>(alloc: Global) -> Options<'a>
    ensures { IfOk result (λ c. app_of c ≡ work_app) }
{
    let options = addressed(alloc, Ok(Command::new(alloc, "work")));
    let options = with_default(alloc, options, "ident", IDENT, IDENT_HELP);
    let options = with_default(alloc, options, "queues", QUEUE, QUEUES_HELP);
    let options = flag(alloc, options, "strict", STRICT_HELP);
    let options = with_default(alloc, options, "threads", THREADS, THREADS_HELP);
    let options = with_default(alloc, options, "turns", TURNS, TURNS_HELP);
    let options = with_default(alloc, options, "offset", OFFSET, OFFSET_HELP);
    let options = with_default(alloc, options, "prefetch", PREFETCH, PREFETCH_HELP);
    let options = with_default(alloc, options, "patience", PATIENCE, PATIENCE_HELP);
    positionals(alloc, options, "CRON", CRON_HELP)
}

// How far the clock is ahead of UTC: the option is 0 for -1,439 minutes, and 1,439 for UTC.
fn offset_of(matches: &ArgMatches<'_>) -> Result<i32, LineFault>
    ensures { Reads (Has IsOffsetText (rows_of (found_of matches.now)) (codes "offset")) result }
{
    let minutes = number_of(matches, "offset", 0, LAST_OFFSET as u32)?;
    Ok(minutes as i32 - OFFSET_UTC)
}

// The values, where there are so many teams.
fn settings_of(
    alloc: Global,
    matches: &ArgMatches<'_>,
    teams: u32,
) -> Result<WorkSettings, LineFault>
    ensures { Reads (IsWorkValues teams (rows_of (found_of matches.now))) result }
{
    let threads = number_of(matches, "threads", 1, teams)?;
    let turns = number_of(matches, "turns", 0, u32::MAX)?;
    let offset = offset_of(matches)?;
    let prefetch = number_of(matches, "prefetch", 1, MOST_PREFETCH as u32)?;
    let patience = number_of(matches, "patience", 0, MOST_PATIENCE)?;
    let address = address_of(alloc, matches)?;
    let ident = name_of(alloc, matches, "ident", LONGEST_NAME)?;
    let order = order_of(alloc, matches)?;
    let loops = loops_of(alloc, matches)?;
    Ok(WorkSettings {
        address,
        ident,
        order,
        threads,
        turns,
        offset,
        prefetch,
        patience,
        loops,
    })
}

/// What the words, which begin with `work`, ask for, where there are so many teams.
///
/// Errors: `Refused` exactly where they are no line of `work`.
pub fn read_work(alloc: Global, words: &[String], teams: u32) -> Result<WorkSettings, LineFault>
    ensures { Reads (IsWork teams (map string_bytes words.now)) result }
{
    let command = work_command(alloc)?;
    let matches = matches_of(command, words)?;
    settings_of(alloc, &matches, teams)
}
