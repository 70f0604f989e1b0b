// Which value of a command line that clap takes breaks its rule, for standard error.
use crate::LineFault;
use crate::cron_words::loop_of;
use crate::defaults::SYNC;
use crate::drill_line::{MOST_CRASHES, MOST_DRILLED};
use crate::help_lines::{
    ARGS_HELP, AT_HELP, CLASS_HELP, CRASHES_HELP, CRON_HELP, DRILL_JOBS_HELP, EVERY_HELP,
    IDENT_HELP, ITEMS_HELP, JID_HELP, JOBS_HELP, KIND_HELP, LIMITER_HELP, LOG_HELP, LOOPS_HELP,
    MILLIS_HELP, MOST_HELP, MOST_ITEMS_HELP, OFFSET_HELP, PATIENCE_HELP, PORT_HELP, PREFETCH_HELP,
    QUEUE_HELP, QUEUES_HELP, RETRY_FOR_HELP, RETRY_HELP, SEED_HELP, SERVE_LOG_HELP,
    SERVE_PORT_HELP, SESSIONS_HELP, SYNC_HELP, THREADS_HELP, TURNS_HELP, UNIQUE_HELP, WORKERS_HELP,
};
use crate::iterate_line::{MOST_EVERY, MOST_ITERATED};
use crate::limit_line::{LONGEST_LIMITER, MOST_LIMITED, MOST_LIMITED_MILLIS, kind_of};
use crate::log_serve_line::sync_of;
use crate::queues::order_of;
use crate::soak_line::MOST_SOAKED;
use crate::subcommand::Subcommand;
use crate::value::{
    args_of, name_of, number_of, path_of, retry_of, score_of, seconds_of, seed_of, text_in,
    words_in,
};
use crate::work_line::MOST_PATIENCE;
use clap::ArgMatches;
use sk_base::limits::{
    LAST_OFFSET, LONGEST_ID, LONGEST_NAME, MOST_LOOPS_SERVED, MOST_PREFETCH, MOST_WORKERS,
};
use std::alloc::Global;

/// A value that breaks its rule: the option or the word, as it is written, what help says of it, and what was read.
#[derive(Clone, Copy)]
pub struct Breach<'a> {
    pub name: &'static str,
    pub help: &'static str,
    pub found: &'a str,
}

// That this option's value breaks its rule, where it does.
fn broken<'a, T: Drop>(
    matches: &ArgMatches<'a>,
    value: Result<T, LineFault>,
    name: &'static str,
    help: &'static str,
) -> Option<Breach<'a>> {
    match value {
        Err(LineFault::Refused) => {
            let option = name.strip_prefix("--").unwrap_or(name);
            let found = text_in(matches, option).unwrap_or("");
            Some(Breach { name, help, found })
        }
        _ => None,
    }
}

// The same of a whole number.
fn number_breach<'a>(
    matches: &ArgMatches<'a>,
    name: &'static str,
    help: &'static str,
    least: u32,
    most: u32,
) -> Option<Breach<'a>> {
    let option = name.strip_prefix("--").unwrap_or(name);
    broken(matches, number_of(matches, option, least, most), name, help)
}

// The same of a name of at most so many bytes.
fn name_breach<'a>(
    alloc: Global,
    matches: &ArgMatches<'a>,
    name: &'static str,
    help: &'static str,
    most: usize,
) -> Option<Breach<'a>> {
    let option = name.strip_prefix("--").unwrap_or(name);
    broken(matches, name_of(alloc, matches, option, most), name, help)
}

fn port_breach<'a>(matches: &ArgMatches<'a>, help: &'static str) -> Option<Breach<'a>> {
    number_breach(matches, "--port", help, 1, 65_535)
}

// The same of a file that may be left out.
fn log_breach<'a>(alloc: Global, matches: &ArgMatches<'a>) -> Option<Breach<'a>> {
    match text_in(matches, "log") {
        Some(_) => {
            let path = path_of(alloc, matches, "log");
            broken(matches, path, "--log", SERVE_LOG_HELP)
        }
        None => None,
    }
}

// The same of when that file is written. It can't be said without a file.
fn sync_breach<'a>(matches: &ArgMatches<'a>) -> Option<Breach<'a>> {
    let found = text_in(matches, "sync")?;
    let sync = if text_in(matches, "log").is_some() || found == SYNC {
        sync_of(matches)
    } else {
        Err(LineFault::Refused)
    };
    broken(matches, sync, "--sync", SYNC_HELP)
}

fn of_serve<'a>(alloc: Global, matches: &ArgMatches<'a>) -> Option<Breach<'a>> {
    let most = MOST_LOOPS_SERVED as u32;
    port_breach(matches, SERVE_PORT_HELP)
        .or(number_breach(matches, "--loops", LOOPS_HELP, 1, most))
        .or(number_breach(matches, "--sessions", SESSIONS_HELP, 0, u32::MAX))
        .or(log_breach(alloc, matches))
        .or(sync_breach(matches))
}

// The first periodic job that is none.
fn of_crons<'a>(alloc: Global, matches: &ArgMatches<'a>) -> Option<Breach<'a>> {
    for word in words_in(matches, "CRON")? {
        if let Err(LineFault::Refused) = loop_of(alloc, word) {
            return Some(Breach {
                name: "CRON",
                help: CRON_HELP,
                found: word,
            });
        }
    }
    None
}

fn of_team<'a>(matches: &ArgMatches<'a>) -> Option<Breach<'a>> {
    let (workers, offset, prefetch) = (
        MOST_WORKERS as u32,
        LAST_OFFSET as u32,
        MOST_PREFETCH as u32,
    );
    number_breach(matches, "--threads", THREADS_HELP, 1, workers)
        .or(number_breach(matches, "--turns", TURNS_HELP, 0, u32::MAX))
        .or(number_breach(matches, "--offset", OFFSET_HELP, 0, offset))
        .or(number_breach(matches, "--prefetch", PREFETCH_HELP, 1, prefetch))
        .or(number_breach(matches, "--patience", PATIENCE_HELP, 0, MOST_PATIENCE))
}

fn of_work<'a>(alloc: Global, matches: &ArgMatches<'a>) -> Option<Breach<'a>> {
    let order = order_of(alloc, matches);
    port_breach(matches, PORT_HELP)
        .or(name_breach(alloc, matches, "--ident", IDENT_HELP, LONGEST_NAME))
        .or(broken(matches, order, "--queues", QUEUES_HELP))
        .or(of_team(matches))
        .or(of_crons(alloc, matches))
}

// Of when the pushed job runs.
fn of_moment<'a>(matches: &ArgMatches<'a>) -> Option<Breach<'a>> {
    let retry = retry_of(matches, "retry");
    let retry_for = seconds_of(matches, "retry-for");
    let at = score_of(matches, "at");
    let unique = seconds_of(matches, "unique");
    broken(matches, retry, "--retry", RETRY_HELP)
        .or(broken(matches, retry_for, "--retry-for", RETRY_FOR_HELP))
        .or(broken(matches, at, "--at", AT_HELP))
        .or(broken(matches, unique, "--unique", UNIQUE_HELP))
}

fn of_push<'a>(alloc: Global, matches: &ArgMatches<'a>) -> Option<Breach<'a>> {
    let args = args_of(alloc, matches, "ARGS");
    port_breach(matches, PORT_HELP)
        .or(name_breach(alloc, matches, "--queue", QUEUE_HELP, LONGEST_NAME))
        .or(of_moment(matches))
        .or(name_breach(alloc, matches, "CLASS", CLASS_HELP, LONGEST_NAME))
        .or(broken(matches, args, "ARGS", ARGS_HELP))
}

fn of_drill<'a>(matches: &ArgMatches<'a>) -> Option<Breach<'a>> {
    let workers = MOST_WORKERS as u32;
    broken(matches, seed_of(matches, "SEED"), "SEED", SEED_HELP)
        .or(number_breach(matches, "JOBS", DRILL_JOBS_HELP, 1, MOST_DRILLED))
        .or(number_breach(matches, "WORKERS", WORKERS_HELP, 1, workers))
        .or(number_breach(matches, "CRASHES", CRASHES_HELP, 0, MOST_CRASHES))
}

fn of_soak<'a>(matches: &ArgMatches<'a>) -> Option<Breach<'a>> {
    broken(matches, seed_of(matches, "SEED"), "SEED", SEED_HELP).or(number_breach(
        matches,
        "JOBS",
        JOBS_HELP,
        1,
        MOST_SOAKED,
    ))
}

fn of_limit<'a>(alloc: Global, matches: &ArgMatches<'a>) -> Option<Breach<'a>> {
    port_breach(matches, PORT_HELP)
        .or(broken(matches, kind_of(matches), "KIND", KIND_HELP))
        .or(name_breach(alloc, matches, "NAME", LIMITER_HELP, LONGEST_LIMITER))
        .or(number_breach(matches, "MOST", MOST_HELP, 1, MOST_LIMITED))
        .or(number_breach(matches, "MILLIS", MILLIS_HELP, 1, MOST_LIMITED_MILLIS))
}

fn of_iterate<'a>(alloc: Global, matches: &ArgMatches<'a>) -> Option<Breach<'a>> {
    port_breach(matches, PORT_HELP)
        .or(number_breach(matches, "--every", EVERY_HELP, 1, MOST_EVERY))
        .or(number_breach(matches, "--most", MOST_ITEMS_HELP, 0, u32::MAX))
        .or(name_breach(alloc, matches, "JID", JID_HELP, LONGEST_ID))
        .or(number_breach(matches, "COUNT", ITEMS_HELP, 0, MOST_ITERATED))
}

/// The value of this subcommand that breaks its rule: the first, in the order of its help.
pub fn breach_of<'a>(
    alloc: Global,
    subcommand: Subcommand,
    matches: &ArgMatches<'a>,
) -> Option<Breach<'a>> {
    match subcommand {
        Subcommand::Serve => of_serve(alloc, matches),
        Subcommand::Work => of_work(alloc, matches),
        Subcommand::Push => of_push(alloc, matches),
        Subcommand::Drill => of_drill(matches),
        Subcommand::Pipe => broken(matches, path_of(alloc, matches, "log"), "--log", LOG_HELP),
        Subcommand::Soak => of_soak(matches),
        Subcommand::Status => port_breach(matches, PORT_HELP),
        Subcommand::Limit => of_limit(alloc, matches),
        Subcommand::Iterate => of_iterate(alloc, matches),
    }
}
