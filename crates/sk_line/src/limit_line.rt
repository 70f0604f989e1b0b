// The command line of `limit`: `limit [--host HOST] [--port PORT] hold|grant NAME MOST MILLIS`.
ghost use Rattle.std.specs.Prelude.{◌≡◌, IfOk, MatchOption, codes, map, string_bytes};
ghost use Rattle.clap.specs.Words.{app_of, found_of, rows_of};
ghost use Rattle.sk_line.specs.Limit.{IsKind, IsLimit, IsLimitValues, limit_app};
ghost use Rattle.sk_line.specs.Lines.{Reads};
ghost use Rattle.sk_line.specs.Values.{Has};
ghost use Rattle.sk_line.specs.declared.limit_line.LimitKind.{LimitKind};

use crate::LineFault;
use crate::address::{address_of, addressed};
use crate::help_lines::{KIND_HELP, LIMITER_HELP, MILLIS_HELP, MOST_HELP};
use crate::matches::matches_of;
use crate::option::{Options, positional};
use crate::value::{name_of, number_of, text_in};
use clap::{ArgMatches, Command};
use sk_launcher::Address;
use sk_resp::Text;
use std::alloc::Global;

/// The most bytes of a limiter's name.
pub const LONGEST_LIMITER: usize = 100;

/// The most holds at a time, and the most grants of a window.
pub const MOST_LIMITED: u32 = 1_000;

/// The most milliseconds that a hold or a window lasts: eleven days and a half.
pub const MOST_LIMITED_MILLIS: u32 = 1_000_000_000;

/// What a limiter is asked for.
#[derive(Clone, Copy)]
pub enum LimitKind {
    /// A slot, for a time.
    Hold,
    /// A grant of the window that is open.
    Grant,
}

/// What the words of `limit` ask for.
#[derive(Drop)]
pub struct LimitLine {
    /// The store that keeps the limiter.
    pub address: Address,
    /// What is asked for.
    pub kind: LimitKind,
    /// The limiter: a name of at most 100 bytes.
    pub name: Text,
    /// How many at most, from 1 to 1,000.
    pub most: u32,
    /// For how long, in milliseconds, from 1 to 1,000,000,000.
    pub millis: u32,
}

/// The options of `limit`.
pub fn limit_command<'a>(alloc: Global) -> Options<'a>
    ensures { IfOk result (λ c. app_of c ≡ limit_app) }
{
    let options = addressed(alloc, Ok(Command::new(alloc, "limit")));
    let options = positional(alloc, options, "KIND", KIND_HELP);
    let options = positional(alloc, options, "NAME", LIMITER_HELP);
    let options = positional(alloc, options, "MOST", MOST_HELP);
    positional(alloc, options, "MILLIS", MILLIS_HELP)
}

// What the text asks a limiter for.
fn kind(text: &str) -> Option<LimitKind>
    ensures { MatchOption result ((value : LimitKind) → IsKind text.now value → ⊥) (IsKind text.now) }
{
    if text == "hold" {
        return Some(LimitKind::Hold);
    }
    if text == "grant" {
        return Some(LimitKind::Grant);
    }
    None
}

/// What a word asks a limiter for.
pub fn kind_of(matches: &ArgMatches<'_>) -> Result<LimitKind, LineFault>
    ensures { Reads (Has IsKind (rows_of (found_of matches.now)) (codes "KIND")) result }
{
    match text_in(matches, "KIND") {
        Some(text) => kind(text).ok_or(LineFault::Refused),
        None => Err(LineFault::Refused),
    }
}

// Their values.
fn line_of(alloc: Global, matches: &ArgMatches<'_>) -> Result<LimitLine, LineFault>
    ensures { Reads (IsLimitValues (rows_of (found_of matches.now))) result }
{
    let address = address_of(alloc, matches)?;
    let kind = kind_of(matches)?;
    let name = name_of(alloc, matches, "NAME", LONGEST_LIMITER)?;
    let most = number_of(matches, "MOST", 1, MOST_LIMITED)?;
    let millis = number_of(matches, "MILLIS", 1, MOST_LIMITED_MILLIS)?;
    Ok(LimitLine {
        address,
        kind,
        name,
        most,
        millis,
    })
}

/// What the words, which begin with `limit`, ask for.
///
/// Errors: `Refused` exactly where they are no line of `limit`.
pub fn read_limit(alloc: Global, words: &[String]) -> Result<LimitLine, LineFault>
    ensures { Reads (IsLimit (map string_bytes words.now)) result }
{
    let command = limit_command(alloc)?;
    let matches = matches_of(command, words)?;
    line_of(alloc, &matches)
}
