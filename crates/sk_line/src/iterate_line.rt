// The command line of `iterate`: `iterate [--host HOST] [--port PORT] [--every COUNT] [--most COUNT] JID COUNT`.
ghost use Rattle.std.specs.Prelude.{◌≡◌, IfOk, map, string_bytes};
ghost use Rattle.clap.specs.Words.{app_of, found_of, rows_of};
ghost use Rattle.sk_line.specs.Iterate.{IsIterate, IsIterateValues, iterate_app};
ghost use Rattle.sk_line.specs.Lines.{Reads};

use crate::LineFault;
use crate::address::{address_of, addressed};
use crate::defaults::{EVERY, MOST_ITEMS};
use crate::help_lines::{EVERY_HELP, ITEMS_HELP, JID_HELP, MOST_ITEMS_HELP};
use crate::matches::matches_of;
use crate::option::{Options, positional, with_default};
use crate::value::{name_of, number_of};
use clap::{ArgMatches, Command};
use sk_base::limits::LONGEST_ID;
use sk_launcher::Address;
use sk_resp::Text;
use std::alloc::Global;

/// The most items between two saves of a cursor.
pub const MOST_EVERY: u32 = 1_000;

/// The most items of `iterate`.
pub const MOST_ITERATED: u32 = 1_000_000;

/// What the words of `iterate` ask for.
#[derive(Drop)]
pub struct IterateLine {
    /// The store that keeps the cursor.
    pub address: Address,
    /// After how many items the cursor is saved, from 1 to 1,000.
    pub every: u32,
    /// How many items are run at most, from 0 to 4,294,967,295.
    pub most: u32,
    /// Whose cursor it is: a name of at most 64 bytes.
    pub jid: Text,
    /// How many items there are, from 0 to 1,000,000.
    pub count: u32,
}

/// The options of `iterate`.
pub fn iterate_command<'a>(alloc: Global) -> Options<'a>
    ensures { IfOk result (λ c. app_of c ≡ iterate_app) }
{
    let options = addressed(alloc, Ok(Command::new(alloc, "iterate")));
    let options = with_default(alloc, options, "every", EVERY, EVERY_HELP);
    let options = with_default(alloc, options, "most", MOST_ITEMS, MOST_ITEMS_HELP);
    let options = positional(alloc, options, "JID", JID_HELP);
    positional(alloc, options, "COUNT", ITEMS_HELP)
}

// Their values.
fn line_of(alloc: Global, matches: &ArgMatches<'_>) -> Result<IterateLine, LineFault>
    ensures { Reads (IsIterateValues (rows_of (found_of matches.now))) result }
{
    let address = address_of(alloc, matches)?;
    let every = number_of(matches, "every", 1, MOST_EVERY)?;
    let most = number_of(matches, "most", 0, u32::MAX)?;
    let jid = name_of(alloc, matches, "JID", LONGEST_ID)?;
    let count = number_of(matches, "COUNT", 0, MOST_ITERATED)?;
    Ok(IterateLine {
        address,
        every,
        most,
        jid,
        count,
    })
}

/// What the words, which begin with `iterate`, ask for.
///
/// Errors: `Refused` exactly where they are no line of `iterate`.
pub fn read_iterate(alloc: Global, words: &[String]) -> Result<IterateLine, LineFault>
    ensures { Reads (IsIterate (map string_bytes words.now)) result }
{
    let command = iterate_command(alloc)?;
    let matches = matches_of(command, words)?;
    line_of(alloc, &matches)
}
