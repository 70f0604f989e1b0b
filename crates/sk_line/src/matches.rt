// What clap makes of the words by a command.
ghost use Rattle.std.specs.Prelude.{◌≡◌, ◌≢◌, [], Err, IfOk, map, string_bytes, true};
ghost use Rattle.clap.specs.Words.{app_of, found_of, is_simple_and_free, rows_of};
ghost use Rattle.sk_line.specs.Options.{refusal, rows};
ghost use Rattle.sk_line.specs.declared.fault.LineFault.TheVariants.{Refused};

use crate::LineFault;
use clap::error::ErrorKind;
use clap::{ArgMatches, Command};

/// The values of the words, which begin with the subcommand.
pub fn matches_of<'a>(
    command: Command<'a>,
    words: &'a [String],
) -> Result<ArgMatches<'a>, LineFault>
    requires { is_simple_and_free (app_of command) ≡ true }
    ensures taken { IfOk result (λ m. refusal (app_of command.entry) (map string_bytes words.entry.now) ≡ []) }
    ensures values { IfOk result (λ m. rows_of (found_of m) ≡ rows (app_of command.entry) (map string_bytes words.entry.now)) }
    ensures refused { result ≡ Err Refused → refusal (app_of command.entry) (map string_bytes words.entry.now) ≢ [] }
{
    match command.try_get_matches_from(words) {
        Ok(matches) => Ok(matches),
        Err(error) => match error.kind() {
            ErrorKind::OutOfMemory => Err(LineFault::Memory),
            _ => Err(LineFault::Refused),
        },
    }
}
