// What people are told of words that are refused: by clap, or since a value breaks its rule.
use crate::range::{Breach, breach_of};
use crate::subcommand::Subcommand;
use clap::error::ErrorKind;
use clap::{ArgMatches, Error};
use std::alloc::{AllocError, Global};

// A text of clap's, with the program's name before the subcommand's.
fn told(alloc: Global, text: &str) -> Result<String, AllocError> {
    match text.split_once("Usage: ") {
        Some((before, behind)) => format!(in alloc; "{before}Usage: sidekiq {behind}"),
        None => String::from_str(alloc, text),
    }
}

// What clap says: the help that was asked for, or why it refuses the words.
fn told_by_clap(alloc: Global, error: &Error) -> Result<String, AllocError> {
    match error.kind() {
        ErrorKind::OutOfMemory => Err(AllocError),
        _ => told(alloc, &format!(in alloc; "{error}")?),
    }
}

// What is told of a value that breaks its rule.
fn told_of(alloc: Global, program: &str, breach: Breach<'_>) -> Result<String, AllocError> {
    let Breach { name, help, found } = breach;
    format!(in alloc;
        "sidekiq {program}: {name} can't be '{found}'\n\n  {name}  {help}\n\nFor more information, try 'sidekiq {program} --help'."
    )
}

// The same of the first such value, where there is one.
fn told_of_values(
    alloc: Global,
    program: &str,
    subcommand: Subcommand,
    matches: &ArgMatches<'_>,
) -> Result<Option<String>, AllocError> {
    match breach_of(alloc, subcommand, matches) {
        Some(breach) => Ok(Some(told_of(alloc, program, breach)?)),
        None => Ok(None),
    }
}

/// The help that the words ask for, or why they are refused: in clap's own words, or by the option whose value breaks its rule. None where there is no
/// such cause, or where they begin with no subcommand that has options.
pub fn help_of(alloc: Global, words: &[String]) -> Result<Option<String>, AllocError> {
    let [name, ..] = words else {
        return Ok(None);
    };
    let Some(subcommand) = Subcommand::named(name) else {
        return Ok(None);
    };
    let command = subcommand.options(alloc)?.about(subcommand.about());
    match command.try_get_matches_from(words) {
        Ok(matches) => told_of_values(alloc, name, subcommand, &matches),
        Err(error) => Ok(Some(told_by_clap(alloc, &error)?)),
    }
}
