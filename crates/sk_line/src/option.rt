// The kinds of options that command lines have, each with the line that help says of it.
ghost use Rattle.sk_line.specs.Adds.{Adds};
ghost use Rattle.sk_line.specs.Options.{flag, optional, positional, positionals, with_default};

use clap::{Arg, ArgAction, Command};
use std::alloc::{AllocError, Global};

/// The options of a subcommand while they are put together. Want of memory is told at the end.
pub type Options<'a> = Result<Command<'a>, AllocError>;

/// An option `--name value` that has a value of its own where it isn't written.
pub fn with_default<'a>(
    alloc: Global,
    options: Options<'a>,
    name: &'a str,
    default: &'a str,
    help: &'a str,
) -> Options<'a>
    ensures { Adds (with_default name.entry.now default.entry.now) options.entry result }
{
    let command = options?;
    let option = Arg::new(alloc, name).long(name).default_value(default);
    command.arg(option.help(help))
}

/// An option `--name value` that may be missing.
pub fn optional<'a>(
    alloc: Global,
    options: Options<'a>,
    name: &'a str,
    help: &'a str,
) -> Options<'a>
    ensures { Adds (optional name.entry.now) options.entry result }
{
    let command = options?;
    command.arg(Arg::new(alloc, name).long(name).help(help))
}

/// An option `--name` without a value.
pub fn flag<'a>(alloc: Global, options: Options<'a>, name: &'a str, help: &'a str) -> Options<'a>
    ensures { Adds (flag name.entry.now) options.entry result }
{
    let command = options?;
    let option = Arg::new(alloc, name).long(name).action(ArgAction::SetTrue);
    command.arg(option.help(help))
}

/// A word that has to stand there.
pub fn positional<'a>(
    alloc: Global,
    options: Options<'a>,
    name: &'a str,
    help: &'a str,
) -> Options<'a>
    ensures { Adds (positional name.entry.now) options.entry result }
{
    let command = options?;
    command.arg(Arg::new(alloc, name).required(true).help(help))
}

/// Words, any number of them.
pub fn positionals<'a>(
    alloc: Global,
    options: Options<'a>,
    name: &'a str,
    help: &'a str,
) -> Options<'a>
    ensures { Adds (positionals name.entry.now) options.entry result }
{
    let command = options?;
    command.arg(Arg::new(alloc, name).action(ArgAction::Append).help(help))
}
