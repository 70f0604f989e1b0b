// Forms of arguments that several commands have.
ghost use Rattle.std.specs.Prelude.{◌≡◌};
ghost use Rattle.sk_cmd.specs.Table.{IsKeyRange, IsKeyTexts, IsKeyWhole, IsPlain, IsRanks, IsScript};

use crate::argument::read_whole;
use crate::counts::{is_from, one_and, three, three_and, two};
use crate::{CmdFault, Command, PlainCommand, ScriptCommand};
use sk_resp::{Name, Word, Words};

pub fn plain(command: PlainCommand) -> Result<Command, CmdFault>
    ensures { IsPlain command result }
{
    Ok(Command::Plain(command))
}

pub fn script(command: ScriptCommand) -> Result<Command, CmdFault>
    ensures { IsScript command result }
{
    Ok(Command::Script(command))
}

/// A key, and one or more texts
pub fn key_texts(name: Name, words: &mut Vec<Word>) -> Result<(Word, Words), CmdFault>
    ensures { IsKeyTexts name words.old.items result }
{
    let fits = 2 <= words.len();
    one_and(name, fits, words)
}

/// A key and an integer
pub fn key_whole(name: Name, words: &mut Vec<Word>) -> Result<(Word, i64), CmdFault>
    ensures { IsKeyWhole name words.old.items result }
{
    let (key, n) = two(name, words)?;
    let n = read_whole(n.bytes())?;
    Ok((key, n))
}

/// A key and two indices
pub fn key_range(name: Name, words: &mut Vec<Word>) -> Result<(Word, i64, i64), CmdFault>
    ensures { IsKeyRange name words.old.items result }
{
    let (key, first, last) = three(name, words)?;
    let first = read_whole(first.bytes())?;
    let last = read_whole(last.bytes())?;
    Ok((key, first, last))
}

/// A key and two indices, and at most one word more
pub fn ranks(name: Name, words: &mut Vec<Word>) -> Result<(Word, i64, i64, Words), CmdFault>
    ensures { IsRanks name words.old.items result }
{
    let fits = is_from(3, 4, words.len());
    let (key, first, last, more) = three_and(name, fits, words)?;
    let first = read_whole(first.bytes())?;
    let last = read_whole(last.bytes())?;
    Ok((key, first, last, more))
}
