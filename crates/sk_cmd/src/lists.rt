// The commands of lists: how their arguments are read.
ghost use Rattle.std.specs.Prelude.{◌≡◌};
ghost use Rattle.sk_resp.specs.declared.name.Name.TheVariants as Name;
ghost use Rattle.sk_cmd.specs.Table.{Reads};

use crate::argument::{read_side, read_whole};
use crate::counts::{four, one, three};
use crate::forms::{key_range, key_texts, plain};
use crate::{CmdFault, Command, PlainCommand};
use sk_resp::{Name, Word};

/// `LPUSH key element ..`
pub fn lpush(words: &mut Vec<Word>) -> Result<Command, CmdFault>
    ensures { Reads Name.Lpush words.old.items result }
{
    let (key, texts) = key_texts(Name::Lpush, words)?;
    plain(PlainCommand::Lpush(key, texts))
}

/// `RPUSH key element ..`
pub fn rpush(words: &mut Vec<Word>) -> Result<Command, CmdFault>
    ensures { Reads Name.Rpush words.old.items result }
{
    let (key, texts) = key_texts(Name::Rpush, words)?;
    plain(PlainCommand::Rpush(key, texts))
}

/// `LRANGE key first last`
pub fn lrange(words: &mut Vec<Word>) -> Result<Command, CmdFault>
    ensures { Reads Name.Lrange words.old.items result }
{
    let (key, first, last) = key_range(Name::Lrange, words)?;
    plain(PlainCommand::Lrange(key, first, last))
}

/// `LLEN key`
pub fn llen(words: &mut Vec<Word>) -> Result<Command, CmdFault>
    ensures { Reads Name.Llen words.old.items result }
{
    plain(PlainCommand::Llen(one(Name::Llen, words)?))
}

/// `LREM key count element`
pub fn lrem(words: &mut Vec<Word>) -> Result<Command, CmdFault>
    ensures { Reads Name.Lrem words.old.items result }
{
    let (key, count, element) = three(Name::Lrem, words)?;
    let count = read_whole(count.bytes())?;
    plain(PlainCommand::Lrem(key, count, element))
}

/// `LMOVE source destination LEFT|RIGHT LEFT|RIGHT`
pub fn lmove(words: &mut Vec<Word>) -> Result<Command, CmdFault>
    ensures { Reads Name.Lmove words.old.items result }
{
    let (source, destination, from, to) = four(Name::Lmove, words)?;
    let from = read_side(from.bytes())?;
    let to = read_side(to.bytes())?;
    plain(PlainCommand::Lmove(source, destination, from, to))
}
