// The commands of hashes: how their arguments are read.
ghost use Rattle.std.specs.Prelude.{◌≡◌};
ghost use Rattle.sk_resp.specs.declared.name.Name.TheVariants as Name;
ghost use Rattle.sk_cmd.specs.Table.{Reads};

use crate::counts::{one, one_and, two};
use crate::forms::{key_texts, plain};
use crate::pairs::read_pairs;
use crate::{CmdFault, Command, PlainCommand};
use sk_resp::{Name, Word};
use std::alloc::Global;

/// `HSET key field value ..`
pub fn hset(alloc: Global, words: &mut Vec<Word>) -> Result<Command, CmdFault>
    ensures { Reads Name.Hset words.old.items result }
{
    let fits = 3 <= words.len() && words.len() % 2 == 1;
    let (key, words) = one_and(Name::Hset, fits, words)?;
    let pairs = read_pairs(alloc, words)?;
    plain(PlainCommand::Hset(key, pairs))
}

/// `HGET key field`
pub fn hget(words: &mut Vec<Word>) -> Result<Command, CmdFault>
    ensures { Reads Name.Hget words.old.items result }
{
    let (a, b) = two(Name::Hget, words)?;
    plain(PlainCommand::Hget(a, b))
}

/// `HLEN key`
pub fn hlen(words: &mut Vec<Word>) -> Result<Command, CmdFault>
    ensures { Reads Name.Hlen words.old.items result }
{
    plain(PlainCommand::Hlen(one(Name::Hlen, words)?))
}

/// `HDEL key field ..`
pub fn hdel(words: &mut Vec<Word>) -> Result<Command, CmdFault>
    ensures { Reads Name.Hdel words.old.items result }
{
    let (key, texts) = key_texts(Name::Hdel, words)?;
    plain(PlainCommand::Hdel(key, texts))
}

/// `HGETALL key`
pub fn hgetall(words: &mut Vec<Word>) -> Result<Command, CmdFault>
    ensures { Reads Name.Hgetall words.old.items result }
{
    plain(PlainCommand::Hgetall(one(Name::Hgetall, words)?))
}
