// The commands of sets: how their arguments are read.
ghost use Rattle.std.specs.Prelude.{◌≡◌};
ghost use Rattle.sk_resp.specs.declared.name.Name.TheVariants as Name;
ghost use Rattle.sk_cmd.specs.Table.{Reads};

use crate::counts::{one, two};
use crate::forms::{key_texts, plain};
use crate::{CmdFault, Command, PlainCommand};
use sk_resp::{Name, Word};

/// `SADD key member ..`
pub fn sadd(words: &mut Vec<Word>) -> Result<Command, CmdFault>
    ensures { Reads Name.Sadd words.old.items result }
{
    let (key, texts) = key_texts(Name::Sadd, words)?;
    plain(PlainCommand::Sadd(key, texts))
}

/// `SREM key member ..`
pub fn srem(words: &mut Vec<Word>) -> Result<Command, CmdFault>
    ensures { Reads Name.Srem words.old.items result }
{
    let (key, texts) = key_texts(Name::Srem, words)?;
    plain(PlainCommand::Srem(key, texts))
}

/// `SMEMBERS key`
pub fn smembers(words: &mut Vec<Word>) -> Result<Command, CmdFault>
    ensures { Reads Name.Smembers words.old.items result }
{
    plain(PlainCommand::Smembers(one(Name::Smembers, words)?))
}

/// `SCARD key`
pub fn scard(words: &mut Vec<Word>) -> Result<Command, CmdFault>
    ensures { Reads Name.Scard words.old.items result }
{
    plain(PlainCommand::Scard(one(Name::Scard, words)?))
}

/// `SISMEMBER key member`
pub fn sismember(words: &mut Vec<Word>) -> Result<Command, CmdFault>
    ensures { Reads Name.Sismember words.old.items result }
{
    let (a, b) = two(Name::Sismember, words)?;
    plain(PlainCommand::Sismember(a, b))
}
