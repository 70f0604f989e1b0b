// The commands of the connection and of single keys: how their arguments are read.
ghost use Rattle.std.specs.Prelude.{◌≡◌};
ghost use Rattle.sk_resp.specs.declared.name.Name.TheVariants as Name;
ghost use Rattle.sk_cmd.specs.Table.{Reads};

use crate::counts::{is_from, one, some, two, two_and, zero};
use crate::forms::{key_whole, plain};
use crate::options::set_options;
use crate::{CmdFault, Command, PlainCommand};
use sk_resp::{Name, Word};

/// `PING [text]`
pub fn ping(words: &mut Vec<Word>) -> Result<Command, CmdFault>
    ensures { Reads Name.Ping words.old.items result }
{
    if words.is_empty() {
        return plain(PlainCommand::Ping(None));
    }
    plain(PlainCommand::Ping(Some(one(Name::Ping, words)?)))
}

/// `ECHO text`
pub fn echo(words: &mut Vec<Word>) -> Result<Command, CmdFault>
    ensures { Reads Name.Echo words.old.items result }
{
    plain(PlainCommand::Echo(one(Name::Echo, words)?))
}

/// `QUIT`
pub fn quit(words: &mut Vec<Word>) -> Result<Command, CmdFault>
    ensures { Reads Name.Quit words.old.items result }
{
    zero(Name::Quit, words)?;
    plain(PlainCommand::Quit)
}

/// `SHUTDOWN`
pub fn shutdown(words: &mut Vec<Word>) -> Result<Command, CmdFault>
    ensures { Reads Name.Shutdown words.old.items result }
{
    zero(Name::Shutdown, words)?;
    plain(PlainCommand::Shutdown)
}

/// `FLUSHALL`
pub fn flushall(words: &mut Vec<Word>) -> Result<Command, CmdFault>
    ensures { Reads Name.Flushall words.old.items result }
{
    zero(Name::Flushall, words)?;
    plain(PlainCommand::Flushall)
}

/// `GET key`
pub fn get(words: &mut Vec<Word>) -> Result<Command, CmdFault>
    ensures { Reads Name.Get words.old.items result }
{
    plain(PlainCommand::Get(one(Name::Get, words)?))
}

/// `SET key value [NX] [EX seconds | PX milliseconds]`
pub fn set(words: &mut Vec<Word>) -> Result<Command, CmdFault>
    ensures { Reads Name.Set words.old.items result }
{
    let fits = is_from(2, 5, words.len());
    let (key, value, options) = two_and(Name::Set, fits, words)?;
    let options = set_options(options.list())?;
    plain(PlainCommand::Set(key, value, options))
}

/// `DEL key ..`
pub fn del(words: &mut Vec<Word>) -> Result<Command, CmdFault>
    ensures { Reads Name.Del words.old.items result }
{
    plain(PlainCommand::Del(some(Name::Del, words)?))
}

/// `EXISTS key ..`
pub fn exists(words: &mut Vec<Word>) -> Result<Command, CmdFault>
    ensures { Reads Name.Exists words.old.items result }
{
    plain(PlainCommand::Exists(some(Name::Exists, words)?))
}

/// `TYPE key`
pub fn kind_of(words: &mut Vec<Word>) -> Result<Command, CmdFault>
    ensures { Reads Name.KindOf words.old.items result }
{
    plain(PlainCommand::KindOf(one(Name::KindOf, words)?))
}

/// `INCRBY key n`
pub fn incrby(words: &mut Vec<Word>) -> Result<Command, CmdFault>
    ensures { Reads Name.Incrby words.old.items result }
{
    let (key, n) = key_whole(Name::Incrby, words)?;
    plain(PlainCommand::Incrby(key, n))
}

/// `PEXPIRE key milliseconds`
pub fn pexpire(words: &mut Vec<Word>) -> Result<Command, CmdFault>
    ensures { Reads Name.Pexpire words.old.items result }
{
    let (key, n) = key_whole(Name::Pexpire, words)?;
    plain(PlainCommand::Pexpire(key, n))
}

/// `PTTL key`
pub fn pttl(words: &mut Vec<Word>) -> Result<Command, CmdFault>
    ensures { Reads Name.Pttl words.old.items result }
{
    plain(PlainCommand::Pttl(one(Name::Pttl, words)?))
}

/// `SK.GIVE key text`
pub fn give(words: &mut Vec<Word>) -> Result<Command, CmdFault>
    ensures { Reads Name.Give words.old.items result }
{
    let (key, text) = two(Name::Give, words)?;
    plain(PlainCommand::Give(key, text))
}
