// A command from its words.
ghost use Rattle.std.specs.Prelude.{◌≡◌, ◌<◌, length};
ghost use Rattle.sk_cmd.specs.Table.{IsRead, Reads};

use crate::counts::shift;
use crate::name_of::name_of;
use crate::{CmdFault, Command, hashes, keys, lists, scripts, sets, sorted_sets};
use sk_resp::{Name, Word, Words};
use std::alloc::Global;

// The command of that name, from the words behind it.
fn read_as(alloc: Global, name: Name, words: &mut Vec<Word>) -> Result<Command, CmdFault>
    ensures { Reads name words.old.items result }
{
    match name {
        Name::Ping => keys::ping(words),
        Name::Echo => keys::echo(words),
        Name::Quit => keys::quit(words),
        Name::Shutdown => keys::shutdown(words),
        Name::Flushall => keys::flushall(words),
        Name::Get => keys::get(words),
        Name::Set => keys::set(words),
        Name::Del => keys::del(words),
        Name::Exists => keys::exists(words),
        Name::KindOf => keys::kind_of(words),
        Name::Incrby => keys::incrby(words),
        Name::Pexpire => keys::pexpire(words),
        Name::Pttl => keys::pttl(words),
        Name::Give => keys::give(words),
        Name::Lpush => lists::lpush(words),
        Name::Rpush => lists::rpush(words),
        Name::Lrange => lists::lrange(words),
        Name::Llen => lists::llen(words),
        Name::Lrem => lists::lrem(words),
        Name::Lmove => lists::lmove(words),
        Name::Sadd => sets::sadd(words),
        Name::Srem => sets::srem(words),
        Name::Smembers => sets::smembers(words),
        Name::Scard => sets::scard(words),
        Name::Sismember => sets::sismember(words),
        Name::Hset => hashes::hset(alloc, words),
        Name::Hget => hashes::hget(words),
        Name::Hlen => hashes::hlen(words),
        Name::Hdel => hashes::hdel(words),
        Name::Hgetall => hashes::hgetall(words),
        Name::Zadd => sorted_sets::zadd(alloc, words),
        Name::Zrem => sorted_sets::zrem(words),
        Name::Zcard => sorted_sets::zcard(words),
        Name::Zscore => sorted_sets::zscore(words),
        Name::Zrange => sorted_sets::zrange(words),
        Name::Zrangebyscore => sorted_sets::zrangebyscore(words),
        Name::Zremrangebyrank => sorted_sets::zremrangebyrank(words),
        Name::Zremrangebyscore => sorted_sets::zremrangebyscore(words),
        Name::Beat => scripts::beat(words),
        Name::Join => scripts::join(words),
        Name::Start => scripts::start(words),
        Name::Ok => scripts::ok(words),
        Name::Fail => scripts::fail(words),
        Name::Drop => scripts::drop_held(words),
        Name::Bury => scripts::bury(words),
        Name::Back => scripts::back(words),
        Name::Due => scripts::due(words),
        Name::Rescue => scripts::rescue(words),
        Name::Upush => scripts::upush(words),
        Name::Bpush => scripts::bpush(words),
        Name::Badd => scripts::badd(words),
        Name::Bstat => scripts::bstat(words),
        Name::Lead => scripts::lead(words),
        Name::Cron => scripts::cron(words),
        Name::Revive => scripts::revive(words),
        Name::Kill => scripts::kill(words),
        Name::Where => scripts::where_is(words),
        Name::Status => scripts::status(words),
        Name::As | Name::Now | Name::Cut => Err(CmdFault::Unknown),
    }
}

/// The command that the words are, or the first rule that they break: the name, then the number of words, then the arguments from left to
/// right. Memory is wanted for the pairs of `HSET` and `ZADD` alone.
pub fn read_command(alloc: Global, words: Words) -> Result<Command, CmdFault>
    requires { 0 < length words }
    ensures { IsRead words result }
{
    let mut words = words.into_list();
    let word = shift(&mut words);
    let Some(name) = name_of(word.bytes()) else {
        return Err(CmdFault::Unknown);
    };
    read_as(alloc, name, &mut words)
}
