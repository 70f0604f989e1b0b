// What a command does to the keys that it names. Commands of one family are one action.
ghost use Rattle.std.specs.Prelude.{◌≡◌};
ghost use Rattle.sk_value.specs.Action.{action_of};

use crate::{ReadOp, WriteOp};
use sk_cmd::{PlainCommand, SetOptions, Side};
use sk_resp::{Word, Words};

/// What a command does, with the keys that it names.
#[derive(Drop)]
pub enum Action {
    /// `PING`
    Ping,
    /// `PING text`, `ECHO text`
    Echo(Word),
    /// `QUIT`, `SHUTDOWN`
    Quit,
    /// A command that reads one key.
    ReadOp(Word, ReadOp),
    /// A command that edits what one key holds.
    WriteOp(Word, WriteOp),
    /// `SET key value [NX] [EX seconds | PX milliseconds]`
    Set(Word, Word, SetOptions),
    /// `PEXPIRE key milliseconds`
    Expire(Word, i64),
    /// `SK.GIVE key text`
    Give(Word, Word),
    /// `EXISTS key ..`
    Exists(Words),
    /// `DEL key ..`
    Delete(Words),
    /// `LMOVE source destination LEFT|RIGHT LEFT|RIGHT`
    Move(Word, Word, Side, Side),
    /// `FLUSHALL`
    Flush,
}

/// What the command does.
pub fn action_of(command: PlainCommand) -> Action
    ensures { result ≡ action_of command }
{
    match command {
        PlainCommand::Ping(None) => Action::Ping,
        PlainCommand::Ping(Some(text)) => Action::Echo(text),
        PlainCommand::Echo(text) => Action::Echo(text),
        PlainCommand::Quit => Action::Quit,
        PlainCommand::Shutdown => Action::Quit,
        PlainCommand::Flushall => Action::Flush,
        PlainCommand::Get(key) => Action::ReadOp(key, ReadOp::Get),
        PlainCommand::Set(key, value, options) => Action::Set(key, value, options),
        PlainCommand::Del(keys) => Action::Delete(keys),
        PlainCommand::Exists(keys) => Action::Exists(keys),
        PlainCommand::KindOf(key) => Action::ReadOp(key, ReadOp::KindOf),
        PlainCommand::Incrby(key, n) => Action::WriteOp(key, WriteOp::Incrby(n)),
        PlainCommand::Pexpire(key, millis) => Action::Expire(key, millis),
        PlainCommand::Pttl(key) => Action::ReadOp(key, ReadOp::Pttl),
        PlainCommand::Give(key, text) => Action::Give(key, text),
        PlainCommand::Lpush(key, texts) => Action::WriteOp(key, WriteOp::Push(Side::Left, texts)),
        PlainCommand::Rpush(key, texts) => Action::WriteOp(key, WriteOp::Push(Side::Right, texts)),
        PlainCommand::Lrange(key, first, last) => Action::ReadOp(key, ReadOp::Lrange(first, last)),
        PlainCommand::Llen(key) => Action::ReadOp(key, ReadOp::Llen),
        PlainCommand::Lrem(key, count, text) => Action::WriteOp(key, WriteOp::Lrem(count, text)),
        PlainCommand::Lmove(source, destination, from, to) => {
            Action::Move(source, destination, from, to)
        }
        PlainCommand::Sadd(key, members) => Action::WriteOp(key, WriteOp::Sadd(members)),
        PlainCommand::Srem(key, members) => Action::WriteOp(key, WriteOp::Srem(members)),
        PlainCommand::Smembers(key) => Action::ReadOp(key, ReadOp::Smembers),
        PlainCommand::Scard(key) => Action::ReadOp(key, ReadOp::Scard),
        PlainCommand::Sismember(key, member) => Action::ReadOp(key, ReadOp::Sismember(member)),
        PlainCommand::Hset(key, pairs) => Action::WriteOp(key, WriteOp::Hset(pairs)),
        PlainCommand::Hget(key, field) => Action::ReadOp(key, ReadOp::Hget(field)),
        PlainCommand::Hlen(key) => Action::ReadOp(key, ReadOp::Hlen),
        PlainCommand::Hdel(key, fields) => Action::WriteOp(key, WriteOp::Hdel(fields)),
        PlainCommand::Hgetall(key) => Action::ReadOp(key, ReadOp::Hgetall),
        PlainCommand::Zadd(key, scores) => Action::WriteOp(key, WriteOp::Zadd(scores)),
        PlainCommand::Zrem(key, members) => Action::WriteOp(key, WriteOp::Zrem(members)),
        PlainCommand::Zcard(key) => Action::ReadOp(key, ReadOp::Zcard),
        PlainCommand::Zscore(key, member) => Action::ReadOp(key, ReadOp::Zscore(member)),
        PlainCommand::Zrange(key, first, last, scores) => {
            Action::ReadOp(key, ReadOp::Zrange(first, last, scores))
        }
        PlainCommand::Zrangebyscore(key, least, greatest, options) => {
            Action::ReadOp(key, ReadOp::Zrangebyscore(least, greatest, options))
        }
        PlainCommand::Zremrangebyrank(key, first, last) => {
            Action::WriteOp(key, WriteOp::Zremrangebyrank(first, last))
        }
        PlainCommand::Zremrangebyscore(key, least, greatest) => {
            Action::WriteOp(key, WriteOp::Zremrangebyscore(least, greatest))
        }
    }
}
