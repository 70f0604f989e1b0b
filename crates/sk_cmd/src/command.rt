// The commands, each with its arguments.
ghost use Rattle.std.specs.Prelude.{◌≡◌};
ghost use Rattle.sk_cmd.specs.ReadOnly.{is_quiet, is_read, only_reads};

use crate::{Pairs, RangeOptions, Scored, Scores, SetOptions, Side};
use sk_base::{Bound, Score};
use sk_resp::{Word, Words};

/// A command of the store, with its arguments read.
#[derive(Drop)]
pub enum Command {
    /// A command that Redis has too, or `SK.GIVE`.
    Plain(PlainCommand),
    /// A command of the store's own on jobs, batches, workers and leases.
    Script(ScriptCommand),
}

/// The commands of Redis that the store knows, and `SK.GIVE`, which is on a plain key as they are.
#[derive(Drop)]
pub enum PlainCommand {
    /// `PING [text]`
    Ping(Option<Word>),
    /// `ECHO text`
    Echo(Word),
    /// `QUIT`
    Quit,
    /// `SHUTDOWN`
    Shutdown,
    /// `FLUSHALL`
    Flushall,
    /// `GET key`
    Get(Word),
    /// `SET key value [NX] [EX seconds | PX milliseconds]`
    Set(Word, Word, SetOptions),
    /// `DEL key ..`
    Del(Words),
    /// `EXISTS key ..`
    Exists(Words),
    /// `TYPE key`
    KindOf(Word),
    /// `INCRBY key n`
    Incrby(Word, i64),
    /// `PEXPIRE key milliseconds`
    Pexpire(Word, i64),
    /// `PTTL key`
    Pttl(Word),
    /// `SK.GIVE key text`
    Give(Word, Word),
    /// `LPUSH key element ..`
    Lpush(Word, Words),
    /// `RPUSH key element ..`
    Rpush(Word, Words),
    /// `LRANGE key first last`
    Lrange(Word, i64, i64),
    /// `LLEN key`
    Llen(Word),
    /// `LREM key count element`
    Lrem(Word, i64, Word),
    /// `LMOVE source destination LEFT|RIGHT LEFT|RIGHT`
    Lmove(Word, Word, Side, Side),
    /// `SADD key member ..`
    Sadd(Word, Words),
    /// `SREM key member ..`
    Srem(Word, Words),
    /// `SMEMBERS key`
    Smembers(Word),
    /// `SCARD key`
    Scard(Word),
    /// `SISMEMBER key member`
    Sismember(Word, Word),
    /// `HSET key field value ..`
    Hset(Word, Pairs),
    /// `HGET key field`
    Hget(Word, Word),
    /// `HLEN key`
    Hlen(Word),
    /// `HDEL key field ..`
    Hdel(Word, Words),
    /// `HGETALL key`
    Hgetall(Word),
    /// `ZADD key score member ..`
    Zadd(Word, Scores),
    /// `ZREM key member ..`
    Zrem(Word, Words),
    /// `ZCARD key`
    Zcard(Word),
    /// `ZSCORE key member`
    Zscore(Word, Word),
    /// `ZRANGE key first last [WITHSCORES]`
    Zrange(Word, i64, i64, bool),
    /// `ZRANGEBYSCORE key min max [WITHSCORES] [LIMIT skip count]`
    Zrangebyscore(Word, Bound, Bound, RangeOptions),
    /// `ZREMRANGEBYRANK key first last`
    Zremrangebyrank(Word, i64, i64),
    /// `ZREMRANGEBYSCORE key min max`
    Zremrangebyscore(Word, Bound, Bound),
}

/// The store's other commands. A payload is a job as JSON text.
#[derive(Drop)]
pub enum ScriptCommand {
    /// `SK.BEAT ident`
    Beat(Word),
    /// `SK.JOIN ident`
    Join(Word),
    /// `SK.START payload`
    Start(Word),
    /// `SK.OK payload`
    Ok(Word),
    /// `SK.FAIL payload`
    Fail(Word),
    /// `SK.DROP payload`
    Drop(Word),
    /// `SK.BURY payload`
    Bury(Word),
    /// `SK.BACK payload`
    Back(Word),
    /// `SK.DUE schedule|retry limit`
    Due(Scored, i64),
    /// `SK.RESCUE`
    Rescue,
    /// `SK.UPUSH payload [score]`
    Upush(Word, Option<Score>),
    /// `SK.BPUSH bid parent complete success death [payload ..]`
    Bpush(Word, Word, Word, Word, Word, Words),
    /// `SK.BADD bid payload ..`
    Badd(Word, Words),
    /// `SK.BSTAT bid`
    Bstat(Word),
    /// `SK.LEAD ident`
    Lead(Word),
    /// `SK.CRON ident loop slot payload`
    Cron(Word, Word, i64, Word),
    /// `SK.REVIVE schedule|retry|dead payload`
    Revive(Scored, Word),
    /// `SK.KILL schedule|retry payload`
    Kill(Scored, Word),
    /// `SK.WHERE jid`
    Where(Word),
    /// `SK.STATUS`
    Status,
}

impl Command {
    /// The command only reads, as Redis counts it: it changes no key.
    pub fn is_read(&self) -> bool
        ensures { result ≡ is_read self.now }
    {
        match self {
            Command::Plain(command) => command.is_read(),
            Command::Script(_) => false,
        }
    }

    /// The command leaves the store as it is: it only reads, or it is SHUTDOWN.
    pub fn is_quiet(&self) -> bool
        ensures { result ≡ is_quiet self.now }
    {
        match self {
            Command::Plain(PlainCommand::Shutdown) => true,
            command => command.is_read(),
        }
    }
}

impl PlainCommand {
    /// The command only reads.
    pub fn is_read(&self) -> bool
        ensures { result ≡ only_reads self.now }
    {
        match self {
            PlainCommand::Ping(..)
            | PlainCommand::Echo(..)
            | PlainCommand::Quit
            | PlainCommand::Get(..)
            | PlainCommand::Exists(..)
            | PlainCommand::KindOf(..)
            | PlainCommand::Pttl(..)
            | PlainCommand::Lrange(..)
            | PlainCommand::Llen(..)
            | PlainCommand::Smembers(..)
            | PlainCommand::Scard(..)
            | PlainCommand::Sismember(..)
            | PlainCommand::Hget(..)
            | PlainCommand::Hlen(..)
            | PlainCommand::Hgetall(..)
            | PlainCommand::Zcard(..)
            | PlainCommand::Zscore(..)
            | PlainCommand::Zrange(..)
            | PlainCommand::Zrangebyscore(..) => true,
            _ => false,
        }
    }
}
