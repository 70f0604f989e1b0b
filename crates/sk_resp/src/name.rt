// The words that name commands.
ghost use Rattle.std.specs.Prelude.{◌≡◌};
ghost use Rattle.sk_resp.specs.Name.{spelling};

/// A command of the store, or one of the words that only a pipe knows.
#[derive(Clone, Copy)]
pub enum Name {
    /// `LPUSH key element ..`
    Lpush,
    /// `RPUSH key element ..`
    Rpush,
    /// `LMOVE source destination LEFT|RIGHT LEFT|RIGHT`
    Lmove,
    /// `LRANGE key first last`
    Lrange,
    /// `LLEN key`
    Llen,
    /// `LREM key count element`
    Lrem,
    /// `PING [text]`
    Ping,
    /// `ECHO text`
    Echo,
    /// `QUIT`
    Quit,
    /// `SHUTDOWN`
    Shutdown,
    /// `FLUSHALL`
    Flushall,
    /// `GET key`
    Get,
    /// `SET key value [NX] [EX seconds | PX milliseconds]`
    Set,
    /// `DEL key ..`
    Del,
    /// `EXISTS key ..`
    Exists,
    /// `TYPE key`
    KindOf,
    /// `INCRBY key n`
    Incrby,
    /// `PEXPIRE key milliseconds`
    Pexpire,
    /// `PTTL key`
    Pttl,
    /// `SADD key member ..`
    Sadd,
    /// `SREM key member ..`
    Srem,
    /// `SMEMBERS key`
    Smembers,
    /// `SCARD key`
    Scard,
    /// `SISMEMBER key member`
    Sismember,
    /// `HSET key field value ..`
    Hset,
    /// `HGET key field`
    Hget,
    /// `HLEN key`
    Hlen,
    /// `HDEL key field ..`
    Hdel,
    /// `HGETALL key`
    Hgetall,
    /// `ZADD key score member ..`
    Zadd,
    /// `ZREM key member ..`
    Zrem,
    /// `ZCARD key`
    Zcard,
    /// `ZSCORE key member`
    Zscore,
    /// `ZRANGE key first last [WITHSCORES]`
    Zrange,
    /// `ZRANGEBYSCORE key min max [WITHSCORES] [LIMIT skip count]`
    Zrangebyscore,
    /// `ZREMRANGEBYRANK key first last`
    Zremrangebyrank,
    /// `ZREMRANGEBYSCORE key min max`
    Zremrangebyscore,
    /// `SK.BEAT ident`
    Beat,
    /// `SK.JOIN ident`
    Join,
    /// `SK.START payload`
    Start,
    /// `SK.OK payload`
    Ok,
    /// `SK.FAIL payload`
    Fail,
    /// `SK.DROP payload`
    Drop,
    /// `SK.BURY payload`
    Bury,
    /// `SK.BACK payload`
    Back,
    /// `SK.DUE schedule|retry limit`
    Due,
    /// `SK.RESCUE`
    Rescue,
    /// `SK.UPUSH payload [score]`
    Upush,
    /// `SK.BPUSH bid parent complete success death [payload ..]`
    Bpush,
    /// `SK.BADD bid payload ..`
    Badd,
    /// `SK.BSTAT bid`
    Bstat,
    /// `SK.LEAD ident`
    Lead,
    /// `SK.CRON ident loop slot payload`
    Cron,
    /// `SK.REVIVE schedule|retry|dead payload`
    Revive,
    /// `SK.KILL schedule|retry payload`
    Kill,
    /// `SK.WHERE jid`
    Where,
    /// `SK.STATUS`
    Status,
    /// `SK.GIVE key text`
    Give,
    /// `SK.AS seat`, a word of the pipe's own
    As,
    /// `SK.NOW moment`, a word of the pipe's own
    Now,
    /// `SK.CUT seat`, a word of the pipe's own
    Cut,
}

impl Name {
    /// The command's word in lower case, as replies show it. A request may write it in any case.
    pub fn spelling(self) -> &'static [u8]
        ensures { result.now ≡ spelling self }
    {
        match self {
            Name::Lpush => b"lpush",
            Name::Rpush => b"rpush",
            Name::Lmove => b"lmove",
            Name::Lrange => b"lrange",
            Name::Llen => b"llen",
            Name::Lrem => b"lrem",
            Name::Ping => b"ping",
            Name::Echo => b"echo",
            Name::Quit => b"quit",
            Name::Shutdown => b"shutdown",
            Name::Flushall => b"flushall",
            Name::Get => b"get",
            Name::Set => b"set",
            Name::Del => b"del",
            Name::Exists => b"exists",
            Name::KindOf => b"type",
            Name::Incrby => b"incrby",
            Name::Pexpire => b"pexpire",
            Name::Pttl => b"pttl",
            Name::Sadd => b"sadd",
            Name::Srem => b"srem",
            Name::Smembers => b"smembers",
            Name::Scard => b"scard",
            Name::Sismember => b"sismember",
            Name::Hset => b"hset",
            Name::Hget => b"hget",
            Name::Hlen => b"hlen",
            Name::Hdel => b"hdel",
            Name::Hgetall => b"hgetall",
            Name::Zadd => b"zadd",
            Name::Zrem => b"zrem",
            Name::Zcard => b"zcard",
            Name::Zscore => b"zscore",
            Name::Zrange => b"zrange",
            Name::Zrangebyscore => b"zrangebyscore",
            Name::Zremrangebyrank => b"zremrangebyrank",
            Name::Zremrangebyscore => b"zremrangebyscore",
            Name::Beat => b"sk.beat",
            Name::Join => b"sk.join",
            Name::Start => b"sk.start",
            Name::Ok => b"sk.ok",
            Name::Fail => b"sk.fail",
            Name::Drop => b"sk.drop",
            Name::Bury => b"sk.bury",
            Name::Back => b"sk.back",
            Name::Due => b"sk.due",
            Name::Rescue => b"sk.rescue",
            Name::Upush => b"sk.upush",
            Name::Bpush => b"sk.bpush",
            Name::Badd => b"sk.badd",
            Name::Bstat => b"sk.bstat",
            Name::Lead => b"sk.lead",
            Name::Cron => b"sk.cron",
            Name::Revive => b"sk.revive",
            Name::Kill => b"sk.kill",
            Name::Where => b"sk.where",
            Name::Status => b"sk.status",
            Name::Give => b"sk.give",
            Name::As => b"sk.as",
            Name::Now => b"sk.now",
            Name::Cut => b"sk.cut",
        }
    }
}
