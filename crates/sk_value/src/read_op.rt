// The commands that read one key.
ghost use Rattle.std.specs.Prelude.{◌≡◌, Ok};
ghost use Rattle.sk_value.specs.Values.{look_absent};

use sk_base::Bound;
use sk_cmd::RangeOptions;
use sk_resp::{Kind, Replies, Reply, Say, Word};
use std::alloc::Global;

/// A command that reads one key, with its arguments.
#[derive(Drop)]
pub enum ReadOp {
    /// `GET key`
    Get,
    /// `TYPE key`
    KindOf,
    /// `PTTL key`
    Pttl,
    /// `LRANGE key first last`
    Lrange(i64, i64),
    /// `LLEN key`
    Llen,
    /// `SMEMBERS key`
    Smembers,
    /// `SCARD key`
    Scard,
    /// `SISMEMBER key member`
    Sismember(Word),
    /// `HGET key field`
    Hget(Word),
    /// `HLEN key`
    Hlen,
    /// `HGETALL key`
    Hgetall,
    /// `ZCARD key`
    Zcard,
    /// `ZSCORE key member`
    Zscore(Word),
    /// `ZRANGE key first last [WITHSCORES]`
    Zrange(i64, i64, bool),
    /// `ZRANGEBYSCORE key min max [WITHSCORES] [LIMIT skip count]`
    Zrangebyscore(Bound, Bound, RangeOptions),
}

impl ReadOp {
    /// What it answers where there is no key. Takes no memory.
    pub fn absent(&self, alloc: Global) -> Reply
        ensures { look_absent self.now ≡ Ok result }
    {
        match self {
            ReadOp::Get => Reply::Null,
            ReadOp::KindOf => Reply::Say(Say::Kind(Kind::Absent)),
            ReadOp::Pttl => Reply::Int(-2),
            ReadOp::Lrange(_, _) => Reply::Array(Replies::new(Vec::new(alloc))),
            ReadOp::Llen => Reply::Int(0),
            ReadOp::Smembers => Reply::Array(Replies::new(Vec::new(alloc))),
            ReadOp::Scard => Reply::Int(0),
            ReadOp::Sismember(_) => Reply::Int(0),
            ReadOp::Hget(_) => Reply::Null,
            ReadOp::Hlen => Reply::Int(0),
            ReadOp::Hgetall => Reply::Array(Replies::new(Vec::new(alloc))),
            ReadOp::Zcard => Reply::Int(0),
            ReadOp::Zscore(_) => Reply::Null,
            ReadOp::Zrange(..) => Reply::Array(Replies::new(Vec::new(alloc))),
            ReadOp::Zrangebyscore(..) => Reply::Array(Replies::new(Vec::new(alloc))),
        }
    }
}
