// The commands that edit what one key holds, in its place.
ghost use Rattle.std.specs.Prelude.{◌≡◌, ℤ, IfOk, OnErr};
ghost use Rattle.sk_value.specs.declared.write_op.WriteOp.{WriteOp};
ghost use Rattle.sk_value.specs.Values.{blank};

use crate::{Fields, Items, Members, Sorted, Value};
use sk_base::Bound;
use sk_cmd::{Pairs, Scores, Side};
use sk_resp::{Memory, Word, Words};
use std::alloc::Global;

/// A command that edits what one key holds, with its arguments. It leaves the deadline, and acts on an absent key as on a value with nothing in it.
#[derive(Drop)]
pub enum WriteOp {
    /// `INCRBY key n`
    Incrby(i64),
    /// `LPUSH key element ..`, `RPUSH key element ..`
    Push(Side, Words),
    /// `LREM key count element`
    Lrem(i64, Word),
    /// `SADD key member ..`
    Sadd(Words),
    /// `SREM key member ..`
    Srem(Words),
    /// `HSET key field value ..`
    Hset(Pairs),
    /// `HDEL key field ..`
    Hdel(Words),
    /// `ZADD key score member ..`
    Zadd(Scores),
    /// `ZREM key member ..`
    Zrem(Words),
    /// `ZREMRANGEBYRANK key first last`
    Zremrangebyrank(i64, i64),
    /// `ZREMRANGEBYSCORE key min max`
    Zremrangebyscore(Bound, Bound),
}

impl WriteOp {
    /// The value on which it acts where there is no key: `0` for INCRBY, and else a list, a set, a hash or a sorted set with nothing in it,
    /// which takes no memory.
    pub fn blank(&self, alloc: Global) -> Result<Value, Memory>
        ensures ok { IfOk result (λ value. value ≡ blank self.now) }
        ensures err { OnErr result ((n : ℤ) × (self.now ≡ WriteOp.Incrby n)) }
    {
        match self {
            WriteOp::Incrby(_) => Ok(Value::String(Word::new(Vec::from_slice(alloc, b"0")?))),
            WriteOp::Push(_, _) => Ok(Value::List(Items::new(alloc))),
            WriteOp::Lrem(_, _) => Ok(Value::List(Items::new(alloc))),
            WriteOp::Sadd(_) => Ok(Value::Set(Members::new(alloc))),
            WriteOp::Srem(_) => Ok(Value::Set(Members::new(alloc))),
            WriteOp::Hset(_) => Ok(Value::Hash(Fields::new(alloc))),
            WriteOp::Hdel(_) => Ok(Value::Hash(Fields::new(alloc))),
            WriteOp::Zadd(_) => Ok(Value::Sorted(Sorted::new(alloc))),
            WriteOp::Zrem(_) => Ok(Value::Sorted(Sorted::new(alloc))),
            WriteOp::Zremrangebyrank(..) => Ok(Value::Sorted(Sorted::new(alloc))),
            WriteOp::Zremrangebyscore(..) => Ok(Value::Sorted(Sorted::new(alloc))),
        }
    }
}
