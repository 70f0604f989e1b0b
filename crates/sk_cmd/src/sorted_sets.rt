// The commands of sorted sets: how their arguments are read.
ghost use Rattle.std.specs.Prelude.{◌≡◌};
ghost use Rattle.sk_resp.specs.declared.name.Name.TheVariants as Name;
ghost use Rattle.sk_cmd.specs.Table.{Reads};

use crate::counts::{is_range_count, one, one_and, three, three_and, two};
use crate::forms::{key_range, key_texts, plain, ranks};
use crate::options::{range_options, with_scores};
use crate::pairs::read_scores;
use crate::scores::read_bound;
use crate::{CmdFault, Command, PlainCommand};
use sk_resp::{Name, Word};
use std::alloc::Global;

/// `ZADD key score member ..`
pub fn zadd(alloc: Global, words: &mut Vec<Word>) -> Result<Command, CmdFault>
    ensures { Reads Name.Zadd words.old.items result }
{
    let fits = 3 <= words.len();
    let (key, words) = one_and(Name::Zadd, fits, words)?;
    if words.list().len() % 2 == 1 {
        return Err(CmdFault::Syntax);
    }
    let scores = read_scores(alloc, words)?;
    plain(PlainCommand::Zadd(key, scores))
}

/// `ZREM key member ..`
pub fn zrem(words: &mut Vec<Word>) -> Result<Command, CmdFault>
    ensures { Reads Name.Zrem words.old.items result }
{
    let (key, texts) = key_texts(Name::Zrem, words)?;
    plain(PlainCommand::Zrem(key, texts))
}

/// `ZCARD key`
pub fn zcard(words: &mut Vec<Word>) -> Result<Command, CmdFault>
    ensures { Reads Name.Zcard words.old.items result }
{
    plain(PlainCommand::Zcard(one(Name::Zcard, words)?))
}

/// `ZSCORE key member`
pub fn zscore(words: &mut Vec<Word>) -> Result<Command, CmdFault>
    ensures { Reads Name.Zscore words.old.items result }
{
    let (a, b) = two(Name::Zscore, words)?;
    plain(PlainCommand::Zscore(a, b))
}

/// `ZRANGE key first last [WITHSCORES]`
pub fn zrange(words: &mut Vec<Word>) -> Result<Command, CmdFault>
    ensures { Reads Name.Zrange words.old.items result }
{
    let (key, first, last, options) = ranks(Name::Zrange, words)?;
    let scores = with_scores(options.list())?;
    plain(PlainCommand::Zrange(key, first, last, scores))
}

/// `ZRANGEBYSCORE key min max [WITHSCORES] [LIMIT skip count]`
pub fn zrangebyscore(words: &mut Vec<Word>) -> Result<Command, CmdFault>
    ensures { Reads Name.Zrangebyscore words.old.items result }
{
    let fits = is_range_count(words.len());
    let (key, low, high, options) = three_and(Name::Zrangebyscore, fits, words)?;
    let low = read_bound(low.bytes())?;
    let high = read_bound(high.bytes())?;
    let options = range_options(options.list())?;
    plain(PlainCommand::Zrangebyscore(key, low, high, options))
}

/// `ZREMRANGEBYRANK key first last`
pub fn zremrangebyrank(words: &mut Vec<Word>) -> Result<Command, CmdFault>
    ensures { Reads Name.Zremrangebyrank words.old.items result }
{
    let (key, first, last) = key_range(Name::Zremrangebyrank, words)?;
    plain(PlainCommand::Zremrangebyrank(key, first, last))
}

/// `ZREMRANGEBYSCORE key min max`
pub fn zremrangebyscore(words: &mut Vec<Word>) -> Result<Command, CmdFault>
    ensures { Reads Name.Zremrangebyscore words.old.items result }
{
    let (key, low, high) = three(Name::Zremrangebyscore, words)?;
    let low = read_bound(low.bytes())?;
    let high = read_bound(high.bytes())?;
    plain(PlainCommand::Zremrangebyscore(key, low, high))
}
