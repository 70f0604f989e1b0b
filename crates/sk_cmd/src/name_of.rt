// The name of a command, from its word. The commands of a busy worker stand first.
ghost use Rattle.std.specs.Prelude.{◌≡◌};
ghost use Rattle.std.specs.Str.{str_eq_ignore_ascii_case};
ghost use Rattle.sk_resp.specs.Name.{spelling};
ghost use Rattle.sk_resp.specs.declared.name.Name.{Name};
ghost use Rattle.sk_cmd.specs.Table.{Names};

use sk_resp::Name;

fn is(word: &[u8], name: Name) -> bool
    ensures { result ≡ str_eq_ignore_ascii_case word.now (spelling name) }
{
    word.eq_ignore_ascii_case(name.spelling())
}

/// The name that the word is, in upper or lower case. Lengths are compared first, and nothing is copied.
pub fn name_of(word: &[u8]) -> Option<Name>
    ensures { Names word.now result }
{
    if is(word, Name::Lpush) {
        return Some(Name::Lpush);
    }
    if is(word, Name::Lmove) {
        return Some(Name::Lmove);
    }
    if is(word, Name::Ok) {
        return Some(Name::Ok);
    }
    if is(word, Name::Start) {
        return Some(Name::Start);
    }
    if is(word, Name::Lrem) {
        return Some(Name::Lrem);
    }
    if is(word, Name::Lrange) {
        return Some(Name::Lrange);
    }
    if is(word, Name::Beat) {
        return Some(Name::Beat);
    }
    if is(word, Name::Upush) {
        return Some(Name::Upush);
    }
    if is(word, Name::Fail) {
        return Some(Name::Fail);
    }
    if is(word, Name::Zadd) {
        return Some(Name::Zadd);
    }
    if is(word, Name::Due) {
        return Some(Name::Due);
    }
    if is(word, Name::Rpush) {
        return Some(Name::Rpush);
    }
    if is(word, Name::Llen) {
        return Some(Name::Llen);
    }
    if is(word, Name::Ping) {
        return Some(Name::Ping);
    }
    if is(word, Name::Echo) {
        return Some(Name::Echo);
    }
    if is(word, Name::Quit) {
        return Some(Name::Quit);
    }
    if is(word, Name::Shutdown) {
        return Some(Name::Shutdown);
    }
    if is(word, Name::Flushall) {
        return Some(Name::Flushall);
    }
    if is(word, Name::Get) {
        return Some(Name::Get);
    }
    if is(word, Name::Set) {
        return Some(Name::Set);
    }
    if is(word, Name::Del) {
        return Some(Name::Del);
    }
    if is(word, Name::Exists) {
        return Some(Name::Exists);
    }
    if is(word, Name::KindOf) {
        return Some(Name::KindOf);
    }
    if is(word, Name::Incrby) {
        return Some(Name::Incrby);
    }
    if is(word, Name::Pexpire) {
        return Some(Name::Pexpire);
    }
    if is(word, Name::Pttl) {
        return Some(Name::Pttl);
    }
    if is(word, Name::Sadd) {
        return Some(Name::Sadd);
    }
    if is(word, Name::Srem) {
        return Some(Name::Srem);
    }
    if is(word, Name::Smembers) {
        return Some(Name::Smembers);
    }
    if is(word, Name::Scard) {
        return Some(Name::Scard);
    }
    if is(word, Name::Sismember) {
        return Some(Name::Sismember);
    }
    if is(word, Name::Hset) {
        return Some(Name::Hset);
    }
    if is(word, Name::Hget) {
        return Some(Name::Hget);
    }
    if is(word, Name::Hlen) {
        return Some(Name::Hlen);
    }
    if is(word, Name::Hdel) {
        return Some(Name::Hdel);
    }
    if is(word, Name::Hgetall) {
        return Some(Name::Hgetall);
    }
    if is(word, Name::Zrem) {
        return Some(Name::Zrem);
    }
    if is(word, Name::Zcard) {
        return Some(Name::Zcard);
    }
    if is(word, Name::Zscore) {
        return Some(Name::Zscore);
    }
    if is(word, Name::Zrange) {
        return Some(Name::Zrange);
    }
    if is(word, Name::Zrangebyscore) {
        return Some(Name::Zrangebyscore);
    }
    if is(word, Name::Zremrangebyrank) {
        return Some(Name::Zremrangebyrank);
    }
    if is(word, Name::Zremrangebyscore) {
        return Some(Name::Zremrangebyscore);
    }
    if is(word, Name::Join) {
        return Some(Name::Join);
    }
    if is(word, Name::Drop) {
        return Some(Name::Drop);
    }
    if is(word, Name::Bury) {
        return Some(Name::Bury);
    }
    if is(word, Name::Back) {
        return Some(Name::Back);
    }
    if is(word, Name::Rescue) {
        return Some(Name::Rescue);
    }
    if is(word, Name::Bpush) {
        return Some(Name::Bpush);
    }
    if is(word, Name::Badd) {
        return Some(Name::Badd);
    }
    if is(word, Name::Bstat) {
        return Some(Name::Bstat);
    }
    if is(word, Name::Lead) {
        return Some(Name::Lead);
    }
    if is(word, Name::Cron) {
        return Some(Name::Cron);
    }
    if is(word, Name::Revive) {
        return Some(Name::Revive);
    }
    if is(word, Name::Kill) {
        return Some(Name::Kill);
    }
    if is(word, Name::Where) {
        return Some(Name::Where);
    }
    if is(word, Name::Status) {
        return Some(Name::Status);
    }
    if is(word, Name::Give) {
        return Some(Name::Give);
    }
    if is(word, Name::As) {
        return Some(Name::As);
    }
    if is(word, Name::Now) {
        return Some(Name::Now);
    }
    if is(word, Name::Cut) {
        return Some(Name::Cut);
    }
    None
}
