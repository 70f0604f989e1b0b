// Options: in any order, each at most once, read word by word from left to right.
ghost use Rattle.std.specs.Prelude.{◌≡◌};
ghost use Rattle.sk_cmd.specs.declared.options.RangeNext.TheVariants as RangeNext;
ghost use Rattle.sk_cmd.specs.declared.options.SetNext.TheVariants as SetNext;
ghost use Rattle.sk_cmd.specs.Options.{IsRangeEnd, IsRangeOptions, IsRangeStep, IsRangeWord, IsSetEnd, IsSetOptions, IsSetStep, IsSetWord, IsWithScores, expires, no_range_options, no_set_options};

use crate::argument::{read_whole, says};
use crate::{CmdFault, Expire, RangeOptions, SetOptions};
use sk_resp::Word;

/// What the next word of `SET` is.
#[derive(Clone, Copy)]
pub enum SetNext {
    /// An option
    Word,
    /// The seconds of `EX`
    Seconds,
    /// The milliseconds of `PX`
    Millis,
}

/// The options of `SET` so far.
#[derive(Clone, Copy)]
pub struct SetSoFar {
    pub only_new: bool,
    pub expire: Expire,
    pub next: SetNext,
}

/// What the next word of a range is.
#[derive(Clone, Copy)]
pub enum RangeNext {
    /// An option
    Word,
    /// How many members `LIMIT` skips
    Skip,
    /// How many members `LIMIT` gives at most; it skips so many.
    Count(i64),
}

/// The options of a range so far.
#[derive(Clone, Copy)]
pub struct RangeSoFar {
    pub with_scores: bool,
    pub limit: Option<(i64, i64)>,
    pub next: RangeNext,
}

fn has_expire(expire: Expire) -> bool
    ensures { result ≡ expires expire }
{
    match expire {
        Expire::Never => false,
        Expire::Seconds(_) => true,
        Expire::Millis(_) => true,
    }
}

impl SetSoFar {
    fn new(only_new: bool, expire: Expire, next: SetNext) -> SetSoFar
        ensures { result ≡ record { only_new = only_new; expire = expire; next = next } }
    {
        SetSoFar {
            only_new,
            expire,
            next,
        }
    }
}

// A word where an option may stand.
fn set_option(word: &[u8], before: SetSoFar) -> Result<SetSoFar, CmdFault>
    ensures { IsSetWord SetNext.Word word.now before result }
{
    if says(word, b"NX") {
        if before.only_new {
            return Err(CmdFault::Syntax);
        }
        return Ok(SetSoFar::new(true, before.expire, SetNext::Word));
    }
    if has_expire(before.expire) {
        return Err(CmdFault::Syntax);
    }
    if says(word, b"EX") {
        return Ok(SetSoFar::new(before.only_new, before.expire, SetNext::Seconds));
    }
    if says(word, b"PX") {
        return Ok(SetSoFar::new(before.only_new, before.expire, SetNext::Millis));
    }
    Err(CmdFault::Syntax)
}

fn set_step(word: &[u8], before: SetSoFar) -> Result<SetSoFar, CmdFault>
    ensures { IsSetStep word.now before result }
{
    match before.next {
        SetNext::Seconds => {
            let n = read_whole(word)?;
            Ok(SetSoFar::new(before.only_new, Expire::Seconds(n), SetNext::Word))
        }
        SetNext::Millis => {
            let n = read_whole(word)?;
            Ok(SetSoFar::new(before.only_new, Expire::Millis(n), SetNext::Word))
        }
        SetNext::Word => set_option(word, before),
    }
}

fn set_end(before: SetSoFar) -> Result<SetOptions, CmdFault>
    ensures { IsSetEnd before result }
{
    match before.next {
        SetNext::Word => Ok(SetOptions {
            only_new: before.only_new,
            expire: before.expire,
        }),
        SetNext::Seconds => Err(CmdFault::Syntax),
        SetNext::Millis => Err(CmdFault::Syntax),
    }
}

fn set_rest(words: &[Word], before: SetSoFar) -> Result<SetOptions, CmdFault>
    ensures { IsSetOptions words.now before result }
{
    let [word, more @ ..] = words else {
        return set_end(before);
    };
    let after = set_step(word.bytes(), before)?;
    set_rest(more, after)
}

/// `[NX] [EX seconds | PX milliseconds]`
pub fn set_options(words: &[Word]) -> Result<SetOptions, CmdFault>
    ensures { IsSetOptions words.now no_set_options result }
{
    let before = SetSoFar::new(false, Expire::Never, SetNext::Word);
    set_rest(words, before)
}

impl RangeSoFar {
    fn new(with_scores: bool, limit: Option<(i64, i64)>, next: RangeNext) -> RangeSoFar
        ensures { result ≡ record { with_scores = with_scores; limit = limit; next = next } }
    {
        RangeSoFar {
            with_scores,
            limit,
            next,
        }
    }
}

// A word where an option may stand.
fn range_option(word: &[u8], before: RangeSoFar) -> Result<RangeSoFar, CmdFault>
    ensures { IsRangeWord RangeNext.Word word.now before result }
{
    if says(word, b"WITHSCORES") {
        if before.with_scores {
            return Err(CmdFault::Syntax);
        }
        return Ok(RangeSoFar::new(true, before.limit, RangeNext::Word));
    }
    if says(word, b"LIMIT") {
        if before.limit.is_some() {
            return Err(CmdFault::Syntax);
        }
        return Ok(RangeSoFar::new(before.with_scores, before.limit, RangeNext::Skip));
    }
    Err(CmdFault::Syntax)
}

fn range_step(word: &[u8], before: RangeSoFar) -> Result<RangeSoFar, CmdFault>
    ensures { IsRangeStep word.now before result }
{
    match before.next {
        RangeNext::Skip => {
            let skip = read_whole(word)?;
            Ok(RangeSoFar::new(before.with_scores, before.limit, RangeNext::Count(skip)))
        }
        RangeNext::Count(skip) => {
            let count = read_whole(word)?;
            Ok(RangeSoFar::new(before.with_scores, Some((skip, count)), RangeNext::Word))
        }
        RangeNext::Word => range_option(word, before),
    }
}

fn range_end(before: RangeSoFar) -> Result<RangeOptions, CmdFault>
    ensures { IsRangeEnd before result }
{
    match before.next {
        RangeNext::Word => Ok(RangeOptions {
            with_scores: before.with_scores,
            limit: before.limit,
        }),
        RangeNext::Skip => Err(CmdFault::Syntax),
        RangeNext::Count(_) => Err(CmdFault::Syntax),
    }
}

fn range_rest(words: &[Word], before: RangeSoFar) -> Result<RangeOptions, CmdFault>
    ensures { IsRangeOptions words.now before result }
{
    let [word, more @ ..] = words else {
        return range_end(before);
    };
    let after = range_step(word.bytes(), before)?;
    range_rest(more, after)
}

/// `[WITHSCORES] [LIMIT skip count]`
pub fn range_options(words: &[Word]) -> Result<RangeOptions, CmdFault>
    ensures { IsRangeOptions words.now no_range_options result }
{
    let before = RangeSoFar::new(false, None, RangeNext::Word);
    range_rest(words, before)
}

/// `[WITHSCORES]`
pub fn with_scores(words: &[Word]) -> Result<bool, CmdFault>
    ensures { IsWithScores words.now result }
{
    let [word, ..] = words else {
        return Ok(false);
    };
    if says(word.bytes(), b"WITHSCORES") {
        return Ok(true);
    }
    Err(CmdFault::Syntax)
}
