// The kinds of arguments that are words of a fixed set or integers, and the options of commands.
ghost use Rattle.std.specs.Prelude.{◌≡◌};
ghost use Rattle.std.specs.Str.{str_eq_ignore_ascii_case};
ghost use Rattle.sk_cmd.specs.Arguments.{IsDueSet, IsLimit, IsScored, IsSide, IsSlot, IsWhole};

use crate::CmdFault;
use sk_base::limits::MOST_DUE;
use sk_resp::read_int;

/// An end of a list.
#[derive(Clone, Copy)]
pub enum Side {
    /// `LEFT`
    Left,
    /// `RIGHT`
    Right,
}

/// A set of jobs with scores.
#[derive(Clone, Copy)]
pub enum Scored {
    /// `schedule`: jobs that are to run at a moment
    Schedule,
    /// `retry`: jobs that failed and are to run again
    Retry,
    /// `dead`: jobs that are run no more
    Dead,
}

/// When a key ends.
#[derive(Clone, Copy)]
pub enum Expire {
    /// It doesn't.
    Never,
    /// `EX`: after so many seconds. Any number may be read here.
    Seconds(i64),
    /// `PX`: after so many milliseconds. Any number may be read here.
    Millis(i64),
}

/// The options of `SET`.
#[derive(Clone, Copy)]
pub struct SetOptions {
    /// `NX`: only where the key isn't there
    pub only_new: bool,
    pub expire: Expire,
}

/// The options of `ZRANGEBYSCORE`.
#[derive(Clone, Copy)]
pub struct RangeOptions {
    /// `WITHSCORES`: each member is followed by its score.
    pub with_scores: bool,
    /// `LIMIT`: how many members are skipped, and how many are given at most. Any numbers may be read here.
    pub limit: Option<(i64, i64)>,
}

/// The word is that text, in upper or lower case.
pub fn says(word: &[u8], text: &[u8]) -> bool
    ensures { result ≡ str_eq_ignore_ascii_case word.now text.now }
{
    word.eq_ignore_ascii_case(text)
}

pub fn read_side(text: &[u8]) -> Result<Side, CmdFault>
    ensures { IsSide text.now result }
{
    if says(text, b"LEFT") {
        return Ok(Side::Left);
    }
    if says(text, b"RIGHT") {
        return Ok(Side::Right);
    }
    Err(CmdFault::Syntax)
}

/// `schedule` or `retry`
pub fn read_due_set(text: &[u8]) -> Result<Scored, CmdFault>
    ensures { IsDueSet text.now result }
{
    if text == b"schedule".as_slice() {
        return Ok(Scored::Schedule);
    }
    if text == b"retry".as_slice() {
        return Ok(Scored::Retry);
    }
    Err(CmdFault::Syntax)
}

/// `schedule`, `retry` or `dead`
pub fn read_scored(text: &[u8]) -> Result<Scored, CmdFault>
    ensures { IsScored text.now result }
{
    if text == b"dead".as_slice() {
        return Ok(Scored::Dead);
    }
    read_due_set(text)
}

pub fn read_whole(text: &[u8]) -> Result<i64, CmdFault>
    ensures { IsWhole text.now result }
{
    match read_int(text) {
        Some(n) => Ok(n),
        None => Err(CmdFault::NotInt),
    }
}

/// An integer that isn't below 0
pub fn read_slot(text: &[u8]) -> Result<i64, CmdFault>
    ensures { IsSlot text.now result }
{
    let n = read_whole(text)?;
    if n < 0 {
        return Err(CmdFault::NotInt);
    }
    Ok(n)
}

/// An integer from 1 to 1,000
pub fn read_limit(text: &[u8]) -> Result<i64, CmdFault>
    ensures { IsLimit text.now result }
{
    let Some(n) = read_int(text) else {
        return Err(CmdFault::Syntax);
    };
    if n < 1 {
        return Err(CmdFault::Syntax);
    }
    if n > MOST_DUE {
        return Err(CmdFault::Syntax);
    }
    Ok(n)
}
