// Arguments that are scores, and bounds of ranges of scores.
ghost use Rattle.std.specs.Prelude.{◌≡◌};
ghost use Rattle.sk_cmd.specs.Arguments.{IsBound, IsScoreBound, IsScoreElse, IsScoreOption, IsScoreText};

use crate::CmdFault;
use sk_base::{Bound, Score};
use sk_resp::Word;

fn score_else(fault: CmdFault, text: &[u8]) -> Result<Score, CmdFault>
    ensures { IsScoreElse fault text.now result }
{
    match Score::read(text) {
        Ok(score) => Ok(score),
        Err(_) => Err(fault),
    }
}

pub fn read_score(text: &[u8]) -> Result<Score, CmdFault>
    ensures { IsScoreText text.now result }
{
    score_else(CmdFault::NotScore, text)
}

// A score, or `(` and a score.
fn score_bound(text: &[u8]) -> Result<Bound, CmdFault>
    ensures { IsScoreBound text.now result }
{
    let [first, rest @ ..] = text else {
        return Err(CmdFault::BadBound);
    };
    if *first == b'(' {
        let score = score_else(CmdFault::BadBound, rest)?;
        return Ok(Bound::Past(score));
    }
    let score = score_else(CmdFault::BadBound, text)?;
    Ok(Bound::At(score))
}

pub fn read_bound(text: &[u8]) -> Result<Bound, CmdFault>
    ensures { IsBound text.now result }
{
    if text == b"-inf".as_slice() {
        return Ok(Bound::Low);
    }
    if text == b"+inf".as_slice() {
        return Ok(Bound::High);
    }
    if text == b"inf".as_slice() {
        return Ok(Bound::High);
    }
    score_bound(text)
}

/// A score, or none where there is no word
pub fn score_option(words: &[Word]) -> Result<Option<Score>, CmdFault>
    ensures { IsScoreOption words.now result }
{
    let [text, ..] = words else {
        return Ok(None);
    };
    let score = read_score(text.bytes())?;
    Ok(Some(score))
}
