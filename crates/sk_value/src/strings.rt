// Strings (Redis, "Strings"): GET and INCRBY. A new text is made before it is put in the place of the old one.
ghost use Rattle.std.specs.Prelude.{◌≡◌, OnErr};
ghost use Rattle.sk_value.specs.Answer.{AnswersWith, UpdatesTo};
ghost use Rattle.sk_value.specs.Strings.{look_string, edit_string, sum};

use crate::{KeysFault, ReadOp, WriteOp, int_of};
use sk_resp::{Reply, Word};
use std::alloc::Global;

/// What `GET key` answers. Another command is `WrongType`.
pub fn look_string(text: &Word, look: &ReadOp) -> Result<Reply, KeysFault>
    ensures { AnswersWith (look_string look.now text.now) result }
{
    match look {
        ReadOp::Get => Ok(Reply::Bulk(text.copy()?)),
        _ => Err(KeysFault::WrongType),
    }
}

/// What `INCRBY key n` answers, and the string afterwards. Another command is `WrongType`.
#[tactic(auto, unfolding(crate::specs::Strings::edit_string))]
pub fn edit_string(alloc: Global, text: &mut Word, edit: WriteOp) -> Result<Reply, KeysFault>
    ensures done { UpdatesTo (edit_string edit text.old) result text.new }
    ensures err { OnErr result (text.new ≡ text.old) }
{
    match edit {
        WriteOp::Incrby(n) => add(alloc, text, int_of(text.bytes()), n),
        _ => Err(KeysFault::WrongType),
    }
}

// Puts the spelling of the sum in the place of the text.
fn add(alloc: Global, text: &mut Word, old: Option<i64>, n: i64) -> Result<Reply, KeysFault>
    ensures done { UpdatesTo (sum n old) result text.new }
    ensures err { OnErr result (text.new ≡ text.old) }
{
    let Some(old) = old else {
        return Err(KeysFault::NotInt);
    };
    let Some(sum) = old.checked_add(n) else {
        return Err(KeysFault::Overflow);
    };
    let spelling = sum.to_string(alloc)?;
    *text = Word::new(spelling.into_bytes());
    Ok(Reply::Int(sum))
}
