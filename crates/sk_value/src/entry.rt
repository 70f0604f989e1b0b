// What stands under a key's name.
ghost use Rattle.std.specs.Prelude.{◌≡◌};
ghost use Rattle.sk_value.specs.Answer.{AnswersWith};
ghost use Rattle.sk_value.specs.Values.{left_until, look_there};

use crate::{KeysFault, ReadOp, Value};
use sk_resp::{Reply, Say};
use std::alloc::Global;

/// A value, and when it goes.
#[derive(Drop)]
pub struct Entry {
    pub value: Value,
    /// The moment at which the key is gone, in milliseconds since 1970, if it has one.
    pub deadline: Option<u64>,
}

impl Entry {
    /// What a command that reads one key answers at the moment `now`, in milliseconds since 1970, where the key holds this. One for another
    /// kind than the value's is `WrongType`; TYPE and PTTL are for all kinds.
    pub fn look(&self, alloc: Global, now: u64, look: &ReadOp) -> Result<Reply, KeysFault>
        ensures { AnswersWith (look_there now look.now self.now) result }
    {
        match look {
            ReadOp::KindOf => Ok(Reply::Say(Say::Kind(self.value.kind()))),
            ReadOp::Pttl => Ok(left_until(now, self.deadline)),
            _ => self.value.look(alloc, look),
        }
    }
}

// How many milliseconds are left until a deadline.
fn left_until(now: u64, deadline: Option<u64>) -> Reply
    ensures { result ≡ left_until now deadline }
{
    match deadline {
        None => Reply::Int(-1),
        Some(deadline) => { Reply::Int(deadline.saturating_sub(now).min(i64::MAX as u64) as i64) }
    }
}
