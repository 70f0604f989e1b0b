// The commands that read one key.
ghost use Rattle.sk_value.specs.Answer.{AnswersWith};
ghost use Rattle.sk_value.specs.Keys.{at};
ghost use Rattle.sk_value.specs.Values.{look_at};

use crate::key_table::Entries;
use sk_resp::{Reply, Word};
use sk_value::{KeysFault, ReadOp};
use std::alloc::Global;

/// What the command answers at the moment `now`, in milliseconds since 1970.
pub fn look(
    alloc: Global,
    entries: &Entries,
    now: u64,
    name: &Word,
    look: &ReadOp,
) -> Result<Reply, KeysFault>
    ensures { AnswersWith (look_at now look.now (at name.now entries.now)) result }
{
    match entries.get(name) {
        None => Ok(look.absent(alloc)),
        Some(entry) => entry.look(alloc, now, look),
    }
}
