// `ZREMRANGEBYRANK` and `ZREMRANGEBYSCORE` of all pairs of a sorted set: its key goes as DEL has it go, in constant time.
ghost use Rattle.std.specs.Prelude.{◌≡◌, ◌<◌, ◌^◌, IfNone, IfSome};
ghost use Rattle.sk_keys.specs.Emptied.{CountsTo};
ghost use Rattle.sk_keys.specs.Index.{IsIndexed};

use crate::delete::remove;
use crate::key_table::KeyTable;
use sk_value::{Action, WriteOp};

// Whether the edit takes a range out of a sorted set.
fn is_range(edit: &WriteOp) -> bool {
    matches!(
        edit,
        WriteOp::Zremrangebyrank(..) | WriteOp::Zremrangebyscore(..)
    )
}

/// Takes out the sorted set that the action empties, and answers how many pairs it had; None where the action does anything else. Takes no memory.
#[tactic(auto, unfolding(sk_value::specs::Apply::edit_at))]
pub fn take_emptied(table: &mut KeyTable, action: &Action) -> Option<usize>
    requires { IsIndexed table.old.entries table.old.expiries }
    ensures done { IfSome result (λ count. CountsTo count action.now table.old.entries table.new.entries) }
    ensures small { IfSome result (λ count. count < 2 ^ 63) }
    ensures none { IfNone result (table.new.entries ≡ table.old.entries) }
    ensures indexed { IsIndexed table.new.entries table.new.expiries }
{
    let (name, edit) = match action {
        Action::WriteOp(name, edit) if is_range(edit) => (name, edit),
        _ => return None,
    };
    let count = table.entries.get(name)?.value.emptied_by(edit)?;
    remove(table, name);
    Some(count)
}
