// The commands that edit what one key holds, in its place.
ghost use Rattle.std.specs.Prelude.{◌≡◌, None, OnErr, OnOk};
ghost use Rattle.sk_value.specs.Answer.{AnswersWith};
ghost use Rattle.sk_value.specs.Apply.{changed, edit_at};
ghost use Rattle.sk_value.specs.Keys.{at};
ghost use Rattle.sk_keys.specs.Index.{IsIndexed};

use crate::delete::remove;
use crate::key_table::KeyTable;
use crate::put::put_new;
use sk_resp::{Reply, Word};
use sk_value::{Entry, KeysFault, WriteOp};

/// Edits what the key holds, and leaves its deadline. A key that holds nothing afterwards goes.
#[tactic(auto, using(crate::proofs::Puts::put_present, crate::proofs::Puts::without_set, std::proofs::lemmas::Map::Steps::set_value_same), unfolding(sk_value::specs::Apply::edit_at))]
pub fn edit(table: &mut KeyTable, name: Word, edit: WriteOp) -> Result<Reply, KeysFault>
    requires { IsIndexed table.old.entries table.old.expiries }
    ensures answer { AnswersWith (edit_at edit (at name table.old.entries)).answer result }
    ensures ok { OnOk result (table.new.entries ≡ changed name (edit_at edit (at name table.old.entries)).change table.old.entries) }
    ensures err { OnErr result (table.new.entries ≡ table.old.entries) }
    ensures indexed { IsIndexed table.new.entries table.new.expiries }
{
    let Some(there) = table.entries.get_mut(&name) else {
        return edit_new(table, name, edit);
    };
    let reply = there.value.edit(table.alloc, edit)?;
    if there.value.is_empty() {
        remove(table, &name);
    }
    Ok(reply)
}

// Edits a value with nothing in it, which comes to stand under the name if it has something in it then.
#[tactic(auto, using(crate::proofs::Puts::without_absent), unfolding(sk_value::specs::Apply::edit_at))]
fn edit_new(table: &mut KeyTable, name: Word, edit: WriteOp) -> Result<Reply, KeysFault>
    requires indexed { IsIndexed table.old.entries table.old.expiries }
    requires absent { at name table.old.entries ≡ None }
    ensures answer { AnswersWith (edit_at edit None).answer result }
    ensures ok { OnOk result (table.new.entries ≡ changed name (edit_at edit None).change table.old.entries) }
    ensures err { OnErr result (table.new.entries ≡ table.old.entries) }
    ensures indexed { IsIndexed table.new.entries table.new.expiries }
{
    let mut value = edit.blank(table.alloc)?;
    let reply = value.edit(table.alloc, edit)?;
    if !value.is_empty() {
        let entry = Entry {
            value,
            deadline: None,
        };
        put_new(table, name, entry)?;
    }
    Ok(reply)
}
