// `SET key value [NX] [EX seconds | PX milliseconds]`
ghost use Rattle.std.specs.Prelude.{◌≡◌, OnErr, OnOk};
ghost use Rattle.sk_value.specs.Answer.{AnswersWith};
ghost use Rattle.sk_value.specs.Apply.{changed, set_at};
ghost use Rattle.sk_value.specs.Keys.{at};
ghost use Rattle.sk_keys.specs.Index.{IsIndexed};

use crate::expire::deadline_of;
use crate::key_table::KeyTable;
use crate::put::{put, put_new};
use sk_cmd::SetOptions;
use sk_resp::{Reply, Say, Word};
use sk_value::{Entry, KeysFault, Value};

/// Sets the key to the string. What it held before goes with its deadline, whatever its kind.
#[tactic(auto, unfolding(sk_value::specs::Apply::set_at))]
pub fn set(
    table: &mut KeyTable,
    now: u64,
    name: Word,
    text: Word,
    options: SetOptions,
) -> Result<Reply, KeysFault>
    requires { IsIndexed table.old.entries table.old.expiries }
    ensures answer { AnswersWith (set_at now text options (at name table.old.entries)).answer result }
    ensures ok { OnOk result (table.new.entries ≡ changed name (set_at now text options (at name table.old.entries)).change table.old.entries) }
    ensures err { OnErr result (table.new.entries ≡ table.old.entries) }
    ensures indexed { IsIndexed table.new.entries table.new.expiries }
{
    let deadline = deadline_of(now, options.expire)?;
    let entry = Entry {
        value: Value::String(text),
        deadline,
    };
    if !options.only_new {
        put(table, name, entry)?;
    } else if table.entries.has(&name) {
        return Ok(Reply::Null);
    } else {
        put_new(table, name, entry)?;
    }
    Ok(Reply::Say(Say::Ok))
}
