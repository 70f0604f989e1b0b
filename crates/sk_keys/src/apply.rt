// What each command does to the keys that it names.
ghost use Rattle.std.specs.Prelude.{◌≡◌, OnErr, OnOk};
ghost use Rattle.sk_value.specs.Answer.{AnswersWith};
ghost use Rattle.sk_value.specs.Apply.{applied};
ghost use Rattle.sk_keys.specs.Index.{IsIndexed};

use crate::delete::{clear, delete, exists, give};
use crate::edit::edit;
use crate::emptied::take_emptied;
use crate::expire::expire;
use crate::key_table::KeyTable;
use crate::look::look;
use crate::move_list::move_text;
use crate::set::set;
use sk_resp::{Reply, Say};
use sk_value::{Action, KeysFault, counted};

/// Does the action at the moment `now`, in milliseconds since 1970.
pub fn act(table: &mut KeyTable, now: u64, action: Action) -> Result<Reply, KeysFault>
    requires { IsIndexed table.old.entries table.old.expiries }
    ensures answer { AnswersWith (applied now action table.old.entries).answer result }
    ensures ok { OnOk result (table.new.entries ≡ (applied now action table.old.entries).keys) }
    ensures err { OnErr result (table.new.entries ≡ table.old.entries) }
    ensures indexed { IsIndexed table.new.entries table.new.expiries }
{
    match take_emptied(table, &action) {
        Some(count) => Ok(counted(count)),
        None => act_in_place(table, now, action),
    }
}

// Does the action. A value is edited where it stands.
fn act_in_place(table: &mut KeyTable, now: u64, action: Action) -> Result<Reply, KeysFault>
    requires { IsIndexed table.old.entries table.old.expiries }
    ensures answer { AnswersWith (applied now action table.old.entries).answer result }
    ensures ok { OnOk result (table.new.entries ≡ (applied now action table.old.entries).keys) }
    ensures err { OnErr result (table.new.entries ≡ table.old.entries) }
    ensures indexed { IsIndexed table.new.entries table.new.expiries }
{
    match action {
        Action::Ping => Ok(Reply::Say(Say::Pong)),
        Action::Echo(text) => Ok(Reply::Bulk(text)),
        Action::Quit => Ok(Reply::Say(Say::Ok)),
        Action::ReadOp(name, command) => look(table.alloc, &table.entries, now, &name, &command),
        Action::WriteOp(name, command) => edit(table, name, command),
        Action::Set(name, text, options) => set(table, now, name, text, options),
        Action::Expire(name, millis) => expire(table, now, name, millis),
        Action::Give(name, text) => Ok(give(table, &name, &text)),
        Action::Exists(names) => Ok(exists(&table.entries, &names)),
        Action::Delete(names) => Ok(delete(table, &names)),
        Action::Move(source, destination, from, to) => {
            move_text(table, source, destination, from, to)
        }
        Action::Flush => {
            clear(table);
            Ok(Reply::Say(Say::Ok))
        }
    }
}
