// Every action on keys, handed to what does it.
ghost use Rattle.sk_model.specs.Step.{act};
ghost use Rattle.sk_places.specs.Cleared.{AllStand};
ghost use Rattle.sk_store.specs.Stored.{IsReady, Executes, world};

use crate::deletes::{delete, flush};
use crate::edits::edit;
use crate::looks::{exists, look};
use crate::moves::move_text;
use crate::plain::{expire, give, set};
use sk_resp::{Memory, Reply, Say};
use sk_store::Store;
use sk_value::Action;

/// Does what a command does that is no worker's. Where memory runs out nothing has changed. Some row names each live job.
pub fn act(store: &mut Store, action: Action) -> Result<Reply, Memory>
    requires ready { IsReady store.old }
    requires standing { AllStand (world store.old).rows (world store.old).live }
    ensures { Executes store.old (act (world store.old) action) result store.new }
{
    match action {
        Action::Ping => Ok(Reply::Say(Say::Pong)),
        Action::Echo(text) => Ok(Reply::Bulk(text)),
        Action::Quit => Ok(Reply::Say(Say::Ok)),
        Action::ReadOp(key, how) => look(store, key, how),
        Action::WriteOp(key, how) => edit(store, key, how),
        Action::Set(key, text, options) => set(store, key, text, options),
        Action::Expire(key, millis) => expire(store, key, millis),
        Action::Give(key, text) => give(store, key, text),
        Action::Exists(names) => exists(store, names),
        Action::Delete(names) => Ok(delete(store, names)),
        Action::Move(source, destination, from, to) => {
            move_text(store, source, destination, from, to)
        }
        Action::Flush => Ok(flush(store)),
    }
}
