// The commands that edit what one key holds: a plain key, a queue, a set of jobs, or the set of the queues' names. Edits of a private list, of the
// set of processes and of a counter are refused.
ghost use Rattle.std.specs.Prelude.{◌≡◌};
ghost use Rattle.sk_key.specs.Class.{class_of};
ghost use Rattle.sk_model.specs.Sets.{edit_jobs};
ghost use Rattle.sk_model.specs.Step.{edit_names, edit_queue, edits};
ghost use Rattle.sk_store.specs.Stored.{IsReady, Executes, world};

use crate::names::add_names;
use crate::plain::{do_on_keys, managed_key};
use crate::pushes::push;
use crate::removals::remove;
use crate::sets::{add_to, remove_members, remove_range, remove_scores};
use sk_cmd::Scored;
use sk_key::{KeyClass, class_of, queue_of};
use sk_resp::{Memory, Reply, Text, Word};
use sk_store::Store;
use sk_value::{Action, WriteOp};

// An edit of a queue: LPUSH, RPUSH and LREM are allowed.
fn edit_queue(store: &mut Store, queue: Text, edit: WriteOp) -> Result<Reply, Memory>
    requires { IsReady store.old }
    ensures { Executes store.old (edit_queue (world store.old) queue edit) result store.new }
{
    match edit {
        WriteOp::Push(end, texts) => push(store, queue, end, texts),
        WriteOp::Lrem(count, text) => Ok(remove(store, queue, count, &text)),
        _ => Ok(managed_key()),
    }
}

// An edit of the set of the queues' names: SADD of names is allowed.
fn edit_names(store: &mut Store, edit: WriteOp) -> Result<Reply, Memory>
    requires { IsReady store.old }
    ensures { Executes store.old (edit_names (world store.old) edit) result store.new }
{
    match edit {
        WriteOp::Sadd(names) => add_names(store, names),
        _ => Ok(managed_key()),
    }
}

// An edit of a set of jobs: ZADD on `schedule` is allowed, and what takes jobs out.
fn edit_jobs(store: &mut Store, set: Scored, edit: WriteOp) -> Result<Reply, Memory>
    requires { IsReady store.old }
    ensures { Executes store.old (edit_jobs (world store.old) set edit) result store.new }
{
    match edit {
        WriteOp::Zadd(scores) => add_to(store, set, scores),
        WriteOp::Zrem(members) => Ok(remove_members(store, set, &members)),
        WriteOp::Zremrangebyrank(first, last) => Ok(remove_range(store, set, first, last)),
        WriteOp::Zremrangebyscore(least, greatest) => Ok(remove_scores(
            store, set, least, greatest,
        )),
        _ => Ok(managed_key()),
    }
}

/// Edits what a key holds.
pub fn edit(store: &mut Store, key: Word, edit: WriteOp) -> Result<Reply, Memory>
    requires { IsReady store.old }
    ensures { Executes store.old (edits (world store.old) key edit (class_of key)) result store.new }
{
    match class_of(key.bytes()) {
        KeyClass::Plain => do_on_keys(store, Action::WriteOp(key, edit)),
        KeyClass::Queue => edit_queue(store, queue_of(key), edit),
        KeyClass::Queues => edit_names(store, edit),
        KeyClass::Jobs(set) => edit_jobs(store, set, edit),
        _ => Ok(managed_key()),
    }
}
