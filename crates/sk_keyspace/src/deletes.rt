// DEL key .., FLUSHALL (Redis, "DEL", "FLUSHALL"). They take no memory.
ghost use Rattle.std.specs.Prelude.{◌≡◌, ◌<◌, ◌^◌, cond, true};
ghost use Rattle.std.specs.List.{list_all};
ghost use Rattle.sk_key.specs.Class.{class_of, is_queue};
ghost use Rattle.sk_model.specs.Change.{perform};
ghost use Rattle.sk_model.specs.Deletes.{delete, delete_as, delete_each, flush, may_go};
ghost use Rattle.sk_model.specs.Outcome.{Realizes};
ghost use Rattle.sk_key.specs.declared.key_class.KeyClass.TheVariants as class;
ghost use Rattle.sk_places.specs.Cleared.{AllStand};
ghost use Rattle.sk_store.specs.Stored.{IsReady, world};
ghost use Rattle.sk_keyspace.specs.Deleted.{Deletes};

use crate::plain::managed_key;
use sk_key::{KeyClass, class_of, queue_of};
use sk_places::Place;
use sk_resp::{Reply, Say, Word, Words};
use sk_store::Store;
use sk_value::counted;

// Deletes a queue with its name, and tells whether it had jobs.
fn delete_queue(store: &mut Store, key: Word) -> bool
    requires ready { IsReady store.old }
    requires queue { is_queue (class_of key) ≡ true }
    ensures done { Deletes (world store.old) (delete_as (world store.old) key class.Queue) (cond result 1 0) (world store.new) }
    ensures ready { IsReady store.new }
{
    let queue = queue_of(key);
    store.places.unname_queue(&queue);
    store.places.remove_all(&Place::Queue(queue)) > 0
}

// Deletes one key, and tells whether it was there.
fn delete_one(store: &mut Store, key: Word) -> bool
    requires { IsReady store.old }
    ensures done { Deletes (world store.old) (delete_as (world store.old) key (class_of key)) (cond result 1 0) (world store.new) }
    ensures ready { IsReady store.new }
{
    match class_of(key.bytes()) {
        KeyClass::Plain => store.keys.remove(&key),
        KeyClass::Queue => delete_queue(store, key),
        KeyClass::Jobs(set) => store.places.remove_all(&Place::Set(set)) > 0,
        _ => false,
    }
}

// Deletes each key, and tells how many were there.
fn delete_all(store: &mut Store, names: Vec<Word>) -> usize
    requires { IsReady store.old }
    ensures done { Deletes (world store.old) (delete_each (world store.old) names.items) result (world store.new) }
    ensures small { result < 2 ^ 63 }
    ensures ready { IsReady store.new }
{
    let mut count = 0usize;
    for name in names {
        if delete_one(store, name) {
            count += 1;
        }
    }
    count
}

fn may_go(key: &[u8]) -> bool
    ensures { result ≡ may_go (class_of key.now) }
{
    match class_of(key) {
        KeyClass::Plain | KeyClass::Queue | KeyClass::Jobs(_) => true,
        _ => false,
    }
}

fn may_all_go(keys: &[Word]) -> bool
    ensures { result ≡ list_all (λ key. may_go (class_of key)) keys.now }
{
    keys.iter().all(|key| may_go(key.bytes()))
}

/// Deletes the keys, and answers how many were there. With one that may not be deleted none is.
pub fn delete(store: &mut Store, names: Words) -> Reply
    requires { IsReady store.old }
    ensures done { Realizes (world store.old) (delete (world store.old) names) result (world store.new) }
    ensures ready { IsReady store.new }
{
    if !may_all_go(names.list()) {
        return managed_key();
    }
    counted(delete_all(store, names.into_list()))
}

/// Deletes all jobs, the names of the queues and all plain keys, in constant time: the store keeps them aside to be freed. Batches, heartbeats and
/// counters stay, and so does what the seats have. Some row names each live job.
#[tactic(auto, using(crate::proofs::Deleting::flush_comes))]
pub fn flush(store: &mut Store) -> Reply
    requires ready { IsReady store.old }
    requires standing { AllStand (world store.old).rows (world store.old).live }
    ensures done { Realizes (world store.old) (flush (world store.old)) result (world store.new) }
    ensures ready { IsReady store.new }
{
    store.places.clear(store.alloc);
    store.keys.clear();
    Reply::Say(Say::Ok)
}
