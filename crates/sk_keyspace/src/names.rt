// SADD queues name .. (Redis, "SADD"): names of queues that have no jobs yet.
ghost use Rattle.std.specs.Prelude.{◌≡◌, true, map, OnOk};
ghost use Rattle.std.specs.List.{list_all};
ghost use Rattle.sk_model.specs.Change.{Names, perform};
ghost use Rattle.sk_model.specs.Queues.{add_names};
ghost use Rattle.sk_payload.specs.Member.{is_name};
ghost use Rattle.sk_store.specs.Stored.{InStep, IsAtomic, IsReady, Executes, world};
ghost use Rattle.sk_base.specs.declared.limits.TheConstants.{LONGEST_NAME};

use crate::plain::managed_key;
use sk_key::{is_name, name_text};
use sk_resp::{Memory, Reply, Word, Words};
use sk_store::Store;
use sk_value::counted;

// Adds each name in turn. After want of memory some of them stand.
fn name_each(store: &mut Store, names: Vec<Word>) -> Result<(), Memory>
    requires { list_all (is_name LONGEST_NAME) names.items ≡ true }
    ensures ok { OnOk result (world store.new ≡ perform (world store.old) (map Names names.items)) }
    ensures step { InStep store.old store.new }
{
    for name in names {
        store.places.name_queue(&name_text(name))?;
    }
    Ok(())
}

// Adds each name in turn, all of them or none.
fn name_all(store: &mut Store, names: Vec<Word>) -> Result<(), Memory>
    requires ready { IsReady store.old }
    requires names { list_all (is_name LONGEST_NAME) names.items ≡ true }
    ensures { IsAtomic store.old (map Names names.items) result store.new }
{
    store.begin();
    let done = name_each(store, names);
    store.close(done)
}

fn are_names(names: &[Word]) -> bool
    ensures { result ≡ list_all (is_name LONGEST_NAME) names.now }
{
    names.iter().all(|name| is_name(name.bytes()))
}

/// Adds the names, all of them or none, and answers how many are new. A word that is no name is refused with all others.
pub fn add_names(store: &mut Store, names: Words) -> Result<Reply, Memory>
    requires { IsReady store.old }
    ensures { Executes store.old (add_names (world store.old) names) result store.new }
{
    if !are_names(names.list()) {
        return Ok(managed_key());
    }
    let before = store.places.name_count();
    name_all(store, names.into_list())?;
    Ok(counted(store.places.name_count().saturating_sub(before)))
}
