// `DEL key ..`, `SK.GIVE key text`, `EXISTS key ..` and `FLUSHALL`. A key goes with its pair of the index.
ghost use Rattle.std.specs.Prelude.{◌≡◌, ◌+◌, ◌-◌, ◌≤◌, [], length, Ok, if◌then◌else◌};
ghost use Rattle.std.specs.Option.{is_some};
ghost use Rattle.sk_value.specs.Answer.{counted};
ghost use Rattle.sk_value.specs.Apply.{changed, give_at, holds_string};
ghost use Rattle.sk_value.specs.Keys.{at, how_many, without, without_all};
ghost use Rattle.sk_keys.specs.Index.{IsIndexed};

use crate::expiries::drop_expiry;
use crate::key_table::{Entries, KeyTable};
use crate::removed::set_aside;
use sk_resp::{Reply, Word, Words};
use sk_value::{Value, counted};

/// Takes a key with its deadline out, and gives its value to the caller.
#[tactic(auto, using(crate::proofs::Puts::without_absent, crate::proofs::Puts::count_without))]
pub fn take(table: &mut KeyTable, name: &Word) -> Option<Value>
    requires { IsIndexed table.old.entries table.old.expiries }
    ensures was { is_some result ≡ is_some (at name.now table.old.entries) }
    ensures rest { table.new.entries ≡ without name.now table.old.entries }
    ensures count { length table.new.entries + (if is_some result then 1 else 0) ≡ length table.old.entries }
    ensures indexed { IsIndexed table.new.entries table.new.expiries }
{
    table.entries.in_order();
    let Some((name, entry)) = table.entries.remove(name) else {
        return None;
    };
    drop_expiry(&mut table.expiries, name, entry.deadline);
    Some(entry.value)
}

/// Removes a key with its deadline, and answers whether it was there.
pub fn remove(table: &mut KeyTable, name: &Word) -> bool
    requires { IsIndexed table.old.entries table.old.expiries }
    ensures was { result ≡ is_some (at name.now table.old.entries) }
    ensures rest { table.new.entries ≡ without name.now table.old.entries }
    ensures count { length table.new.entries + (if result then 1 else 0) ≡ length table.old.entries }
    ensures indexed { IsIndexed table.new.entries table.new.expiries }
{
    let value = take(table, name);
    let was = value.is_some();
    set_aside(&mut table.aside, value);
    was
}

/// Removes all keys.
pub fn clear(table: &mut KeyTable)
    ensures keys { table.new.entries ≡ [] }
    ensures indexed { IsIndexed table.new.entries table.new.expiries }
{
    table.entries.clear();
    table.expiries.clear();
}

/// Removes each key in turn, and answers how many were there.
#[tactic(auto, using(crate::proofs::Puts::without_absent, crate::proofs::Puts::count_without))]
pub fn delete(table: &mut KeyTable, names: &Words) -> Reply
    requires { IsIndexed table.old.entries table.old.expiries }
    ensures answer { result ≡ counted (length table.old.entries - length (without_all names.now table.old.entries)) }
    ensures keys { table.new.entries ≡ without_all names.now table.old.entries }
    ensures indexed { IsIndexed table.new.entries table.new.expiries }
{
    let list = names.list();
    let _len = list.len(); // for what it says of their number
    let mut count = 0;
    for name in list {
        if remove(table, name) {
            count += 1;
        }
    }
    counted(count)
}

// Whether the key holds a string, and exactly this one.
fn holds_string(entries: &Entries, name: &Word, text: &Word) -> bool
    ensures { result ≡ holds_string text.now (at name.now entries.now) }
{
    match entries.get(name) {
        Some(there) => there.value.is_string(text),
        None => false,
    }
}

/// Removes a key that holds exactly this string, and answers whether it did. Any other stays. Takes no memory.
#[tactic(auto, unfolding(sk_value::specs::Apply::give_at))]
pub fn give(table: &mut KeyTable, name: &Word, text: &Word) -> Reply
    requires { IsIndexed table.old.entries table.old.expiries }
    ensures answer { Ok result ≡ (give_at text.now (at name.now table.old.entries)).answer }
    ensures keys { table.new.entries ≡ changed name.now (give_at text.now (at name.now table.old.entries)).change table.old.entries }
    ensures indexed { IsIndexed table.new.entries table.new.expiries }
{
    if !holds_string(&table.entries, name, text) {
        return Reply::Int(0);
    }
    remove(table, name);
    Reply::Int(1)
}

// How many of the words name a key.
fn count_there(entries: &Entries, names: &[Word]) -> usize
    ensures is { result ≡ how_many (λ name. at name entries.now) names.now }
    ensures few { result ≤ length names.now }
{
    names.iter().filter(|name| entries.has(*name)).count()
}

/// Answers how many of the words name a key. Repeats are counted.
pub fn exists(entries: &Entries, names: &Words) -> Reply
    ensures { result ≡ counted (how_many (λ name. at name entries.now) names.now) }
{
    let names = names.list();
    let _len = names.len(); // for what it says of their number
    counted(count_there(entries, names))
}
