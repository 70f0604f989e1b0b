// Keys whose deadline is over go, the soonest deadline first. What stays isn't looked at.
ghost use Rattle.std.specs.Prelude.{◌≡◌, ◌+◌, ◌≤◌, true, false};
ghost use Rattle.std.specs.BTreeSet.{btree_set_len};
ghost use Rattle.sk_value.specs.Keys.{purged};
ghost use Rattle.sk_keys.specs.Index.{IsIndexed};
ghost use Rattle.sk_keys.specs.Past.{most_purged};

use crate::expiries::has_expired;
use crate::key_table::KeyTable;
use crate::removed::set_entry_aside;

// The most keys that go at once: some 0.1 ms, for which the next command waits.
const MOST_PURGED: usize = 100;

// Removes the key of the first deadline, where that is over. Answers whether it was.
fn purge_first(table: &mut KeyTable, over: u64) -> bool
    requires { IsIndexed table.old.entries table.old.expiries }
    ensures keys { purged over table.new.entries ≡ purged over table.old.entries }
    ensures clean { result ≡ false → purged over table.new.entries ≡ table.new.entries }
    ensures one { result ≡ true → btree_set_len table.new.expiries + 1 ≡ btree_set_len table.old.expiries }
    ensures none { result ≡ false → table.new.expiries ≡ table.old.expiries }
    ensures indexed { IsIndexed table.new.entries table.new.expiries }
{
    table.entries.in_order();
    if !has_expired(&table.expiries, over) {
        return false;
    }
    let Some((_, name)) = table.expiries.pop_first() else {
        return false;
    };
    let gone = table.entries.remove(&name);
    set_entry_aside(&mut table.aside, gone);
    true
}

/// Removes at most `MOST_PURGED` keys whose deadline is over, and answers whether there are more of them.
pub fn purge_some(table: &mut KeyTable, over: u64) -> bool
    requires { IsIndexed table.old.entries table.old.expiries }
    ensures keys { purged over table.new.entries ≡ purged over table.old.entries }
    ensures clean { result ≡ false → purged over table.new.entries ≡ table.new.entries }
    ensures all { result ≡ true → btree_set_len table.new.expiries + most_purged ≡ btree_set_len table.old.expiries }
    ensures most { btree_set_len table.old.expiries ≤ btree_set_len table.new.expiries + most_purged }
    ensures indexed { IsIndexed table.new.entries table.new.expiries }
{
    for _gone in 0..MOST_PURGED {
        if !purge_first(table, over) {
            return false;
        }
    }
    table.entries.in_order();
    has_expired(&table.expiries, over)
}

/// Removes each key whose deadline is over.
pub fn purge_all(table: &mut KeyTable, over: u64)
    requires { IsIndexed table.old.entries table.old.expiries }
    ensures keys { table.new.entries ≡ purged over table.old.entries }
    ensures indexed { IsIndexed table.new.entries table.new.expiries }
{
    while purge_first(table, over) {}
}
