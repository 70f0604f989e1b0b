// Putting a key, whatever stood there, with the pair of the index that its deadline asks for.
ghost use Rattle.std.specs.Prelude.{◌≡◌, None, OnErr, OnOk};
ghost use Rattle.std.specs.List.Sorted.{IsStrictlySortedBy};
ghost use Rattle.std.specs.Map.{keys_of};
ghost use Rattle.sk_resp.specs.WordOrder.{text_cmp};
ghost use Rattle.sk_value.specs.Keys.{at, put};
ghost use Rattle.sk_keys.specs.Index.{IsIndexed};

use crate::expiries::{add_expiry, drop_expiry, set_expiry};
use crate::key_table::KeyTable;
use crate::removed::set_aside;
use sk_resp::{Memory, Word};
use sk_value::Entry;
use std::mem;

/// Puts a key that isn't there.
pub fn put_new(table: &mut KeyTable, name: Word, entry: Entry) -> Result<(), Memory>
    requires indexed { IsIndexed table.old.entries table.old.expiries }
    requires absent { at name table.old.entries ≡ None }
    ensures ok { OnOk result (table.new.entries ≡ put name entry table.old.entries) }
    ensures err { OnErr result (table.new.entries ≡ table.old.entries) }
    ensures was_ordered { OnOk result (IsStrictlySortedBy text_cmp (keys_of table.old.entries)) }
    ensures indexed { IsIndexed table.new.entries table.new.expiries }
{
    let deadline = entry.deadline;
    add_expiry(&mut table.expiries, &name, deadline)?;
    table.entries.in_order();
    match table.entries.insert_new(name, entry) {
        Ok(()) => Ok(()),
        Err(refused) => {
            drop_expiry(&mut table.expiries, refused.key, deadline);
            Err(Memory)
        }
    }
}

/// Puts a key. An old value and its deadline go.
#[tactic(auto, using(crate::proofs::Puts::put_present, std::proofs::lemmas::Map::Steps::set_value_same))]
pub fn put(table: &mut KeyTable, name: Word, entry: Entry) -> Result<(), Memory>
    requires { IsIndexed table.old.entries table.old.expiries }
    ensures ok { OnOk result (table.new.entries ≡ put name entry table.old.entries) }
    ensures err { OnErr result (table.new.entries ≡ table.old.entries) }
    ensures indexed { IsIndexed table.new.entries table.new.expiries }
{
    if let Some(there) = table.entries.get_mut(&name) {
        set_expiry(&mut table.expiries, name, there.deadline, entry.deadline)?;
        let old = mem::replace(there, entry);
        set_aside(&mut table.aside, Some(old.value));
        return Ok(());
    }
    put_new(table, name, entry)
}
