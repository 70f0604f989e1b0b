// Of the keys that an action names those go first that are over: a purge may have left them.
ghost use Rattle.std.specs.Prelude.{◌≡◌, ◌≤◌, ◌&&◌, min, not, true, false};
ghost use Rattle.std.specs.Option.{is_some};
ghost use Rattle.std.specs.List.Sorted.{IsStrictlySortedBy};
ghost use Rattle.std.specs.Map.{keys_of};
ghost use Rattle.sk_resp.specs.WordOrder.{text_cmp};
ghost use Rattle.sk_value.specs.Keys.{at, is_over, purged};
ghost use Rattle.sk_keys.specs.Index.{IsIndexed};
ghost use Rattle.sk_keys.specs.Past.{AreAhead, all_dropped, dropped, is_past, named};

use crate::delete::remove;
use crate::key_table::{Entries, KeyTable};
use crate::purges::purge_all;
use sk_resp::{Word, Words};
use sk_value::Action;

// Whether the moment has reached the deadline.
fn is_over(over: u64, deadline: Option<u64>) -> bool
    ensures { result ≡ is_over over deadline }
{
    match deadline {
        None => false,
        Some(deadline) => deadline <= over,
    }
}

/// Whether a key stands under the name that is over.
pub fn is_past(entries: &Entries, over: u64, name: &Word) -> bool
    ensures { result ≡ is_past over (at name.now entries.now) }
{
    match entries.get(name) {
        None => false,
        Some(entry) => is_over(over, entry.deadline),
    }
}

/// Whether a key stands under the name that isn't over.
pub fn has_ahead(entries: &Entries, over: u64, name: &Word) -> bool
    ensures { result ≡ (is_some (at name.now entries.now) && not (is_past over (at name.now entries.now))) }
{
    match entries.get(name) {
        None => false,
        Some(entry) => !is_over(over, entry.deadline),
    }
}

// The key goes, if it is over.
fn drop_past(table: &mut KeyTable, over: u64, name: &Word)
    requires { IsIndexed table.old.entries table.old.expiries }
    ensures keys { table.new.entries ≡ dropped over name.now table.old.entries }
    ensures indexed { IsIndexed table.new.entries table.new.expiries }
{
    if is_past(&table.entries, over, name) {
        remove(table, name);
    }
}

// Each of the keys goes that is over.
fn drop_each(table: &mut KeyTable, over: u64, names: &Words)
    requires { IsIndexed table.old.entries table.old.expiries }
    ensures keys { table.new.entries ≡ all_dropped over names.now table.old.entries }
    ensures indexed { IsIndexed table.new.entries table.new.expiries }
{
    let list = names.list();
    for name in list {
        drop_past(table, over, name);
    }
}

// Each of the keys goes that the action names and that is over.
fn drop_named(table: &mut KeyTable, over: u64, action: &Action)
    requires { IsIndexed table.old.entries table.old.expiries }
    ensures keys { table.new.entries ≡ all_dropped over (named action.now) table.old.entries }
    ensures indexed { IsIndexed table.new.entries table.new.expiries }
{
    match action {
        Action::ReadOp(name, _)
        | Action::WriteOp(name, _)
        | Action::Set(name, _, _)
        | Action::Expire(name, _)
        | Action::Give(name, _) => drop_past(table, over, name),
        Action::Exists(names) | Action::Delete(names) => drop_each(table, over, names),
        Action::Move(source, destination, _, _) => {
            drop_past(table, over, source);
            drop_past(table, over, destination);
        }
        Action::Ping | Action::Echo(_) | Action::Quit | Action::Flush => {}
    }
}

/// Before an action at the moment `now`: the keys go that it names and that are over, and the answer is whether others that are over may still
/// stand. A `now` before `over` takes its place from then on, so that each deadline that the action makes lies ahead: then all that are over go.
pub fn settle(table: &mut KeyTable, over: u64, behind: bool, now: u64, action: &Action) -> bool
    requires indexed { IsIndexed table.old.entries table.old.expiries }
    requires clean { behind ≡ false → purged over table.old.entries ≡ table.old.entries }
    ensures keys { purged (min over now) table.new.entries ≡ purged over table.old.entries }
    ensures ahead { AreAhead (min over now) (named action.now) table.new.entries }
    ensures clean { result ≡ false → purged (min over now) table.new.entries ≡ table.new.entries }
    ensures ordered { IsStrictlySortedBy text_cmp (keys_of table.new.entries) }
    ensures indexed { IsIndexed table.new.entries table.new.expiries }
{
    table.entries.in_order();
    if !behind {
        return false;
    }
    let early = now < over;
    if early {
        purge_all(table, over);
        table.entries.in_order();
        return false;
    }
    drop_named(table, over, action);
    table.entries.in_order();
    true
}
