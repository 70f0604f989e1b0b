// `LMOVE source destination LEFT|RIGHT LEFT|RIGHT`. A copy of the text goes to the destination first, which may fail with nothing changed. Only
// then the text is taken from the source, which can't fail.
ghost use Rattle.std.specs.Prelude.{◌≡◌, None, IfOk, OnErr, OnOk, option_map, true, false};
ghost use Rattle.std.specs.List.Sorted.{IsStrictlySortedBy};
ghost use Rattle.std.specs.Map.{keys_of};
ghost use Rattle.std.specs.Option.{is_some};
ghost use Rattle.std.specs.Str.{bytes_eq};
ghost use Rattle.sk_value.specs.Answer.{AnswersWith, text_or_null};
ghost use Rattle.sk_value.specs.Apply.{list_at, move_keys};
ghost use Rattle.sk_value.specs.Keys.{at};
ghost use Rattle.sk_value.specs.Lists.{end_of, push_one, take_one};
ghost use Rattle.sk_resp.specs.WordOrder.{text_cmp};
ghost use Rattle.sk_keys.specs.Index.{IsIndexed};
ghost use Rattle.sk_keys.specs.Moves.{IsTaken, push_at, take_at, turned};

use crate::delete::remove;
use crate::key_table::{Entries, KeyTable};
use crate::put::put_new;
use sk_cmd::Side;
use sk_resp::{Memory, Reply, Word};
use sk_value::{Entry, Items, KeysFault, Value};

// Whether the name is that of a list, or of no key.
fn may_hold_list(entries: &Entries, name: &Word) -> bool
    ensures { result ≡ is_some (list_at (at name.now entries.now)) }
{
    match entries.get(name) {
        None => true,
        Some(entry) => matches!(&entry.value, Value::List(_)),
    }
}

// Puts the text at that end of the list under the name. A new list has no deadline.
#[tactic(auto, using(crate::proofs::Puts::put_present, std::proofs::lemmas::Map::Steps::set_value_same))]
fn push_at(table: &mut KeyTable, name: Word, side: Side, text: Word) -> Result<(), Memory>
    requires indexed { IsIndexed table.old.entries table.old.expiries }
    requires list { is_some (list_at (at name table.old.entries)) ≡ true }
    ensures ok { OnOk result (table.new.entries ≡ push_at name side text table.old.entries) }
    ensures err { OnErr result (table.new.entries ≡ table.old.entries) }
    ensures was_ordered { OnOk result (IsStrictlySortedBy text_cmp (keys_of table.old.entries)) }
    ensures indexed { IsIndexed table.new.entries table.new.expiries }
{
    if let Some(there) = table.entries.get_mut(&name) {
        let Value::List(list) = &mut there.value else {
            unreachable!();
        };
        return list.push(side, text);
    }
    let mut list = Items::new(table.alloc);
    list.push(side, text)?;
    let entry = Entry {
        value: Value::List(list),
        deadline: None,
    };
    put_new(table, name, entry)
}

// Takes the text from that end of the list under the name, which goes when it is empty.
#[tactic(auto, using(crate::proofs::Puts::put_present, crate::proofs::Puts::without_set, std::proofs::lemmas::Map::Steps::set_value_same))]
fn take_at(table: &mut KeyTable, name: &Word, side: Side) -> Option<Word>
    requires { IsIndexed table.old.entries table.old.expiries }
    ensures taken { IsTaken (take_at name.now side table.old.entries) result table.new.entries }
    ensures indexed { IsIndexed table.new.entries table.new.expiries }
{
    let there = table.entries.get_mut(name)?;
    let Value::List(list) = &mut there.value else {
        return None;
    };
    let text = list.take(side)?;
    if list.len() == 0 {
        remove(table, name);
    }
    Some(text)
}

// Moves the text from one end of a list to an end of the same one.
#[tactic(auto, using(crate::proofs::Moves::turn_text))]
fn turn(list: &mut Items, from: Side, to: Side) -> Result<Option<Word>, Memory>
    ensures ok { OnOk result (list.new ≡ turned to list.old (take_one from list.old)) }
    ensures text { IfOk result (λ text. text ≡ end_of from list.old) }
    ensures err { OnErr result (list.new ≡ list.old) }
{
    let Some(text) = list.copy_end(from)? else {
        return Ok(None);
    };
    list.push(to, text)?;
    Ok(list.take(from))
}

// The text, or null where there is none.
fn text_or_null(text: Option<Word>) -> Reply
    ensures { result ≡ text_or_null text }
{
    match text {
        None => Reply::Null,
        Some(text) => Reply::Bulk(text),
    }
}

// `LMOVE` where source and destination are one key.
#[tactic(auto, using(crate::proofs::Moves::moved_within, std::proofs::lemmas::Map::Steps::set_value_same), unfolding(sk_value::specs::Apply::move_keys))]
fn move_within(table: &mut KeyTable, name: &Word, from: Side, to: Side) -> Result<Reply, KeysFault>
    requires { IsIndexed table.old.entries table.old.expiries }
    ensures answer { AnswersWith (move_keys name.now name.now from to table.old.entries).answer result }
    ensures ok { OnOk result (table.new.entries ≡ (move_keys name.now name.now from to table.old.entries).keys) }
    ensures err { OnErr result (table.new.entries ≡ table.old.entries) }
    ensures indexed { IsIndexed table.new.entries table.new.expiries }
{
    let Some(there) = table.entries.get_mut(name) else {
        return Ok(Reply::Null);
    };
    let Value::List(list) = &mut there.value else {
        return Err(KeysFault::WrongType);
    };
    Ok(text_or_null(turn(list, from, to)?))
}

// `LMOVE` from one key to another.
#[tactic(auto, using(crate::proofs::Moves::moved_between), unfolding(sk_value::specs::Apply::move_keys))]
fn move_between(
    table: &mut KeyTable,
    source: &Word,
    destination: Word,
    from: Side,
    to: Side,
) -> Result<Reply, KeysFault>
    requires indexed { IsIndexed table.old.entries table.old.expiries }
    requires apart { bytes_eq source.now destination ≡ false }
    ensures answer { AnswersWith (move_keys source.now destination from to table.old.entries).answer result }
    ensures ok { OnOk result (table.new.entries ≡ (move_keys source.now destination from to table.old.entries).keys) }
    ensures err { OnErr result (table.new.entries ≡ table.old.entries) }
    ensures indexed { IsIndexed table.new.entries table.new.expiries }
{
    let Some(there) = table.entries.get(source) else {
        return Ok(Reply::Null);
    };
    let Value::List(list) = &there.value else {
        return Err(KeysFault::WrongType);
    };
    if !may_hold_list(&table.entries, &destination) {
        return Err(KeysFault::WrongType);
    }
    let Some(text) = list.copy_end(from)? else {
        return Ok(Reply::Null);
    };
    push_at(table, destination, to, text)?;
    Ok(text_or_null(take_at(table, source, from)))
}

/// Moves the text from one end of a list to an end of a list. A source with nothing left in it goes.
pub fn move_text(
    table: &mut KeyTable,
    source: Word,
    destination: Word,
    from: Side,
    to: Side,
) -> Result<Reply, KeysFault>
    requires { IsIndexed table.old.entries table.old.expiries }
    ensures answer { AnswersWith (move_keys source destination from to table.old.entries).answer result }
    ensures ok { OnOk result (table.new.entries ≡ (move_keys source destination from to table.old.entries).keys) }
    ensures err { OnErr result (table.new.entries ≡ table.old.entries) }
    ensures indexed { IsIndexed table.new.entries table.new.expiries }
{
    if source == destination {
        move_within(table, &source, from, to)
    } else {
        move_between(table, &source, destination, from, to)
    }
}
