// The table of counts behind `UndoCounts`: an entry may count none until the step that emptied it ends.
ghost use Rattle.std.specs.Prelude.{◌≡◌, [], true, IfOk, None, Some, length};
ghost use Rattle.std.specs.BTreeMap.{is_at};
ghost use Rattle.std.specs.Map.{keys_of, set_value};
ghost use Rattle.std.specs.List.Sorted.{IsStrictlySortedBy};
ghost use Rattle.std.specs.Option.{IsSome, is_some};
ghost use Rattle.sk_resp.specs.WordOrder.{text_cmp};
ghost use Rattle.sk_table.specs.Counts.{count_in, counted, rewound, with_count};
ghost use Rattle.sk_table.specs.CountsInvariant.{AreThere, Keeps};
ghost use Rattle.sk_table.specs.Entries.{at};

use crate::logged::Logged;
use crate::{Memory, TextKey, TextTable};

/// What each text counts.
pub type CountTable<K> = TextTable<K, u32>;

/// How much is counted under a text.
pub fn count_of<K: TextKey + Drop>(table: &CountTable<K>, text: &[u8]) -> u32
    ensures is { result ≡ count_in text.now (counted table.now) }
{
    table.in_order();
    match table.get_by(text) {
        Some(count) => *count,
        None => 0,
    }
}

// A new entry of the key, which counts none.
fn enter_new<K: TextKey + Drop>(table: &mut CountTable<K>, key: K) -> Result<u32, Memory>
    requires { at (K.text key) table.old ≡ None }
    ensures same { counted table.new ≡ counted table.old }
    ensures keeps { Keeps table.old table.new }
    ensures there { IfOk result (λ count. at (K.text key) table.new ≡ Some count) }
{
    table.in_order();
    let Ok(()) = table.insert_new(key, 0) else {
        return Err(Memory);
    };
    Ok(0)
}

/// An entry of the key, which counts none where there was no entry. Answers what it counts.
pub fn enter<K: TextKey + Drop>(table: &mut CountTable<K>, key: K) -> Result<u32, Memory>
    ensures same { counted table.new ≡ counted table.old }
    ensures keeps { Keeps table.old table.new }
    ensures there { IfOk result (λ count. at (K.text key) table.new ≡ Some count) }
{
    if let Some(count) = table.get(&key) {
        return Ok(*count);
    }
    enter_new(table, key)
}

/// Puts a count into an entry, and answers what it was.
pub fn exchange<K: TextKey + Drop>(
    table: &mut CountTable<K>,
    text: &[u8],
    count: u32,
) -> Option<u32>
    ensures is { result ≡ at text.now table.old }
    ensures counts { IsSome (at text.now table.old) → counted table.new ≡ with_count text.now count (counted table.old) }
    ensures keys { keys_of table.new ≡ keys_of table.old }
    ensures ordered { IsStrictlySortedBy text_cmp (keys_of table.old) }
{
    match table.get_mut_by(text) {
        Some(there) => {
            let old = *there;
            *there = count;
            Some(old)
        }
        None => None,
    }
}

/// Takes an entry out, and answers whether it counted any.
pub fn take_out<K: TextKey + Drop>(table: &mut CountTable<K>, text: &[u8]) -> bool
    ensures answer { result ≡ is_some (at text.now (counted table.old)) }
    ensures counts { counted table.new ≡ with_count text.now 0 (counted table.old) }
{
    table.in_order();
    let Some((_key, count)) = table.remove_by(text) else {
        return false;
    };
    count > 0
}

// Whether an entry is there and counts none.
fn counts_none<K: TextKey + Drop>(table: &CountTable<K>, key: &K) -> bool
    ensures { result ≡ true → at (K.text key.now) table.now ≡ Some 0 }
{
    match table.get(key) {
        Some(count) => *count == 0,
        None => false,
    }
}

// Takes an entry out, where it counts none.
fn drop_none<K: TextKey + Drop>(table: &mut CountTable<K>, key: &K)
    ensures { counted table.new ≡ counted table.old }
{
    table.in_order();
    if counts_none(table, key) {
        table.remove(key);
    }
}

/// Takes the entries of a log out that count none.
pub fn clean<K: TextKey + Drop>(table: &mut CountTable<K>, log: &mut Vec<Logged<K>>)
    ensures counts { counted table.new ≡ counted table.old }
    ensures log { log.new.items ≡ [] }
{
    'edits: while let Some(edit) = log.pop() {
        drop_none(table, &edit.key);
    }
}

// An entry counts what it did before an edit.
fn restore<K: TextKey + Drop>(table: &mut CountTable<K>, edit: &Logged<K>)
    requires { is_some (at (K.text edit.now.key) table.old) ≡ true }
    ensures counts { counted table.new ≡ with_count (K.text edit.now.key) edit.now.count (counted table.old) }
    ensures keeps { Keeps table.old table.new }
{
    exchange(table, edit.key.bytes(), edit.count);
}

/// Each entry counts what it did before the edits of the log, the newest of which is taken back first.
pub fn rewind<K: TextKey + Drop>(table: &mut CountTable<K>, log: &Vec<Logged<K>>)
    requires { AreThere K.text log.now.items table.old }
    ensures { counted table.new ≡ rewound K.text log.now.items (counted table.old) }
{
    let mut left = log.len();
    while left > 0 {
        left -= 1;
        restore(table, &log[left]);
    }
}
