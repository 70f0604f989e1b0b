// What was removed, until it is freed.

use crate::expiries::Expiries;
use crate::key_table::Entries;
use sk_resp::Word;
use sk_value::{Entry, Value};

// From so many elements on a value is freed apart from the command that removes it.
const MANY: u64 = 64;

/// All keys that were removed at once.
#[derive(Drop)]
pub struct AllKeys {
    pub entries: Entries,
    pub expiries: Expiries,
}

/// All keys that were removed at once, and the large values of others that were. To drop it gives their memory back, in time for each key or
/// element.
#[derive(Drop)]
pub struct RemovedKeys {
    pub(crate) all: Option<AllKeys>,
    pub(crate) values: Vec<Value>,
}

// Whether it takes long to free the value.
fn is_large(value: &Value) -> bool {
    let len = match value {
        Value::String(_) => 0,
        Value::List(items) => items.len() as u64,
        Value::Set(members) => members.len() as u64,
        Value::Hash(fields) => fields.len() as u64,
        Value::Sorted(pairs) => pairs.len() as u64,
    };
    len >= MANY
}

/// A value that was removed is kept aside, if it takes long to free. Wants no memory: where there is none, it is freed at once.
pub fn set_aside(aside: &mut Vec<Value>, value: Option<Value>) {
    if let Some(value) = value {
        if is_large(&value) {
            let _kept = aside.push(value);
        }
    }
}

/// The same of the value of an entry.
pub fn set_entry_aside(aside: &mut Vec<Value>, gone: Option<(Word, Entry)>) {
    if let Some((_, entry)) = gone {
        set_aside(aside, Some(entry.value));
    }
}
