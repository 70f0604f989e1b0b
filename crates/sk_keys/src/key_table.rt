// What the functions of this crate work on.

ghost use Rattle.std.specs.Prelude.{◌≡◌, []};

use crate::expiries::Expiries;
use sk_resp::Word;
use sk_table::TextTable;
use sk_value::{Entry, Value};
use std::alloc::Global;
use std::collections::BTreeSet;

/// What stands under each name.
pub type Entries = TextTable<Word, Entry>;

/// The entries of all keys, and beside them the index of their deadlines.
#[derive(Drop)]
pub struct KeyTable {
    pub alloc: Global,
    pub entries: Entries,
    pub expiries: Expiries,
    /// The large values that went and aren't freed yet. No contract speaks of them.
    pub aside: Vec<Value>,
}

impl KeyTable {
    /// No keys. Takes no memory.
    pub fn new(alloc: Global) -> KeyTable
        ensures entries { result.entries ≡ [] }
        ensures expiries { result.expiries.keys ≡ [] }
    {
        KeyTable {
            alloc,
            entries: TextTable::new(alloc),
            expiries: BTreeSet::new(alloc),
            aside: Vec::new(alloc),
        }
    }
}
