// A hash table that grows by a bucket at a time.
ghost use Rattle.std.specs.Prelude.{◌≡◌, ◌<◌, ◌+◌, [], IfErr, IfSome, None, OnErr, OnOk, length, option_map};
ghost use Rattle.std.specs.Map.{keys_of};
ghost use Rattle.std.specs.List.Sorted.{IsStrictlySortedBy};
ghost use Rattle.std.specs.Option.{is_some};
ghost use Rattle.sk_resp.specs.WordOrder.{text_cmp};
ghost use Rattle.sk_table.specs.Entries.{at, with_text, without_text};
ghost use Rattle.sk_table.specs.Table.{IsTable, table_in};

use crate::bucket::Bucket;
use crate::hashing::{MOST_HALF, address_of, hash_of};
use crate::{Memory, NoRoom, TextKey};
use std::alloc::Global;
use std::marker::Model;

// How many entries a bucket has on average before there is one more.
const LOAD: usize = 4;

// Up to so many buckets, one with nothing left in it keeps its memory for the next entry.
const FEW: usize = 64;

/// Entries of a key and a value, each found by the bytes of its key. Contracts see the list of texts with their values, in the order of the texts.
#[derive(Drop)]
pub struct TextTable<K: TextKey, V> {
    alloc: Global,
    buckets: Vec<Bucket<K, V>>,
    // A power of two, at most the number of buckets and at least half of it; 0 where there is none.
    half: u32,
    // How many entries there are. No contract speaks of it: the table grows by it.
    count: usize,
}

impl<K: TextKey, V> Model for TextTable<K, V> {
    ghost use Rattle.std.specs.Prelude.{List, ℕ};
    ghost use Rattle.std.specs.Coded.{coded_list, coded×, coded_ℕ};
    ghost use Rattle.sk_table.specs.Table.{IsTable, table_in};

    ghost Value = { List (List ℕ × V) };

    ghost coded = { coded_list (coded× (coded_list coded_ℕ) V.code) };

    ghost view = { λ t. table_in K.text t.buckets.items };

    ghost invariant = { λ t. IsTable K.text t.half t.buckets.items };
}

// The first bucket, if there is memory for it. Answers how many there are.
fn open<K: TextKey + Drop, V: Drop>(alloc: Global, buckets: &mut Vec<Bucket<K, V>>) -> u32
    requires { IsTable K.text 0 buckets.old.items }
    ensures table { IsTable K.text result buckets.new.items }
    ensures same { table_in K.text buckets.new.items ≡ table_in K.text buckets.old.items }
{
    let Ok(()) = buckets.push(Bucket::new(alloc)) else {
        return 0;
    };
    1
}

// Where each address has a bucket, there are twice as many addresses.
fn widen<K: TextKey, V>(half: u32, buckets: &Vec<Bucket<K, V>>) -> u32
    requires table { IsTable K.text half buckets.now.items }
    requires some { 0 < half }
    ensures table { IsTable K.text result buckets.now.items }
    ensures some { 0 < result }
{
    if half <= MOST_HALF / 2 && buckets.len() == (half + half) as usize {
        half + half
    } else {
        half
    }
}

// Another bucket takes what comes to its address, all of it from one other. Where there is no memory for it nothing has changed.
fn split<K: TextKey + Drop, V: Drop>(
    alloc: Global,
    half: u32,
    buckets: &mut Vec<Bucket<K, V>>,
) -> Result<(), Memory>
    requires table { IsTable K.text half buckets.old.items }
    requires some { 0 < half }
    requires room { length buckets.old.items < half + half }
    ensures table { IsTable K.text half buckets.new.items }
    ensures same { table_in K.text buckets.new.items ≡ table_in K.text buckets.old.items }
{
    let count = buckets.len();
    let from = count - half as usize;
    buckets.reserve(1)?;
    let far = buckets[from].part(alloc, half, count as u32)?;
    buckets.push_reserved(far);
    Ok(())
}

impl<K: TextKey, V> TextTable<K, V> {
    ghost use Rattle.std.specs.Borrow.{sem};
    ghost use Rattle.sk_table.specs.TableLends.{lends_at};

    /// Lends what stands under the bytes of a key.
    pub fn get_mut(&mut self, key: &K) -> Option<&mut V>
        ensures* writes_back { sem 𝓛 (lends_at K.row V.row K.TextKey self.entry (K.text key.now) result) }
        ensures value { option_map (λ value. value.now) result ≡ at (K.text key.now) self.old }
        ensures ordered { IsStrictlySortedBy text_cmp (keys_of self.old) }
    {
        let text = key.bytes();
        let hash = hash_of(text);
        let here = address_of(self.half, self.buckets.len(), hash);
        match self.buckets.get_mut(here) {
            Some(bucket) => bucket.get_mut(hash, text),
            None => None,
        }
    }
}

impl<K: TextKey + Drop, V: Drop> TextTable<K, V> {
    /// Takes no memory.
    pub fn new(alloc: Global) -> TextTable<K, V>
        ensures { result ≡ [] }
    {
        TextTable {
            alloc,
            buckets: Vec::new(alloc),
            half: 0,
            count: 0,
        }
    }

    /// Does nothing: its contract says that the texts ascend.
    pub fn in_order(&self)
        ensures { IsStrictlySortedBy text_cmp (keys_of self.now) }
    {
        let _half = self.half;
    }

    /// Takes all entries out. Takes no memory.
    pub fn clear(&mut self)
        ensures { self.new ≡ [] }
    {
        self.buckets = Vec::new(self.alloc);
        self.half = 0;
        self.count = 0;
    }

    /// What stands under the bytes of a key.
    pub fn get(&self, key: &K) -> Option<&V>
        ensures { option_map (λ value. value.now) result ≡ at (K.text key.now) self.now }
    {
        let text = key.bytes();
        let hash = hash_of(text);
        let here = address_of(self.half, self.buckets.len(), hash);
        if here >= self.buckets.len() {
            return None;
        }
        self.buckets[here].get(hash, text)
    }

    /// Whether something stands under the bytes of a key.
    pub fn has(&self, key: &K) -> bool
        ensures { result ≡ is_some (at (K.text key.now) self.now) }
    {
        self.get(key).is_some()
    }

    /// Puts an entry in under a text that has none.
    pub fn insert_new(&mut self, key: K, value: V) -> Result<(), NoRoom<K, V>>
        requires { at (K.text key) self.old ≡ None }
        ensures ok { OnOk result (self.new ≡ with_text (K.text key) value self.old) }
        ensures err { OnErr result (self.new ≡ self.old) }
        ensures back { IfErr result (λ refused. (K.text refused.key ≡ K.text key) × (refused.value ≡ value)) }
    {
        self.grow();
        let hash = hash_of(key.bytes());
        let here = address_of(self.half, self.buckets.len(), hash);
        if here >= self.buckets.len() {
            return Err(NoRoom { key, value });
        }
        self.buckets[here].put(key, hash, value)?;
        self.count = self.count.saturating_add(1);
        Ok(())
    }

    /// Takes out what stands under the bytes of a key. Takes no memory.
    pub fn remove(&mut self, key: &K) -> Option<(K, V)>
        ensures is { option_map (λ entry. entry.1) result ≡ at (K.text key.now) self.old }
        ensures same { IfSome result (λ entry. K.text entry.0 ≡ K.text key.now) }
        ensures rest { self.new ≡ without_text (K.text key.now) self.old }
    {
        let text = key.bytes();
        let hash = hash_of(text);
        let here = address_of(self.half, self.buckets.len(), hash);
        if here >= self.buckets.len() {
            return None;
        }
        let give_back = (self.buckets.len() > FEW).then_some(self.alloc);
        let slot = self.buckets[here].take(give_back, hash, text)?;
        self.count = self.count.saturating_sub(1);
        Some((slot.key, slot.value))
    }

    // Where there are more entries than the buckets are for, there is one more bucket, if there is memory for it.
    fn grow(&mut self)
        ensures { self.new ≡ self.old }
    {
        if self.count / LOAD < self.buckets.len() {
            return;
        }
        if self.half == 0 {
            self.half = open(self.alloc, &mut self.buckets);
            return;
        }
        self.half = widen(self.half, &self.buckets);
        if self.buckets.len() < (self.half + self.half) as usize {
            let _full = split(self.alloc, self.half, &mut self.buckets);
        }
    }
}

impl<K: TextKey + Drop, V: Drop> TextTable<K, V> {
    /// What stands under these bytes.
    pub fn get_by(&self, text: &[u8]) -> Option<&V>
        ensures { option_map (λ value. value.now) result ≡ at text.now self.now }
    {
        let hash = hash_of(text);
        let here = address_of(self.half, self.buckets.len(), hash);
        if here >= self.buckets.len() {
            return None;
        }
        self.buckets[here].get(hash, text)
    }

    /// The hash of the first entry where one with this hash would stand; 0 where there is none. Who looks many texts up asks this first of each, so
    /// that the processor fetches their entries side by side.
    pub fn look_at(&self, hash: u32) -> u32 {
        let here = address_of(self.half, self.buckets.len(), hash);
        if here >= self.buckets.len() {
            return 0;
        }
        self.buckets[here].first_hash()
    }

    /// The key takes the place of an equal one, if there is one.
    pub fn renew(&mut self, key: K)
        ensures { self.new ≡ self.old }
    {
        let hash = hash_of(key.bytes());
        let here = address_of(self.half, self.buckets.len(), hash);
        if here < self.buckets.len() {
            self.buckets[here].renew(hash, key);
        }
    }

    /// Takes out what stands under these bytes. Takes no memory.
    pub fn remove_by(&mut self, text: &[u8]) -> Option<(K, V)>
        ensures is { option_map (λ entry. entry.1) result ≡ at text.now self.old }
        ensures same { IfSome result (λ entry. K.text entry.0 ≡ text.now) }
        ensures rest { self.new ≡ without_text text.now self.old }
    {
        let hash = hash_of(text);
        let here = address_of(self.half, self.buckets.len(), hash);
        if here >= self.buckets.len() {
            return None;
        }
        let give_back = (self.buckets.len() > FEW).then_some(self.alloc);
        let slot = self.buckets[here].take(give_back, hash, text)?;
        self.count = self.count.saturating_sub(1);
        Some((slot.key, slot.value))
    }
}

impl<K: TextKey, V> TextTable<K, V> {
    ghost use Rattle.std.specs.Borrow.{sem};
    ghost use Rattle.sk_table.specs.TableLends.{lends_at};

    /// Lends what stands under these bytes.
    pub fn get_mut_by(&mut self, text: &[u8]) -> Option<&mut V>
        ensures* writes_back { sem 𝓛 (lends_at K.row V.row K.TextKey self.entry text.now result) }
        ensures value { option_map (λ value. value.now) result ≡ at text.now self.old }
        ensures ordered { IsStrictlySortedBy text_cmp (keys_of self.old) }
    {
        let hash = hash_of(text);
        let here = address_of(self.half, self.buckets.len(), hash);
        match self.buckets.get_mut(here) {
            Some(bucket) => bucket.get_mut(hash, text),
            None => None,
        }
    }
}
