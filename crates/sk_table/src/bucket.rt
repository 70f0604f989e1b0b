// The entries whose hashes have one address.
ghost use Rattle.std.specs.Prelude.{◌≡◌, ◌<◌, ◌≤◌, ◌++◌, ◌∷◌, [], IfErr, IfOk, IfSome, None, OnErr, OnOk, Some, filter, length, not, option_map};
ghost use Rattle.std.specs.List.{remove};
ghost use Rattle.sk_table.specs.Hashing.{hash_of, most_half};
ghost use Rattle.sk_table.specs.Slots.{AreHashed, goes_to, has_text, place_of, value_in, with_key};

use crate::slot::Slot;
use crate::{Memory, NoRoom, TextKey};
use std::alloc::Global;
use std::marker::Model;
use std::mem;

// For how many entries more a full bucket takes memory.
const MORE: usize = 2;

/// Entries in a vector. Contracts see the list of them.
#[derive(Drop)]
pub struct Bucket<K, V> {
    slots: Vec<Slot<K, V>>,
}

impl<K, V> Model for Bucket<K, V> {
    ghost use Rattle.std.specs.Prelude.{List};
    ghost use Rattle.sk_table.specs.declared.slot.Slot.{Slot};

    ghost Value = { List (Slot K V) };

    ghost view = { λ b. b.slots.items };
}

// Whether this is the entry of the text. Of a text with another hash it isn't, so that few are compared.
fn is_of<K: TextKey, V>(slot: &Slot<K, V>, hash: u32, text: &[u8]) -> bool
    requires own { slot.now.hash ≡ hash_of (K.text slot.now.key) }
    requires hash { hash ≡ hash_of text.now }
    ensures { result ≡ has_text K.text text.now slot.now }
{
    slot.hash == hash && text == slot.key.bytes()
}

impl<K, V> Bucket<K, V> {
    /// Takes no memory.
    pub fn new(alloc: Global) -> Bucket<K, V>
        ensures { result ≡ [] }
    {
        Bucket {
            slots: Vec::new(alloc),
        }
    }
}

impl<K: TextKey, V> Bucket<K, V> {
    ghost use Rattle.std.specs.Borrow.{sem};
    ghost use Rattle.sk_table.specs.Lends.{lends_value};

    // The index of the text's entry, or how many entries there are.
    fn place_of(&self, hash: u32, text: &[u8]) -> usize
        requires hashed { AreHashed K.text self.now }
        requires hash { hash ≡ hash_of text.now }
        ensures is { result ≡ place_of K.text text.now self.now }
        ensures within { result ≤ length self.now }
    {
        let mut at = 0;
        while at < self.slots.len() && !is_of(&self.slots[at], hash, text) {
            at += 1;
        }
        at
    }

    /// What stands under a text.
    pub fn get(&self, hash: u32, text: &[u8]) -> Option<&V>
        requires hashed { AreHashed K.text self.now }
        requires hash { hash ≡ hash_of text.now }
        ensures { option_map (λ value. value.now) result ≡ value_in K.text text.now self.now }
    {
        let at = self.place_of(hash, text);
        if at == self.slots.len() {
            return None;
        }
        Some(&self.slots[at].value)
    }

    /// Lends what stands under a text.
    pub fn get_mut(&mut self, hash: u32, text: &[u8]) -> Option<&mut V>
        requires hashed { AreHashed K.text self.old }
        requires hash { hash ≡ hash_of text.now }
        ensures* writes_back { sem 𝓛 (lends_value K.row V.row K.text self.entry text.now result) }
        ensures value { option_map (λ value. value.now) result ≡ value_in K.text text.now self.old }
    {
        let at = self.place_of(hash, text);
        match self.slots.get_mut(at) {
            Some(slot) => Some(&mut slot.value),
            None => None,
        }
    }

    /// Puts an entry in. Memory is taken for this one and another, since a bucket has few entries, and a table many buckets.
    pub fn put(&mut self, key: K, hash: u32, value: V) -> Result<(), NoRoom<K, V>>
        ensures ok { OnOk result (self.new ≡ self.old ++ record { key = key; hash = hash; value = value } ∷ []) }
        ensures err { OnErr result (self.new ≡ self.old) }
        ensures back { IfErr result (λ refused. (refused.key ≡ key) × (refused.value ≡ value)) }
    {
        if self.slots.len() == self.slots.capacity() && self.slots.reserve_exact(MORE).is_err() {
            return Err(NoRoom { key, value });
        }
        self.slots.push_reserved(Slot { key, hash, value });
        Ok(())
    }
}

impl<K: TextKey + Drop, V: Drop> Bucket<K, V> {
    /// The key takes the place of the one of the same text, if there is one.
    pub fn renew(&mut self, hash: u32, key: K)
        requires hashed { AreHashed K.text self.old }
        requires hash { hash ≡ hash_of (K.text key) }
        ensures { self.new ≡ with_key K.text key self.old }
    {
        let at = self.place_of(hash, key.bytes());
        if at < self.slots.len() {
            self.slots[at].key = key;
        }
    }

    /// Takes a text's entry out. A bucket with nothing left in it keeps its memory, unless it is told to give it back. Takes no memory.
    pub fn take(&mut self, give_back: Option<Global>, hash: u32, text: &[u8]) -> Option<Slot<K, V>>
        requires hashed { AreHashed K.text self.old }
        requires hash { hash ≡ hash_of text.now }
        ensures is { option_map (λ slot. slot.value) result ≡ value_in K.text text.now self.old }
        ensures text { IfSome result (λ slot. K.text slot.key ≡ text.now) }
        ensures rest { self.new ≡ remove self.old (place_of K.text text.now self.old) }
    {
        let at = self.place_of(hash, text);
        if at == self.slots.len() {
            return None;
        }
        let slot = self.slots.remove(at);
        if let Some(alloc) = give_back {
            if self.slots.is_empty() {
                self.slots = Vec::new(alloc);
            }
        }
        Some(slot)
    }
}

impl<K: Drop, V: Drop> Bucket<K, V> {
    /// The hash of the first entry; 0 where there is none.
    pub fn first_hash(&self) -> u32 {
        match self.slots.first() {
            Some(slot) => slot.hash,
            None => 0,
        }
    }
}

// Whether an entry comes to an address among twice `half`.
fn goes_to<K, V>(slot: &Slot<K, V>, half: u32, address: u32) -> bool
    requires some { 0 < half }
    requires small { half ≤ most_half }
    ensures { result ≡ goes_to half address slot.now }
{
    slot.hash % (half + half) == address
}

impl<K: Drop, V: Drop> Bucket<K, V> {
    // How many entries come to an address among twice `half`.
    fn count_going(&self, half: u32, address: u32) -> usize
        requires some { 0 < half }
        requires small { half ≤ most_half }
        ensures is { result ≡ length (filter (goes_to half address) self.now) }
        ensures within { result ≤ length self.now }
    {
        let mut going = 0;
        for slot in &self.slots {
            if goes_to(slot, half, address) {
                going += 1;
            }
        }
        going
    }

    /// Takes the entries out that come to an address among twice `half`, where there is memory for them elsewhere.
    pub fn part(&mut self, alloc: Global, half: u32, address: u32) -> Result<Bucket<K, V>, Memory>
        requires some { 0 < half }
        requires small { half ≤ most_half }
        ensures far { IfOk result (λ far. far ≡ filter (goes_to half address) self.old) }
        ensures near { OnOk result (self.new ≡ filter (λ slot. not (goes_to half address slot)) self.old) }
        ensures err { OnErr result (self.new ≡ self.old) }
    {
        let going = self.count_going(half, address);
        let mut far = Vec::with_capacity(alloc, going)?;
        let mut near = Vec::with_capacity(alloc, self.slots.len() - going)?;
        for slot in mem::replace(&mut self.slots, Vec::new(alloc)) {
            if goes_to(&slot, half, address) {
                far.push_reserved(slot);
            } else {
                near.push_reserved(slot);
            }
        }
        self.slots = near;
        Ok(Bucket { slots: far })
    }
}
