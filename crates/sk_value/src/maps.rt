// Maps from texts, in which sets and hashes are kept. Many pairs are put in all or not at all: what each text had before is noted, and where
// memory runs out the writes are taken back, the last one first, which takes none.
ghost use Rattle.std.specs.Prelude.{◌≡◌, ◌+◌, ◌-◌, ◌≤◌, ◌<◌, ◌^◌, ◌++◌, ◌∷◌, [], IfOk, OnErr, OnOk, length, vec_len};
ghost use Rattle.std.specs.Vec.{vec_capacity};
ghost use Rattle.sk_value.specs.Maps.{all_put_back, put_back, with_pairs, without_texts};

use sk_resp::{Memory, Word};
use std::collections::BTreeMap;

// A text that was written, with the value that it had before.
type Write<V> = (Word, Option<V>);

/// Puts each pair in turn, all of them or none, and tells how many texts are new.
pub fn insert_all<V: Drop>(
    map: &mut BTreeMap<Word, V>,
    pairs: Vec<(Word, V)>,
) -> Result<usize, Memory>
    ensures ok { OnOk result (map.new.entries ≡ with_pairs pairs.items map.old.entries) }
    ensures count { IfOk result (λ new. new ≡ length map.new.entries - length map.old.entries) }
    ensures small { IfOk result (λ new. new < 2 ^ 63) }
    ensures err { OnErr result (map.new.entries ≡ map.old.entries) }
{
    let before = map.len();
    let mut pairs = pairs;
    let Some(last) = pairs.pop() else {
        return Ok(0);
    };
    let mut writes = Vec::with_capacity(*pairs.allocator(), pairs.len())?;
    match insert_noted(map, &mut writes, pairs, last) {
        Ok(()) => Ok(map.len() - before),
        Err(_) => {
            take_back(map, writes);
            Err(Memory)
        }
    }
}

/// Takes each text out, and tells how many were there. Takes no memory.
pub fn remove_all<V: Drop>(map: &mut BTreeMap<Word, V>, texts: &[Word]) -> usize
    ensures rest { map.new.entries ≡ without_texts texts.now map.old.entries }
    ensures count { result ≡ length map.old.entries - length map.new.entries }
    ensures small { result < 2 ^ 63 }
{
    let before = map.len();
    for text in texts {
        map.remove(text);
    }
    before - map.len()
}

// Puts the pairs and one more at the end, and notes each write but the last: where that one fails there is nothing of it to take back.
#[tactic(auto, using(crate::proofs::TakingBack::with_pairs_last, crate::proofs::TakingBack::all_put_back_more, crate::proofs::TakingBack::write_taken_back))]
fn insert_noted<V: Drop>(
    map: &mut BTreeMap<Word, V>,
    writes: &mut Vec<Write<V>>,
    pairs: Vec<(Word, V)>,
    last: (Word, V),
) -> Result<(), Memory>
    requires { vec_len writes.old + vec_len pairs ≤ vec_capacity writes.old }
    ensures ok { OnOk result (map.new.entries ≡ with_pairs (pairs.items ++ last ∷ []) map.old.entries) }
    ensures more { OnOk result (length map.old.entries ≤ length map.new.entries) }
    ensures err { OnErr result (all_put_back writes.new.items map.new.entries ≡ all_put_back writes.old.items map.old.entries) }
{
    for (text, value) in pairs {
        let copy = text.copy()?;
        let Ok(before) = map.insert(text, value) else {
            return Err(Memory);
        };
        writes.push_reserved((copy, before));
    }
    let (text, value) = last;
    match map.insert(text, value) {
        Ok(_) => Ok(()),
        Err(_) => Err(Memory),
    }
}

// Takes the writes back, the last one first.
#[tactic(auto, using(crate::proofs::TakingBack::all_put_back_more))]
fn take_back<V: Drop>(map: &mut BTreeMap<Word, V>, writes: Vec<Write<V>>)
    ensures { map.new.entries ≡ all_put_back writes.items map.old.entries }
{
    let mut writes = writes;
    while let Some((text, before)) = writes.pop() {
        put_back(map, &text, before);
    }
}

// Gives the text the value that it had, or none.
#[tactic(auto, using(crate::proofs::TakingBack::set_absent))]
fn put_back<V: Drop>(map: &mut BTreeMap<Word, V>, text: &Word, before: Option<V>)
    ensures { map.new.entries ≡ put_back text.now before map.old.entries }
{
    match before {
        None => {
            map.remove(text);
        }
        Some(value) => {
            if let Some(there) = map.get_mut(text) {
                *there = value;
            }
        }
    }
}
