// The members that a head is read from, found in one pass over a text in its usual form. Nothing is said of other forms: `None` isn't a fault.
ghost use Rattle.std.specs.Prelude.{◌≡◌, ◌+◌, ◌≤◌, ◌<◌, IfSome, length, false, true, Some, bytes_eq};
ghost use Rattle.std.specs.Str.{IsUtf8};
ghost use Rattle.serde_json.specs.Data.{Members, object};
ghost use Rattle.serde_json.specs.Written.{members_have_float};
ghost use Rattle.sk_payload.specs.Json.{value, is_short};
ghost use Rattle.sk_payload.specs.Usual.{Tells, slot_of as slot_number};

use crate::front::{Found, comma_front, member_front};
use sk_base::limits::{DEEPEST_SKETCHED, LONGEST_SKETCHED};

fn is(name: &[u8], text: &str) -> bool
    ensures { result ≡ bytes_eq name.now text.now }
{
    name == text.as_bytes()
}

// The slot of a member's name.
#[tactic(auto, unfolding(crate::specs::Usual::slot_of))]
fn slot_of(name: &[u8]) -> Option<usize>
    ensures value { result ≡ slot_number name.now }
    ensures below { IfSome result (λ i. i < 13) }
{
    if is(name, "jid") {
        return Some(0);
    }
    if is(name, "class") {
        return Some(1);
    }
    if is(name, "queue") {
        return Some(2);
    }
    if is(name, "args") {
        return Some(3);
    }
    if is(name, "bid") {
        return Some(4);
    }
    if is(name, "retry") {
        return Some(5);
    }
    if is(name, "retry_count") {
        return Some(6);
    }
    if is(name, "dead") {
        return Some(7);
    }
    if is(name, "created_at") {
        return Some(8);
    }
    if is(name, "unique_for") {
        return Some(9);
    }
    if is(name, "unique_until") {
        return Some(10);
    }
    if is(name, "retry_for") {
        return Some(11);
    }
    if is(name, "failed_at") {
        return Some(12);
    }
    None
}

/// What stands at the members that a head is read from, by their slots.
#[derive(Clone, Copy, Debug, Drop)]
pub struct Slots<'a> {
    pub found: [Option<Found<'a>>; 13],
    /// Where each of these members ends in the text.
    pub ends: [usize; 13],
}

/// What stands at the members that a head is read from, where the text is an object in its usual form.
pub fn slots_of(text: &[u8]) -> Option<Slots<'_>>
    ensures { IfSome result (λ slots. (ms : Members) × (IsUtf8 text.now → value text.now ≡ Some (object ms)) × (members_have_float ms ≡ false)
        × (is_short (object ms) ≡ true) × Tells slots.found ms) }
{
    if text.is_empty() {
        return None;
    }
    if text.len() > LONGEST_SKETCHED {
        return None;
    }
    if text[0] != b'{' {
        return None;
    }
    let mut found = [None; 13];
    let mut ends = [0; 13];
    let mut at = 1;
    let mut later = false;
    while at < text.len() && text[at] != b'}' {
        at += comma_front(&text[at..], later)?;
        let member = member_front(&text[at..], DEEPEST_SKETCHED)?;
        at += member.len;
        later = true;
        if let Some(slot) = slot_of(member.name) {
            found[slot] = Some(member.found);
            ends[slot] = at;
        }
    }
    if at + 1 != text.len() {
        return None;
    }
    Some(Slots { found, ends })
}
