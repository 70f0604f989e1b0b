// The head of a text: the text is parsed once, and each member is looked up in its value.
ghost use Rattle.std.specs.Prelude.{◌≡◌, ◌≤◌, IfOk, IsSome, Some, None, Err, false, option_map};
ghost use Rattle.json.specs.Word.{is_space as is_json_space};
ghost use Rattle.serde_json.specs.Data.{depth, members_depth, object};
ghost use Rattle.serde_json.specs.Find.{as_object};
ghost use Rattle.serde_json.specs.View.{view, members_view};
ghost use Rattle.serde_json.specs.Written.{has_float as value_has_float};
ghost use Rattle.sk_payload.specs.Json.{opens_object as opens_an_object, value as value_in};
ghost use Rattle.sk_payload.specs.Reading.{Gives};
ghost use Rattle.sk_payload.specs.declared.no_head.NoHead.TheVariants.{Wrong};
ghost use Rattle.sk_payload.specs.Head.{head, head_of_value as head_in_value, head_of_object as head_in_object};

use crate::head::{Head, Lock};
use crate::length::is_short;
use crate::no_head::NoHead;
use crate::sketch::usual_head;
use crate::whole::has_float;
use crate::{Memory, member};
use serde_json::{Map, Value};
use sk_base::limits::{LONGEST_ID, LONGEST_NAME};
use std::alloc::Global;

// The JSON value of some bytes.
fn read_value(alloc: Global, bytes: &[u8]) -> Result<Value, NoHead>
    ensures ok { IfOk result (λ found. value_in bytes.now ≡ Some (view found)) }
    ensures wrong { result ≡ Err Wrong → value_in bytes.now ≡ None }
    ensures nests { IfOk result (λ found. depth (view found) ≤ 127) }
{
    match Value::from_slice(alloc, bytes) {
        Ok(value) => Ok(value),
        Err(error) => if error.is_memory() {
            Err(NoHead::Memory)
        } else {
            Err(NoHead::Wrong)
        },
    }
}

// The members of an object.
fn object_of(value: Value) -> Option<Map<String, Value>>
    ensures { option_map (λ map. members_view map.entries) result ≡ as_object (view value) }
{
    match value {
        Value::Object(map) => Some(map),
        _ => None,
    }
}

/// The members of a text that has a head.
pub fn read_members(alloc: Global, text: &[u8]) -> Result<Map<String, Value>, Memory>
    requires { IsSome (head text.now) }
    ensures value { IfOk result (λ map. value_in text.now ≡ Some (object (members_view map.entries))) }
    ensures nests { IfOk result (λ map. members_depth (members_view map.entries) ≤ 126) }
{
    let value = match read_value(alloc, text) {
        Ok(value) => value,
        Err(NoHead::Wrong) => unreachable!(),
        Err(NoHead::Memory) => return Err(Memory),
    };
    let Some(map) = object_of(value) else {
        unreachable!()
    };
    Ok(map)
}

// The head of a value without a float.
#[tactic(auto, unfolding(crate::specs::Head::head_of_object))]
fn head_of_object(alloc: Global, value: &Value) -> Result<Head, NoHead>
    requires { value_has_float (view value.now) ≡ false }
    ensures { Gives result (head_in_object (view value.now)) }
{
    let jid = member::name(alloc, value, "jid", LONGEST_ID)?;
    let class = member::name(alloc, value, "class", LONGEST_NAME)?;
    let queue = member::name(alloc, value, "queue", LONGEST_NAME)?;
    let args = member::args(alloc, value)?;
    let bid = member::bid(alloc, value)?;
    let retry = member::retry(value).ok_or(NoHead::Wrong)?;
    let gen_ = member::generation(value).ok_or(NoHead::Wrong)?;
    let dead = member::dead(value).ok_or(NoHead::Wrong)?;
    let created = member::created(value).ok_or(NoHead::Wrong)?;
    let seconds = member::seconds(value, "unique_for").ok_or(NoHead::Wrong)?;
    let until = member::until(value).ok_or(NoHead::Wrong)?;
    let retry_for = member::seconds(value, "retry_for").ok_or(NoHead::Wrong)?;
    let first_failed = member::first_failed(value, retry_for).ok_or(NoHead::Wrong)?;
    Ok(Head {
        jid,
        class,
        queue,
        args,
        retry,
        retry_for,
        gen_,
        bid,
        lock: seconds.map(|seconds| Lock { seconds, until }),
        dead,
        created,
        first_failed,
    })
}

// The head of a value.
#[tactic(auto, unfolding(crate::specs::Head::head_of_value))]
fn head_of_value(alloc: Global, value: Value) -> Result<Head, NoHead>
    ensures { Gives result (head_in_value (view value)) }
{
    if has_float(&value) {
        return Err(NoHead::Wrong);
    }
    let head = head_of_object(alloc, &value)?;
    if is_short(alloc, value)? {
        Ok(head)
    } else {
        Err(NoHead::Wrong)
    }
}

// The head of a text.
#[tactic(auto, unfolding(crate::specs::Head::head))]
fn head_of(alloc: Global, text: &[u8]) -> Result<Head, NoHead>
    ensures { Gives result (head text.now) }
{
    head_of_value(alloc, read_value(alloc, text)?)
}

// JSON's whitespace.
fn is_space(byte: u8) -> bool
    ensures { result ≡ is_json_space byte }
{
    matches!(byte, b' ' | b'\t' | b'\n' | b'\r')
}

// Whether the first byte that is no whitespace opens an object.
fn opens_object(text: &[u8]) -> bool
    ensures { result ≡ opens_an_object text.now }
{
    for byte in text {
        if !is_space(*byte) {
            return *byte == b'{';
        }
    }
    false
}

/// The head of a text, where there is one. A text that opens no object has none, and isn't parsed.
pub fn read_head(alloc: Global, text: &[u8]) -> Result<Option<Head>, Memory>
    ensures { IfOk result (λ found. found ≡ head text.now) }
{
    if let Some(head) = usual_head(alloc, text)? {
        return Ok(Some(head));
    }
    if !opens_object(text) {
        return Ok(None);
    }
    match head_of(alloc, text) {
        Ok(head) => Ok(Some(head)),
        Err(NoHead::Wrong) => Ok(None),
        Err(NoHead::Memory) => Err(Memory),
    }
}
