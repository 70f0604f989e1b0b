// The head of a text in its usual form, from what stands at its members. Nothing is said where a member is unlike what it usually is: `None` isn't
// a fault.
ghost use Rattle.std.specs.Prelude.{◌≡◌, Option, IfSome, IfOk, Some, None, option_map, true};
ghost use Rattle.serde_json.specs.Data.{Data, Members, object};
ghost use Rattle.serde_json.specs.Find.{as_bool};
ghost use Rattle.sk_payload.specs.Head.{head as head_in, head_of_object};
ghost use Rattle.sk_payload.specs.Member.{is_name as name_test, required, optional, name_of as name_in, seconds_of as seconds_in, moment_of as moment_in, args_of as args_in, retry_of as retry_in, generation_of as generation_in, first_failed_of as first_failed_in, lock_of as lock_in, until_of as until_in};
ghost use Rattle.sk_payload.specs.Usual.{AreTexts, IsPlainAscii, ShowsIf, Tells, head_of_sketch};
ghost use Rattle.sk_payload.specs.declared.head.Retry.TheVariants.{Default};
ghost use Rattle.sk_payload.specs.declared.head.Until.TheVariants.{Success};

use crate::Memory;
use crate::front::Found;
use crate::head::{Head, Lock, Retry, Until};
use crate::member::is_named;
use crate::slots::slots_of;
use sk_base::limits::{
    LAST_CALENDAR_MOMENT, LAST_GENERATION, LONGEST_ID, LONGEST_NAME, MOST_RETRIES, MOST_SECONDS,
};
use sk_resp::Text;
use std::alloc::Global;
use std::str;

// Whether characters of ASCII that can be shown are a name of at most so many bytes: only how many they are is looked at.
fn is_named_in_ascii(bytes: &[u8], most: usize) -> bool
    ensures { result ≡ true → IsPlainAscii bytes.now → name_test most bytes.now ≡ true }
{
    !bytes.is_empty() && bytes.len() <= most
}

// A string that is a name of at most so many bytes.
fn name_of<'a>(found: Option<Found<'a>>, most: usize) -> Option<&'a [u8]>
    ensures { IfSome result (λ text. (o : Option Data) → ShowsIf found.entry o → required (name_in most) o ≡ Some text.now) }
{
    match found {
        Some(Found::Ascii(bytes)) => if is_named_in_ascii(bytes, most) {
            Some(bytes)
        } else {
            None
        },
        Some(Found::Text(bytes)) => if is_named(bytes, most) {
            Some(bytes)
        } else {
            None
        },
        _ => None,
    }
}

// The text of an array.
fn args_of<'a>(found: Option<Found<'a>>) -> Option<&'a [u8]>
    ensures { IfSome result (λ text. (o : Option Data) → ShowsIf found.entry o → required args_in o ≡ Some text.now) }
{
    match found {
        Some(Found::Array(bytes)) => Some(bytes),
        _ => None,
    }
}

fn bid_of<'a>(found: Option<Found<'a>>) -> Option<Option<&'a [u8]>>
    ensures { IfSome result (λ bid. (o : Option Data) → ShowsIf found.entry o
        → optional None (λ b. option_map Some (name_in LONGEST_ID b)) o ≡ Some (option_map (λ text. text.now) bid)) }
{
    if found.is_none() {
        return Some(None);
    }
    let text = name_of(found, LONGEST_ID)?;
    Some(Some(text))
}

fn retry_of(found: Option<Found<'_>>) -> Option<Retry>
    ensures { IfSome result (λ retry. (o : Option Data) → ShowsIf found.entry o → optional Default retry_in o ≡ Some retry) }
{
    match found {
        None => Some(Retry::Default),
        Some(Found::Null) => Some(Retry::Default),
        Some(Found::Bool(retried)) => if retried {
            Some(Retry::Default)
        } else {
            Some(Retry::Never)
        },
        Some(Found::Whole(n)) => if n <= u64::from(MOST_RETRIES) {
            Some(Retry::Count(n as u32))
        } else {
            None
        },
        Some(_) => None,
    }
}

fn generation_of(found: Option<Found<'_>>) -> Option<u32>
    ensures { IfSome result (λ n. (o : Option Data) → ShowsIf found.entry o → optional 0 generation_in o ≡ Some n) }
{
    match found {
        None => Some(0),
        Some(Found::Whole(n)) => if n < u64::from(LAST_GENERATION) {
            Some(n as u32 + 1)
        } else {
            None
        },
        _ => None,
    }
}

fn dead_of(found: Option<Found<'_>>) -> Option<bool>
    ensures { IfSome result (λ dead. (o : Option Data) → ShowsIf found.entry o → optional true as_bool o ≡ Some dead) }
{
    match found {
        None => Some(true),
        Some(Found::Bool(dead)) => Some(dead),
        _ => None,
    }
}

fn created_of(found: Option<Found<'_>>) -> Option<u64>
    ensures { IfSome result (λ moment. (o : Option Data) → ShowsIf found.entry o → optional 0 moment_in o ≡ Some moment) }
{
    match found {
        None => Some(0),
        Some(Found::Whole(n)) => if n <= LAST_CALENDAR_MOMENT {
            Some(n)
        } else {
            None
        },
        _ => None,
    }
}

fn seconds_of(found: Option<Found<'_>>) -> Option<Option<u32>>
    ensures { IfSome result (λ seconds. (o : Option Data) → ShowsIf found.entry o
        → optional None (λ n. option_map Some (seconds_in n)) o ≡ Some seconds) }
{
    match found {
        None => Some(None),
        Some(Found::Whole(n)) => if 1 <= n && n <= u64::from(MOST_SECONDS) {
            Some(Some(n as u32))
        } else {
            None
        },
        _ => None,
    }
}

fn until_of(found: Option<Found<'_>>) -> Option<Until>
    ensures { IfSome result (λ until. (o : Option Data) → ShowsIf found.entry o → optional Success until_in o ≡ Some until) }
{
    match found {
        None => Some(Until::Success),
        Some(Found::Ascii(text)) => if text == "success".as_bytes() {
            Some(Until::Success)
        } else {
            None
        },
        _ => None,
    }
}

fn first_failed_of(found: Option<Found<'_>>, retry_for: Option<u32>) -> Option<Option<u64>>
    ensures { IfSome result (λ moment. (o : Option Data) → ShowsIf found.entry o → first_failed_in retry_for o ≡ Some moment) }
{
    if retry_for.is_none() {
        return Some(None);
    }
    match found {
        None => Some(None),
        Some(Found::Whole(n)) => if n <= LAST_CALENDAR_MOMENT {
            Some(Some(n))
        } else {
            None
        },
        _ => None,
    }
}

/// What a head holds, with its texts still in the job's text.
#[derive(Clone, Copy, Drop)]
pub struct Sketch<'a> {
    pub jid: &'a [u8],
    pub class: &'a [u8],
    pub queue: &'a [u8],
    pub args: &'a [u8],
    pub bid: Option<&'a [u8]>,
    pub retry: Retry,
    pub gen_: u32,
    pub dead: bool,
    pub created: u64,
    pub seconds: Option<u32>,
    pub until: Until,
    pub retry_for: Option<u32>,
    pub first_failed: Option<u64>,
}

/// What the slots of a text tell of its job.
pub fn sketch_of<'a>(slots: &[Option<Found<'a>>; 13]) -> Option<Sketch<'a>>
    ensures { IfSome result (λ sketch. (ms : Members) → Tells slots.now ms → head_of_object (object ms) ≡ Some (head_of_sketch sketch)) }
{
    let jid = name_of(slots[0], LONGEST_ID)?;
    let class = name_of(slots[1], LONGEST_NAME)?;
    let queue = name_of(slots[2], LONGEST_NAME)?;
    let args = args_of(slots[3])?;
    let bid = bid_of(slots[4])?;
    let retry = retry_of(slots[5])?;
    let gen_ = generation_of(slots[6])?;
    let dead = dead_of(slots[7])?;
    let created = created_of(slots[8])?;
    let seconds = seconds_of(slots[9])?;
    let until = until_of(slots[10])?;
    let retry_for = seconds_of(slots[11])?;
    let first_failed = first_failed_of(slots[12], retry_for)?;
    Some(Sketch {
        jid,
        class,
        queue,
        args,
        bid,
        retry,
        gen_,
        dead,
        created,
        seconds,
        until,
        retry_for,
        first_failed,
    })
}

// The texts of a sketch.
#[derive(Clone, Copy, Drop)]
struct Texts<'a> {
    jid: &'a str,
    class: &'a str,
    queue: &'a str,
    args: &'a str,
    bid: Option<&'a str>,
}

fn bid_in_utf8(bid: Option<&[u8]>) -> Option<Option<&str>>
    ensures { IfSome result (λ text. option_map (λ b. b.now) text ≡ option_map (λ b. b.now) bid.entry) }
{
    match bid {
        None => Some(None),
        Some(bytes) => Some(Some(str::from_utf8(bytes).ok()?)),
    }
}

// The texts of a sketch, where they are UTF-8.
fn texts_of<'a>(sketch: &Sketch<'a>) -> Option<Texts<'a>>
    ensures { IfSome result (λ texts. AreTexts texts sketch.now) }
{
    Some(Texts {
        jid: str::from_utf8(sketch.jid).ok()?,
        class: str::from_utf8(sketch.class).ok()?,
        queue: str::from_utf8(sketch.queue).ok()?,
        args: str::from_utf8(sketch.args).ok()?,
        bid: bid_in_utf8(sketch.bid)?,
    })
}

fn text_of(alloc: Global, text: &str) -> Result<Text, Memory>
    ensures { IfOk result (λ copied. copied ≡ text.now) }
{
    Ok(Text::new(String::from_str(alloc, text)?))
}

fn bid_text(alloc: Global, bid: Option<&str>) -> Result<Option<Text>, Memory>
    ensures { IfOk result (λ copied. copied ≡ option_map (λ text. text.now) bid.entry) }
{
    match bid {
        None => Ok(None),
        Some(text) => Ok(Some(text_of(alloc, text)?)),
    }
}

fn lock_of(seconds: Option<u32>, until: Until) -> Option<Lock>
    ensures { result ≡ lock_in seconds until }
{
    seconds.map(|seconds| Lock { seconds, until })
}

fn drawn(alloc: Global, sketch: &Sketch<'_>, texts: Texts<'_>) -> Result<Head, Memory>
    requires { AreTexts texts sketch.now }
    ensures { IfOk result (λ head. head ≡ head_of_sketch sketch.now) }
{
    Ok(Head {
        jid: text_of(alloc, texts.jid)?,
        class: text_of(alloc, texts.class)?,
        queue: text_of(alloc, texts.queue)?,
        args: text_of(alloc, texts.args)?,
        retry: sketch.retry,
        retry_for: sketch.retry_for,
        gen_: sketch.gen_,
        bid: bid_text(alloc, texts.bid)?,
        lock: lock_of(sketch.seconds, sketch.until),
        dead: sketch.dead,
        created: sketch.created,
        first_failed: sketch.first_failed,
    })
}

// The head of a text in its usual form, its texts still in the job's.
fn usual_sketch(text: &[u8]) -> Option<Sketch<'_>>
    ensures { IfSome result (λ sketch. head_in text.now ≡ Some (head_of_sketch sketch)) }
{
    let Ok(_) = str::from_utf8(text) else {
        return None;
    };
    let slots = slots_of(text)?;
    sketch_of(&slots.found)
}

/// The head of a text in its usual form.
pub fn usual_head(alloc: Global, text: &[u8]) -> Result<Option<Head>, Memory>
    ensures { IfOk result (λ found. IfSome found (λ head. head_in text.now ≡ Some head)) }
{
    let Some(sketch) = usual_sketch(text) else {
        return Ok(None);
    };
    match texts_of(&sketch) {
        None => Ok(None),
        Some(texts) => Ok(Some(drawn(alloc, &sketch, texts)?)),
    }
}
