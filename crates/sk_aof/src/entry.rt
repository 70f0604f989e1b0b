// An event as it stands in the file: as arrays, end to end, that a pipe reads as this event.
ghost use Rattle.std.specs.Prelude.{◌≡◌, ◌<◌, ◌^◌, ◌++◌, ◌∷◌, [], false, length, IfOk, OnOk};
ghost use Rattle.std.specs.Fmt.{decimal};
ghost use Rattle.sk_resp.specs.Request.{IsCommand, array};
ghost use Rattle.sk_model.specs.Event.{Ask, Cut};
ghost use Rattle.sk_aof.specs.Bodies.{MayStand, body_of, event_of};

use crate::log_event::is_command;
use sk_log::{Record, record_of};
use sk_resp::{Memory, Word, Words, write_request};
use std::alloc::Global;

// The last moment that a log may have.
const LAST_NUMBER: u64 = (1 << 63) - 1;

// Appends a word and a number as an array.
fn write_number(alloc: Global, word: &[u8], number: u64, body: &mut Vec<u8>) -> Result<(), Memory>
    ensures { OnOk result (body.new.items ≡ body.old.items ++ array (word.now ∷ decimal number ∷ [])) }
{
    let mut words = Vec::with_capacity(alloc, 2)?;
    words.push(Word::new(word.to_vec(alloc)?))?;
    words.push(Word::new(format!(in alloc; "{number}")?.into_bytes()))?;
    write_request(alloc, &Words::new(words), body)
}

// The body of a command that a seat hands in.
pub(crate) fn ask_body(alloc: Global, seat: u32, now: u64, words: &Words) -> Result<Vec<u8>, Memory>
    ensures { IfOk result (λ body. body.items ≡ body_of (Ask seat now words.now)) }
{
    let mut body = Vec::new(alloc);
    write_number(alloc, b"SK.AS", u64::from(seat), &mut body)?;
    write_number(alloc, b"SK.NOW", now, &mut body)?;
    write_request(alloc, words, &mut body)?;
    Ok(body)
}

// The body of a cut.
pub(crate) fn cut_body(alloc: Global, seat: u32) -> Result<Vec<u8>, Memory>
    ensures { IfOk result (λ body. body.items ≡ body_of (Cut seat)) }
{
    let mut body = Vec::new(alloc);
    write_number(alloc, b"SK.CUT", u64::from(seat), &mut body)?;
    Ok(body)
}

/// The record of a cut.
pub fn cut_record(alloc: Global, seat: u32) -> Result<Record, Memory>
    ensures { IfOk result (λ entry. entry ≡ body_of (Cut seat)) }
{
    let body = cut_body(alloc, seat)?;
    Ok(record_of(alloc, &body)?)
}

// The record of a command that a seat hands in. The words are a command's.
fn ask_record(alloc: Global, seat: u32, now: u64, words: &Words) -> Result<Record, Memory>
    requires { IsCommand words.now }
    ensures { IfOk result (λ entry. entry ≡ body_of (Ask seat now words.now)) }
{
    let body = ask_body(alloc, seat, now, words)?;
    Ok(record_of(alloc, &body)?)
}

/// The record of a command that a seat hands in and that acts at this moment, where words and moment may stand in a log: a command's words, as a reader of
/// requests gives them, and fewer than 2^63 milliseconds. Others are answered as want of memory is.
pub fn draft_record(alloc: Global, seat: u32, now: u64, words: &Words) -> Result<Record, Memory>
    ensures may { IfOk result (λ entry. MayStand (Ask seat now words.now)) }
    ensures is { IfOk result (λ entry. entry ≡ body_of (Ask seat now words.now)) }
{
    if now > LAST_NUMBER || !is_command(words) {
        return Err(Memory);
    }
    ask_record(alloc, seat, now, words)
}

/// The record of an event: that the seat is cut off, or that it hands in the words of a command, which act at this moment, in milliseconds since 1970.
/// A command has at least one word and at most 65,536, of at most 1,048,576 bytes each and 16,777,216 together, as a reader of requests gives it.
pub fn make_record(
    alloc: Global,
    cut: bool,
    seat: u32,
    now: u64,
    words: &Words,
) -> Result<Record, Memory>
    requires { cut ≡ false → IsCommand words.now }
    ensures { IfOk result (λ entry. entry ≡ body_of (event_of cut seat now words.now)) }
{
    if cut {
        cut_record(alloc, seat)
    } else {
        ask_record(alloc, seat, now, words)
    }
}
