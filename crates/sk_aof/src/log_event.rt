// An event of a log, and how it is read out of a body.
ghost use Rattle.std.specs.Prelude.{◌≡◌, ◌↔◌, [], ◌∷◌, IfOk, IsTrue, MatchOption};
ghost use Rattle.sk_resp.specs.Request.{IsCommand};
ghost use Rattle.sk_resp.specs.Stream.{Reads};
ghost use Rattle.sk_aof.specs.Bodies.{HasNumbers, MayStand, body_of};
ghost use Rattle.sk_aof.specs.Read.{HasNoCommands, IsBody, IsEvent, IsNumbered, IsSeat, is_shortage, meant, natural};

use crate::entry::{ask_body, cut_body};
use sk_base::limits::{LAST_SEAT, LONGEST_COMMAND, LONGEST_WORD, MOST_WORDS};
use sk_resp::{Feeder, Memory, WireFault, Words, read_int};
use std::alloc::Global;

/// An event of a log.
#[derive(Drop)]
pub(crate) enum LogEvent {
    /// A seat hands in the words of a command, which act at this moment.
    Ask(u32, u64, Words),
    /// A seat is cut off.
    Cut(u32),
}

fn natural(number: Option<i64>) -> Option<u64>
    ensures { result ≡ natural number }
{
    match number {
        Some(n) if n >= 0 => Some(n as u64),
        _ => None,
    }
}

// The number behind that word.
fn number_of(words: &Words, word: &[u8]) -> Option<u64>
    ensures { IsNumbered word.now words.now result }
{
    let [first, text] = words.list() else {
        return None;
    };
    if first.bytes() == word {
        natural(read_int(text.bytes()))
    } else {
        None
    }
}

fn seat_of(words: &Words, word: &[u8]) -> Option<u32>
    ensures { IsSeat word.now words.now result }
{
    match number_of(words, word) {
        Some(n) if n <= u64::from(LAST_SEAT) => Some(n as u32),
        _ => None,
    }
}

fn cut_of(cut: &Words) -> Option<LogEvent>
    ensures { IsEvent (cut.now ∷ []) result }
{
    let seat = seat_of(cut, b"SK.CUT")?;
    Some(LogEvent::Cut(seat))
}

fn ask_of(by: &Words, at: &Words, words: Words) -> Option<LogEvent>
    ensures { IsEvent (by.now ∷ at.now ∷ words ∷ []) result }
{
    let seat = seat_of(by, b"SK.AS")?;
    let now = number_of(at, b"SK.NOW")?;
    Some(LogEvent::Ask(seat, now, words))
}

// What the commands of a body are.
fn event_of(mut commands: Vec<Words>) -> Option<LogEvent>
    ensures { IsEvent commands.items result }
{
    let last = commands.pop()?;
    match commands.as_slice() {
        [] => cut_of(&last),
        [by, at] => ask_of(by, at, last),
        _ => None,
    }
}

fn is_shortage(fault: WireFault) -> bool
    ensures { result ≡ is_shortage fault }
{
    matches!(fault, WireFault::Memory)
}

// The commands of a body, if it is commands end to end.
fn commands_in(alloc: Global, body: &[u8]) -> Result<Option<Vec<Words>>, Memory>
    ensures { IfOk result (λ found. MatchOption found (HasNoCommands body.now) (λ v. Reads body.now v.items [])) }
{
    let mut feeder = Feeder::new(alloc);
    let mut commands = Vec::new(alloc);
    if let Err(fault) = feeder.feed(body, &mut commands) {
        if is_shortage(fault) {
            return Err(Memory);
        }
        return Ok(None);
    }
    if feeder.at_rest() {
        Ok(Some(commands))
    } else {
        Ok(None)
    }
}

/// Whether the words keep the limits of a command: one to 65,536 of them, of at most 1,048,576 bytes each and 16,777,216 together.
pub(crate) fn is_command(words: &Words) -> bool
    ensures { IsTrue result ↔ IsCommand words.now }
{
    let list = words.list();
    if list.is_empty() || list.len() > MOST_WORDS {
        return false;
    }
    let mut total: usize = 0;
    for word in list {
        let len = word.bytes().len();
        if len > LONGEST_WORD {
            return false;
        }
        total += len;
    }
    total <= LONGEST_COMMAND
}

impl LogEvent {
    // As it stands in the file.
    fn body(&self, alloc: Global) -> Result<Vec<u8>, Memory>
        ensures { IfOk result (λ body. body.items ≡ body_of (meant self.now)) }
    {
        match self {
            LogEvent::Ask(seat, now, words) => ask_body(alloc, *seat, *now, words),
            LogEvent::Cut(seat) => cut_body(alloc, *seat),
        }
    }

    // Whether a file may have it.
    fn may_stand(&self) -> bool
        ensures { HasNumbers (meant self.now) → (IsTrue result ↔ MayStand (meant self.now)) }
    {
        match self {
            LogEvent::Ask(_, _, words) => is_command(words),
            LogEvent::Cut(_) => true,
        }
    }
}

/// The event that a body is, if it is one's, spelled as a log spells it.
pub(crate) fn read_event(alloc: Global, body: &[u8]) -> Result<Option<LogEvent>, Memory>
    ensures { IfOk result (IsBody body.now) }
{
    let Some(commands) = commands_in(alloc, body)? else {
        return Ok(None);
    };
    let Some(event) = event_of(commands) else {
        return Ok(None);
    };
    if !event.may_stand() {
        return Ok(None);
    }
    let spelled = event.body(alloc)?;
    if spelled.as_slice() == body {
        Ok(Some(event))
    } else {
        Ok(None)
    }
}
