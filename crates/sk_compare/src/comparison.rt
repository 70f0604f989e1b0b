// The comparison: the journal is walked once, and of each seat it is known how many of its asks were met.
ghost use Rattle.std.specs.Prelude.{◌≡◌, ◌<◌, ◌≤◌, ◌^◌, ℕ, IfOk, IfSome, OnOk, MatchOption, length, option_map, replicate, true};
ghost use Rattle.sk_compare.specs.Alike.{AllAnswered, Compares, HasReply, IsDifference, PassesOne, StraysAt, met_at, noted, told, told_at};
ghost use Rattle.sk_compare.specs.Exchange.{exchange_of};

use crate::ask::{is_same, text_in};
use crate::told::Told;
use crate::{Difference, Memory};
use sk_desk::{Ask, Deed, Entry};
use sk_lane::Story;
use std::alloc::Global;
use std::collections::LinkedList;

// An ask has its reply.
fn has_reply(entry: &Entry) -> bool
    ensures { result ≡ true → HasReply entry.entry.now.deed }
{
    match &entry.deed {
        Deed::Ask(ask) => match &ask.reply {
            Some(_) => true,
            None => false,
        },
        Deed::Cut => true,
    }
}

// Each ask of a journal has its reply.
fn is_answered(journal: &LinkedList<Entry>) -> bool
    ensures { result ≡ true → AllAnswered journal.now }
{
    for entry in journal {
        if !has_reply(entry) {
            return false;
        }
    }
    true
}

// The ask of an entry, where it isn't the next one that is told of the entry's seat. If it is, it was met.
fn stray<'a>(told: &Told, met: &mut [usize], entry: &'a Entry) -> Option<&'a Ask>
    requires { length met.old ≡ length told.now }
    ensures same { length met.new ≡ length met.old }
    ensures is { MatchOption result (PassesOne told.now met.old entry.entry.now met.new) (λ a. StraysAt told.now met.old entry.entry.now met.new a.now) }
{
    let Deed::Ask(ask) = &entry.deed else {
        return None;
    };
    let seat = entry.seat as usize;
    if seat >= told.len() {
        return Some(ask);
    }
    let place = met[seat];
    match told.get(seat, place) {
        Some(next) if is_same(next, ask) => {
            met[seat] = place + 1;
            None
        }
        _ => Some(ask),
    }
}

// A seat of which more is told than was met.
fn unmet(told: &Told, met: &[usize]) -> Option<usize>
    requires { length met.now ≡ length told.now }
    ensures unmet { MatchOption result ((s : ℕ) → length (told_at told.now s) ≤ met_at met.now s)
        (λ s. met_at met.now s < length (told_at told.now s)) }
    ensures number { IfSome result (λ s. s < 2 ^ 32) }
{
    for seat in 0..told.len() {
        if let Some(_) = told.get(seat, met[seat]) {
            return Some(seat);
        }
    }
    None
}

// What is told of the seat behind what was met, beside this of the journal.
fn difference(
    alloc: Global,
    told: &Told,
    met: &[usize],
    seat: u32,
    noted: Option<&Ask>,
) -> Result<Difference, Memory>
    requires { length met.now ≡ length told.now }
    ensures { IfOk result (IsDifference (told_at told.now) (met_at met.now) seat (option_map (λ a. exchange_of a.now) noted.entry)) }
{
    let place = met.get(seat as usize).copied().unwrap_or(0);
    let other = told.get(seat as usize, place);
    Ok(Difference {
        seat,
        place: place as u64,
        told: text_in(alloc, other)?,
        noted: text_in(alloc, noted)?,
    })
}

// Walks through the journal.
fn walk(
    alloc: Global,
    told: &Told,
    met: &mut [usize],
    journal: &LinkedList<Entry>,
) -> Result<Option<Difference>, Memory>
    requires { met.old ≡ replicate (length told.now) 0 }
    ensures { IfOk result (Compares (told_at told.now) (noted journal.now)) }
{
    for entry in journal {
        match stray(told, met, entry) {
            Some(ask) => return Ok(Some(difference(alloc, told, met, entry.seat, Some(ask))?)),
            None => {}
        }
    }
    match unmet(told, met) {
        Some(seat) => Ok(Some(difference(alloc, told, met, seat as u32, None)?)),
        None => Ok(None),
    }
}

/// Where the stories and the journal differ, or none where they are alike: where the journal has of each seat the asks that the stories tell of it, each
/// with the same request and the same reply, once and in order. The journal is walked once, and there is room for what is told and for each seat up to the
/// highest. There is no memory where an ask of the journal has none for its reply, too.
pub fn compare(
    alloc: Global,
    stories: &[Story],
    journal: &LinkedList<Entry>,
) -> Result<Option<Difference>, Memory>
    ensures compared { IfOk result (Compares (told stories.now) (noted journal.now)) }

    // Each ask of the journal has its reply.
    ensures answered { OnOk result (AllAnswered journal.now) }
{
    if !is_answered(journal) {
        return Err(Memory);
    }
    let told = Told::by(alloc, stories)?;
    let mut met = vec![in alloc; 0; told.len()]?;
    walk(alloc, &told, &mut met, journal)
}
