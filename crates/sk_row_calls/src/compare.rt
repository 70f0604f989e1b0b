// Stories compared with journals.
use crate::output::Output;
use crate::text::{count, invalid};
use sk_compare::{Difference, compare};
use sk_desk::{Ask, Deed, Entry};
use sk_lane::Story;
use sk_resp::{Word, Words};
use std::alloc::{AllocError, Global};
use std::collections::LinkedList;
use std::io;

/// Appends where a story and the journal differ.
pub fn add_difference(alloc: Global, out: &mut Output, end: Difference) -> Result<(), AllocError> {
    let text = end.text(alloc)?;
    out.say(text.as_str());
    Ok(())
}

// The line of a reply.
fn reply_of(alloc: Global, answer: &str) -> Result<Word, AllocError> {
    let mut line = answer.as_bytes().to_vec(alloc)?;
    line.extend_from_slice(b"\r\n")?;
    Ok(Word::new(line))
}

// A request with the line of its reply, `WORD.WORD=REPLY`, or without.
fn ask(alloc: Global, text: &str) -> Result<Ask, AllocError> {
    let (asked, reply) = match text.split_once('=') {
        Some((asked, answer)) => (asked, Some(reply_of(alloc, answer)?)),
        None => (text, None),
    };
    let mut words = Vec::new(alloc);
    for part in asked.split('.') {
        words.push(Word::new(part.as_bytes().to_vec(alloc)?))?;
    }
    let request = Words::new(words);
    let now = 0;
    Ok(Ask {
        now,
        request,
        reply,
    })
}

// A seat and what stands behind it, `SEAT:TEXT`. Another text is invalid data.
fn at_seat(text: &str) -> io::Result<(u32, &str)> {
    match text.split_once(':') {
        Some((seat, rest)) => Ok((count(seat)?, rest)),
        None => Err(invalid()),
    }
}

// A story, `SEAT:ASK,ASK`.
fn story_of(alloc: Global, text: &str) -> io::Result<Story> {
    let (seat, rest) = at_seat(text)?;
    let mut asks = Vec::new(alloc);
    for one in rest.split(',') {
        asks.push(ask(alloc, one)?)?;
    }
    Ok(Story {
        thread: 0,
        seat,
        asks,
        marks: Vec::new(alloc),
    })
}

// An entry of the journal, `SEAT:ASK` or `SEAT:cut`.
fn entry_of(alloc: Global, text: &str) -> io::Result<Entry> {
    let (seat, rest) = at_seat(text)?;
    if rest == "cut" {
        let deed = Deed::Cut;
        return Ok(Entry { seat, deed });
    }
    let deed = Deed::Ask(ask(alloc, rest)?);
    Ok(Entry { seat, deed })
}

fn stories_of(alloc: Global, text: &str) -> io::Result<Vec<Story>> {
    let mut stories = Vec::new(alloc);
    for one in text.split_whitespace() {
        stories.push(story_of(alloc, one)?)?;
    }
    Ok(stories)
}

fn journal_of(alloc: Global, text: &str) -> io::Result<LinkedList<Entry>> {
    let mut journal = LinkedList::new(alloc);
    for one in text.split_whitespace() {
        journal.push_back(entry_of(alloc, one)?)?;
    }
    Ok(journal)
}

/// How the stories and the journal of the row `STORIES | JOURNAL` compare, with blanks between: a story is `SEAT:ASK,ASK`, an entry `SEAT:ASK` or
/// `SEAT:cut`.
pub fn compare_row(alloc: Global, row: &str) -> io::Result<Output> {
    let Some((told, noted)) = row.split_once('|') else {
        return Err(invalid());
    };
    let (stories, journal) = (stories_of(alloc, told)?, journal_of(alloc, noted)?);
    let mut out = Output::new(alloc);
    match compare(alloc, &stories, &journal) {
        Ok(None) => out.say("alike"),
        Ok(Some(difference)) => add_difference(alloc, &mut out, difference)?,
        Err(_) => out.say("no memory"),
    }
    out.say("\n");
    Ok(out)
}
