// Worked rows of lines at a desk over a store: its commands and replies, and what limiters answer there.
use crate::command::{hand_in, words_of};
use crate::faults::link_fault;
use crate::output::Output;
use crate::store_link::{self, StoreLink};
use crate::text::{count, halves, invalid, number, words};
use sk_base::StepClock;
use sk_desk::Call;
use sk_limit::{HeldSlot, LimitFault, give, grant, hold};
use sk_link::Link;
use sk_model::Limits;
use sk_resp::Text;
use std::alloc::{AllocError, Global};
use std::io;

fn limit_fault(fault: &LimitFault) -> &'static str {
    match fault {
        LimitFault::Name => "name",
        LimitFault::Link(fault) => link_fault(fault),
        LimitFault::Refused(_) => "refused",
        LimitFault::Memory => "memory",
    }
}

// Appends what a limiter answers, a yes or a no, or its fault.
fn add_answer(out: &mut Output, answer: &Result<bool, LimitFault>, yes: &str, no: &str) {
    out.say(match answer {
        Ok(true) => yes,
        Ok(false) => no,
        Err(fault) => limit_fault(fault),
    });
    out.say("\n");
}

// `ask`: the command of another client.
fn add_asked(
    alloc: Global,
    out: &mut Output,
    link: &mut StoreLink,
    command: &str,
) -> io::Result<()> {
    let words = words_of(alloc, command)?;
    out.say(match link.call(alloc, &words) {
        Ok(_) => "asked",
        Err(lost) => link_fault(&lost),
    });
    out.say("\n");
    Ok(())
}

// `hold NAME MOST MILLIS TOKEN`: the slot, or that each is taken.
fn add_held(out: &mut Output, held: &Result<Option<HeldSlot>, LimitFault>) {
    match held {
        Ok(Some(held)) => out.count("held ", u64::from(held.slot), ""),
        Ok(None) => out.say("over"),
        Err(fault) => out.say(limit_fault(fault)),
    }
    out.say("\n");
}

// A slot that is held under a token.
fn slot_of(alloc: Global, name: &str, slot: u32, token: &str) -> Result<HeldSlot, AllocError> {
    let name = Text::new(String::from_str(alloc, name)?);
    let token = Text::new(String::from_str(alloc, token)?);
    Ok(HeldSlot { name, slot, token })
}

// `give NAME SLOT TOKEN`: whether it was.
fn given(
    alloc: Global,
    link: &mut StoreLink,
    name: &str,
    slot: &str,
    token: &str,
) -> io::Result<Result<bool, LimitFault>> {
    let held = slot_of(alloc, name, count(slot)?, token)?;
    Ok(give(alloc, link, &held))
}

// `grant NAME MOST MILLIS`: whether it was.
fn granted(
    alloc: Global,
    link: &mut StoreLink,
    name: &str,
    most: &str,
    millis: &str,
) -> io::Result<Result<bool, LimitFault>> {
    Ok(grant(alloc, link, name, count(most)?, number(millis)?))
}

// Appends what a limiter answers to a call.
fn add_limited(
    alloc: Global,
    out: &mut Output,
    link: &mut StoreLink,
    line: &str,
) -> io::Result<()> {
    let words = words(alloc, line)?;
    let [call, name, rest @ ..] = words.as_slice() else {
        return Err(invalid());
    };
    match (call.as_str(), rest) {
        ("hold", [most, millis, token]) => {
            let (most, millis) = (count(most)?, number(millis)?);
            add_held(out, &hold(alloc, link, name, most, millis, token));
        }
        ("give", [slot, token]) => {
            let given = given(alloc, link, name, slot, token)?;
            add_answer(out, &given, "given", "not given");
        }
        ("grant", [most, millis]) => {
            let granted = granted(alloc, link, name, most, millis)?;
            add_answer(out, &granted, "granted", "over");
        }
        _ => return Err(invalid()),
    }
    Ok(())
}

// `desk`: a command, and its reply.
fn add_reply(alloc: Global, out: &mut Output, link: &mut StoreLink, line: &str) -> io::Result<()> {
    let words = words_of(alloc, line)?;
    out.reply(&hand_in(alloc, &mut link.desk, &words, &mut link.clock)?);
    Ok(())
}

// Appends what comes of a line, behind its moment.
fn add_line(
    alloc: Global,
    out: &mut Output,
    form: &str,
    link: &mut StoreLink,
    line: &str,
) -> io::Result<()> {
    let (now, line) = halves(line)?;
    let now = number(now)?;
    link.clock = StepClock { now, step: 0 };
    if form == "desk" {
        return add_reply(alloc, out, link, line);
    }
    match line.strip_prefix("ask ") {
        Some(command) => add_asked(alloc, out, link, command),
        None => add_limited(alloc, out, link, line),
    }
}

// Appends a call of the desk, with its moment and its reply.
fn add_call(out: &mut Output, call: &Call) {
    out.number(call.now);
    for word in call.request.list() {
        out.say(" ");
        out.add(word.bytes());
    }
    out.say("\n");
    out.add(call.reply.bytes());
}

// Appends what comes of each line, and then the calls of the desk.
fn add_answers(
    alloc: Global,
    out: &mut Output,
    form: &str,
    link: &mut StoreLink,
    lines: &str,
) -> io::Result<()> {
    for line in lines.lines() {
        add_line(alloc, out, form, link, line)?;
    }
    for call in link.desk.calls().iter() {
        add_call(out, call);
    }
    Ok(())
}

/// What comes of lines over an empty store with these limits.
pub fn answers(alloc: Global, form: &str, limits: Limits, lines: &str) -> io::Result<Output> {
    let mut out = Output::new(alloc);
    let mut link = store_link::open(alloc, limits, StepClock { now: 0, step: 0 });
    let added = add_answers(alloc, &mut out, form, &mut link, lines);
    store_link::close(alloc, link);
    added?;
    Ok(out)
}
