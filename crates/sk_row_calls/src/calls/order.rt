// Turns of orders of queues, and what becomes of failed jobs.
use crate::calls::Given;
use crate::output::Output;
use crate::text::{invalid, number, words};
use sk_base::ListDice;
use sk_payload::{Head, Payload};
use sk_policy::{Decision, OrderFault, QueueOrder, decide, plain_delay};
use sk_resp::{Text, Word};
use std::alloc::{AllocError, Global};
use std::io;

/// The greatest jitter.
const MOST_JITTER: u64 = 9;

// The text.
fn copied(alloc: Global, text: &str) -> Result<Text, AllocError> {
    Ok(Text::new(String::from_str(alloc, text)?))
}

// A strict order of these queues.
fn strict(alloc: Global, queues: &[String]) -> io::Result<Result<QueueOrder, OrderFault>> {
    let mut names = Vec::new(alloc);
    for queue in queues {
        names.push(copied(alloc, queue)?)?;
    }
    Ok(QueueOrder::strict(names))
}

// A queue with its weight, `name:weight`, or `name`, which weighs 1.
fn weighed(alloc: Global, queue: &str) -> io::Result<(Text, u8)> {
    let (name, weight) = queue.split_once(':').unwrap_or((queue, "1"));
    match weight.parse::<u8>() {
        Ok(weight) => Ok((copied(alloc, name)?, weight)),
        Err(_) => Err(invalid()),
    }
}

// An order of these queues by weights.
fn weighted(alloc: Global, queues: &[String]) -> io::Result<Result<QueueOrder, OrderFault>> {
    let mut weighted = Vec::new(alloc);
    for queue in queues {
        weighted.push(weighed(alloc, queue)?)?;
    }
    Ok(QueueOrder::weighted(alloc, weighted))
}

// Appends a turn of the order.
fn add_turn(
    alloc: Global,
    out: &mut Output,
    order: &QueueOrder,
    dice: &mut ListDice,
) -> Result<(), AllocError> {
    out.say("turn");
    for place in &order.turn(alloc, dice)? {
        if let Some(name) = order.names().get(*place) {
            out.say(" ");
            out.say(name.text());
        }
    }
    Ok(())
}

// Appends why there is no order, with the queue's place in the list.
fn add_fault(out: &mut Output, fault: OrderFault) {
    match fault {
        OrderFault::Empty => out.say("empty"),
        OrderFault::Name(place) => out.count("name ", place as u64, ""),
        OrderFault::Repeated(place) => out.count("repeated ", place as u64, ""),
        OrderFault::Weight(place) => out.count("weight ", place as u64, ""),
        OrderFault::Memory => out.say("memory"),
    }
}

/// A turn of the order that the words say, or its fault: the word `strict` or `weighted`, and then each queue with its weight, `name:weight`, or
/// `name`, which weighs 1.
pub fn turn_row(alloc: Global, given: &Given<'_>) -> io::Result<Output> {
    let words = words(alloc, given.words)?;
    let [kind, queues @ ..] = words.as_slice() else {
        return Err(invalid());
    };
    let order = match kind.as_str() {
        "strict" => strict(alloc, queues)?,
        _ => weighted(alloc, queues)?,
    };
    let mut out = Output::new(alloc);
    match order {
        Ok(order) => add_turn(alloc, &mut out, &order, &mut given.dice(alloc)?)?,
        Err(fault) => add_fault(&mut out, fault),
    }
    Ok(out)
}

// What becomes of a failed job by the plain rule.
fn decision(head: &Head, now: u64, jitter: u64) -> Decision {
    decide(head, now, jitter.min(MOST_JITTER), plain_delay(head.gen_))
}

// Appends it: `retry` and the score, `bury` or `discard`.
fn add_decision(alloc: Global, out: &mut Output, decision: Decision) -> Result<(), AllocError> {
    match decision {
        Decision::Retry(score) => {
            let mut text = Vec::new(alloc);
            score.write(alloc, &mut text)?;
            out.say("retry ");
            out.add(&text);
        }
        Decision::Bury => out.say("bury"),
        Decision::Discard => out.say("discard"),
    }
    Ok(())
}

/// What becomes of the failed job that the words say, by its jitter and its text, at the clock's moment.
pub fn decision_row(alloc: Global, given: &Given<'_>) -> io::Result<Output> {
    let words = words(alloc, given.words)?;
    let [jitter, text] = words.as_slice() else {
        return Err(invalid());
    };
    let (jitter, now) = (number(jitter)?, given.clock()?.now);
    let payload = Payload::of(alloc, Word::new(text.as_bytes().to_vec(alloc)?))?;
    let Some(head) = payload.head() else {
        return Err(invalid());
    };
    let mut out = Output::new(alloc);
    add_decision(alloc, &mut out, decision(head, now, jitter))?;
    Ok(out)
}
