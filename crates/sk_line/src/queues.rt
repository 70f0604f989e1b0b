// The order of queues, as `--queues` and `--strict` say it.
ghost use Rattle.std.specs.Prelude.{◌≡◌, ◌<◌, IfOk, MatchResult, codes, length, map};
ghost use Rattle.sk_policy.specs.Order.{IsFault, IsOrder};
ghost use Rattle.std.specs.List.{AllZip, list_all};
ghost use Rattle.std.specs.Char.{is_ascii_digit};
ghost use Rattle.clap.specs.Words.{found_of, rows_of};
ghost use Rattle.sk_line.specs.Lines.{Reads, ReadsAs};
ghost use Rattle.sk_line.specs.Values.{Has};
ghost use Rattle.sk_line.specs.Work.{IsOrderLine, IsQueue, IsQueues, IsWeighed, by_order, is_weighed, order_of};

use crate::LineFault;
use crate::cut::cut;
use crate::value::{flag_of, number, text, text_in};
use clap::ArgMatches;
use sk_base::limits::MOST_WEIGHT;
use sk_policy::{OrderFault, QueueOrder};
use sk_resp::Text;
use std::alloc::{AllocError, Global};

fn are_digits(text: &str) -> bool
    ensures { result ≡ list_all is_ascii_digit text.now }
{
    text.as_bytes().iter().all(|b| b.is_ascii_digit())
}

// Of the parts of a word between its colons, the last is digits to the end.
fn is_weighed(parts: &[&str]) -> bool
    ensures { result ≡ is_weighed (map (λ part. part.now) parts.now) }
{
    if parts.len() < 2 {
        return false;
    }
    let last = parts[parts.len() - 1];
    !last.is_empty() && are_digits(last)
}

// A queue and its weight, of the parts of a word between its colons.
fn weighed(alloc: Global, parts: &[&str]) -> Result<(Text, u8), LineFault>
    requires { 1 < length parts.now }
    ensures { Reads (IsWeighed (map (λ part. part.now) parts.now)) result }
{
    let last = parts.len() - 1;
    let Some(weight) = number(parts[last], 1, MOST_WEIGHT as u32) else {
        return Err(LineFault::Refused);
    };
    let name = parts[..last].join(alloc, ":")?;
    Ok((Text::new(name), weight as u8))
}

// A queue with its weight: `name:weight`, or `name`, which weighs 1.
fn queue(alloc: Global, word: &str) -> Result<(Text, u8), LineFault>
    ensures { Reads (IsQueue word.now) result }
{
    let parts = cut(alloc, word, ':')?;
    if is_weighed(&parts) {
        weighed(alloc, &parts)
    } else {
        Ok((text(alloc, word)?, 1))
    }
}

// The queues of these words.
fn queues(alloc: Global, words: &[&str]) -> Result<Vec<(Text, u8)>, LineFault>
    ensures { ReadsAs (λ queues. queues.items) (AllZip IsQueue (map (λ word. word.now) words.now)) result }
{
    let mut queues = Vec::new(alloc);
    for word in words {
        queues.push(queue(alloc, word)?)?;
    }
    Ok(queues)
}

// Queues with commas between them.
fn queues_in(alloc: Global, text: &str) -> Result<Vec<(Text, u8)>, LineFault>
    ensures { ReadsAs (λ queues. queues.items) (IsQueues text.now) result }
{
    let words = cut(alloc, text, ',')?;
    queues(alloc, &words)
}

// The value of `--queues`.
fn queues_of(alloc: Global, matches: &ArgMatches<'_>) -> Result<Vec<(Text, u8)>, LineFault>
    ensures { ReadsAs (λ queues. queues.items) (Has IsQueues (rows_of (found_of matches.now)) (codes "queues")) result }
{
    match text_in(matches, "queues") {
        Some(text) => queues_in(alloc, text),
        None => Err(LineFault::Refused),
    }
}

fn names_of(alloc: Global, queues: Vec<(Text, u8)>) -> Result<Vec<Text>, AllocError>
    ensures { IfOk result (λ names. names.items ≡ map (λ queue. queue.0) queues.items) }
{
    let mut names = Vec::new(alloc);
    for (name, _) in queues {
        names.push(name)?;
    }
    Ok(names)
}

// The queues in an order; an error where they can't be ordered.
fn ordered(alloc: Global, strict: bool, queues: Vec<(Text, u8)>) -> Result<QueueOrder, OrderFault>
    ensures { MatchResult result (λ order. (order ≡ order_of strict queues.items) × IsOrder order) (IsFault (order_of strict queues.items)) }
{
    if strict {
        QueueOrder::strict(names_of(alloc, queues)?)
    } else {
        QueueOrder::weighted(alloc, queues)
    }
}

impl From<OrderFault> for LineFault {
    ghost from_gives = { λ fault e. e ≡ by_order fault };

    fn from(fault: OrderFault) -> Self {
        match fault {
            OrderFault::Memory => LineFault::Memory,
            _ => LineFault::Refused,
        }
    }
}

/// The order of the queues.
pub fn order_of(alloc: Global, matches: &ArgMatches<'_>) -> Result<QueueOrder, LineFault>
    ensures { Reads (IsOrderLine (rows_of (found_of matches.now))) result }
{
    let strict = flag_of(matches, "strict")?;
    let queues = queues_of(alloc, matches)?;
    let order = ordered(alloc, strict, queues)?;
    Ok(order)
}
