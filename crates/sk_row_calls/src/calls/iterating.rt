// Calls of `iterate` one after another on one job: over connections whose replies are given, one for each call, or over a store.
use crate::calls::items::ShownItems;
use crate::calls::{Given, Peers, add_conns};
use crate::command::{hand_in, words_of};
use crate::faults::link_fault;
use crate::output::Output;
use crate::store_link::{self, StoreLink};
use crate::text::{count, invalid, number, words};
use sk_base::limits::LONGEST_ID;
use sk_base::{MemConn, is_name};
use sk_desk::Ask;
use sk_iter::{IterEnd, IterFault, MOST_EVERY, MOST_ITEMS, iterate};
use sk_link::{Link, WireLink};
use sk_model::Limits;
use std::alloc::Global;
use std::io;

/// What the store has room for.
const LIMITS: Limits = Limits {
    rows: 9,
    bytes: 9,
    batches: 9,
};

// Appends how a call ended.
fn add_end(out: &mut Output, end: &Result<IterEnd, IterFault>) {
    match end {
        Ok(IterEnd::Done) => out.say("done\n"),
        Ok(IterEnd::Paused(next)) => out.count("paused ", *next, "\n"),
        Ok(IterEnd::Raised(index, raised)) => {
            out.count("raised ", *index, " ");
            out.say(raised.class.text());
            out.say("\n");
        }
        Err(fault) => add_fault(out, fault),
    }
}

// Appends why a call was ended.
fn add_fault(out: &mut Output, fault: &IterFault) {
    match fault {
        IterFault::Link(fault) => {
            out.say(link_fault(fault));
            out.say("\n");
        }
        IterFault::Memory => out.say("memory\n"),
        IterFault::Cursor(reply) => {
            out.say("cursor\n");
            out.reply_lines(reply);
        }
        IterFault::Refused(reply) => {
            out.say("refused\n");
            out.reply_lines(reply);
        }
    }
}

/// The job, its items, and how often its cursor is saved.
#[derive(Drop)]
struct Iteration<'a> {
    jid: &'a str,
    items: ShownItems,
    every: u32,
}

impl Iteration<'_> {
    // One call, of at most so many items. Appends its end.
    fn call<L: Link>(&mut self, alloc: Global, link: &mut L, most: &str) -> io::Result<()> {
        let most = number(most)?;
        if !is_name(self.jid.as_bytes(), LONGEST_ID) {
            return Err(invalid());
        }
        if self.every < 1 || self.every > MOST_EVERY || self.items.len >= MOST_ITEMS {
            return Err(invalid());
        }
        let end = iterate(alloc, link, self.jid, &mut self.items, self.every, most);
        add_end(&mut self.items.out, &end);
        Ok(())
    }

    // One call for each of the numbers, each over its connection. Hands the connections back.
    fn call_over(
        &mut self,
        alloc: Global,
        mosts: &[String],
        conns: Vec<MemConn>,
    ) -> io::Result<Vec<MemConn>> {
        let mut past = Vec::new(alloc);
        for (most, conn) in mosts.iter().zip(conns) {
            let mut link = WireLink::new(alloc, conn);
            self.call(alloc, &mut link, most)?;
            past.push(link.into_conn())?;
        }
        Ok(past)
    }

    // One call for each of the numbers, over a store.
    fn call_at(&mut self, alloc: Global, mosts: &[String], link: &mut StoreLink) -> io::Result<()> {
        for most in mosts {
            self.call(alloc, link, most)?;
        }
        Ok(())
    }
}

// Does the commands of seat 1.
fn prepare(alloc: Global, lines: &str, link: &mut StoreLink) -> io::Result<()> {
    for line in lines.lines() {
        if let Some(command) = line.strip_prefix("ask 1 ") {
            let words = words_of(alloc, command)?;
            hand_in(alloc, &mut link.desk, &words, &mut link.clock)?;
        }
    }
    Ok(())
}

// Appends what a call asked, and what was answered.
fn add_ask(out: &mut Output, ask: &Ask) {
    out.say("asked\n");
    for word in ask.request.list() {
        out.lines(word.bytes());
    }
    out.say("answered\n");
    if let Some(reply) = &ask.reply {
        out.lines(reply.bytes());
    }
}

// One call for each of the numbers, in a store in which the commands of seat 1 are done before. Appends what the calls asked, and what was answered.
fn call_each(
    alloc: Global,
    given: &Given<'_>,
    iteration: &mut Iteration<'_>,
    mosts: &[String],
    link: &mut StoreLink,
) -> io::Result<()> {
    prepare(alloc, given.lines, link)?;
    iteration.call_at(alloc, mosts, link)?;
    for ask in &link.asks {
        add_ask(&mut iteration.items.out, ask);
    }
    Ok(())
}

// The iteration that the words say, as in `call_row`, and for each call how many items may return in it.
fn iteration_of<'a>(
    alloc: Global,
    words: &'a [String],
) -> io::Result<(Iteration<'a>, &'a [String])> {
    let [jid, len, raises, every, mosts @ ..] = words else {
        return Err(invalid());
    };
    let raises = match raises.as_str() {
        "-" => None,
        raises => Some(number(raises)?),
    };
    let (len, every) = (number(len)?, count(every)?);
    let out = Output::new(alloc);
    let items = ShownItems { len, raises, out };
    Ok((Iteration { jid, items, every }, mosts))
}

/// What the calls did: each item that was run and each call's end, and what was sent. The words are the jid, how many items there are, which one
/// raises, or `-`, after how many items the cursor is saved, and then for each call how many items may return in it. The calls go over the
/// connections, where there are some, and else over a store. Other words are invalid data.
pub fn call_row(alloc: Global, given: &Given<'_>) -> io::Result<Output> {
    let words = words(alloc, given.words)?;
    let (mut iteration, mosts) = iteration_of(alloc, &words)?;
    let dialled = Peers::read(alloc, given.parts)?.dialled;
    if dialled.is_empty() {
        let mut link = store_link::open(alloc, LIMITS, given.clock()?);
        let called = call_each(alloc, given, &mut iteration, mosts, &mut link);
        store_link::close(alloc, link);
        called?;
        return Ok(iteration.items.out);
    }
    let past = iteration.call_over(alloc, mosts, dialled)?;
    add_conns(&mut iteration.items.out, &past, "@dialled\n");
    Ok(iteration.items.out)
}
