// A store behind a lock, with a journal: what is done at its desks, and what it leaves.
ghost use Rattle.std.specs.Prelude.{◌≡◌, ◌+◌, ◌<◌, ◌^◌, IfOk, IfSome, length, vec_len};
ghost use Rattle.sk_model.specs.World.{first};

use crate::calls::Given;
use crate::command::{hand_in, words_of};
use crate::output::Output;
use crate::text::{ESCAPED, count, halves, invalid, limits, numbers};
use sk_base::StepClock;
use sk_desk::{Ask, Book, Deed, Entry, FullBook, Hub, HubBlank, HubFault, HubId, LockedDesk, Pass};
use sk_model::Limits;
use sk_status::Tally;
use std::alloc::{AllocError, Global};
use std::collections::LinkedList;
use std::io;
use std::marker::Brand;
use std::sync::Wait;

/// A count of seats, and what the store has room for.
#[derive(Clone, Copy)]
pub struct Size {
    pub numbers: u32,
    pub limits: Limits,
}

/// The count, and then the rows, the bytes and the batches. Other numbers are invalid data.
pub fn read_size(numbers: &[u64]) -> io::Result<Size>
    ensures { IfOk result (λ size. (0 < size.numbers) × (size.numbers + 1 < 2 ^ 32)) }
{
    let [numbers, rest @ ..] = numbers else {
        return Err(invalid());
    };
    let numbers = *numbers;
    if numbers == 0 || numbers >= u32::MAX as u64 {
        return Err(invalid());
    }
    Ok(Size {
        numbers: numbers as u32,
        limits: limits(rest)?,
    })
}

// Where the desk of the seat stands.
fn place_of<R: Wait + Sync, I: HubId, B: Book>(
    desks: &[LockedDesk<'_, R, I, B>],
    seat: u32,
) -> Option<usize>
    ensures { IfSome result (λ place. place < length desks.now) }
{
    for (place, desk) in desks.iter().enumerate() {
        if desk.number() == seat {
            return Some(place);
        }
    }
    None
}

/// A hub's desks, with the pass to its seats, and what came of all that was done at them.
#[derive(Drop)]
struct Seating<'a, R: Wait + Sync, I: HubId, B: Book> {
    rt: &'a R,
    hub: &'a Hub<I, B>,
    pass: Pass<I>,
    desks: Vec<LockedDesk<'a, R, I, B>>,
    clock: StepClock,
    out: Output,
}

impl<'a, R: Wait + Sync, I: HubId, B: Book> Seating<'a, R, I, B> {
    // `sit`: the pass's next number gets a desk.
    fn sit(&mut self) -> Result<(), AllocError>
        ensures { self.new.pass.parts + vec_len self.new.desks ≡ self.old.pass.parts + vec_len self.old.desks }
    {
        self.desks.reserve(1)?;
        match self.hub.seat(self.rt, &mut self.pass) {
            Ok(desk) => {
                self.out.count("seat ", u64::from(desk.number()), "\n");
                self.desks.push_reserved(desk);
            }
            Err(HubFault::Spent) => self.out.say("spent\n"),
            Err(HubFault::Memory) => self.out.say("memory\n"),
        }
        Ok(())
    }

    // `cut SEAT`: the desk at this place ends.
    fn cut(&mut self, place: usize, seat: u32)
        requires { place < vec_len self.old.desks }
        ensures { self.new.pass.parts + vec_len self.new.desks ≡ self.old.pass.parts + vec_len self.old.desks }
    {
        self.desks.remove(place).end(&mut self.pass);
        self.out.count("cut ", u64::from(seat), "\n");
    }

    // `ask SEAT WORD ..`: the desk at this place hands in a command.
    fn ask(&mut self, alloc: Global, place: usize, command: &str) -> io::Result<()>
        requires { place < vec_len self.old.desks }
        ensures { self.new.pass.parts + vec_len self.new.desks ≡ self.old.pass.parts + vec_len self.old.desks }
    {
        let words = words_of(alloc, command)?;
        let reply = hand_in(alloc, &mut self.desks[place], &words, &mut self.clock)?;
        self.out.reply_lines(&reply);
        Ok(())
    }

    // What is done at the desk of a seat.
    fn act(&mut self, alloc: Global, line: &str) -> io::Result<()>
        ensures { self.new.pass.parts + vec_len self.new.desks ≡ self.old.pass.parts + vec_len self.old.desks }
    {
        let (key, rest) = halves(line)?;
        let (seat, command) = rest.split_once(' ').unwrap_or((rest, ""));
        let seat = count(seat)?;
        match place_of(&self.desks, seat) {
            None => self.out.say("no desk\n"),
            Some(place) if key == "cut" => self.cut(place, seat),
            Some(place) => self.ask(alloc, place, command)?,
        }
        Ok(())
    }

    // What is done at desks, a line each, among other lines.
    fn act_each(&mut self, alloc: Global, lines: &str) -> io::Result<()>
        ensures { self.new.pass.parts + vec_len self.new.desks ≡ self.old.pass.parts + vec_len self.old.desks }
    {
        for line in lines.lines() {
            if line == "sit" {
                self.sit()?;
            } else if line.starts_with("ask ") || line.starts_with("cut ") {
                self.act(alloc, line)?;
            }
        }
        Ok(())
    }

    // Ends the desks that are left, in the order of their seats. Hands the pass back, and what came of all.
    fn end(self) -> (Pass<I>, Output)
        ensures { result.0.parts ≡ self.entry.pass.parts + vec_len self.entry.desks }
    {
        let Seating {
            mut pass,
            mut desks,
            out,
            ..
        } = self;
        while !desks.is_empty() {
            desks.remove(0).end(&mut pass);
        }
        (pass, out)
    }
}

// What comes of what is done at desks of the hub, on so many numbers of the pass. Then all desks have ended, and the pass has its parts again.
fn act_all<R: Wait + Sync, I: HubId, B: Book>(
    rt: &R,
    alloc: Global,
    hub: &Hub<I, B>,
    pass: &mut Pass<I>,
    given: &Given<'_>,
    numbers: u32,
) -> io::Result<Output>
    requires { (0 < numbers) × (numbers < pass.old.count) }
    ensures { pass.new.parts ≡ pass.old.parts }
{
    let clock = given.clock()?;
    let mut seating = Seating {
        rt,
        hub,
        pass: pass.split(numbers),
        desks: Vec::new(alloc),
        clock,
        out: Output::new(alloc),
    };
    let acted = seating.act_each(alloc, given.lines);
    let (own, out) = seating.end();
    pass.join(own);
    acted?;
    Ok(out)
}

// Appends what was asked at a seat: the moment, the words, and the lines of the reply.
fn add_ask(out: &mut Output, asked: &Ask) {
    out.number(asked.now);
    for word in asked.request.list() {
        out.say(" ");
        out.escape(word.bytes(), ESCAPED);
    }
    out.say("\n");
    match &asked.reply {
        Some(reply) => out.lines(reply.bytes()),
        None => out.say("no reply\n"),
    }
}

// Appends the seat of each entry and what was asked there, and the cuts in their places.
fn add_journal(out: &mut Output, entries: &LinkedList<Entry>) {
    out.say("@journal\n");
    for entry in entries.iter() {
        out.count("", u64::from(entry.seat), " ");
        match &entry.deed {
            Deed::Cut => out.say("cut\n"),
            Deed::Ask(asked) => add_ask(out, asked),
        }
    }
}

// Appends what the desks acknowledged, and what the store counts.
fn add_tally(out: &mut Output, acknowledged: u64, tally: &Tally) {
    out.count("acknowledged ", acknowledged, "");
    out.count(" outside ", tally.outside, "");
    out.count(" again ", tally.again, "");
    out.count(" live ", tally.live, "");
    out.count(" deleted ", tally.deleted, "\n");
}

fn desks_on<R: Wait + Sync, I: HubId>(
    rt: &R,
    blank: HubBlank,
    alloc: Global,
    size: Size,
    given: &Given<'_>,
) -> io::Result<Output>
    requires blank { blank ≡ record { acks = I.acks; asks = I.asks; cuts = I.cuts } }
    requires start { first size.limits ≡ I.start }
    requires size { (0 < size.numbers) × (size.numbers + 1 < 2 ^ 32) }
{
    let (hub, mut pass) = Hub::<I, FullBook>::new(alloc, blank, size.limits, FullBook::new(alloc));
    let acted = act_all(rt, alloc, &hub, &mut pass, given, size.numbers);
    let closed = hub.close();
    let mut journal = Output::new(alloc);
    add_journal(&mut journal, closed.journal());
    let (acknowledged, tally) = closed.finish(&mut pass);
    let mut out = Output::new(alloc);
    out.say("desks\n");
    out.append(acted?);
    add_tally(&mut out, acknowledged, &tally);
    out.append(journal);
    Ok(out)
}

/// What comes of what is done at the desks of a store, what these acknowledged and the store counts, and the journal. The first word is how many
/// numbers the pass to the seats has; then come the rows, the bytes and the batches of the store.
pub fn act_row<R: Wait + Sync>(rt: &R, alloc: Global, given: &Given<'_>) -> io::Result<Output> {
    let size = read_size(&numbers(alloc, given.words)?)?;
    desks_on::<R, Brand>(rt, HubBlank::new(), alloc, size, given)
}
