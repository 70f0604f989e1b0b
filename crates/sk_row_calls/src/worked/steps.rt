// The store by itself: what it answers, and what it tells of itself then.
use crate::command::{command_of, step, words_of};
use crate::output::Output;
use crate::text::{count, halves, number};
use sk_core::Core;
use sk_model::Limits;
use sk_pipe::Session;
use sk_seats::{Phase, Stage};
use sk_status::{page, tally_text};
use std::alloc::{AllocError, Global};
use std::io;

/// The seats whose phases are told: those below this one.
const SEATS: u32 = 5;

fn stage_name(stage: &Stage) -> &'static str {
    match stage {
        Stage::Held => " held",
        Stage::Put => " put",
        Stage::Settled(_) => " settled",
    }
}

// Appends a seat's phase: `plain`, or `joined` and the stage of each job in its hands.
fn add_phase(out: &mut Output, phase: &Phase) {
    match phase {
        Phase::Plain => out.say("plain"),
        Phase::Joined(_, works) => {
            out.say("joined");
            for work in works.list() {
                out.say(stage_name(&work.stage));
            }
        }
    }
}

// Appends the page, the tally, and a line for each of the first seats.
fn add_numbers(alloc: Global, out: &mut Output, store: &Core) -> Result<(), AllocError> {
    out.add(&page(alloc, &store.numbers()?)?);
    out.add(&tally_text(alloc, &store.tally())?);
    for seat in 0..SEATS {
        out.count("seat ", u64::from(seat), " ");
        add_phase(out, store.phase(seat));
        out.say("\n");
    }
    Ok(())
}

// Lets the store do a step, `SEAT MOMENT WORD ..`, and appends its reply.
fn add_answer(alloc: Global, out: &mut Output, store: &mut Core, line: &str) -> io::Result<()> {
    let (seat, behind) = halves(line)?;
    let (now, words) = halves(behind)?;
    let (seat, now) = (count(seat)?, number(now)?);
    let command = command_of(alloc, words_of(alloc, words)?)?;
    out.reply(&step(store, seat, now, command));
    Ok(())
}

// Lets the store do the steps, a line each, and appends its replies, and then what it tells of itself.
fn add_answers(alloc: Global, out: &mut Output, store: &mut Core, steps: &str) -> io::Result<()> {
    for line in steps.lines() {
        add_answer(alloc, out, store, line)?;
    }
    Ok(add_numbers(alloc, out, store)?)
}

/// What an empty store with these limits answers to the steps, and then its page, its tally and its seats' phases.
pub fn answers(alloc: Global, limits: Limits, steps: &str) -> io::Result<Output> {
    let mut out = Output::new(alloc);
    let mut store = Core::new(alloc, limits);
    let added = add_answers(alloc, &mut out, &mut store, steps);
    Session::over(alloc, store).close();
    added?;
    Ok(out)
}
