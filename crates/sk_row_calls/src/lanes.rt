// A lane over a store of its own, and what it asked at its seats.
ghost use Rattle.std.specs.Prelude.{◌≤◌, IfOk};

use crate::command::{command_of, step};
use crate::output::Output;
use crate::text::{count, count_within, invalid, number};
use sk_core::Core;
use sk_desk::Ask;
use sk_lane::{CoreSeats, Story, lane};
use sk_link::words_of;
use sk_pipe::SHIPPED_LIMITS;
use sk_policy::DelayRule;
use sk_resp::Words;
use sk_worker::Registry;
use std::alloc::{AllocError, Global};
use std::io;
use std::sync::atomic::{AtomicU64, Ordering};

/// The moment at which the jobs are pushed, in milliseconds since 1970: that of a lane's clocks.
const MOMENT: u64 = 1_700_000_000_000;

/// The seat from which they are pushed.
const CLIENT: u32 = 0;

/// The most jobs of a row's share, and the most crashes.
const MOST: u32 = 20_000;

// The text of a job of the class with this number as its id. It has 118 bytes where the class has four letters.
fn add_job(alloc: Global, out: &mut Output, number: u64, class: &str) -> Result<(), AllocError> {
    let jid = format!(in alloc; "{number:024}")?;
    out.say("{\"args\":[1],\"class\":\"");
    out.say(class);
    out.say("\",\"created_at\":1700000000000,\"jid\":\"");
    out.say(jid.as_str());
    out.say("\",\"queue\":\"default\",\"retry\":true}");
    Ok(())
}

// Pushes a job to the queue `default`.
fn push(alloc: Global, core: &mut Core, number: u64, class: &str) -> io::Result<()> {
    let mut text = Output::new(alloc);
    add_job(alloc, &mut text, number, class)?;
    let words = words_of(alloc, &[b"LPUSH", b"queue:default", text.bytes()])?;
    let command = command_of(alloc, Words::new(words))?;
    step(core, CLIENT, MOMENT, command);
    Ok(())
}

// Pushes so many jobs of the class, one after another.
fn push_all(alloc: Global, core: &mut Core, jobs: u32, class: &str) -> io::Result<()> {
    for k in 0..jobs {
        push(alloc, core, u64::from(k).saturating_add(1), class)?;
    }
    Ok(())
}

// Appends the words of a request, and behind `=` the lines of its reply.
fn add_ask(out: &mut Output, ask: &Ask) {
    for word in ask.request.list() {
        out.say(" ");
        out.add(word.bytes());
    }
    out.say(" =");
    if let Some(reply) = &ask.reply {
        for line in reply.bytes().split_inclusive(|b| *b == b'\n') {
            out.say(" ");
            out.add(line.strip_suffix(b"\r\n").unwrap_or(line));
        }
    }
    out.say("\n");
}

// Appends a story: a line with its seat, and for each turn the number of requests before it; then a line for each request.
fn add_story(out: &mut Output, story: &Story) {
    out.count("seat ", u64::from(story.seat), ", marks");
    for mark in &story.marks {
        out.count(" ", *mark, "");
    }
    out.say("\n");
    for ask in &story.asks {
        add_ask(out, ask);
    }
}

/// What a row says of a lane.
#[derive(Clone, Copy)]
struct Plan {
    seed: u64,
    jobs: u32,
    worker: u32,
    crashes: u32,
}

// The plan that the words say. Others are invalid data.
fn plan_of(words: &[String]) -> io::Result<Plan>
    ensures jobs { IfOk result (λ plan. (1 ≤ plan.jobs) × (plan.jobs ≤ 20000)) }
    ensures worker { IfOk result (λ plan. (1 ≤ plan.worker) × (plan.worker ≤ 16)) }
    ensures crashes { IfOk result (λ plan. plan.crashes ≤ 20000) }
{
    let [seed, jobs, worker, crashes, ..] = words else {
        return Err(invalid());
    };
    let seed = number(seed)?;
    let jobs = count_within(jobs, 1, MOST)?;
    let worker = count_within(worker, 1, 16)?;
    let crashes = count_within(crashes, 0, MOST)?;
    Ok(Plan {
        seed,
        jobs,
        worker,
        crashes,
    })
}

// Pushes so many jobs of a class as the words behind the plan's say.
fn push_asked(alloc: Global, core: &mut Core, words: &[String]) -> io::Result<()> {
    let (pushed, class) = match words {
        [_, _, _, _, pushed] => (pushed, "Note"),
        [_, _, _, _, pushed, class] => (pushed, class.as_str()),
        _ => return Err(invalid()),
    };
    push_all(alloc, core, count(pushed)?, class)
}

/// What comes of a row `SEED JOBS NUMBER CRASHES PUSHED CLASS`: so many jobs of this class, or of Note, stand in a new store, and the lane of worker
/// `NUMBER`, from 1 to 16, takes its seats there, with its share of the jobs, from 1 to 20,000, and of the crashes, up to 20,000. Told is each seat,
/// and how often the job ran. Other words are invalid data.
pub fn lane_row(
    alloc: Global,
    words: &[String],
    registry: &mut Registry,
    rule: DelayRule,
    runs: &AtomicU64,
) -> io::Result<Output>
    requires { 0 ≤ 1 }
{
    let plan = plan_of(words)?;
    let mut core = Core::new(alloc, SHIPPED_LIMITS);
    let pushed = push_asked(alloc, &mut core, words);
    let mut seats = CoreSeats::new(alloc, core, 1 + plan.crashes + 2 * plan.jobs);
    let stories = lane(
        alloc,
        &mut seats,
        plan.seed,
        u64::from(plan.jobs),
        plan.worker,
        plan.crashes,
        registry,
        rule,
    );
    drop(seats);
    pushed?;
    let stories = stories?;
    let mut out = Output::new(alloc);
    for story in &stories {
        add_story(&mut out, story);
    }
    out.count("runs ", runs.load(Ordering::SeqCst), "\n");
    Ok(out)
}
