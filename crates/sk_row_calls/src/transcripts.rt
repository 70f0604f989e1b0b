// What clients ask over connections whose replies are known, and what they are told. The jobs have class Note and are for the queue default.
ghost use Rattle.std.specs.Prelude.{◌≡◌, IfOk, codes, vec_len};
ghost use Rattle.sk_client.specs.Bulk.{NameOneQueue};

use crate::faults::link_fault;
use crate::output::Output;
use crate::text::{ESCAPED, bytes_of, invalid, number};
use serde_json::{Number, Value};
use sk_base::{Feed, ListDice, MemConn, Score, Tray};
use sk_client::{
    BatchDraft, BulkFault, ClientFault, batch_add, fresh_jid, push, push_at, push_bulk, push_unique,
};
use sk_link::{Link, LinkFault, WireLink};
use sk_payload::{Args, DraftFault, JobDraft, Lock, Retry, Until};
use sk_resp::{Feeder, Reply, Text, Words};
use std::alloc::{AllocError, Global};
use std::io;

/// The moment at which the jobs are made, in milliseconds since 1970.
const MADE: u64 = 1_700_000_000_000;

/// A request with more words than this is shown by its first ones.
const MOST: usize = 8;

const FIRST: usize = 3;

/// The moment at which jobs are due that are pushed for later.
const LATER: u64 = 1_700_000_060_000;

// A copy of the text.
fn copied(alloc: Global, text: &str) -> Result<Text, AllocError>
    ensures { IfOk result (λ copy. copy ≡ text.now) }
{
    Ok(Text::new(String::from_str(alloc, text)?))
}

// A job of this id with these arguments.
fn job(jid: Text, class: Text, queue: Text, args: Args) -> JobDraft
    ensures { result.queue ≡ queue }
{
    JobDraft {
        jid,
        class,
        queue,
        args,
        retry: Retry::Default,
        retry_for: None,
        bid: None,
        lock: None,
        dead: true,
        created: MADE,
    }
}

// A job with this argument and this number as its id, in 24 digits.
fn draft(alloc: Global, n: u64, argument: Value) -> Result<JobDraft, AllocError>
    ensures { IfOk result (λ draft. draft.queue ≡ codes "default") }
{
    let mut values = Vec::new(alloc);
    values.push(argument)?;
    let jid = Text::new(format!(in alloc; "{n:024}")?);
    let class = copied(alloc, "Note")?;
    let queue = copied(alloc, "default")?;
    Ok(job(jid, class, queue, Args::new(values)))
}

// The same with the argument 1.
fn note(alloc: Global, n: u64) -> Result<JobDraft, AllocError>
    ensures { IfOk result (λ draft. draft.queue ≡ codes "default") }
{
    draft(alloc, n, Value::from(1_u32))
}

// So many jobs, numbered from 1 on.
#[tactic(auto, using(crate::proofs::OneQueue::one_queue))]
fn notes(alloc: Global, count: u64) -> Result<Vec<JobDraft>, AllocError>
    ensures { IfOk result (λ drafts. NameOneQueue drafts.items) }
{
    let mut drafts = Vec::new(alloc);
    for n in 0..count {
        drafts.push(note(alloc, n.saturating_add(1))?)?;
    }
    Ok(drafts)
}

// One job of the batch b1.
fn members(alloc: Global, n: u64) -> Result<Vec<JobDraft>, AllocError>
    ensures { IfOk result (λ drafts. vec_len drafts ≡ 1) }
{
    let mut drafts = Vec::with_capacity(alloc, 1)?;
    let mut draft = note(alloc, n)?;
    draft.bid = Some(copied(alloc, "b1")?);
    drafts.push_reserved(draft);
    Ok(drafts)
}

// Appends a reply as it is written, without the end of its last line.
fn add_reply(out: &mut Output, reply: &Reply) {
    let mut own = out.empty();
    own.reply(reply);
    let text = own.bytes();
    out.escape(text.strip_suffix(b"\r\n").unwrap_or(text), ESCAPED);
    out.say("\n");
}

fn draft_fault(fault: DraftFault) -> &'static str {
    match fault {
        DraftFault::Name => "= draft name\n",
        DraftFault::Fraction => "= draft fraction\n",
        DraftFault::Deep => "= draft deep\n",
        DraftFault::Long => "= draft long\n",
        DraftFault::Memory => "= draft memory\n",
    }
}

// Appends why a link ended. Bytes that can't be read stand behind that.
fn add_lost(out: &mut Output, fault: &LinkFault) {
    out.say("= ");
    out.say(link_fault(fault));
    if let LinkFault::Unreadable(bytes) = fault {
        out.say(" ");
        out.escape(bytes.bytes(), ESCAPED);
    }
    out.say("\n");
}

// Appends why a push did not come about.
fn add_fault(out: &mut Output, fault: &ClientFault) {
    match fault {
        ClientFault::Draft(fault) => out.say(draft_fault(*fault)),
        ClientFault::Link(fault) => add_lost(out, fault),
        ClientFault::Refused(reply) => {
            out.say("= refused ");
            add_reply(out, reply);
        }
        ClientFault::Held(jid) => {
            out.say("= held ");
            out.say(jid.text());
            out.say("\n");
        }
        ClientFault::Memory => out.say("= memory\n"),
    }
}

// Appends what a push came to.
fn add_outcome(out: &mut Output, outcome: Result<(), ClientFault>) {
    match outcome {
        Ok(()) => out.say("= ok\n"),
        Err(fault) => add_fault(out, &fault),
    }
}

// What comes of so many jobs that are pushed, in slices of a thousand.
fn bulk<L: Link>(
    alloc: Global,
    link: &mut L,
    count: u64,
) -> Result<Result<u64, BulkFault>, AllocError> {
    let drafts = notes(alloc, count)?;
    Ok(push_bulk(alloc, link, &drafts, 1_000))
}

// Appends what comes of it.
fn add_bulk<L: Link>(alloc: Global, out: &mut Output, link: &mut L, count: u64) -> io::Result<()> {
    match bulk(alloc, link, count)? {
        Ok(count) => out.count("= ok ", count, "\n"),
        Err(bulk) => {
            out.count("= sent ", bulk.sent, "\n");
            add_fault(out, &bulk.fault);
        }
    }
    Ok(())
}

// A batch with these jobs, and with callbacks for its success and for a death.
fn batch_of(bid: Text, success: JobDraft, death: JobDraft, jobs: Vec<JobDraft>) -> BatchDraft {
    BatchDraft {
        bid,
        parent: None,
        complete: None,
        success: Some(success),
        death: Some(death),
        jobs,
    }
}

// The batch b1 with the job 1, and with the callbacks 9 for its success and 8 for a death.
fn batch(alloc: Global) -> Result<BatchDraft, AllocError> {
    let bid = copied(alloc, "b1")?;
    let success = note(alloc, 9)?;
    let death = note(alloc, 8)?;
    let jobs = members(alloc, 1)?;
    Ok(batch_of(bid, success, death, jobs))
}

// Appends what comes of making the batch.
fn add_batch<L: Link>(alloc: Global, out: &mut Output, link: &mut L) -> io::Result<()> {
    let batch = batch(alloc)?;
    match batch.send(alloc, link) {
        Ok(reply) => {
            out.say("= ");
            add_reply(out, &reply);
        }
        Err(fault) => add_fault(out, &fault),
    }
    Ok(())
}

// A unique job, which has one holder of its lock for ten minutes.
fn unique(alloc: Global, n: u64) -> Result<JobDraft, AllocError> {
    let mut draft = note(alloc, n)?;
    draft.lock = Some(Lock {
        seconds: 600,
        until: Until::Success,
    });
    Ok(draft)
}

// A job with the argument 1.5, which no job may have.
fn fraction(alloc: Global, n: u64) -> Result<JobDraft, AllocError> {
    let half = Number::from_f64(1.5).map_or(Value::Null, Value::Number);
    draft(alloc, n, half)
}

// The job of this number that a step pushes: with a fraction, unique, or as any other.
fn draft_of(alloc: Global, what: &str, n: u64) -> Result<JobDraft, AllocError> {
    match what {
        "fraction" => fraction(alloc, n),
        "unique" | "unique later" => unique(alloc, n),
        _ => note(alloc, n),
    }
}

// What comes of a push of a job: at once, or later, and of a unique job.
fn pushed<L: Link>(
    alloc: Global,
    link: &mut L,
    what: &str,
    draft: &JobDraft,
) -> Result<(), ClientFault> {
    match what {
        "later" => push_at(alloc, link, draft, Score::of_moment(LATER)),
        "unique" => push_unique(alloc, link, draft, None),
        "unique later" => push_unique(alloc, link, draft, Some(Score::of_moment(LATER + 500))),
        _ => push(alloc, link, draft),
    }
}

// Appends what comes of a step that pushes a job of this number. Another step is invalid data.
fn add_push<L: Link>(
    alloc: Global,
    out: &mut Output,
    link: &mut L,
    what: &str,
    n: u64,
) -> io::Result<()> {
    if !["push", "later", "fraction", "unique", "unique later"].contains(&what) {
        return Err(invalid());
    }
    let draft = draft_of(alloc, what, n)?;
    add_outcome(out, pushed(alloc, link, what, &draft));
    Ok(())
}

// Appends a job's id, drawn from two words.
fn add_jid(alloc: Global, out: &mut Output) -> io::Result<()> {
    let words = vec![in alloc; 0x0123_4567_89ab_cdef, 0x0123_4567_0000_0000]?;
    let jid = fresh_jid(alloc, &mut ListDice::new(words))?;
    out.say(jid.text());
    out.say("\n");
    Ok(())
}

// Appends what comes of adding a job to the batch of this id.
fn add_member<L: Link>(alloc: Global, out: &mut Output, link: &mut L, bid: &str) -> io::Result<()> {
    let members = members(alloc, 2)?;
    add_outcome(out, batch_add(alloc, link, bid, &members));
    Ok(())
}

// Appends what came of a step: `push`, `later` and `unique` push the job of this number, `fraction` one with the argument 1.5, `bulk` so many jobs;
// `jid` draws a job's id; `batch` makes the batch b1, and `add` adds a job of it to the batch of this id. Another step is invalid data.
fn add_step<L: Link>(alloc: Global, out: &mut Output, link: &mut L, step: &str) -> io::Result<()> {
    let Some((what, word)) = step.rsplit_once(' ') else {
        return Err(invalid());
    };
    let n = number(word).unwrap_or(0);
    match what {
        "bulk" => add_bulk(alloc, out, link, n),
        "jid" => add_jid(alloc, out),
        "batch" => add_batch(alloc, out, link),
        "add" => add_member(alloc, out, link, word),
        _ => add_push(alloc, out, link, what, n),
    }
}

// Appends a request: the words, or the first of them and how many there are.
fn add_request(out: &mut Output, words: &Words) {
    let count = words.list().len();
    let shown = if count > MOST { FIRST } else { count };
    out.say(">");
    for word in words.list().iter().take(shown) {
        out.say(if word.bytes().is_empty() {
            " \"\""
        } else {
            " "
        });
        out.escape(word.bytes(), ESCAPED);
    }
    if shown < count {
        out.count(" .. ", count as u64, " words");
    }
    out.say("\n");
}

// Appends the requests that a connection took, a line each.
fn add_requests(alloc: Global, out: &mut Output, taken: &[u8]) {
    let mut feeder = Feeder::new(alloc);
    let mut requests = Vec::new(alloc);
    let read = feeder.feed(taken, &mut requests);
    for words in &requests {
        add_request(out, words);
    }
    if read.is_err() {
        out.say("> no request\n");
    }
}

// A connection on which these replies come three bytes at a time. One without replies fails at its first read.
fn conn_of(alloc: Global, replies: Vec<u8>) -> Result<MemConn, AllocError> {
    let mut fails = Vec::new(alloc);
    if replies.is_empty() {
        fails.push(1)?;
    }
    let pieces = vec![in alloc; 3usize; replies.len()]?;
    let feed = Feed::new(replies, pieces, fails);
    Ok(MemConn::new(feed, Tray::new(alloc, Vec::new(alloc))))
}

// What comes of the steps over a connection.
fn add_steps(alloc: Global, link: &mut WireLink<MemConn>, steps: &str) -> io::Result<Output> {
    let mut out = Output::new(alloc);
    for step in steps.split(',') {
        add_step(alloc, &mut out, link, step)?;
    }
    Ok(out)
}

// What comes of the steps, and the requests that were sent.
fn talk(alloc: Global, conn: MemConn, steps: &str) -> io::Result<Output> {
    let mut link = WireLink::new(alloc, conn);
    let mut out = add_steps(alloc, &mut link, steps)?;
    add_requests(alloc, &mut out, link.into_conn().tray().taken());
    Ok(out)
}

/// What a client asks over a connection and is told, `STEP,STEP | REPLIES`: of each step what came of it, and then the requests that were sent.
/// Another text is invalid data.
pub fn talk_row(alloc: Global, row: &str) -> io::Result<Output> {
    let Some((steps, replies)) = row.split_once('|') else {
        return Err(invalid());
    };
    let replies = bytes_of(alloc, replies.trim())?;
    talk(alloc, conn_of(alloc, replies)?, steps.trim())
}

// Pushes so many jobs over a connection. How many bytes it took.
fn pushes(alloc: Global, conn: MemConn, count: u64) -> io::Result<usize> {
    let mut link = WireLink::new(alloc, conn);
    let mut out = Output::new(alloc);
    add_bulk(alloc, &mut out, &mut link, count)?;
    Ok(link.into_conn().tray().taken().len())
}

/// How many bytes so many jobs are in requests of a thousand, each of which is accepted.
pub fn len_of_pushes(alloc: Global, count: u64) -> io::Result<usize> {
    let replies = ":1\r\n".repeat(alloc, count.div_ceil(1_000) as usize)?;
    let feed = Feed::new(replies.into_bytes(), Vec::new(alloc), Vec::new(alloc));
    pushes(
        alloc,
        MemConn::new(feed, Tray::new(alloc, Vec::new(alloc))),
        count,
    )
}
