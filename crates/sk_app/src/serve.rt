// The program `serve`: its words are read, connections are served until a SHUTDOWN or until each loop has served its number, and the summary is written.
ghost use Rattle.std.specs.Prelude.{◌≡◌, ◌<◌, ◌≤◌, Err, IfOk, string_bytes};
ghost use Rattle.sk_base.specs.Outside.{Rose};
ghost use Rattle.sk_base.specs.declared.limits.TheConstants.{MOST_LOOPS_SERVED};
ghost use Rattle.sk_app.specs.Ending.{Ends};
ghost use Rattle.sk_app.specs.Serving.{IsOutcome, Serves, first_line, summary_text};
ghost use Rattle.sk_app.specs.declared.failure.Failure.TheVariants.{Line};
ghost use Rattle.sk_app.specs.Promises.{DoServe, ServeDone, ServerEnds};

use crate::Failure;
use crate::ending::conclude;
use sk_base::{Clock, Sink};
use sk_edge::Door;
use sk_line::{ServeLine, read_serve};
use sk_pipe::SHIPPED_LIMITS;
use sk_resp::Word;
use sk_serve::{OpenGate, ServeEnd, Served, serve};
use sk_status::tally_text;
use std::alloc::{AllocError, Global};
use std::sync::Wait;
use std::thread::Threads;

// How many connections were served, and how many rows acknowledged.
fn first_line(alloc: Global, served: &Served) -> Result<String, AllocError>
    ensures { IfOk result (λ line. string_bytes line ≡ first_line served.now) }
{
    format!(in alloc;
        "sessions {} acknowledged {}\n",
        served.sessions, served.acknowledged
    )
}

// That, and the tally below it.
pub fn summary(alloc: Global, served: &Served) -> Result<Word, AllocError>
    ensures { IfOk result (λ text. text ≡ summary_text served.now) }
{
    let mut text = Vec::new(alloc);
    text.extend_from_slice(first_line(alloc, served)?.as_bytes())?;
    text.extend_from_slice(&tally_text(alloc, &served.tally)?)?;
    Ok(Word::new(text))
}

// What the server's end comes to.
fn outcome_at(alloc: Global, end: ServeEnd) -> Result<Word, Failure>
    ensures told { IsOutcome end result }
    ensures never { result ≡ Err Line → ⊥ }
{
    match end {
        ServeEnd::Served(served) => Ok(summary(alloc, &served)?),
        ServeEnd::Failed => Err(Failure::Door),
        ServeEnd::Spent => Err(Failure::Seats),
        ServeEnd::Memory => Err(Failure::Memory),
    }
}

// Serves as the line says.
fn serve_by<R: Threads + Wait + Sync, N: Door, C: Clock + Send>(
    rt: &R,
    alloc: Global,
    line: ServeLine,
    net: &mut N,
    clock: &C,
) -> Result<Word, Failure>
where
    N::Ear: Send,
    requires loops { (0 < line.loops) × (line.loops ≤ MOST_LOOPS_SERVED) }
    ensures told { Serves line (ServerEnds N.Door N.Ear.Ear N.Conn.Source N.Conn.Sink C.Clock net.old net.new) result }
    ensures never { result ≡ Err Line → ⊥ }
    ensures later { N.door_faults net.old ≤ N.door_faults net.new }
{
    let loops = line.loops as usize;
    let sessions = u64::from(line.sessions);
    let end = serve(
        rt,
        alloc,
        net,
        line.port,
        loops,
        sessions,
        SHIPPED_LIMITS,
        clock,
        &OpenGate,
    );
    outcome_at(alloc, end)
}

// What `serve` comes to.
fn outcome_by<R: Threads + Wait + Sync, N: Door, C: Clock + Send>(
    rt: &R,
    alloc: Global,
    words: &[String],
    net: &mut N,
    clock: &C,
) -> Result<Word, Failure>
where
    N::Ear: Send,
    ensures told { DoServe N.Door N.Ear.Ear N.Conn.Source N.Conn.Sink C.Clock words.now net.old net.new result }
    ensures untouched { result ≡ Err Line → net.new ≡ net.old }
    ensures later { N.door_faults net.old ≤ N.door_faults net.new }
{
    let line = read_serve(alloc, words)?;
    serve_by(rt, alloc, line, net, clock)
}

/// Serves as the words say, which begin with `serve`: until a SHUTDOWN, or until each loop has served its number of connections. Then it writes the
/// summary and the tally, and answers 0. Answers 4 where the sink failed, and else what [`Failure::status`] says.
pub fn run_serve<R: Threads + Wait + Sync, K: Sink, N: Door, C: Clock + Send>(
    rt: &R,
    alloc: Global,
    words: &[String],
    sink: &mut K,
    net: &mut N,
    clock: &C,
) -> u8
where
    N::Ear: Send,
    ensures told { Ends K.Sink sink.old sink.new result (DoServe N.Door N.Ear.Ear N.Conn.Source N.Conn.Sink C.Clock words.now net.old net.new) }

    // A line of `serve` is done, unless the door or an ear fails or seats are used up, where the sink takes the summary.
    ensures completes { ServeDone N.Door N.Ear.Ear N.Conn.Source N.Conn.Sink C.Clock words.now net.old net.new result }

    // With status 4 the sink's count of faults rose.
    ensures sink_cause { result ≡ 4 → Rose (K.write_faults sink.old) (K.write_faults sink.new) }

    // With status 2 nothing was written, and no port was listened at.
    ensures untouched { result ≡ 2 → (sink.new ≡ sink.old) × (net.new ≡ net.old) }
{
    let outcome = outcome_by(rt, alloc, words, net, clock);
    conclude(alloc, sink, outcome)
}
