// Turns of a poller over a connection whose replies are given.
ghost use Rattle.std.specs.Prelude.{◌≡◌, true, IfOk};
ghost use Rattle.std.specs.List.{list_all};
ghost use Rattle.sk_base.specs.Name.{is_name};
ghost use Rattle.sk_base.specs.declared.limits.TheConstants.{LONGEST_NAME};
ghost use Rattle.sk_poller.specs.Loop.{is_loop};
ghost use Rattle.sk_cron.specs.Offset.{IsOffset};

use crate::calls::workers::TEAMS;
use crate::calls::{Given, Peers, add_conns};
use crate::faults::link_fault;
use crate::output::Output;
use crate::text::{invalid, words as words_in};
use sk_base::limits::{LONGEST_NAME, OFFSET_UTC};
use sk_base::{ListDice, MemConn, StepClock, is_name};
use sk_launcher::WorkSettings;
use sk_line::read_work;
use sk_link::WireLink;
use sk_poller::{Loop, PollFault, PollReport, Poller};
use std::alloc::Global;
use std::io;

// The text is a name of at most 255 bytes.
fn is_named(text: &str) -> bool
    ensures { result ≡ is_name LONGEST_NAME text.now }
{
    is_name(text.as_bytes(), LONGEST_NAME)
}

#[tactic(auto, unfolding(sk_poller::specs::Loop::is_loop))]
fn is_loop(job: &Loop) -> bool
    ensures { result ≡ is_loop job.now }
{
    is_named(job.name.text()) && is_named(job.class.text()) && is_named(job.queue.text())
}

fn are_loops(loops: &[Loop]) -> bool
    ensures { result ≡ list_all is_loop loops.now }
{
    loops.iter().all(|job| is_loop(job))
}

fn fault_name(fault: &PollFault) -> &'static str {
    match fault {
        PollFault::Link(fault) => link_fault(fault),
        PollFault::Refused(_) => "refused",
        PollFault::Memory => "memory",
    }
}

// Appends what a turn reports.
fn add_turn(out: &mut Output, turn: &Result<PollReport, PollFault>) {
    match turn {
        Ok(report) => {
            out.count("promoted ", report.promoted, "");
            out.count(" rescued ", report.rescued, "");
            out.count(" buried ", report.buried, "");
            out.count(" pushed ", report.pushed, "\n");
        }
        Err(fault) => {
            out.say(fault_name(fault));
            out.say("\n");
        }
    }
}

/// A poller, what it goes by, and what its turns report.
#[derive(Drop)]
struct Polling {
    poller: Poller,
    clock: StepClock,
    dice: ListDice,
    out: Output,
}

impl Polling {
    // One turn.
    fn turn(&mut self, alloc: Global, link: &mut WireLink<MemConn>) {
        let (clock, dice) = (&mut self.clock, &mut self.dice);
        let turn = self.poller.turn(alloc, link, clock, dice);
        add_turn(&mut self.out, &turn);
    }

    // So many turns over a connection. Hands the connection back.
    fn turns(&mut self, alloc: Global, conn: MemConn, turns: u32) -> MemConn {
        let mut link = WireLink::new(alloc, conn);
        for _ in 0..turns {
            self.turn(alloc, &mut link);
        }
        link.into_conn()
    }
}

// What the words ask for, as a line of `work`.
fn settings_of(alloc: Global, words: &str) -> io::Result<WorkSettings>
    ensures { IfOk result (λ settings. IsOffset settings.offset × (list_all is_loop settings.loops.items ≡ true)) }
{
    let words = words_in(alloc, words)?;
    let Ok(settings) = read_work(alloc, &words, TEAMS) else {
        return Err(invalid());
    };
    let offset = settings.offset;
    if offset < -OFFSET_UTC || offset > OFFSET_UTC || !are_loops(&settings.loops) {
        return Err(invalid());
    }
    Ok(settings)
}

// What a poller of these settings reports, and the connection.
fn polled(
    alloc: Global,
    given: &Given<'_>,
    settings: WorkSettings,
    conn: MemConn,
) -> io::Result<Output>
    requires offset { IsOffset settings.offset }
    requires loops { list_all is_loop settings.loops.items ≡ true }
{
    let (clock, dice) = (given.clock()?, given.dice(alloc)?);
    let poller = Poller::new(settings.ident, settings.loops, settings.offset);
    let out = Output::new(alloc);
    let mut polling = Polling {
        poller,
        clock,
        dice,
        out,
    };
    polling.out.say("polled\n");
    let conn = polling.turns(alloc, conn, settings.turns);
    add_conns(&mut polling.out, &[conn], "@dialled\n");
    Ok(polling.out)
}

/// What comes of the poller that the words ask for, as a line of `work`: what each of its turns reports, and what its connection took.
pub fn poll_row(alloc: Global, given: &Given<'_>) -> io::Result<Output> {
    let settings = settings_of(alloc, given.words)?;
    match Peers::read(alloc, given.parts)?.dialled.pop() {
        Some(conn) => polled(alloc, given, settings, conn),
        None => Err(invalid()),
    }
}
