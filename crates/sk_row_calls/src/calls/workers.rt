// Workers that join, take turns and leave, over connections whose replies are given.
ghost use Rattle.std.specs.Prelude.{◌≤◌};

use crate::calls::{Given, Lines, add_conns};
use crate::faults::link_fault;
use crate::output::Output;
use crate::text::invalid;
use sk_base::limits::MOST_PREFETCH;
use sk_base::{ListDice, MemConn, StepClock};
use sk_launcher::WorkSettings;
use sk_line::read_work;
use sk_link::WireLink;
use sk_policy::DelayRule;
use sk_worker::{Registry, Turn, WorkFault, Worker};
use std::alloc::Global;
use std::io;

/// How many teams the lines of workers may ask for.
pub const TEAMS: u32 = 4;

fn fault_name(fault: &WorkFault) -> &'static str {
    match fault {
        WorkFault::Link(fault) => link_fault(fault),
        WorkFault::Refused(_) => "refused",
        WorkFault::GenLimit => "the greatest count of failures",
        WorkFault::Ended => "had ended",
        WorkFault::Memory => "memory",
    }
}

fn turn_name(turn: &Result<Turn, WorkFault>) -> &'static str {
    match turn {
        Ok(Turn::Empty) => "empty",
        Ok(Turn::Done) => "done",
        Ok(Turn::Retried) => "retried",
        Ok(Turn::Buried) => "buried",
        Ok(Turn::Discarded) => "discarded",
        Err(fault) => fault_name(fault),
    }
}

/// What workers go by, and what comes of them.
#[derive(Drop)]
struct Scene<'a> {
    clock: StepClock,
    dice: ListDice,
    lines: &'a Lines,
    out: Output,
}

impl Scene<'_> {
    // The worker joins.
    fn join(&mut self, alloc: Global, worker: &mut Worker, link: &mut WireLink<MemConn>)
        requires { 0 ≤ 1 }
    {
        match worker.join(alloc, link) {
            Ok(()) => self.out.say("joined"),
            Err(fault) => self.out.say(fault_name(&fault)),
        }
        self.out.say("\n");
    }

    // The worker takes a turn. Before what came of it stand the lines that its job wrote.
    fn turn(
        &mut self,
        alloc: Global,
        worker: &mut Worker,
        registry: &mut Registry,
        link: &mut WireLink<MemConn>,
    )
        requires { 0 ≤ 1 }
    {
        let turn = worker.turn(alloc, link, registry, &mut self.clock, &mut self.dice);
        self.lines.move_to(&mut self.out);
        self.out.say(turn_name(&turn));
        self.out.say("\n");
    }

    // The worker leaves.
    fn leave(&mut self, alloc: Global, worker: &mut Worker, link: &mut WireLink<MemConn>)
        requires { 0 ≤ 1 }
    {
        match worker.leave(alloc, link) {
            Ok(count) => self.out.count("left ", count, ""),
            Err(fault) => self.out.say(fault_name(&fault)),
        }
        self.out.say("\n");
    }

    // A worker of the settings joins, takes their turns and leaves, over a connection, which is handed back.
    fn act(
        &mut self,
        alloc: Global,
        settings: WorkSettings,
        registry: &mut Registry,
        rule: DelayRule,
        conn: MemConn,
    ) -> MemConn
        requires { 0 ≤ 1 }
    {
        let prefetch = (settings.prefetch as usize).max(1).min(MOST_PREFETCH);
        let turns = settings.turns;
        let mut worker = Worker::new(alloc, settings.ident, settings.order, rule, prefetch);
        let mut link = WireLink::new(alloc, conn);
        self.join(alloc, &mut worker, &mut link);
        for _ in 0..turns {
            self.turn(alloc, &mut worker, registry, &mut link);
        }
        self.leave(alloc, &mut worker, &mut link);
        link.into_conn()
    }
}

// What the line asks for.
fn settings_of(alloc: Global, given: &Given<'_>, words: &[String]) -> io::Result<WorkSettings> {
    let line = match words {
        [_len, _every, _cut, line @ ..] if given.call == "iterjob" => line,
        line => line,
    };
    match read_work(alloc, line, TEAMS) {
        Ok(settings) => Ok(settings),
        Err(_) => Err(invalid()),
    }
}

/// What comes of workers of a line of `work`, one behind another, each over a connection and by a plain rule of its own: it joins, takes the line's
/// turns and leaves. Then what each connection took. In a call `iterjob` the line stands behind three words of the job.
pub fn run_workers(
    alloc: Global,
    given: &Given<'_>,
    words: &[String],
    registry: &mut Registry,
    mut rules: Vec<DelayRule>,
    conns: Vec<MemConn>,
    lines: &Lines,
) -> io::Result<Output>
    requires { 0 ≤ 1 }
{
    let (clock, dice) = (given.clock()?, given.dice(alloc)?);
    let out = Output::new(alloc);
    let mut scene = Scene {
        clock,
        dice,
        lines,
        out,
    };
    let mut past = Vec::new(alloc);
    for conn in conns {
        let settings = settings_of(alloc, given, words)?;
        let Some(rule) = rules.pop() else {
            return Err(invalid());
        };
        past.push(scene.act(alloc, settings, registry, rule, conn))?;
    }
    add_conns(&mut scene.out, &past, "@dialled\n");
    Ok(scene.out)
}
