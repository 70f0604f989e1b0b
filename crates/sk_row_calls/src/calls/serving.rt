// Servers that no command line asks for: one whose store has small limits, and one with two loops whose sessions go on side by side, in which a gate
// holds a call of one until the other is answered.
ghost use Rattle.std.specs.Prelude.{◌<◌, ◌≤◌};
ghost use Rattle.sk_base.specs.declared.limits.TheConstants.{MOST_LOOPS_SERVED};

use crate::calls::ending::add_ending;
use crate::calls::{Given, Peers};
use crate::output::Output;
use crate::text::{count, limits, numbers};
use sk_base::StepClock;
use sk_edge::MemDoor;
use sk_model::Limits;
use sk_pipe::SHIPPED_LIMITS;
use sk_serve::{Gate, OpenGate, ServeEnd, serve};
use std::alloc::Global;
use std::io;
use std::sync::Wait;
use std::sync::atomic::{AtomicBool, AtomicU64, Ordering};
use std::thread::Threads;

/// How often the gate looks at most: some seconds. Then it lets the call go on all the same, and the row differs.
const LOOKS: u64 = 1 << 32;

/// Holds the first call of one seat until each other seat's second call comes, whose first was answered, then; and each other seat's first until that
/// of the held one has come. It counts the calls that passed.
#[derive(Drop)]
struct Hold {
    seat: u32,
    came: AtomicBool,
    answered: AtomicBool,
    gave_up: AtomicBool,
    held: AtomicU64,
    others: AtomicU64,
}

impl Hold {
    fn of(seat: u32) -> Hold {
        Hold {
            seat,
            came: AtomicBool::new(false),
            answered: AtomicBool::new(false),
            gave_up: AtomicBool::new(false),
            held: AtomicU64::new(0),
            others: AtomicU64::new(0),
        }
    }

    // Waits until the flag is set.
    fn wait_for(&self, flag: &AtomicBool) {
        for _ in 0..LOOKS {
            if flag.load(Ordering::SeqCst) {
                return;
            }
        }
        self.gave_up.store(true, Ordering::SeqCst);
    }

    // The turn of the held seat.
    fn pass_held(&self, turn: u64) {
        if turn == 1 {
            self.came.store(true, Ordering::SeqCst);
            self.wait_for(&self.answered);
        }
        self.held.fetch_add(1, Ordering::SeqCst);
    }

    // The turn of another seat.
    fn pass_other(&self, turn: u64) {
        match turn {
            1 => self.wait_for(&self.came),
            2 => self.answered.store(true, Ordering::SeqCst),
            _ => {}
        }
        self.others.fetch_add(1, Ordering::SeqCst);
    }

    // How many calls passed, and whether none passed before its time.
    fn add_to(&self, out: &mut Output) {
        out.count("held ", self.held.load(Ordering::SeqCst), "");
        out.count(" others ", self.others.load(Ordering::SeqCst), " ");
        out.say(match self.gave_up.load(Ordering::SeqCst) {
            true => "too long\n",
            false => "in time\n",
        });
    }
}

impl Gate for Hold {
    fn pass(&self, seat: u32, turn: u64) {
        if seat == self.seat {
            self.pass_held(turn);
        } else {
            self.pass_other(turn);
        }
    }
}

// The status of a server with so many loops, each of which serves the first connection of its ear: 0 where each did so, and 1 at any fault.
fn status<R: Threads + Wait + Sync, G: Gate + Sync>(
    rt: &R,
    alloc: Global,
    door: &mut MemDoor,
    loops: usize,
    room: Limits,
    clock: &StepClock,
    gate: &G,
) -> u8
    requires { (0 < loops) × (loops ≤ MOST_LOOPS_SERVED) }
{
    let end = serve(rt, alloc, door, 1, loops, 1, room, clock, gate);
    u8::from(!matches!(end, ServeEnd::Served(_)))
}

/// What comes of a server: `small` has one loop, and a store with room for the rows, bytes and batches that the words tell; `held` has two, and a gate
/// that holds the seat which the word names.
pub fn serve_row<R: Threads + Wait + Sync>(
    rt: &R,
    alloc: Global,
    given: &Given<'_>,
) -> io::Result<Output> {
    let clock = given.clock()?;
    let Peers {
        sink,
        heard,
        dialled,
        ..
    } = Peers::read(alloc, given.parts)?;
    let mut door = MemDoor::new(alloc, heard, dialled);
    let mut out = Output::new(alloc);
    let status = if given.call == "held" {
        let gate = Hold::of(count(given.words)?);
        let status = status(rt, alloc, &mut door, 2, SHIPPED_LIMITS, &clock, &gate);
        gate.add_to(&mut out);
        status
    } else {
        let room = limits(&numbers(alloc, given.words)?)?;
        status(rt, alloc, &mut door, 1, room, &clock, &OpenGate)
    };
    add_ending(&mut out, status, &sink, &door);
    Ok(out)
}
