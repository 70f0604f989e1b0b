// What stands before each call of a session's desk: a gate that holds it back, for tests, and the loop's reserve of memory.
ghost use Rattle.std.specs.Prelude.{◌≡◌};

use crate::reserve::Reserve;
use sk_cmd::{Command, PlainCommand};
use sk_desk::Desk;
use sk_resp::{Reply, Say, Words};

/// Is passed before each call of a desk.
pub trait Gate: Sync {
    /// Lets the call go on that is the `turn`-th on the desk's seat, counted from 1.
    fn pass(&self, seat: u32, turn: u64);

    /// Whether it holds no call back. Where it may, there is no series.
    fn is_open(&self) -> bool {
        false
    }
}

/// Holds nothing back.
#[derive(Clone, Copy)]
pub struct OpenGate;

impl Gate for OpenGate {
    fn pass(&self, _seat: u32, _turn: u64) {}

    fn is_open(&self) -> bool {
        true
    }
}

// Whether the command keeps no memory: it only reads, or takes something away, or ends the session.
fn keeps_nothing(command: &Command) -> bool {
    command.is_read()
        || matches!(
            command,
            Command::Plain(
                PlainCommand::Shutdown
                    | PlainCommand::Flushall
                    | PlainCommand::Del(..)
                    | PlainCommand::Lrem(..)
                    | PlainCommand::Srem(..)
                    | PlainCommand::Hdel(..)
                    | PlainCommand::Zrem(..)
                    | PlainCommand::Zremrangebyrank(..)
                    | PlainCommand::Zremrangebyscore(..)
            )
        )
}

fn is_oom(reply: &Reply) -> bool {
    matches!(reply, Reply::Say(Say::Oom))
}

/// A desk behind a gate, and a reserve. Where memory is used up, a command that keeps some is answered so without a call, unless the reserve is whole.
#[derive(Drop)]
pub struct GatedDesk<'g, D: Desk + Drop, G: Gate> {
    desk: D,
    gate: &'g G,
    reserve: Reserve,
    seat: u32,
    // how many calls were made
    calls: u64,
}

impl<'g, D: Desk + Drop, G: Gate> GatedDesk<'g, D, G> {
    pub fn new(desk: D, gate: &'g G, mut reserve: Reserve, seat: u32) -> GatedDesk<'g, D, G>
        ensures { result.desk ≡ desk }
    {
        reserve.settle();
        GatedDesk {
            desk,
            gate,
            reserve,
            seat,
            calls: 0,
        }
    }

    /// The desk, and the reserve.
    pub fn into_parts(self) -> (D, Reserve)
        ensures { result.0 ≡ self.entry.desk }
    {
        let GatedDesk {
            desk,
            gate: _,
            reserve,
            seat: _,
            calls: _,
        } = self;
        (desk, reserve)
    }
}

impl<'g, D: Desk + Drop, G: Gate> Desk for GatedDesk<'g, D, G> {
    ghost wants_words = { D.wants_words };

    ghost acked = { λ d. D.acked d.desk };

    ghost calls = { λ d. D.calls d.desk };

    fn wants_words(&self) -> bool {
        self.desk.wants_words()
    }

    fn call(&mut self, words: &Words, command: Command, now: u64) -> Reply {
        self.calls = self.calls.saturating_add(1);
        self.gate.pass(self.seat, self.calls);
        if !self.desk.wants_words() && !keeps_nothing(&command) && !self.reserve.hold() {
            return Reply::Say(Say::Oom);
        }
        let reply = self.desk.call(words, command, now);
        if !self.reserve.is_whole() || is_oom(&reply) {
            self.reserve.settle();
        }
        reply
    }

    // None where a gate may hold a call back, or where memory is used up: the replies of a series take some.
    fn takes_series(&self) -> bool {
        self.gate.is_open() && self.reserve.is_whole() && self.desk.takes_series()
    }

    fn call_in_series(&mut self, words: &Words, command: Command, now: u64) -> Reply {
        self.calls = self.calls.saturating_add(1);
        let reply = self.desk.call_in_series(words, command, now);
        if is_oom(&reply) {
            self.desk.end_series();
            self.reserve.settle();
        }
        reply
    }

    fn end_series(&mut self) {
        self.desk.end_series();
    }

    ghost untold = { λ d none. D.untold d.desk none };
}
