// What a pipe keeps from command to command: the store, the acting seat, and the moment that the store is handed. A command is read, and then done.
ghost use Rattle.std.specs.Prelude.{◌≡◌, None};
ghost use Rattle.sk_resp.specs.Request.{Command as Line};
ghost use Rattle.sk_model.specs.Change.{moment_after};
ghost use Rattle.sk_model.specs.Reading.{IsSaid};
ghost use Rattle.sk_model.specs.Run.{first, is_ok, quits};
ghost use Rattle.sk_pipe.specs.PipeCommand.{meant};
ghost use Rattle.sk_pipe.specs.Session.{HandlesLine, stop_of, where_ok, word_of};

use crate::reading::{PipeCommand, read_words};
use sk_cmd::{Command, PlainCommand};
use sk_core::Core;
use sk_model::Limits;
use sk_resp::{Reply, Say, Words};
use sk_talk::{Answer, Stop, Talker};
use std::alloc::Global;
use std::marker::Model;

/// What a pipe keeps from command to command. Contracts see the world of its store, the acting seat and the moment.
#[derive(Drop)]
pub struct Session {
    alloc: Global,
    store: Core,
    seat: u32,
    now: u64,
}

impl Model for Session {
    ghost use Rattle.sk_model.specs.Run.{State};

    ghost Value = { State };

    ghost view = { λ s. record { world = s.store; seat = s.seat; now = s.now } };
}

// A QUIT or SHUTDOWN.
fn quits(command: &Command) -> bool
    ensures { result ≡ quits command.now }
{
    matches!(
        command,
        Command::Plain(PlainCommand::Quit | PlainCommand::Shutdown)
    )
}

fn word_of(command: &Command) -> Stop
    ensures { result ≡ word_of command.now }
{
    match command {
        Command::Plain(PlainCommand::Shutdown) => Stop::Shutdown,
        _ => Stop::Quit,
    }
}

// The word, of a QUIT or SHUTDOWN.
fn stop_of(command: &Command) -> Option<Stop>
    ensures { result ≡ stop_of command.now }
{
    if quits(command) {
        Some(word_of(command))
    } else {
        None
    }
}

fn is_ok(reply: &Reply) -> bool
    ensures { result ≡ is_ok reply.now }
{
    matches!(reply, Reply::Say(Say::Ok))
}

// The word, where the reply to it is `+OK`.
fn where_ok(stop: Option<Stop>, reply: &Reply) -> Option<Stop>
    ensures { result ≡ where_ok stop reply.now }
{
    if is_ok(reply) { stop } else { None }
}

// A fixed text, after which the pipe goes on.
fn tells(say: Say) -> Answer
    ensures { result ≡ record { reply = Reply.Say say; stop = None } }
{
    Answer {
        reply: Reply::Say(say),
        stop: None,
    }
}

impl Session {
    ghost use Rattle.sk_pipe.specs.Session.{HandlesCommand};

    /// An empty store with these limits, with seat 0 acting, at the moment 0. Takes no memory.
    pub fn new(alloc: Global, limits: Limits) -> Self
        ensures { result ≡ first limits }
    {
        Session::over(alloc, Core::new(alloc, limits))
    }

    /// A store, with seat 0 acting, at the moment 0. Takes no memory.
    pub fn over(alloc: Global, store: Core) -> Self
        ensures { result ≡ record { world = store; seat = 0; now = 0 } }
    {
        Session {
            alloc,
            store,
            seat: 0,
            now: 0,
        }
    }

    /// The session is over, and its store goes.
    pub fn close(self) {}

    /// The acting seat.
    pub fn seat(&self) -> u32
        ensures { result ≡ self.entry.now.seat }
    {
        self.seat
    }

    /// The moment at which a command acts that comes now, in milliseconds since 1970.
    pub fn acts_at(&self) -> u64
        ensures { result ≡ moment_after self.entry.now.now self.entry.now.world }
    {
        self.store.acts_at(self.now)
    }

    // Lets the store do the command. A QUIT or SHUTDOWN for which there was no memory ends nothing.
    fn ask(&mut self, command: Command) -> Answer
        ensures { HandlesCommand self.old command result self.new }
    {
        let stop = stop_of(&command);
        let reply = self.store.step(self.seat, self.now, command);
        let stop = where_ok(stop, &reply);
        Answer { reply, stop }
    }

    /// Does what the words of a command are.
    pub fn perform(&mut self, said: PipeCommand) -> Answer
        ensures { (words : Line) → IsSaid words (meant said) → HandlesLine self.old words result self.new }
    {
        match said {
            PipeCommand::Refused(say) => tells(say),
            PipeCommand::SetTime(now) => {
                self.now = now;
                tells(Say::Ok)
            }
            PipeCommand::ActAs(seat) => {
                self.seat = seat;
                tells(Say::Ok)
            }
            PipeCommand::CutSeat(seat) => {
                self.store.cut(seat);
                tells(Say::Ok)
            }
            PipeCommand::RunCommand(command) => self.ask(command),
        }
    }
}

impl Talker for Session {
    ghost does = { λ old words reply stop new. HandlesLine old words (record { reply = reply; stop = stop }) new };

    /// Reads the words of a command, and does it.
    fn answer(&mut self, words: Words) -> Answer {
        match read_words(self.alloc, words) {
            Ok(said) => self.perform(said),
            Err(_) => tells(Say::Oom),
        }
    }
}
