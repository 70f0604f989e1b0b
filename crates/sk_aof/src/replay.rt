// The bodies of a log, run on a store.
ghost use Rattle.std.specs.Prelude.{◌≡◌, ◌≢◌, ◌<◌, length, OnOk, IsErrOf};
ghost use Rattle.sk_log.specs.declared.replayer.ReplayFault.TheVariants.{Refused};
ghost use Rattle.sk_model.specs.Event.{Ask};
ghost use Rattle.sk_model.specs.World.{first};
ghost use Rattle.sk_aof.specs.Accepted.{Accepts, IsRefused, Judges};
ghost use Rattle.sk_aof.specs.Bodies.{MayStand};
ghost use Rattle.sk_aof.specs.Read.{meant};

use crate::log_event::{LogEvent, read_event};
use sk_cmd::{CmdFault, read_command};
use sk_core::Core;
use sk_log::{ReplayFault, Replayer};
use sk_model::Limits;
use sk_resp::{Reply, Say, Words};
use std::alloc::Global;
use std::marker::Model;

/// Runs the bodies of a log on a store. Contracts see it as the store's world.
#[derive(Drop)]
pub(crate) struct Replay {
    alloc: Global,
    core: Core,
}

impl Model for Replay {
    ghost use Rattle.sk_model.specs.World.{World};

    ghost Value = { World };

    ghost view = { λ r. r.core };
}

// Why words of a log are no command.
fn unread(fault: CmdFault) -> ReplayFault
    ensures { result ≡ Refused → fault ≢ CmdFault.Memory }
{
    match fault {
        CmdFault::Memory => ReplayFault::Memory,
        _ => ReplayFault::Refused,
    }
}

// What the reply to a command of a log says of it.
fn judge(reply: &Reply) -> Result<(), ReplayFault>
    ensures { Judges reply.now result }
{
    if matches!(reply, Reply::Say(Say::Oom)) {
        return Err(ReplayFault::Memory);
    }
    if reply.is_error() {
        return Err(ReplayFault::Refused);
    }
    Ok(())
}

impl Replay {
    /// An empty store with these limits, at the moment 0.
    pub fn new(alloc: Global, limits: Limits) -> Replay
        ensures { result ≡ first limits }
    {
        Replay {
            alloc,
            core: Core::new(alloc, limits),
        }
    }

    /// The store.
    pub fn into_core(self) -> Core
        ensures { result ≡ self }
    {
        self.core
    }

    /// The store goes.
    pub fn close(self) {}

    // Does a command that the seat handed in.
    fn ask(&mut self, seat: u32, now: u64, words: Words) -> Result<(), ReplayFault>
        requires { 0 < length words }
        ensures ok { OnOk result (Accepts self.old (Ask seat now words) self.new) }
        ensures refused { IsErrOf result Refused → IsRefused self.old (Ask seat now words) }
    {
        match read_command(self.alloc, words) {
            Ok(command) => judge(&self.core.step(seat, now, command)),
            Err(fault) => Err(unread(fault)),
        }
    }

    fn apply(&mut self, event: LogEvent) -> Result<(), ReplayFault>
        requires { MayStand (meant event) }
        ensures ok { OnOk result (Accepts self.old (meant event) self.new) }
        ensures refused { IsErrOf result Refused → IsRefused self.old (meant event) }
    {
        match event {
            LogEvent::Ask(seat, now, words) => self.ask(seat, now, words),
            LogEvent::Cut(seat) => {
                self.core.cut(seat);
                Ok(())
            }
        }
    }
}

impl Replayer for Replay {
    ghost use Rattle.sk_aof.specs.Accepted.{Refuses, Runs};

    ghost runs = { Runs };

    ghost refuses = { Refuses };

    fn run(&mut self, body: &[u8]) -> Result<(), ReplayFault> {
        match read_event(self.alloc, body) {
            Ok(Some(event)) => self.apply(event),
            Ok(None) => Err(ReplayFault::Refused),
            Err(_) => Err(ReplayFault::Memory),
        }
    }
}
