// Each command handed to what does it, from the seat that sent it and at its moment.
ghost use Rattle.std.specs.Prelude.{◌≡◌, OnErr, false};
ghost use Rattle.sk_cmd.specs.declared.command.Command.TheVariants as Command;
ghost use Rattle.sk_model.specs.Seats.{releases};
ghost use Rattle.sk_model.specs.Step.{run};
ghost use Rattle.sk_model.specs.World.{phase_of};
ghost use Rattle.sk_jobs.specs.Callbacks.{AreCovered};
ghost use Rattle.sk_places.specs.Cleared.{AllStand};
ghost use Rattle.sk_store.specs.Stored.{IsReady, Executes, world};
ghost use Rattle.sk_core.specs.Whole.{AnswersCommand, sent_by};

use crate::rights::{adds, is_plain, is_worker_action};
use sk_cmd::{Command, PlainCommand, ScriptCommand};
use sk_jobs::{
    BatchWords, add_to_batch, back, batch_stat, beat, bury, cron, discard, due, fail, join, kill,
    lead, locate, push_batch, push_unique, rescue, revive, start, status_page, succeed, work,
};
use sk_keyspace::act;
use sk_resp::{Memory, Refusal, Reply, Say};
use sk_store::Store;
use sk_value::{Action, action_of, refused};

// Does what a seat's command on keys does. Where memory runs out it was no release.
fn run_plain(store: &mut Store, seat: u32, reads: bool, action: Action) -> Result<Reply, Memory>
    requires ready { IsReady store.old }
    requires standing { AllStand (world store.old).rows (world store.old).live }
    ensures ran { Executes store.old (sent_by (world store.old) seat (phase_of (world store.old) seat) reads action) result store.new }
    ensures release { OnErr result (releases (phase_of (world store.old) seat) action ≡ false) }
{
    if is_worker_action(&action) {
        return work(store, seat, action);
    }
    if is_plain(store.seats.get(seat)) || reads || adds(&action) {
        act(store, action)
    } else {
        Ok(refused(Refusal::OutOfTurn))
    }
}

// Does it at a moment.
fn step_plain(store: &mut Store, seat: u32, now: u64, command: PlainCommand) -> Reply
    requires ready { IsReady store.old }
    requires standing { AllStand (world store.old).rows (world store.old).live }
    ensures served { AnswersCommand store.old seat now (Command.Plain command) result store.new }
    ensures ready { IsReady store.new }
{
    let reads = command.is_read();
    let action = action_of(command);
    store.pass(now);
    match run_plain(store, seat, reads, action) {
        Ok(reply) => reply,
        Err(_) => Reply::Say(Say::Oom),
    }
}

// Does what a script does.
fn run_script(store: &mut Store, seat: u32, script: ScriptCommand) -> Result<Reply, Memory>
    requires ready { IsReady store.old }
    requires covered { AreCovered store.old }
    ensures { Executes store.old (run (world store.old) seat (phase_of (world store.old) seat) script) result store.new }
{
    match script {
        ScriptCommand::Beat(ident) => beat(store, &ident),
        ScriptCommand::Join(ident) => join(store, seat, ident),
        ScriptCommand::Start(text) => start(store, seat, &text),
        ScriptCommand::Ok(text) => succeed(store, seat, &text),
        ScriptCommand::Fail(text) => fail(store, seat, &text),
        ScriptCommand::Drop(text) => Ok(discard(store, seat, &text)),
        ScriptCommand::Bury(text) => bury(store, seat, text),
        ScriptCommand::Back(text) => back(store, seat, &text),
        ScriptCommand::Due(set, limit) => due(store, seat, set, limit),
        ScriptCommand::Revive(set, text) => revive(store, seat, set, &text),
        ScriptCommand::Kill(set, text) => kill(store, seat, set, &text),
        ScriptCommand::Rescue => rescue(store, seat),
        ScriptCommand::Upush(text, score) => push_unique(store, text, score),
        ScriptCommand::Bpush(bid, parent, complete, success, death, texts) => {
            let words = BatchWords {
                bid,
                parent,
                complete,
                success,
                death,
                texts,
            };
            push_batch(store, words)
        }
        ScriptCommand::Badd(bid, texts) => add_to_batch(store, &bid, texts),
        ScriptCommand::Bstat(bid) => batch_stat(store, &bid),
        ScriptCommand::Where(jid) => Ok(locate(store, &jid)),
        ScriptCommand::Status => status_page(store),
        ScriptCommand::Lead(ident) => lead(store, seat, &ident),
        ScriptCommand::Cron(ident, name, slot, text) => cron(store, seat, &ident, name, slot, text),
    }
}

// Does it at a moment.
fn step_script(store: &mut Store, seat: u32, now: u64, script: ScriptCommand) -> Reply
    requires ready { IsReady store.old }
    requires covered { AreCovered store.old }
    ensures served { AnswersCommand store.old seat now (Command.Script script) result store.new }
    ensures ready { IsReady store.new }
{
    store.pass(now);
    match run_script(store, seat, script) {
        Ok(reply) => reply,
        Err(_) => Reply::Say(Say::Oom),
    }
}

/// Does a command that a seat hands in at a moment, in milliseconds since 1970. Where memory runs out time alone has gone on. Some row names each live
/// job.
pub fn step(store: &mut Store, seat: u32, now: u64, command: Command) -> Reply
    requires ready { IsReady store.old }
    requires standing { AllStand (world store.old).rows (world store.old).live }
    requires covered { AreCovered store.old }
    ensures served { AnswersCommand store.old seat now command result store.new }
    ensures ready { IsReady store.new }
{
    match command {
        Command::Plain(command) => step_plain(store, seat, now, command),
        Command::Script(script) => step_script(store, seat, now, script),
    }
}
