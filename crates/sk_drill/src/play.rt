// How a store does a load's events, one after another, until there is no memory for one.
ghost use Rattle.std.specs.Prelude.{◌≡◌, ◌∷◌, [], false, true, map, OnErr, OnOk};
ghost use Rattle.sk_model.specs.Event.{Ask, Happens};
ghost use Rattle.sk_model.specs.Outcome.{Outcome, Realizes};
ghost use Rattle.sk_drill.specs.Events.{event_of};
ghost use Rattle.sk_drill.specs.Soaked.{PlaysSome, is_oom};

use crate::Memory;
use crate::events::{Event, Events};
use sk_cmd::{fault_reply, read_command};
use sk_core::Core;
use sk_resp::{Reply, Say, Words};
use std::alloc::Global;

// The reply to the words of a command, or to the fault that they have.
fn answer(alloc: Global, core: &mut Core, seat: u32, now: u64, words: Words) -> Reply
    ensures { (o : Outcome) × Happens core.old (Ask seat now words) o × Realizes core.old o result core.new }
{
    if words.list().is_empty() {
        return Reply::Say(Say::Unknown);
    }
    match read_command(alloc, words) {
        Ok(command) => core.step(seat, now, command),
        Err(fault) => fault_reply(&fault),
    }
}

// Whether there was memory for a command with this reply.
fn served(reply: &Reply) -> Result<(), Memory>
    ensures ok { OnOk result (is_oom reply.now ≡ false) }
    ensures err { OnErr result (is_oom reply.now ≡ true) }
{
    match reply {
        Reply::Say(Say::Oom) => Err(Memory),
        _ => Ok(()),
    }
}

// The store does one event.
fn happen(alloc: Global, core: &mut Core, event: Event) -> Result<(), Memory>
    ensures { OnOk result (PlaysSome core.old (event_of event ∷ []) core.new) }
{
    match event {
        Event::Ask(seat, now, words) => {
            let reply = answer(alloc, core, seat, now, words);
            served(&reply)
        }
        Event::Cut(seat) => {
            core.cut(seat);
            Ok(())
        }
    }
}

fn play_list(alloc: Global, core: &mut Core, list: Vec<Event>) -> Result<(), Memory>
    ensures { OnOk result (PlaysSome core.old (map event_of list.items) core.new) }
{
    for event in list {
        happen(alloc, core, event)?;
    }
    Ok(())
}

/// The store does the events. Memory is answered where the reply to one is `-OOM`.
pub(crate) fn play(alloc: Global, core: &mut Core, events: Events) -> Result<(), Memory>
    ensures { OnOk result (PlaysSome core.old events core.new) }
{
    play_list(alloc, core, events.into_list())
}
