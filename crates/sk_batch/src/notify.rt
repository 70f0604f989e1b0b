// What comes of a member, told to its batch: what is fired is found first, and only then is anything changed.
ghost use Rattle.std.specs.Prelude.{◌≡◌, ◌+◌, true, IfOk, OnErr, OnOk};
ghost use Rattle.sk_batch.specs.Along.{along};
ghost use Rattle.sk_batch.specs.Batched.{is_job};
ghost use Rattle.sk_batch.specs.Fires.{after_fires, retagged};
ghost use Rattle.sk_batch.specs.Open.{with_mark};
ghost use Rattle.sk_batch.specs.Places.{AreAncestors, each_once};
ghost use Rattle.sk_batch.specs.States.{AreEdited, BatchInvariant, all_fired, of_lists, seen_of, with_change};
ghost use Rattle.sk_batch.specs.declared.numbers.Change.TheVariants.{Got};
ghost use Rattle.sk_batch.specs.Notify.{fires_of, mark_of};
ghost use Rattle.sk_undo.specs.Versions.{edited};

use crate::ancestors::{ancestor_places, change_ancestors};
use crate::batch_list::BatchList;
use crate::due::due;
use crate::edits::{mark_fired, mark_member};
use crate::event::Event;
use crate::members::member_at;
use crate::numbers::{Change, gained};
use crate::{Firing, Mark, Member, Memory, Progress};
use sk_undo::UndoList;
use std::alloc::Global;

fn mark_of(event: Event) -> Mark
    ensures { result ≡ mark_of event }
{
    match event {
        Event::Returned => Mark::Returned,
        Event::Reported | Event::Died => Mark::Reported,
    }
}

// How many edits these are. No list has room for more than there are numbers.
fn edits_of(changes: usize, fires: usize) -> Result<usize, Memory>
    ensures { IfOk result (λ edits. edits ≡ changes + fires) }
{
    match changes.checked_add(fires) {
        Some(edits) => Ok(edits),
        None => Err(Memory),
    }
}

// Takes all memory first, so that what was fired and what came of the member are kept, or nothing is.
fn keep_fires(
    batches: &mut BatchList,
    bid: &[u8],
    places: &[usize],
    gained: Progress,
    firings: &[Firing],
) -> Result<(), Memory>
    requires { AreAncestors bid.now places.now batches.old.list.current }
    ensures ok { OnOk result (batches.new.list ≡ edited (along (with_change (Got gained) bid.now) (all_fired firings.now batches.old.list.current) bid.now) batches.old.list) }
    ensures once { OnOk result (each_once (all_fired firings.now batches.old.list.current) ≡ true) }
    ensures err { OnErr result (batches.new.list ≡ batches.old.list) }
{
    let edits = edits_of(places.len(), firings.len())?;
    batches.reserve(edits)?;
    mark_fired(batches, firings);
    change_ancestors(batches, bid, places, Change::Got(gained));
    Ok(())
}

/// Tells a batch what has come of a job, and answers what is fired.
#[tactic(auto, using(crate::proofs::Places::no_position, crate::proofs::Places::retagged_none))]
pub fn notify(
    alloc: Global,
    batches: &mut BatchList,
    members: &mut UndoList<Progress, Member>,
    event: Event,
    bid: &[u8],
    jid: &[u8],
) -> Result<Vec<Firing>, Memory>
    requires { BatchInvariant batches.old.list.current members.old.list.current }
    ensures fires { IfOk result (λ firings. firings.items ≡ fires_of event bid.now jid.now (of_lists (seen_of batches.old.list.current) members.old.list.current)) }
    ensures batches { OnOk result (AreEdited batches.old.list batches.new.list (after_fires (fires_of event bid.now jid.now (of_lists (seen_of batches.old.list.current) members.old.list.current)) (seen_of batches.old.list.current))) }
    ensures members { OnOk result (members.new.list ≡ edited (retagged (is_job bid.now jid.now) (with_mark (mark_of event)) members.old.list.current) members.old.list) }
    ensures kept { OnOk result (BatchInvariant batches.new.list.current members.new.list.current) }
    ensures err_batches { OnErr result (batches.new.list ≡ batches.old.list) }
    ensures err_members { OnErr result (members.new.list ≡ members.old.list) }
{
    let at = member_at(members, bid, jid);
    if at == members.len() {
        return Ok(Vec::new(alloc));
    }
    let mark = mark_of(event);
    let gained = gained(mark, members.get(at).0);
    let places = ancestor_places(alloc, batches, bid)?;
    let firings = due(alloc, batches, &places, event, gained)?;
    members.reserve(1)?;
    keep_fires(batches, bid, &places, gained, &firings)?;
    mark_member(members, at, mark);
    Ok(firings)
}
