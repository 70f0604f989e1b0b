// What batches are told of jobs, and the callbacks that are pushed then (Sidekiq's wiki, "Batches").
ghost use Rattle.std.specs.Prelude.{◌≡◌, ◌≤◌, ◌+◌, ◌∷◌, ◌++◌, [], IfOk, OnOk, Some, length};
ghost use Rattle.sk_undo.specs.Versions.{edited};
ghost use Rattle.sk_places.specs.Totals.{IsCountable, last_push, pushes_in};
ghost use Rattle.sk_places.specs.declared.origin.Origin.TheVariants.{Inner};
ghost use Rattle.sk_model.specs.Change.{perform};
ghost use Rattle.sk_model.specs.Notify.{push_callback, fired_texts, kind_text, push_job};
ghost use Rattle.sk_store.specs.Stored.{InStep, world};
ghost use Rattle.sk_jobs.specs.Callbacks.{AreCovered, Notifies, callback_pushes, fires_on, marks_on, member_of};
ghost use Rattle.sk_jobs.specs.Routing.{Takes};

use sk_base::Score;
use sk_batch::{Batches, Event, Firing, Kind, Member};
use sk_cmd::Side;
use sk_payload::JobText;
use sk_places::{Origin, Place};
use sk_resp::{Memory, Word};
use sk_store::Store;
use std::alloc::Global;

/// A job is pushed at the left end of the queue that its head names. One without a head is pushed nowhere.
pub fn push_job(store: &mut Store, payload: JobText, from: Origin) -> Result<(), Memory>
    requires { IsCountable from (world store.old).tally }
    ensures ok { OnOk result (world store.new ≡ perform (world store.old) (push_job from payload)) }
    ensures aside { OnOk result (Takes [] store.old store.new) }
    ensures few { OnOk result (pushes_in (world store.new).tally ≤ pushes_in (world store.old).tally + 1) }
    ensures step { InStep store.old store.new }
{
    let Some(head) = payload.head() else {
        return Ok(());
    };
    let queue = Place::Queue(head.queue_text(store.alloc)?);
    let held = store.seats.have(&payload);
    let start = Score::of_moment(0);
    store
        .places
        .push(queue, start, Side::Left, payload, from, held)
}

// The name of a kind.
fn name_of(alloc: Global, kind: Kind) -> Result<Word, Memory>
    ensures { IfOk result (λ name. name ≡ kind_text kind) }
{
    let name = match kind {
        Kind::Complete => "complete",
        Kind::Success => "success",
        Kind::Death => "death",
    };
    Ok(Word::new(name.as_bytes().to_vec(alloc)?))
}

// The callback of a firing is pushed, where there is one, and the firing is told.
fn push_callback(store: &mut Store, fired: &mut Vec<Word>, firing: Firing) -> Result<(), Memory>
    requires { IsCountable Inner (world store.old).tally }
    ensures ok { OnOk result (world store.new ≡ perform (world store.old) (push_callback firing.payload)) }
    ensures texts { OnOk result (fired.new.items ≡ fired.old.items ++ firing.bid ∷ kind_text firing.kind ∷ []) }
    ensures aside { OnOk result (Takes [] store.old store.new) }
    ensures few { OnOk result (pushes_in (world store.new).tally ≤ pushes_in (world store.old).tally + 1) }
    ensures step { InStep store.old store.new }
{
    fired.push(firing.bid)?;
    fired.push(name_of(store.alloc, firing.kind)?)?;
    match firing.payload {
        Some(payload) => push_job(store, payload, Origin::Inner),
        None => Ok(()),
    }
}

/// The callbacks of firings are pushed, one after another. Answers the batch and the kind of each firing, in order.
pub fn push_callbacks(store: &mut Store, firings: Vec<Firing>) -> Result<Vec<Word>, Memory>
    requires { pushes_in (world store.old).tally + length firings.items ≤ last_push }
    ensures ok { OnOk result (world store.new ≡ perform (world store.old) (callback_pushes firings.items)) }
    ensures texts { IfOk result (λ fired. fired.items ≡ fired_texts firings.items) }
    ensures aside { OnOk result (Takes [] store.old store.new) }
    ensures step { InStep store.old store.new }
{
    let mut fired = Vec::new(store.alloc);
    for firing in firings {
        push_callback(store, &mut fired, firing)?;
    }
    Ok(fired)
}

// A batch is told what has come of its member, and fires.
fn fire(
    alloc: Global,
    batches: &mut Batches,
    event: Event,
    member: &Member,
) -> Result<Vec<Firing>, Memory>
    ensures fires { IfOk result (λ firings. firings.items ≡ fires_on event member.now batches.old.current) }
    ensures ok { OnOk result (batches.new ≡ edited (marks_on event member.now batches.old.current) batches.old) }
    ensures step { batches.new.saved ≡ batches.old.saved }
{
    let (bid, jid) = (member.bid.bytes(), member.jid.bytes());
    match event {
        Event::Reported => batches.reported(alloc, bid, jid),
        Event::Returned => batches.returned(alloc, bid, jid),
        Event::Died => batches.died(alloc, bid, jid),
    }
}

// A batch is told what has come of its member, and what it fires is called.
fn notify_batch(store: &mut Store, event: Event, member: &Member) -> Result<Vec<Word>, Memory>
    requires { AreCovered store.old }
    ensures ok { IfOk result (λ fired. Notifies event store.old (Some member.now) fired.items store.new) }
    ensures aside { OnOk result (Takes [] store.old store.new) }
    ensures covered { OnOk result (AreCovered store.new) }
    ensures step { InStep store.old store.new }
{
    let firings = fire(store.alloc, &mut store.batches, event, member)?;
    let _batches = store.batches.len(); // for what it says of their number
    let _pushes = store.places.push_count(); // and this of the clients' pushes
    push_callbacks(store, firings)
}

/// The batch of a member is told what has come of its job, and what it fires is called. Answers the batch and the kind of each firing, in order.
pub fn notify(store: &mut Store, event: Event, member: Option<Member>) -> Result<Vec<Word>, Memory>
    requires { AreCovered store.old }
    ensures ok { IfOk result (λ fired. Notifies event store.old member fired.items store.new) }
    ensures aside { OnOk result (Takes [] store.old store.new) }
    ensures covered { OnOk result (AreCovered store.new) }
    ensures step { InStep store.old store.new }
{
    match member {
        Some(member) => notify_batch(store, event, &member),
        None => Ok(Vec::new(store.alloc)),
    }
}

/// Bytes as a word.
pub fn word_of(alloc: Global, text: &[u8]) -> Result<Word, Memory>
    ensures { IfOk result (λ word. word ≡ text.now) }
{
    Ok(Word::new(text.to_vec(alloc)?))
}

/// The member that a payload's job is, where its head names a batch.
pub fn member_of(alloc: Global, payload: &JobText) -> Result<Option<Member>, Memory>
    ensures { IfOk result (λ member. member ≡ member_of payload.now) }
{
    let Some(head) = payload.head() else {
        return Ok(None);
    };
    let Some(bid) = head.bid() else {
        return Ok(None);
    };
    Ok(Some(Member {
        bid: word_of(alloc, bid)?,
        jid: word_of(alloc, head.jid())?,
    }))
}
