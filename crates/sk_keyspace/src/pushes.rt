// LPUSH key text .., RPUSH key text .. on a queue (Redis, "LPUSH", "RPUSH")
ghost use Rattle.std.specs.Prelude.{◌≡◌, ◌≤◌, ◌+◌, OnOk, length};
ghost use Rattle.sk_cmd.specs.declared.argument.Side.{Side};
ghost use Rattle.sk_places.specs.declared.origin.Origin.TheVariants.{Outside};
ghost use Rattle.sk_model.specs.Change.{Add, Moves, changed, perform};
ghost use Rattle.sk_model.specs.Queues.{push, pushes};
ghost use Rattle.sk_model.specs.Room.{HasRoom};
ghost use Rattle.sk_places.specs.Rows.{row_at};
ghost use Rattle.sk_places.specs.Totals.{IsCountable, pushes_in};
ghost use Rattle.sk_places.specs.declared.row.Place.TheVariants.{Queue};
ghost use Rattle.sk_store.specs.Stored.{InStep, IsAtomic, IsReady, Executes, world};

use sk_base::Score;
use sk_cmd::Side;
use sk_payload::{JobText, job_texts_of};
use sk_places::{Origin, Place};
use sk_resp::{Memory, Refusal, Reply, Text, Words};
use sk_store::{Store, bytes_of};
use sk_value::{counted, refused};

// Puts the payload at that end of the queue.
fn push_one(store: &mut Store, queue: &Text, end: Side, payload: JobText) -> Result<(), Memory>
    requires { IsCountable Outside (world store.old).tally }
    ensures ok { OnOk result (world store.new ≡ changed (world store.old) (Moves (Add (row_at (Queue queue.now) payload) end Outside))) }
    ensures few { OnOk result (pushes_in (world store.new).tally ≤ pushes_in (world store.old).tally + 1) }
    ensures step { InStep store.old store.new }
{
    let place = Place::Queue(queue.copy()?);
    let held = store.seats.have(&payload);
    let start = Score::of_moment(0);
    store
        .places
        .push(place, start, end, payload, Origin::Outside, held)
}

// Puts each payload in turn at that end of the queue. After want of memory some of them stand.
fn push_each(
    store: &mut Store,
    queue: &Text,
    end: Side,
    payloads: Vec<JobText>,
) -> Result<(), Memory>
    requires { HasRoom (length payloads.items) (world store.old).tally }
    ensures ok { OnOk result (world store.new ≡ perform (world store.old) (pushes end (Queue queue.now) payloads.items)) }
    ensures step { InStep store.old store.new }
{
    for payload in payloads {
        push_one(store, queue, end, payload)?;
    }
    Ok(())
}

// Puts each payload in turn at that end of the queue, all of them or none.
fn push_all(
    store: &mut Store,
    queue: &Text,
    end: Side,
    payloads: Vec<JobText>,
) -> Result<(), Memory>
    requires ready { IsReady store.old }
    requires room { HasRoom (length payloads.items) (world store.old).tally }
    ensures { IsAtomic store.old (pushes end (Queue queue.now) payloads.items) result store.new }
{
    store.begin();
    let done = push_each(store, queue, end, payloads);
    store.close(done)
}

/// Puts each text in turn at that end of the queue, and answers the new length. Where that is more than the store takes, none is put.
pub fn push(store: &mut Store, queue: Text, end: Side, texts: Words) -> Result<Reply, Memory>
    requires { IsReady store.old }
    ensures { Executes store.old (push (world store.old) end (Queue queue) texts) result store.new }
{
    let count = texts.list().len();
    let bytes = bytes_of(texts.list());
    if store.is_full(count, bytes) {
        return Ok(refused(Refusal::Full));
    }
    let payloads = job_texts_of(store.alloc, texts.into_list())?;
    push_all(store, &queue, end, payloads)?;
    Ok(counted(store.places.len(&Place::Queue(queue))))
}
