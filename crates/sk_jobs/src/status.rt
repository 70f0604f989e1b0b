// SK.STATUS and SK.WHERE: the numbers that the store tells of itself, as a page and as a tally, and how many rows name a job.
ghost use Rattle.std.specs.Prelude.{◌≡◌, IfOk, length, map, unwrap_or};
ghost use Rattle.sk_counters.specs.Counters.{count_in};
ghost use Rattle.sk_places.specs.Rows.{rows_at};
ghost use Rattle.sk_places.specs.declared.row.Place.TheVariants.{Queue};
ghost use Rattle.sk_model.specs.Life.{rows_of};
ghost use Rattle.sk_model.specs.Outcome.{Realizes, says};
ghost use Rattle.sk_model.specs.Status.{numbers, status};
ghost use Rattle.sk_store.specs.Stored.{IsReady, Executes, world};
ghost use Rattle.sk_value.specs.Answer.{counted};
ghost use Rattle.sk_jobs.specs.Counting.{tally_of, waiting};

use sk_cmd::Scored;
use sk_counters::Counters;
use sk_places::{Place, Places};
use sk_resp::{Memory, Reply, Text, Word};
use sk_status::{Counts, Numbers, Tally, page};
use sk_store::Store;
use sk_value::counted;
use std::alloc::Global;

// What a counter counts. One that was never raised counts nothing.
fn count_of(counters: &Counters, name: &[u8]) -> u64
    ensures { result ≡ unwrap_or (count_in counters.now.current name.now) 0 }
{
    counters.get(name).unwrap_or(0)
}

// A copy of a name.
fn text_of(alloc: Global, name: &str) -> Result<Text, Memory>
    ensures { IfOk result (λ text. text ≡ name.now) }
{
    Ok(Text::new(String::from_str(alloc, name)?))
}

// A queue, and how many jobs wait there.
fn queue_count(alloc: Global, places: &Places, queue: &str) -> Result<(Text, u64), Memory>
    ensures name { IfOk result (λ count. count.0 ≡ queue.now) }
    ensures number { IfOk result (λ count. count.1 ≡ length (rows_at (Queue queue.now) places.now.current.rows)) }
{
    let place = Place::Queue(text_of(alloc, queue)?);
    Ok((text_of(alloc, queue)?, places.len(&place) as u64))
}

// The queues in the order of their names' bytes, each with how many jobs wait there.
fn queue_counts(alloc: Global, places: &Places) -> Result<Counts, Memory>
    ensures { IfOk result (λ counts. counts ≡ map (waiting places.now.current.rows) places.now.current.names) }
{
    let count = places.name_count();
    let mut list = Vec::with_capacity(alloc, count)?;
    for at in 0..count {
        let Some(queue) = places.name_at(at) else {
            unreachable!()
        };
        list.push(queue_count(alloc, places, queue)?)?;
    }
    Ok(Counts::new(list))
}

/// The numbers that the store tells of itself.
pub fn numbers(store: &Store) -> Result<Numbers, Memory>
    ensures { IfOk result (λ n. n ≡ numbers (world store.now)) }
{
    let places = &store.places;
    Ok(Numbers {
        processed: count_of(&store.counters, b"processed"),
        failed: count_of(&store.counters, b"failed"),
        processes: store.leases.alive_count(store.moment) as u64,
        queues: queue_counts(store.alloc, places)?,
        busy: places.private_count() as u64,
        scheduled: places.len(&Place::Set(Scored::Schedule)) as u64,
        retries: places.len(&Place::Set(Scored::Retry)) as u64,
        dead: places.len(&Place::Set(Scored::Dead)) as u64,
        batches: store.batches.len(),
        live: places.live_count() as u64,
    })
}

/// SK.STATUS: the numbers that the store tells of itself, as a page.
pub fn status_page(store: &Store) -> Result<Reply, Memory>
    requires { IsReady store.now }
    ensures { Executes store.now (status (world store.now)) result store.now }
{
    let numbers = numbers(store)?;
    let text = page(store.alloc, &numbers)?;
    Ok(Reply::Bulk(Word::new(text)))
}

/// The rows that were ever pushed, by how they came, and their jobs, by how they ended. Takes no memory.
pub fn tally(store: &Store) -> Tally
    ensures { result ≡ tally_of (world store.now) }
{
    let totals = store.places.totals();
    Tally {
        outside: totals.outside,
        inner: totals.inner,
        bare: totals.bare,
        again: totals.again,
        live: store.places.live_count() as u64,
        returned: totals.returned,
        discarded: totals.discarded,
        deleted: totals.deleted,
        trimmed: totals.trimmed,
        muddled: totals.muddled,
    }
}

/// SK.WHERE: how many rows name the job. Takes no memory.
pub fn locate(store: &Store, jid: &Word) -> Reply
    ensures { Realizes (world store.now) (says (counted (rows_of jid.now (world store.now)))) result (world store.now) }
{
    counted(store.places.count_of(jid.bytes()))
}
