// SK.UPUSH payload [score]: a job is pushed, unless another one with the same digest holds the lock (Sidekiq's wiki, "Ent Unique Jobs"). The lock
// and the push come in one step.
ghost use Rattle.std.specs.Prelude.{◌≡◌, ◌≤◌, IfOk, OnOk};
ghost use Rattle.sk_base.specs.Score.{last_moment};
ghost use Rattle.sk_places.specs.Totals.{IsCountable};
ghost use Rattle.sk_places.specs.declared.origin.Origin.TheVariants.{Outside};
ghost use Rattle.sk_cmd.specs.declared.argument.Scored.TheVariants.{Schedule};
ghost use Rattle.sk_model.specs.Change.{changed, perform};
ghost use Rattle.sk_model.specs.Outcome.{Realizes};
ghost use Rattle.sk_model.specs.Sets.{add_one};
ghost use Rattle.sk_model.specs.Unique.{push_or_schedule, unique_push};
ghost use Rattle.sk_store.specs.Stored.{InStep, IsReady, Executes, world};
ghost use Rattle.sk_jobs.specs.Locking.{push_wanted};

use crate::callbacks::{push_job, word_of};
use crate::locking::{WantedLock, wanted_lock};
use crate::room::is_too_much;
use sk_base::Score;
use sk_cmd::{Scored, Side};
use sk_payload::JobText;
use sk_places::{Origin, Place};
use sk_resp::{Memory, Refusal, Reply, Say, Word};
use sk_store::Store;
use sk_value::refused;

// The job is put into the schedule. A text that is there gets the score.
fn schedule(store: &mut Store, payload: JobText, score: Score) -> Result<(), Memory>
    requires { IsCountable Outside (world store.old).tally }
    ensures ok { OnOk result (world store.new ≡ changed (world store.old) (add_one (world store.old) Schedule (score, payload))) }
    ensures step { InStep store.old store.new }
{
    let place = Place::Set(Scored::Schedule);
    let text = payload.text().bytes();
    let to = Place::Set(Scored::Schedule);
    if store
        .places
        .shift_text(&place, text, to, score, Side::Left)?
    {
        return Ok(());
    }
    let held = store.seats.have(&payload);
    store
        .places
        .push(place, score, Side::Left, payload, Origin::Outside, held)
}

// The job goes to its queue, or into the schedule with a score.
fn push_or_schedule(store: &mut Store, payload: JobText, score: Option<Score>) -> Result<(), Memory>
    requires { IsCountable Outside (world store.old).tally }
    ensures ok { OnOk result (world store.new ≡ perform (world store.old) (push_or_schedule (world store.old) payload score)) }
    ensures step { InStep store.old store.new }
{
    match score {
        Some(score) => schedule(store, payload, score),
        None => push_job(store, payload, Origin::Outside),
    }
}

// The holder of the lock is the answer; else the job gets it, and is pushed. After want of memory a part of it is done.
fn push_open(
    store: &mut Store,
    payload: JobText,
    score: Option<Score>,
    lock: WantedLock,
) -> Result<Reply, Memory>
    requires early { store.old.moment ≤ last_moment }
    requires room { IsCountable Outside (world store.old).tally }
    ensures ok { IfOk result (λ reply. Realizes (world store.old) (push_wanted (world store.old) payload score lock) reply (world store.new)) }
    ensures step { InStep store.old store.new }
{
    let holder = store
        .leases
        .lock(lock.digest, lock.jid, lock.seconds, store.moment)?;
    if let Some(holder) = holder {
        return Ok(Reply::Bulk(word_of(store.alloc, holder.text().as_bytes())?));
    }
    push_or_schedule(store, payload, score)?;
    Ok(Reply::Say(Say::Ok))
}

/// SK.UPUSH: the job gets the lock under its digest, for as long as its head says, and is pushed at the left end of its queue, or put into the
/// schedule with a score. Where another job holds the lock, its id is the answer, and nothing changes. It is refused with
///
/// - [`Refusal::BadPayload`], where the text has no head, no lock, or a batch, and
/// - [`Refusal::Full`], where there are as many rows, bytes or pushes as there may be, whoever holds the lock.
pub fn push_unique(store: &mut Store, text: Word, score: Option<Score>) -> Result<Reply, Memory>
    requires { IsReady store.old }
    ensures { Executes store.old (unique_push (world store.old) text score) result store.new }
{
    let payload = JobText::of(store.alloc, text)?;
    let Some(lock) = wanted_lock(store.alloc, &payload)? else {
        return Ok(refused(Refusal::BadPayload));
    };
    if is_too_much(store, &payload) {
        return Ok(refused(Refusal::Full));
    }
    store.begin();
    let done = push_open(store, payload, score, lock);
    store.close(done)
}
