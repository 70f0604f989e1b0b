// SK.LEAD ident, SK.CRON ident loop slot payload: one process leads, and pushes each periodic job once a slot (Sidekiq's wiki, "Ent Leader Election",
// "Ent Periodic Jobs"). The slot and the push come in one step.
ghost use Rattle.std.specs.Prelude.{◌≡◌, ◌≤◌, ℕ, nat_abs, IfOk};
ghost use Rattle.sk_base.specs.Score.{last_moment};
ghost use Rattle.sk_places.specs.Totals.{IsCountable};
ghost use Rattle.sk_places.specs.declared.origin.Origin.TheVariants.{Outside};
ghost use Rattle.sk_model.specs.Outcome.{Realizes};
ghost use Rattle.sk_model.specs.Periodic.{cron, has_loop, is_above, is_in_time, is_process, lead, push_slot};
ghost use Rattle.sk_model.specs.Seats.{where_plain};
ghost use Rattle.sk_model.specs.World.{phase_of};
ghost use Rattle.sk_store.specs.Stored.{InStep, IsReady, Executes, world};
ghost use Rattle.sk_jobs.specs.Slots.{slotted, unless_refused};

use crate::batches::may_call;
use crate::callbacks::push_job;
use crate::room::is_too_much;
use sk_base::limits::{MOST_LOOPS, SLOT_LIFE};
use sk_key::is_name;
use sk_payload::JobText;
use sk_places::Origin;
use sk_resp::{Memory, Refusal, Reply, Say, Word};
use sk_seats::Phase;
use sk_store::Store;
use sk_value::{one_if, refused};

// The word is the name of a process whose heartbeat stands.
fn is_process(store: &Store, ident: &Word) -> bool
    ensures { result ≡ is_process (world store.now) ident.now }
{
    is_name(ident.bytes()) && store.leases.alive(ident, store.moment)
}

/// SK.LEAD: the answer is 1 where the process leads, for half a minute from now on, and 0 where another one does. A word that isn't the name of a
/// process that is alive is refused.
pub fn lead(store: &mut Store, seat: u32, ident: &Word) -> Result<Reply, Memory>
    requires { IsReady store.old }
    ensures { Executes store.old (where_plain (phase_of (world store.old) seat) (lead (world store.old) ident.now)) result store.new }
{
    match store.seats.get(seat) {
        Phase::Plain => {
            if !is_process(store, ident) {
                return Ok(refused(Refusal::NoProcess));
            }
            let leads = store.leases.lead(ident, store.moment)?;
            Ok(one_if(leads))
        }
        _ => Ok(refused(Refusal::OutOfTurn)),
    }
}

// ## The rules of SK.CRON

fn is_above(slot: u64, last: Option<u64>) -> bool
    ensures { result ≡ is_above slot last }
{
    match last {
        Some(last) => last < slot,
        None => true,
    }
}

// The slot has come, and not long ago.
fn is_in_time(store: &Store, slot: u64) -> bool
    ensures { result ≡ is_in_time (world store.now) slot }
{
    slot <= store.moment && store.moment - slot <= SLOT_LIFE
}

// There is room for the loop.
fn has_loop(store: &Store, name: &Word) -> bool
    ensures { result ≡ has_loop (world store.now) name.now }
{
    if store.leases.last(name).is_some() {
        true
    } else {
        store.leases.loops() < MOST_LOOPS
    }
}

// The first rule that is broken, but for the room for the job.
fn check_slot(
    store: &Store,
    ident: &Word,
    name: &Word,
    slot: u64,
    payload: &JobText,
) -> Result<(), Refusal>
    ensures { cron (world store.now) ident.now name.now slot payload.now ≡ unless_refused result (push_slot (world store.now) name.now slot payload.now) }
{
    if !is_process(store, ident) {
        return Err(Refusal::NoProcess);
    }
    if !(may_call(payload) && is_name(name.bytes())) {
        return Err(Refusal::BadPayload);
    }
    if !store.leases.leads(ident, store.moment) {
        return Err(Refusal::NotLeader);
    }
    if !is_above(slot, store.leases.last(name)) {
        return Err(Refusal::SlotDone);
    }
    if !is_in_time(store, slot) {
        return Err(Refusal::SlotTime);
    }
    if !has_loop(store, name) {
        return Err(Refusal::Full);
    }
    Ok(())
}

// ## SK.CRON

// The loop gets the slot, and the job is pushed. After want of memory a part of it is done.
fn push_open(store: &mut Store, name: Word, slot: u64, payload: JobText) -> Result<Reply, Memory>
    requires { IsCountable Outside (world store.old).tally }
    ensures ok { IfOk result (λ reply. Realizes (world store.old) (slotted name slot payload) reply (world store.new)) }
    ensures step { InStep store.old store.new }
{
    store.leases.mark(name, slot)?;
    push_job(store, payload, Origin::Inner)?;
    Ok(Reply::Say(Say::Ok))
}

// What a client's seat may do.
fn push_slot(
    store: &mut Store,
    ident: &Word,
    name: Word,
    slot: u64,
    text: Word,
) -> Result<Reply, Memory>
    requires { IsReady store.old }
    ensures { Executes store.old (cron (world store.old) ident.now name slot text) result store.new }
{
    let payload = JobText::of(store.alloc, text)?;
    if let Err(refusal) = check_slot(store, ident, &name, slot, &payload) {
        return Ok(refused(refusal));
    }
    if is_too_much(store, &payload) {
        return Ok(refused(Refusal::Full));
    }
    store.begin();
    let done = push_open(store, name, slot, payload);
    store.close(done)
}

/// SK.CRON: the slot, in milliseconds since 1970, is the loop's last one now, and the job is pushed at the left end of its queue. It is refused with
///
/// - [`Refusal::NoProcess`], where the ident isn't the name of a process that is alive,
/// - [`Refusal::BadPayload`], where the text has no head, a batch or a lock, or the loop isn't a name,
/// - [`Refusal::NotLeader`], where the process doesn't lead,
/// - [`Refusal::SlotDone`], where the slot isn't above the loop's last one,
/// - [`Refusal::SlotTime`], where it is still to come, or came more than ten minutes ago, and
/// - [`Refusal::Full`], where there are as many loops, rows, bytes or pushes as there may be.
pub fn cron(
    store: &mut Store,
    seat: u32,
    ident: &Word,
    name: Word,
    slot: i64,
    text: Word,
) -> Result<Reply, Memory>
    requires { IsReady store.old }
    ensures { Executes store.old (where_plain (phase_of (world store.old) seat) (cron (world store.old) ident.now name (nat_abs slot) text)) result store.new }
{
    match store.seats.get(seat) {
        Phase::Plain => push_slot(store, ident, name, slot.unsigned_abs(), text),
        _ => Ok(refused(Refusal::OutOfTurn)),
    }
}
