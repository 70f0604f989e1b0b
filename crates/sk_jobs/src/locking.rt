// The locks of unique jobs: which lock a job wants, and which one it lets go of when it starts or has returned (Sidekiq's wiki, "Ent Unique Jobs").
ghost use Rattle.std.specs.Prelude.{◌≡◌, IfOk};
ghost use Rattle.sk_payload.specs.Head.{head as head_of};
ghost use Rattle.sk_model.specs.Change.{perform};
ghost use Rattle.sk_payload.specs.Digest.{digest as digest_in};
ghost use Rattle.sk_model.specs.Unique.{is_until, unlocks};
ghost use Rattle.sk_model.specs.World.{phase_of};
ghost use Rattle.sk_seats.specs.Works.{is_held_as};
ghost use Rattle.sk_store.specs.Stored.{IsReady, world};
ghost use Rattle.sk_jobs.specs.Locking.{lets_go, wanted};
ghost use Rattle.sk_jobs.specs.Seated.{IsFound};

use crate::callbacks::word_of;
use sk_payload::{JobHead, JobText, Until};
use sk_resp::{Memory, Text, Word};
use sk_seats::Phase;
use sk_store::Store;
use std::alloc::Global;

/// A lock that a job may hold.
#[derive(Drop)]
pub struct HeldLock {
    /// What the lock stands under.
    pub digest: Word,
    /// The job.
    pub jid: Text,
}

/// A lock that a job asks for.
#[derive(Drop)]
pub struct WantedLock {
    /// What the lock is to stand under.
    pub digest: Word,
    /// The job.
    pub jid: Text,
    /// How long it is to stand, in seconds.
    pub seconds: u32,
}

fn digest_of(alloc: Global, head: &JobHead<'_>) -> Result<Word, Memory>
    ensures { IfOk result (λ word. word ≡ digest_in head.now) }
{
    word_of(alloc, head.digest(alloc)?.text().as_bytes())
}

/// The lock that a job asks for: its head has one, and names no batch.
pub fn wanted_lock(alloc: Global, payload: &JobText) -> Result<Option<WantedLock>, Memory>
    ensures { IfOk result (λ lock. lock ≡ wanted (head_of payload.now)) }
{
    let Some(head) = payload.head() else {
        return Ok(None);
    };
    let Some(lock) = head.lock() else {
        return Ok(None);
    };
    if head.bid().is_some() {
        return Ok(None);
    }
    Ok(Some(WantedLock {
        digest: digest_of(alloc, &head)?,
        jid: head.jid_text(alloc)?,
        seconds: lock.seconds,
    }))
}

fn is_until(until: Until, other: Until) -> bool
    ensures { result ≡ is_until until other }
{
    match (until, other) {
        (Until::Success, Until::Success) | (Until::Start, Until::Start) => true,
        _ => false,
    }
}

// The lock that a job lets go of once it has come so far, where its head says that it holds it until then.
fn held_lock(alloc: Global, until: Until, payload: &JobText) -> Result<Option<HeldLock>, Memory>
    ensures { IfOk result (λ lock. lets_go lock ≡ unlocks until payload.now) }
{
    let Some(head) = payload.head() else {
        return Ok(None);
    };
    let Some(lock) = head.lock() else {
        return Ok(None);
    };
    if !is_until(until, lock.until) {
        return Ok(None);
    }
    Ok(Some(HeldLock {
        digest: digest_of(alloc, &head)?,
        jid: head.jid_text(alloc)?,
    }))
}

/// The same for a job of this text in the seat's hands.
pub fn held_lock_at(
    store: &Store,
    until: Until,
    seat: u32,
    text: &Word,
    at: usize,
) -> Result<Option<HeldLock>, Memory>
    requires { IsFound (is_held_as text.now) (phase_of (world store.now) seat) at }
    ensures { IfOk result (λ lock. lets_go lock ≡ unlocks until text.now) }
{
    match store.seats.get(seat) {
        Phase::Plain => unreachable!(),
        Phase::Joined(_, works) => held_lock(store.alloc, until, &works.get(at).payload),
    }
}

/// The job lets go of the lock, if it holds it. Takes no memory.
pub fn let_go(store: &mut Store, lock: Option<HeldLock>)
    requires { IsReady store.old }
    ensures world { world store.new ≡ perform (world store.old) (lets_go lock) }
    ensures ready { IsReady store.new }
{
    if let Some(lock) = lock {
        store.leases.unlock(lock.digest, &lock.jid);
    }
}
