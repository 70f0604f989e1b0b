// The locks of unique jobs: a map with undo from each digest, and the index of the deadlines. Memory is taken before the first edit.
ghost use Rattle.std.specs.Prelude.{◌≡◌, ◌<◌, [], None, IsSome, OnErr, OnOk, option_map, true};
ghost use Rattle.std.specs.Map.{keys_of};
ghost use Rattle.sk_resp.specs.WordOrder.{text_cmp};
ghost use Rattle.sk_undo.specs.Sorted.{is_sorted};
ghost use Rattle.sk_undo.specs.Versions.{begun, closed, committed, edited, undone};
ghost use Rattle.sk_leases.specs.LockIndex.{TakesLock, covers_locks, deadline_of};
ghost use Rattle.sk_leases.specs.Locks.{holder, is_held_by, is_over_in, lock_under, locks_at, with_lock, without_lock};

use crate::Memory;
use crate::expiries::{Expiries, add_expiry, next_expired};
use crate::lock::Lock;
use sk_resp::{Text, Word};
use sk_undo::UndoMap;
use std::alloc::Global;
use std::collections::BTreeSet;
use std::marker::Model;

type Held = UndoMap<Word, Lock>;

/// Locks by the bytes of their digests. Contracts see the list: what stands now, and what stood at the begin of an open step.
#[derive(Drop)]
pub struct Locks {
    held: Held,
    expiries: Expiries,
}

impl Model for Locks {
    ghost use Rattle.sk_undo.specs.Versions.{Versions, BothPass};
    ghost use Rattle.sk_leases.specs.Locks.{Locks as LocksSeen};

    ghost Value = { Versions LocksSeen };

    ghost use Rattle.sk_leases.specs.LockIndex.{covers_locks};

    ghost view = { λ l. l.held.list };

    ghost invariant = { λ l. BothPass (covers_locks l.expiries) l.held.list };
}

// Whether a lock is kept under a digest that is over.
fn is_over(held: &Held, digest: &Word, now: u64) -> bool
    ensures is { result ≡ is_over_in now (lock_under digest.now held.now.list.current) }
    ensures once { is_sorted text_cmp (keys_of held.now.list.current) ≡ true }
{
    let _len = held.len(); // its contract says that each digest stands once
    match held.get(digest) {
        Some(lock) => lock.deadline <= now,
        None => false,
    }
}

// Takes the lock under a digest out where it is over.
fn take_over(held: &mut Held, digest: &Word, now: u64)
    requires { held.old.list.saved ≡ None }
    ensures closed { held.new.list.saved ≡ None }
    ensures rest { TakesLock digest.now now held.old.list.current held.new.list.current }
{
    if is_over(held, digest, now) {
        let _lock = held.take(digest);
    }
}

// Takes the locks out that are over. What stays isn't looked at.
fn purge(held: &mut Held, expiries: &mut Expiries, now: u64)
    requires closed { held.old.list.saved ≡ None }
    requires covered { covers_locks expiries.old held.old.list.current ≡ true }
    ensures list { held.new.list ≡ edited (locks_at now held.old.list.current) held.old.list }
    ensures covered { covers_locks expiries.new held.new.list.current ≡ true }
{
    while let Some(digest) = next_expired(expiries, now) {
        take_over(held, &digest, now);
    }
}

impl Locks {
    /// Takes no memory.
    pub fn new(alloc: Global) -> Locks
        ensures { result ≡ closed [] }
    {
        Locks {
            held: UndoMap::new(alloc),
            expiries: BTreeSet::new(alloc),
        }
    }

    /// Takes out what is over. What stays isn't looked at.
    pub fn purge(&mut self, now: u64)
        requires { self.old.saved ≡ None }
        ensures { self.new ≡ edited (locks_at now self.old.current) self.old }
    {
        purge(&mut self.held, &mut self.expiries, now);
    }

    /// The job that holds the lock under a digest, where one stands.
    pub fn holder(&self, digest: &Word, now: u64) -> Option<&Text>
        ensures { option_map (λ jid. jid.now) result ≡ holder digest.now now self.now.current }
    {
        match self.held.get(digest) {
            Some(lock) if now < lock.deadline => Some(&lock.jid),
            _ => None,
        }
    }

    /// Makes a lock, in the place of any other under its digest.
    pub fn put(&mut self, digest: Word, jid: Text, deadline: u64) -> Result<(), Memory>
        ensures ok { OnOk result (self.new ≡ edited (with_lock digest (record { jid = jid; deadline = deadline }) self.old.current) self.old) }
        ensures err { OnErr result (self.new ≡ self.old) }
    {
        self.held.reserve(1)?;
        add_expiry(&mut self.expiries, digest.copy()?, deadline)?;
        self.held.put(digest, Lock { jid, deadline });
        Ok(())
    }

    // The deadline of the lock under a digest, where the job holds it.
    fn deadline_of(&self, digest: &Word, jid: &Text) -> Option<u64>
        ensures is { result ≡ deadline_of digest.now jid.now self.now.current }
        ensures once { is_sorted text_cmp (keys_of self.now.current) ≡ true }
    {
        let _len = self.held.len(); // its contract says that each digest stands once
        match self.held.get(digest) {
            Some(lock) if lock.jid.text() == jid.text() => Some(lock.deadline),
            _ => None,
        }
    }

    /// Takes the lock under a digest out where the job holds it, and answers whether it did. Takes no memory.
    pub fn remove(&mut self, digest: Word, jid: &Text) -> bool
        requires { self.old.saved ≡ None }
        ensures answer { result ≡ is_held_by digest jid.now self.old.current }
        ensures rest { self.new ≡ edited (without_lock digest jid.now self.old.current) self.old }
    {
        let Some(deadline) = self.deadline_of(&digest, jid) else {
            return false;
        };
        self.held.take(&digest);
        self.expiries.remove(&(deadline, digest));
        true
    }

    pub fn begin(&mut self)
        requires { self.old.saved ≡ None }
        ensures { self.new ≡ begun self.old }
    {
        self.held.begin();
    }

    pub fn undo(&mut self)
        requires { IsSome self.old.saved }
        ensures { self.new ≡ undone self.old }
    {
        self.held.undo();
    }

    pub fn commit(&mut self)
        requires { IsSome self.old.saved }
        ensures { self.new ≡ committed self.old }
    {
        self.held.commit();
    }
}
