// Everything that stands until its deadline. A process that sends no heartbeat for a minute counts as dead. A recovery is noted when a job is
// taken back from a dead process, so that a job which kills its process again and again is found out. A lock keeps a second job of the same work
// from being pushed.
ghost use Rattle.std.specs.Prelude.{◌≡◌, ◌+◌, ◌*◌, ◌<◌, ◌^◌, not, cond, None, Some, true, IfOk, IfSome, IsSome, OnErr, OnOk, length};
ghost use Rattle.sk_undo.specs.Versions.{begun, closed, committed, edited, undone};
ghost use Rattle.sk_leases.specs.Leased.{beat, beat_life, forgotten, holder_at, holds, idents, is_alive, is_led_by_another, last, lead_life, leads, led, locked, loops, marked, nothing, purged, recovered, recovery_life, standing, unlocked};
ghost use Rattle.sk_leases.specs.Order.{is_ordered};

use crate::Memory;
use crate::deadlines::Deadlines;
use crate::leader::Leader;
use crate::locks::Locks;
use crate::slots::Slots;
use sk_base::limits::{BEAT_LIFE, LEAD_LIFE, RECOVERY_LIFE};
use sk_resp::{Text, Word};
use std::alloc::Global;
use std::marker::Model;

/// Heartbeats, recoveries, locks and the lease of the leader, and the last slots of periodic jobs. Each but the slots stands while the moment is below its deadline. Moments are milliseconds since 1970. Contracts see what stands
/// now, and what stood at the begin of an open step.
#[derive(Drop)]
pub struct Leases {
    alloc: Global,
    beats: Deadlines,
    recoveries: Deadlines,
    locks: Locks,
    leader: Leader,
    slots: Slots,
}

impl Model for Leases {
    ghost use Rattle.sk_undo.specs.Versions.{Versions, both, versions_code};
    ghost use Rattle.sk_leases.specs.Leased.{Leased, leased, leased_code, with_leader, with_locks, with_slots};

    ghost Value = { Versions Leased };

    ghost coded = { versions_code leased_code };

    ghost view = { λ l. both with_slots (both with_leader (both with_locks (both leased l.beats l.recoveries) l.locks) l.leader) l.slots };

    ghost use Rattle.sk_leases.specs.Together.{AreTogether};

    ghost invariant = { λ l. AreTogether l.beats l.recoveries l.locks l.leader l.slots };
}

impl Leases {
    /// Takes no memory.
    pub fn new(alloc: Global) -> Leases
        ensures { result ≡ closed nothing }
    {
        Leases {
            alloc,
            beats: Deadlines::new(alloc),
            recoveries: Deadlines::new(alloc),
            locks: Locks::new(alloc),
            leader: Leader::new(),
            slots: Slots::new(alloc),
        }
    }

    /// Removes what is over at the moment, and looks at nothing that stays. Takes no memory.
    pub fn purge(&mut self, now: u64)
        requires { self.old.saved ≡ None }
        ensures { self.new ≡ edited (purged now self.old.current) self.old }
    {
        self.beats.purge(now);
        self.recoveries.purge(now);
        self.locks.purge(now);
        self.leader.purge(now);
    }

    /// A process is alive: its heartbeat stands for a minute from now on.
    pub fn beat(&mut self, ident: &Word, now: u64) -> Result<(), Memory>
        requires { now + beat_life < 2 ^ 64 }
        ensures ok { OnOk result (self.new ≡ edited (beat ident.now now self.old.current) self.old) }
        ensures err { OnErr result (self.new ≡ self.old) }
    {
        self.beats.renew(self.alloc, ident.bytes(), now + BEAT_LIFE)
    }

    /// Whether the heartbeat of the process stands. Takes no memory.
    pub fn alive(&self, ident: &Word, now: u64) -> bool
        ensures { result ≡ is_alive ident.now now self.now.current }
    {
        self.beats.count(ident.bytes(), now) > 0
    }

    /// The processes whose heartbeat stands, by the bytes of their idents.
    pub fn idents(&self, alloc: Global, now: u64) -> Result<Vec<Word>, Memory>
        ensures idents { IfOk result (λ words. words.items ≡ idents now self.now.current) }
        ensures order { is_ordered self.now.current.beats ≡ true }
    {
        self.beats.names(alloc, now)
    }

    /// How many processes have a heartbeat that stands. Looks at each, and takes no memory.
    pub fn alive_count(&self, now: u64) -> usize
        ensures { result ≡ length (idents now self.now.current) }
    {
        self.beats.len(now)
    }

    /// Notes that the job was taken back from a dead process, and answers how many of its recoveries stand, this one counted.
    pub fn recovered(&mut self, jid: &Text, now: u64) -> Result<u64, Memory>
        requires { now + recovery_life < 2 ^ 64 }
        ensures count { IfOk result (λ count. count ≡ standing jid.now now (recovered jid.now now self.old.current)) }
        ensures ok { OnOk result (self.new ≡ edited (recovered jid.now now self.old.current) self.old) }
        ensures err { OnErr result (self.new ≡ self.old) }
    {
        let jid = jid.text().as_bytes();
        self.recoveries.put(self.alloc, jid, now + RECOVERY_LIFE)?;
        Ok(self.recoveries.count(jid, now) as u64)
    }

    /// Forgets the recoveries of the job.
    pub fn forget(&mut self, jid: &Text) -> Result<(), Memory>
        ensures ok { OnOk result (self.new ≡ edited (forgotten jid.now self.old.current) self.old) }
        ensures err { OnErr result (self.new ≡ self.old) }
    {
        self.recoveries.drop_all(jid.text().as_bytes())
    }

    /// The job that holds the lock under a digest, where one stands, is the answer. Else this job gets the lock, for so many seconds from now on.
    pub fn lock(
        &mut self,
        digest: Word,
        jid: Text,
        seconds: u32,
        now: u64,
    ) -> Result<Option<Text>, Memory>
        requires { now + 1000 * seconds < 2 ^ 64 }
        ensures holder { IfOk result (λ jid. jid ≡ holder_at digest now self.old.current) }
        ensures held { IfOk result (λ holder. IfSome holder (λ jid. self.new ≡ self.old)) }
        ensures made { result ≡ Ok None → self.new ≡ edited (locked digest jid seconds now self.old.current) self.old }
        ensures err { OnErr result (self.new ≡ self.old) }
    {
        if let Some(holder) = self.locks.holder(&digest, now) {
            return Ok(Some(holder.copy()?));
        }
        let deadline = now + 1000 * u64::from(seconds);
        self.locks.put(digest, jid, deadline)?;
        Ok(None)
    }

    /// The job lets go of the lock under a digest, and the answer is whether it held it. Another's lock stays. No step may be open. Takes no memory.
    pub fn unlock(&mut self, digest: Word, jid: &Text) -> bool
        requires { self.old.saved ≡ None }
        ensures answer { result ≡ holds digest jid.now self.old.current }
        ensures rest { self.new ≡ edited (unlocked digest jid.now self.old.current) self.old }
    {
        self.locks.remove(digest, jid)
    }

    /// Whether the process leads: another's lease stands, or else its own does from now on, for half a minute.
    pub fn lead(&mut self, ident: &Word, now: u64) -> Result<bool, Memory>
        requires { now + lead_life < 2 ^ 64 }
        ensures answer { IfOk result (λ leads. leads ≡ not (is_led_by_another ident.now now self.old.current)) }
        ensures ok { OnOk result (self.new ≡ edited (cond (is_led_by_another ident.now now self.old.current) self.old.current (led ident.now now self.old.current)) self.old) }
        ensures err { OnErr result (self.new ≡ self.old) }
    {
        if self.leader.is_held_by_another(ident.bytes(), now) {
            return Ok(false);
        }
        self.leader.set(ident.copy()?, now + LEAD_LIFE);
        Ok(true)
    }

    /// Whether the lease of the leader is the process's, and stands. Takes no memory.
    pub fn leads(&self, ident: &Word, now: u64) -> bool
        ensures { result ≡ leads ident.now now self.now.current }
    {
        self.leader.is_held(ident.bytes(), now)
    }

    /// The last slot of a periodic job, in milliseconds since 1970, where it has one. Takes no memory.
    pub fn last(&self, name: &Word) -> Option<u64>
        ensures { result ≡ last name.now self.now.current }
    {
        self.slots.last(name)
    }

    /// How many periodic jobs have a last slot. Takes no memory.
    pub fn loops(&self) -> u64
        ensures { result ≡ loops self.now.current }
    {
        self.slots.len() as u64
    }

    /// This is the last slot of the periodic job now.
    pub fn mark(&mut self, name: Word, slot: u64) -> Result<(), Memory>
        ensures ok { OnOk result (self.new ≡ edited (marked name slot self.old.current) self.old) }
        ensures err { OnErr result (self.new ≡ self.old) }
    {
        self.slots.mark(name, slot)
    }

    /// Opens a step. Takes no memory.
    pub fn begin(&mut self)
        requires { self.old.saved ≡ None }
        ensures { self.new ≡ begun self.old }
    {
        self.beats.begin();
        self.recoveries.begin();
        self.locks.begin();
        self.leader.begin();
        self.slots.begin();
    }

    /// Closes the step, and what stood at its begin stands again. Takes no memory.
    pub fn undo(&mut self)
        requires { IsSome self.old.saved }
        ensures { self.new ≡ undone self.old }
    {
        self.beats.undo();
        self.recoveries.undo();
        self.locks.undo();
        self.leader.undo();
        self.slots.undo();
    }

    /// Closes the step, and what stands now stays. Takes no memory.
    pub fn commit(&mut self)
        requires { IsSome self.old.saved }
        ensures { self.new ≡ committed self.old }
    {
        self.beats.commit();
        self.recoveries.commit();
        self.locks.commit();
        self.leader.commit();
        self.slots.commit();
    }
}
