// The lease of the leader, which one process at most holds at a time, and what it was at the begin of an open step.
ghost use Rattle.std.specs.Prelude.{◌≡◌, None, Some, IsSome};
ghost use Rattle.sk_undo.specs.Versions.{begun, closed, committed, edited, undone};
ghost use Rattle.sk_leases.specs.Leader.{is_held, is_held_by_another, leader_at};

use sk_resp::Word;
use std::marker::Model;
use std::mem;

/// The process that holds the lease, and its deadline in milliseconds since 1970.
pub type Lease = (Word, u64);

// What the lease was at the begin of the step.
#[derive(Drop)]
enum Saved {
    // No step is open.
    Closed,
    // It is still what it was.
    Same,
    // It was this one.
    Was(Option<Lease>),
}

/// The lease of the leader. Contracts see what stands now, and what stood at the begin of an open step.
#[derive(Drop)]
pub struct Leader {
    lease: Option<Lease>,
    saved: Saved,
}

impl Model for Leader {
    ghost use Rattle.std.specs.Prelude.{Option};
    ghost use Rattle.sk_undo.specs.Versions.{Versions};
    ghost use Rattle.sk_leases.specs.Lease.{Lease as LeaseSeen};

    ghost Value = { Versions (Option LeaseSeen) };

    ghost use Rattle.sk_leases.specs.SavedLease.{leader_in};

    ghost view = { leader_in };
}

impl Leader {
    /// Takes no memory.
    pub fn new() -> Leader
        ensures { result ≡ closed None }
    {
        Leader {
            lease: None,
            saved: Saved::Closed,
        }
    }

    /// Takes the lease out where it is over.
    pub fn purge(&mut self, now: u64)
        requires { self.old.saved ≡ None }
        ensures { self.new ≡ edited (leader_at now self.old.current) self.old }
    {
        let is_over = match &self.lease {
            Some((_, deadline)) => *deadline <= now,
            None => false,
        };
        if is_over {
            self.lease = None;
        }
    }

    /// Whether the process holds the lease.
    pub fn is_held(&self, ident: &[u8], now: u64) -> bool
        ensures { result ≡ is_held ident.now now self.now.current }
    {
        match &self.lease {
            Some((leader, deadline)) => leader.bytes() == ident && now < *deadline,
            None => false,
        }
    }

    /// Whether another process holds it.
    pub fn is_held_by_another(&self, ident: &[u8], now: u64) -> bool
        ensures { result ≡ is_held_by_another ident.now now self.now.current }
    {
        match &self.lease {
            Some((leader, deadline)) => leader.bytes() != ident && now < *deadline,
            None => false,
        }
    }

    /// The lease is this one now. Takes no memory.
    pub fn set(&mut self, ident: Word, deadline: u64)
        ensures { self.new ≡ edited (Some (ident, deadline)) self.old }
    {
        let before = self.lease.replace((ident, deadline));
        if let Saved::Same = self.saved {
            self.saved = Saved::Was(before);
        }
    }

    pub fn begin(&mut self)
        requires { self.old.saved ≡ None }
        ensures { self.new ≡ begun self.old }
    {
        self.saved = Saved::Same;
    }

    pub fn undo(&mut self)
        requires { IsSome self.old.saved }
        ensures { self.new ≡ undone self.old }
    {
        if let Saved::Was(before) = mem::replace(&mut self.saved, Saved::Closed) {
            self.lease = before;
        }
    }

    pub fn commit(&mut self)
        requires { IsSome self.old.saved }
        ensures { self.new ≡ committed self.old }
    {
        self.saved = Saved::Closed;
    }
}
