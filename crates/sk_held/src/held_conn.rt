// A connection whose writes are gathered, and handed on once what was done before them is stored: before the next read, where more comes than the
// buffer holds, and at the end. So the replies to a batch of commands share one settle. It is broken once a settle or a write of the connection has
// failed: from then on all its calls fail, and nothing is handed on.
ghost use Rattle.std.specs.Prelude.{◌≡◌, ◌⊎◌, ◌≤◌, ◌<◌, ◌++◌, [], length, take, true, false, Ok, IfOk, OnOk, OnErr, IfSome, MatchResult, refl};
ghost use Rattle.sk_base.specs.Outside.{Gives, HasCause, Rose, Takes};
ghost use Rattle.sk_held.specs.Counts.{HasSettled};
ghost use Rattle.sk_held.specs.Holding.{Breaks, HandsBack, HandsOn, HandsWritten, IsBlamed, IsSince, with_gathered};

use crate::outlet::Outlet;
use crate::{HeldId, Holdable, Settler};
use sk_base::limits::LARGEST_BATCH;
use sk_base::{Duplex, Failed, Sink, Source};
use std::alloc::Global;
use std::marker::Model;

/// A connection that is held back. Contracts see it, its settler, what is gathered, whether it is broken, and how often its own reads and writes have
/// failed. One that is dropped hands nothing on.
#[derive(Drop)]
pub struct HeldConn<C: Holdable, W: Settler, I: HeldId> {
    outlet: Outlet<C, W, I>,
    gathered: Vec<u8>,
    broken: bool,
    read_faults: u64,
    write_faults: u64,
}

impl<C: Holdable, W: Settler, I: HeldId> Model for HeldConn<C, W, I> {
    ghost use Rattle.sk_held.specs.Holding.{Held};

    ghost Value = { Held C W };

    ghost view = { λ h. record { conn = h.outlet.conn; settler = h.outlet.settler; gathered = h.gathered.items; broken = h.broken; reads = h.read_faults; writes = h.write_faults } };
}

impl<C: Holdable, W: Settler, I: HeldId> HeldConn<C, W, I> {
    /// Holds the connection back. Takes no memory.
    pub fn new(alloc: Global, conn: C, settler: W) -> HeldConn<C, W, I>
        requires first { C.taken conn ≡ I.first }
        requires count { W.settled settler ≡ I.count }
        ensures { result ≡ record { conn = conn; settler = settler; gathered = []; broken = false; reads = 0; writes = 0 } }
    {
        HeldConn {
            outlet: Outlet::new(conn, settler),
            gathered: Vec::new(alloc),
            broken: false,
            read_faults: 0,
            write_faults: 0,
        }
    }

    // Settles, and hands on what was gathered.
    fn release(&mut self) -> Result<(), Failed>
        ensures hands { HandsOn C.Sink W.Settler self.old self.old.gathered self.new }
        ensures all { OnOk result ((self.new.gathered ≡ []) × (self.old.broken ≡ false) × (self.new.broken ≡ false)) }
        ensures settled { OnOk result (Rose (W.settled self.old.settler) (W.settled self.new.settler)) }
        ensures stored { OnOk result (HasSettled I.count (W.settled self.new.settler) (W.stored self.new.settler)) }
        ensures breaks { Breaks C.Sink W.Settler self.old self.new }
        ensures blamed { OnErr result (IsBlamed C.Sink W.Settler self.old self.new) }
        ensures beside { C.beside_write self.new.conn ≡ C.beside_write self.old.conn }
        ensures counts { (self.new.reads ≡ self.old.reads) × (self.new.writes ≡ self.old.writes) }
    {
        if self.broken {
            return Err(Failed);
        }
        self.broken = true;
        self.outlet.settle()?;
        self.outlet.hand_on(&mut self.gathered)?;
        self.broken = false;
        Ok(())
    }

    // The same where something was gathered.
    fn flush(&mut self) -> Result<(), Failed>
        ensures hands { HandsOn C.Sink W.Settler self.old self.old.gathered self.new }
        ensures all { OnOk result ((self.new.gathered ≡ []) × (self.old.broken ≡ false) × (self.new.broken ≡ false)) }
        ensures none { self.old.gathered ≡ [] → (self.new.conn ≡ self.old.conn) × (self.new.settler ≡ self.old.settler) }
        ensures breaks { Breaks C.Sink W.Settler self.old self.new }
        ensures blamed { OnErr result (IsBlamed C.Sink W.Settler self.old self.new) }
        ensures beside { C.beside_write self.new.conn ≡ C.beside_write self.old.conn }
        ensures counts { (self.new.reads ≡ self.old.reads) × (self.new.writes ≡ self.old.writes) }
    {
        if self.broken {
            return Err(Failed);
        }
        if !self.gathered.is_empty() {
            self.release()?;
        }
        Ok(())
    }

    // Gathers the bytes, where they fit and there is memory.
    fn gather(&mut self, bytes: &[u8]) -> bool
        ensures gathered { result ≡ true → (self.old.broken ≡ false) × (self.new ≡ record self.old { gathered = self.old.gathered ++ bytes.now }) }
        ensures same { result ≡ false → self.new ≡ self.old }
    {
        let fits = self.gathered.len().saturating_add(bytes.len()) <= LARGEST_BATCH;
        !self.broken && fits && self.gathered.extend_from_slice(bytes).is_ok()
    }

    // Hands some of the bytes on, where nothing is gathered before them.
    fn pass(&mut self, bytes: &[u8]) -> Result<usize, Failed>
        requires settled { HasSettled I.count (W.settled self.old.settler) (W.stored self.old.settler) }
        ensures same { (self.new.settler ≡ self.old.settler) × (self.new.gathered ≡ self.old.gathered) }
        ensures counts { (self.new.reads ≡ self.old.reads) × (self.new.writes ≡ self.old.writes) }
        ensures within { IfOk result (λ n. n ≤ length bytes.now) }
        ensures some { 0 < length bytes.now → IfOk result (λ n. 0 < n) }
        ensures told { IfOk result (λ n. Takes (C.taken self.old.conn) (take n bytes.now) (C.taken self.new.conn)) }
        ensures err { OnErr result (Takes (C.taken self.old.conn) [] (C.taken self.new.conn)) }
        ensures beside { C.beside_write self.new.conn ≡ C.beside_write self.old.conn }
        ensures cause { HasCause (C.write_faults self.old.conn) (C.write_faults self.new.conn) result }
        ensures broken { MatchResult result (λ _. self.new.broken ≡ false) (λ _. self.new.broken ≡ true) }
    {
        self.broken = true;
        let n = self.outlet.write(bytes)?;
        self.broken = false;
        Ok(n)
    }

    // Takes some of the bytes: all of them, where they are gathered, and else as many as the connection takes, behind a settle and what was gathered.
    #[tactic(auto, using(crate::proofs::Handing::hands_more))]
    fn put(&mut self, bytes: &[u8]) -> Result<usize, Failed>
        ensures hands { HandsWritten C.Sink W.Settler self.old bytes.now result self.new }
        ensures breaks { Breaks C.Sink W.Settler self.old self.new }
        ensures blamed { OnErr result (IsBlamed C.Sink W.Settler self.old self.new) }
        ensures beside { C.beside_write self.new.conn ≡ C.beside_write self.old.conn }
        ensures counts { (self.new.reads ≡ self.old.reads) × (self.new.writes ≡ self.old.writes) }
        ensures within { IfOk result (λ n. n ≤ length bytes.now) }
        ensures some { 0 < length bytes.now → IfOk result (λ n. 0 < n) }
    {
        if self.gather(bytes) {
            return Ok(bytes.len());
        }
        self.release()?;
        let n = self.pass(bytes)?;
        Ok(n)
    }

    // Hands on what was gathered, behind a settle, and reads.
    #[tactic(auto, using(crate::proofs::Handing::hands_still))]
    fn receive(&mut self, buf: &mut [u8]) -> Result<usize, Failed>
        ensures hands { HandsOn C.Sink W.Settler self.old self.old.gathered self.new }
        ensures all { OnOk result (self.new.gathered ≡ []) }
        ensures idle { self.old.gathered ≡ [] → self.new.settler ≡ self.old.settler }
        ensures breaks { Breaks C.Sink W.Settler self.old self.new }
        ensures blamed { OnErr result (IsBlamed C.Sink W.Settler self.old self.new
            ⊎ Rose (C.read_faults self.old.conn) (C.read_faults self.new.conn)) }
        ensures counts { (self.new.reads ≡ self.old.reads) × (self.new.writes ≡ self.old.writes) }
        ensures within { IfOk result (λ n. n ≤ length buf.old) }
        ensures told { IfOk result (λ n. Gives (C.left self.old.conn) (take n buf.new) (C.left self.new.conn)) }
        ensures end { result ≡ Ok 0 → 0 < length buf.old → IfSome (C.left self.old.conn) (λ bytes. bytes ≡ []) }
        ensures err { OnErr result (C.left self.new.conn ≡ C.left self.old.conn) }
    {
        self.flush()?;
        let n = self.outlet.read(buf)?;
        Ok(n)
    }

    /// Settles, and hands on what is still gathered. Answers the connection, the settler, and whether all was handed on.
    pub fn finish(self) -> (C, W, Result<(), Failed>)
        ensures hands { HandsBack C.Sink W.Settler self result.0 result.1 result.2 }
        ensures since { IsSince I.first I.count (C.taken result.0) (W.settled result.1) (W.stored result.1) }
        ensures whole { OnOk result.2 (self.broken ≡ false) }
        ensures blamed { OnErr result.2 (IsBlamed C.Sink W.Settler self (record self { conn = result.0; settler = result.1 })) }
        ensures beside { C.beside_write result.0 ≡ C.beside_write self.conn }
    {
        let mut held = self;
        let end = held.flush();
        let HeldConn {
            outlet,
            gathered: _,
            broken: _,
            read_faults: _,
            write_faults: _,
        } = held;
        let (conn, settler) = outlet.into_parts();
        (conn, settler, end)
    }
}

impl<C: Holdable, W: Settler, I: HeldId> Source for HeldConn<C, W, I> {
    ghost left = { λ h. C.left h.conn };

    ghost read_faults = { λ h. h.reads };

    ghost beside_read = { λ h. (with_gathered (C.taken h.conn) h.gathered, h.writes) };

    /// Settles first, where something was gathered, and hands that on.
    fn read(&mut self, buf: &mut [u8]) -> Result<usize, Failed> {
        if let Ok(n) = self.receive(buf) {
            return Ok(n);
        }
        self.read_faults = self.read_faults.saturating_add(1);
        Err(Failed)
    }
}

impl<C: Holdable, W: Settler, I: HeldId> Sink for HeldConn<C, W, I> {
    ghost taken = { λ h. with_gathered (C.taken h.conn) h.gathered };

    ghost write_faults = { λ h. h.writes };

    ghost beside_write = { λ h. (C.left h.conn, h.reads) };

    /// Gathers the bytes, where they fit and there is memory, and else settles and hands on what was gathered before them.
    fn write(&mut self, bytes: &[u8]) -> Result<usize, Failed> {
        if let Ok(n) = self.put(bytes) {
            return Ok(n);
        }
        self.write_faults = self.write_faults.saturating_add(1);
        Err(Failed)
    }
}

impl<C: Holdable, W: Settler, I: HeldId> Duplex for HeldConn<C, W, I> {
    ghost reads_apart = { λ _. refl };

    ghost writes_apart = { λ _. refl };
}
