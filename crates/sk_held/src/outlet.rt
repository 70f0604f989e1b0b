// A connection that is handed something only behind a settle.
ghost use Rattle.std.specs.Prelude.{◌≡◌, ◌≤◌, ◌<◌, ◌++◌, List, ℕ, [], length, take, IfOk, OnOk, OnErr, IfSome};
ghost use Rattle.sk_base.specs.Outside.{Gives, HasCause, Rose, Takes};
ghost use Rattle.sk_held.specs.Counts.{CountsOks, HasSettled};
ghost use Rattle.sk_held.specs.Holding.{IsSince};

use crate::{HeldId, Holdable, Settler};
use sk_base::{Duplex, Failed, Sink};
use std::marker::{Model, PhantomData};

/// A connection and its settler. Contracts see both. The connection has taken something only where the settler has settled since it was made.
#[derive(Drop)]
pub struct Outlet<C: Holdable, W: Settler, I: HeldId> {
    conn: C,
    settler: W,
    of: PhantomData<I>,
}

impl<C: Holdable, W: Settler, I: HeldId> Model for Outlet<C, W, I> {
    ghost use Rattle.sk_held.specs.Holding.{IsSince, Out};

    ghost Value = { Out C W };

    ghost view = { λ o. record { conn = o.conn; settler = o.settler } };

    ghost invariant = { λ o. IsSince I.first I.count (C.taken o.conn) (W.settled o.settler) (W.stored o.settler) };
}

// Takes so many bytes out, from their front.
fn take_out(bytes: &mut Vec<u8>, n: usize)
    requires { n ≤ length bytes.old.items }
    ensures { bytes.old.items ≡ take n bytes.old.items ++ bytes.new.items }
{
    drop(bytes.drain(..n));
}

// Hands the bytes on, from their front, until all are gone or a write fails. What is handed on is taken out of them.
fn hand_on<C: Duplex>(conn: &mut C, bytes: &mut Vec<u8>) -> Result<(), Failed>
    ensures took { (sent : List ℕ) × (bytes.old.items ≡ sent ++ bytes.new.items) × Takes (C.taken conn.old) sent (C.taken conn.new) }
    ensures all { OnOk result (bytes.new.items ≡ []) }
    ensures beside { C.beside_write conn.new ≡ C.beside_write conn.old }
    ensures cause { HasCause (C.write_faults conn.old) (C.write_faults conn.new) result }
{
    while !bytes.is_empty() {
        let n = conn.write(bytes)?;
        take_out(bytes, n);
    }
    Ok(())
}

impl<C: Holdable, W: Settler, I: HeldId> Outlet<C, W, I> {
    pub fn new(conn: C, settler: W) -> Outlet<C, W, I>
        requires first { C.taken conn ≡ I.first }
        requires count { W.settled settler ≡ I.count }
        ensures { result ≡ record { conn = conn; settler = settler } }
    {
        Outlet {
            conn,
            settler,
            of: PhantomData,
        }
    }

    /// Waits until all that was done so far is stored.
    pub fn settle(&mut self) -> Result<(), Failed>
        ensures conn { self.new.conn ≡ self.old.conn }
        ensures counts { CountsOks (W.settled self.old.settler) (W.settled self.new.settler) result }
        ensures since { OnOk result (HasSettled I.count (W.settled self.new.settler) (W.stored self.new.settler)) }
        ensures cause { HasCause (W.settle_faults self.old.settler) (W.settle_faults self.new.settler) result }
    {
        self.settler.settle()
    }

    /// Hands the bytes on, behind a settle. What is handed on is taken out of them.
    pub fn hand_on(&mut self, bytes: &mut Vec<u8>) -> Result<(), Failed>
        requires { HasSettled I.count (W.settled self.old.settler) (W.stored self.old.settler) }
        ensures settler { self.new.settler ≡ self.old.settler }
        ensures took { (sent : List ℕ) × (bytes.old.items ≡ sent ++ bytes.new.items) × Takes (C.taken self.old.conn) sent (C.taken self.new.conn) }
        ensures all { OnOk result (bytes.new.items ≡ []) }
        ensures beside { C.beside_write self.new.conn ≡ C.beside_write self.old.conn }
        ensures cause { HasCause (C.write_faults self.old.conn) (C.write_faults self.new.conn) result }
    {
        hand_on(&mut self.conn, bytes)
    }

    /// Hands some of the bytes on, behind a settle.
    pub fn write(&mut self, bytes: &[u8]) -> Result<usize, Failed>
        requires { HasSettled I.count (W.settled self.old.settler) (W.stored self.old.settler) }
        ensures settler { self.new.settler ≡ self.old.settler }
        ensures within { IfOk result (λ n. n ≤ length bytes.now) }
        ensures some { 0 < length bytes.now → IfOk result (λ n. 0 < n) }
        ensures told { IfOk result (λ n. Takes (C.taken self.old.conn) (take n bytes.now) (C.taken self.new.conn)) }
        ensures err { OnErr result (Takes (C.taken self.old.conn) [] (C.taken self.new.conn)) }
        ensures beside { C.beside_write self.new.conn ≡ C.beside_write self.old.conn }
        ensures cause { HasCause (C.write_faults self.old.conn) (C.write_faults self.new.conn) result }
    {
        self.conn.write(bytes)
    }

    /// Reads some bytes of the connection.
    pub fn read(&mut self, buf: &mut [u8]) -> Result<usize, Failed>
        ensures settler { self.new.settler ≡ self.old.settler }
        ensures within { IfOk result (λ n. n ≤ length buf.old) }
        ensures told { IfOk result (λ n. Gives (C.left self.old.conn) (take n buf.new) (C.left self.new.conn)) }
        ensures end { result ≡ Ok 0 → 0 < length buf.old → IfSome (C.left self.old.conn) (λ bytes. bytes ≡ []) }
        ensures err { OnErr result (C.left self.new.conn ≡ C.left self.old.conn) }
        ensures taken { C.taken self.new.conn ≡ C.taken self.old.conn }
        ensures writes { C.write_faults self.new.conn ≡ C.write_faults self.old.conn }
        ensures cause { HasCause (C.read_faults self.old.conn) (C.read_faults self.new.conn) result }
    {
        self.conn.read(buf)
    }

    /// The connection and the settler.
    pub fn into_parts(self) -> (C, W)
        ensures parts { (result.0 ≡ self.conn) × (result.1 ≡ self.settler) }
        ensures since { IsSince I.first I.count (C.taken result.0) (W.settled result.1) (W.stored result.1) }
    {
        let Outlet {
            conn,
            settler,
            of: _,
        } = self;
        (conn, settler)
    }
}
