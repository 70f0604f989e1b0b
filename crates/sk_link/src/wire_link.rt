// A link over a connection. It reads nothing past the reply that it waits for but what comes in the same read, and that stays in its buffer.
ghost use Rattle.std.specs.Prelude.{◌≡◌, ◌≤◌, Err, [], false, refl, IfOk, IfErr, OnOk, OnErr};
ghost use Rattle.sk_base.specs.Outside.{Gives, Takes, TakesFront};
ghost use Rattle.sk_resp.specs.Reply.{wire};
ghost use Rattle.sk_resp.specs.ReplyStream.{IsReplyText};
ghost use Rattle.sk_resp.specs.Request.{array};
ghost use Rattle.sk_link.specs.Fault.{IsIoCause, IsReplyCause};
ghost use Rattle.sk_link.specs.Wire.{WireCarries, WireComes, unread_of};
ghost use Rattle.sk_link.specs.WireLaws.{carries_ends, carries_more};

use crate::receiving::receive;
use crate::sending::send;
use crate::{Link, LinkFault};
use sk_base::Duplex;
use sk_resp::{Reply, Words};
use std::alloc::Global;
use std::marker::Model;

/// A link over a connection ([`Conn`](sk_base::Conn)). Where what comes is no reply, it says so as soon as that is certain, and tells the first 64 bytes
/// of what it had read by then. At a fault it has ended, and the connection is left as it is.
#[derive(Drop)]
pub struct WireLink<C: Duplex> {
    conn: C,
    buffer: Vec<u8>,
    ended: bool,
}

impl<C: Duplex> Model for WireLink<C> {
    ghost use Rattle.sk_link.specs.Wire.{WireState, state_code};

    ghost Value = { WireState C };

    ghost coded = { state_code C.code };

    ghost view = { λ l. record { conn = l.conn; pending = l.buffer.items; ended = l.ended } };
}

// Sends a request over a connection, and leaves what is to be read alone.
fn send_over<C: Duplex>(alloc: Global, conn: &mut C, words: &Words) -> Result<(), LinkFault>
    ensures ok { OnOk result (Takes (C.taken conn.old) (array words.now) (C.taken conn.new)) }
    ensures err { OnErr result (TakesFront (C.taken conn.old) (array words.now) (C.taken conn.new)) }
    ensures memory { result ≡ Err LinkFault.Memory → C.taken conn.new ≡ C.taken conn.old }
    ensures left { C.left conn.new ≡ C.left conn.old }
    ensures reads { C.read_faults conn.new ≡ C.read_faults conn.old }
    ensures whole { OnOk result (C.write_faults conn.new ≡ C.write_faults conn.old) }
    ensures later { C.write_faults conn.old ≤ C.write_faults conn.new }
    ensures cause { IfErr result (IsIoCause (C.write_faults conn.old) (C.write_faults conn.new)) }
{
    send(alloc, conn, words)
}

// Reads a reply over a connection, and leaves what was written alone.
fn receive_over<C: Duplex>(
    alloc: Global,
    conn: &mut C,
    buffer: &mut Vec<u8>,
) -> Result<Reply, LinkFault>
    ensures ok { IfOk result (λ reply. Gives (unread_of buffer.old.items (C.left conn.old)) (wire reply)
        (unread_of buffer.new.items (C.left conn.new))) }
    ensures text { IfOk result (λ reply. IsReplyText (wire reply)) }
    ensures err { OnErr result (unread_of buffer.new.items (C.left conn.new) ≡ unread_of buffer.old.items (C.left conn.old)) }
    ensures taken { C.taken conn.new ≡ C.taken conn.old }
    ensures writes { C.write_faults conn.new ≡ C.write_faults conn.old }
    ensures whole { OnOk result (C.read_faults conn.new ≡ C.read_faults conn.old) }
    ensures later { C.read_faults conn.old ≤ C.read_faults conn.new }
    ensures cause { IfErr result (IsReplyCause (C.read_faults conn.old) (C.read_faults conn.new) (unread_of buffer.new.items (C.left conn.new))) }
{
    receive(alloc, conn, buffer)
}

impl<C: Duplex> WireLink<C> {
    /// Takes no memory.
    pub fn new(alloc: Global, conn: C) -> Self
        ensures { result ≡ record { conn = conn; pending = []; ended = false } }
    {
        WireLink {
            conn,
            buffer: Vec::new(alloc),
            ended: false,
        }
    }

    /// The connection. What was read behind the last whole reply is lost.
    pub fn into_conn(self) -> C
        ensures { result ≡ self.conn }
    {
        let WireLink {
            conn,
            buffer: _,
            ended: _,
        } = self;
        conn
    }

    // Sends a request, and reads the reply to it. At a fault the link is still to be ended.
    fn exchange(&mut self, alloc: Global, words: &Words) -> Result<Reply, LinkFault>
        requires { self.old.ended ≡ false }
        ensures came { WireComes C.taken C.left C.read_faults C.write_faults self.old words.now result self.new }
        ensures ended { self.new.ended ≡ false }
    {
        match send_over(alloc, &mut self.conn, words) {
            Ok(()) => receive_over(alloc, &mut self.conn, &mut self.buffer),
            Err(fault) => Err(fault),
        }
    }
}

impl<C: Duplex> Link for WireLink<C> {
    ghost carried = { WireCarries C.taken C.left C.read_faults C.write_faults };

    ghost has_ended = { λ a. a.ended };

    fn call(&mut self, alloc: Global, words: &Words) -> Result<Reply, LinkFault> {
        if self.ended {
            return Err(LinkFault::Ended);
        }
        match self.exchange(alloc, words) {
            Ok(reply) => Ok(reply),
            Err(fault) => {
                self.ended = true;
                Err(fault)
            }
        }
    }

    ghost carried_none = { λ a. refl };

    ghost carried_more = { λ a b c xs ys p q. carries_more _ _ _ xs ys p q };

    ghost carried_ends = { λ a b calls p. carries_ends _ _ calls p };
}
