// One connection whose replies wait until what was done before them is stored.
ghost use Rattle.std.specs.Prelude.{◌≡◌};
ghost use Rattle.sk_held.specs.Holding.{IsSince};
ghost use Rattle.sk_serve.specs.HeldSession.{IsHeldSession};

use crate::{SessionEnd, session};
use sk_base::{Clock, Conn, Failed};
use sk_desk::Desk;
use sk_held::{HeldConn, HeldId, Holdable, Settler};
use std::alloc::Global;
use std::marker::Brand;

/// What a session over a held connection leaves.
#[derive(Drop)]
pub struct HeldEnd<C: Holdable, W: Settler> {
    pub conn: C,
    pub settler: W,
    pub end: SessionEnd,
    /// Whether the connection took all that the session wrote.
    pub handed: Result<(), Failed>,
}

// The session, over a connection that stands as its id tells.
fn hold<D: Desk, C: Holdable, K: Clock, W: Settler, I: HeldId>(
    alloc: Global,
    desk: &mut D,
    conn: C,
    clock: &mut K,
    settler: W,
) -> HeldEnd<C, W>
    requires first { C.taken conn ≡ I.first }
    requires count { W.settled settler ≡ I.count }
    ensures session { IsHeldSession D.Desk C.Source C.Sink K.Clock desk.old clock.old conn result.end desk.new clock.new result.conn result.handed }
    ensures since { IsSince I.first I.count (C.taken result.conn) (W.settled result.settler) (W.stored result.settler) }
{
    let mut held: HeldConn<C, W, I> = HeldConn::new(alloc, conn, settler);
    let end = session(alloc, desk, &mut held, clock);
    let (conn, settler, handed) = held.finish();
    HeldEnd {
        conn,
        settler,
        end,
        handed,
    }
}

/// Does the commands of a connection as [`session`] does, and hands its replies on only once the settler says that all is stored: before each read,
/// and at the end.
pub fn held_session<D: Desk, C: Conn, K: Clock, W: Settler>(
    alloc: Global,
    desk: &mut D,
    conn: C,
    clock: &mut K,
    settler: W,
) -> HeldEnd<C, W>
    // The connection gave some bytes. What it took, and what is kept behind it, is what these call for.
    ensures session { IsHeldSession D.Desk C.Source C.Sink K.Clock desk.old clock.old conn result.end desk.new clock.new result.conn result.handed }

    // It took something only where the settler has settled, and what that found stored is stored.
    ensures since { IsSince (C.taken conn) (W.settled settler) (C.taken result.conn) (W.settled result.settler) (W.stored result.settler) }
{
    hold::<D, C, K, W, Brand>(alloc, desk, conn, clock, settler)
}
