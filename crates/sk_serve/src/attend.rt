// The session of one connection of a server: its replies go to the connection at once, or wait for a settler.
ghost use Rattle.std.specs.Prelude.{◌≡◌};
ghost use Rattle.sk_serve.specs.Attending.{IsAttended, IsHeld};

use crate::{SessionEnd, held_session, session};
use sk_base::{Clock, Conn};
use sk_desk::Desk;
use sk_held::{Settler, Settlers};
use std::alloc::Global;

/// How a session ended, and whether what was done before its replies couldn't be stored.
#[derive(Clone, Copy)]
pub struct Ending {
    pub end: SessionEnd,
    pub unsettled: bool,
}

// A session whose replies wait for this settler.
fn hold<D: Desk, C: Conn, K: Clock, W: Settler>(
    alloc: Global,
    settler: W,
    desk: &mut D,
    conn: C,
    clock: &mut K,
) -> (C, Ending)
    requires { W.settle_faults settler ≡ 0 }
    ensures { IsHeld D.Desk C.Source C.Sink K.Clock W.Settler desk.old clock.old conn result.1 desk.new clock.new result.0 }
{
    let held = held_session(alloc, desk, conn, clock, settler);
    let ending = Ending {
        end: held.end,
        unsettled: held.settler.faults() > 0,
    };
    (held.conn, ending)
}

/// The session of a connection at a desk.
pub fn attend<D: Desk, C: Conn, K: Clock, W: Settlers>(
    alloc: Global,
    settlers: &W,
    desk: &mut D,
    conn: C,
    clock: &mut K,
) -> (C, Ending)
    ensures { IsAttended W.holds_back D.Desk C.Source C.Sink K.Clock W.Settler.Settler
        desk.old clock.old conn result.1 desk.new clock.new result.0 }
{
    if let Some(settler) = settlers.settler() {
        return hold(alloc, settler, desk, conn, clock);
    }
    let mut conn = conn;
    let end = session(alloc, desk, &mut conn, clock);
    let ending = Ending {
        end,
        unsettled: false,
    };
    (conn, ending)
}
