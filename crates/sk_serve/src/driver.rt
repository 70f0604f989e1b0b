// One connection: each command is handed to the desk, and its reply written before the next is looked at.
ghost use Rattle.std.specs.Prelude.{◌≡◌, ◌≤◌};
ghost use Rattle.sk_base.specs.Outside.{Rose};
ghost use Rattle.sk_serve.specs.Session.{IsSession, IsTalk};

use crate::SessionEnd;
use crate::sitting::Sitting;
use sk_base::{Clock, Duplex};
use sk_desk::Desk;
use sk_talk::converse;
use std::alloc::Global;

// The talk of a session. It keeps its desk and its clock.
fn talk<'a, D: Desk, C: Duplex, K: Clock>(
    alloc: Global,
    sitting: &mut Sitting<'a, D, K>,
    conn: &mut C,
) -> SessionEnd
    ensures desk { sitting.new.desk.ghost_name ≡ sitting.old.desk.ghost_name }
    ensures clock { sitting.new.clock.ghost_name ≡ sitting.old.clock.ghost_name }
    ensures ends { IsTalk D.Desk C.Source C.Sink K.Clock sitting.old.desk.now sitting.old.clock.now conn.old result
        sitting.new.desk.now sitting.new.clock.now conn.new }
    ensures read_fault { result ≡ SessionEnd.ReadFault → Rose (C.read_faults conn.old) (C.read_faults conn.new) }
    ensures write_fault { result ≡ SessionEnd.WriteFault → Rose (C.write_faults conn.old) (C.write_faults conn.new) }
    ensures read_count { C.read_faults conn.old ≤ C.read_faults conn.new }
    ensures write_count { C.write_faults conn.old ≤ C.write_faults conn.new }
{
    converse(alloc, sitting, conn)
}

/// Does the commands of a connection, one after another, until its end or until a QUIT or SHUTDOWN is accepted. The clock is read once for each
/// command that the desk is called with.
pub fn session<D: Desk, C: Duplex, K: Clock>(
    alloc: Global,
    desk: &mut D,
    conn: &mut C,
    clock: &mut K,
) -> SessionEnd
    // The connection gave some bytes, and took what these call for; the calls of the desk are the commands in them.
    ensures ends { IsSession D.wants_words D.calls D.acked K.moments C.left C.taken desk.old clock.old conn.old result desk.new clock.new conn.new }

    // A fault of the connection is the end only where its count rose.
    ensures read_fault { result ≡ SessionEnd.ReadFault → Rose (C.read_faults conn.old) (C.read_faults conn.new) }
    ensures write_fault { result ≡ SessionEnd.WriteFault → Rose (C.write_faults conn.old) (C.write_faults conn.new) }
    ensures read_count { C.read_faults conn.old ≤ C.read_faults conn.new }
    ensures write_count { C.write_faults conn.old ≤ C.write_faults conn.new }
{
    let mut sitting = Sitting { alloc, desk, clock };
    talk(alloc, &mut sitting, conn)
}
