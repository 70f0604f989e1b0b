// What came of a row: the status, what the sink took, and what each connection took that was done with.
use crate::output::Output;
use sk_base::{MemConn, Tray};
use sk_edge::MemDoor;

/// Appends a part for each connection, in order: what it took.
pub fn add_conns(out: &mut Output, conns: &[MemConn], part: &str) {
    for conn in conns {
        out.say(part);
        out.lines(conn.tray().taken());
    }
}

/// The status, and then parts: what the sink took (`sink`); each ear (`ear`) with what each connection took that it heard (`heard`); and what each
/// connection took that the door made (`dialled`). Connections that weren't left to their ear, or to the door, stand in none.
pub fn add_ending(out: &mut Output, status: u8, sink: &Tray, door: &MemDoor) {
    out.count("status ", u64::from(status), "\n@sink\n");
    out.lines(sink.taken());
    for ear in door.ears() {
        out.say("@ear\n");
        add_conns(out, ear.kept(), "@heard\n");
    }
    add_conns(out, door.kept(), "@dialled\n");
}
