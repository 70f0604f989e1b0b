// Where connections come from, and where they are left when they are done with.
ghost use Rattle.std.specs.Prelude.{◌≡◌, ◌≤◌, ◌∷◌, ℕ, List, [], Option, None, Err, vec_len, IfOk, IfSome, OnOk, OnErr};
ghost use Rattle.sk_base.specs.Outside.{HasCause, Rose};
ghost use Rattle.sk_edge.specs.Collected.{Collected, Keeps, MakesRoom};
ghost use Rattle.sk_edge.specs.Doors.{GivesFirst, IsNudged, Listens};
ghost use Rattle.sk_edge.specs.declared.door.DoorFault.TheVariants.{Memory};

use sk_base::{Conn, Failed};
use std::alloc::AllocError;

/// What the connections of others come to.
pub trait Ear: Drop {
    type Conn: Conn + Send;

    /// How often it has failed. The count never falls.
    ghost ear_faults: { Self → ℕ };

    /// The connections that it will accept, in order, where it tells them. An ear in memory does, and a real one doesn't.
    ghost heard: { Self → Option (List Self.Conn) };

    /// The connections that were left to it, where it tells them.
    ghost kept: { Self → Option (Collected Self.Conn) };

    /// How often it was nudged, where it tells that. Each call counts, also one that failed.
    ghost nudged: { Self → Option ℕ };

    /// Waits for the next connection. An ear that tells its connections fails only behind the last of them.
    fn accept(&mut self) -> Result<Self::Conn, Failed>
        ensures heard { IfOk result (λ conn. GivesFirst (heard self.old) conn (heard self.new)) }
        ensures end { OnErr result (IfSome (heard self.old) (λ conns. conns ≡ [])) }
        ensures err { OnErr result (heard self.new ≡ heard self.old) }
        ensures beside { (kept self.new ≡ kept self.old) × (nudged self.new ≡ nudged self.old) }
        ensures cause { HasCause (ear_faults self.old) (ear_faults self.new) result };

    /// Makes one connection to the own port and drops it, so that an ear that waits there goes on. An ear that tells its connections hears nothing of
    /// it, and doesn't fail. The call counts, whatever comes of it.
    fn nudge(&mut self) -> Result<(), Failed>
        ensures count { IsNudged (nudged self.old) 1 (nudged self.new) }
        ensures beside { (heard self.new ≡ heard self.old) × (kept self.new ≡ kept self.old) }
        ensures told { OnErr result (heard self.old ≡ None) }
        ensures cause { HasCause (ear_faults self.old) (ear_faults self.new) result };

    /// Takes a connection that is done with. Takes no memory.
    fn leave(&mut self, conn: Self::Conn)
        ensures kept { Keeps (kept self.old) (conn ∷ []) (kept self.new) }
        ensures beside { (heard self.new ≡ heard self.old) × (nudged self.new ≡ nudged self.old) }
        ensures faults { ear_faults self.new ≡ ear_faults self.old };
}

/// Why a door gave nothing.
#[derive(Clone, Copy, PartialEq, Eq)]
pub enum DoorFault {
    /// The door failed: its count rose.
    Failed,
    /// There was no memory. Nothing says when this comes.
    Memory,
}

impl From<AllocError> for DoorFault {
    ghost from_gives = { λ _ fault. fault ≡ Memory };

    fn from(_: AllocError) -> DoorFault {
        DoorFault::Memory
    }
}

/// Makes ears, and connections to others.
pub trait Door {
    type Conn: Conn + Send;

    type Ear: Ear<Conn = Self::Conn>;

    /// How often it has failed. The count never falls.
    ghost door_faults: { Self → ℕ };

    /// The connections that the ears to come will accept, a list for each ear, where it tells them. A door in memory does, and a real one doesn't.
    ghost heard: { Self → Option (List (List Self.Conn)) };

    /// The connections that it will make, in order, where it tells them.
    ghost dialled: { Self → Option (List Self.Conn) };

    /// The connections that were left to it, where it tells them.
    ghost kept: { Self → Option (Collected Self.Conn) };

    /// The ears that it gathered, where it tells them.
    ghost gathered: { Self → Option (Collected Self.Ear) };

    /// As many ears at the port as asked. A door that tells what its ears will hear doesn't fail.
    fn listen(&mut self, port: u16, loops: usize) -> Result<Vec<Self::Ear>, DoorFault>
        ensures count { IfOk result (λ ears. vec_len ears ≡ loops) }
        ensures heard { IfOk result (λ ears. Listens Self.Ear.heard Self.Ear.kept Self.Ear.nudged (heard self.old) ears.items (heard self.new)) }
        ensures room { OnOk result (MakesRoom (gathered self.old) loops (gathered self.new)) }
        ensures err { OnErr result ((heard self.new ≡ heard self.old) × (gathered self.new ≡ gathered self.old)) }
        ensures beside { (dialled self.new ≡ dialled self.old) × (kept self.new ≡ kept self.old) }
        ensures told { result ≡ Err DoorFault.Failed → heard self.old ≡ None }
        ensures later { door_faults self.old ≤ door_faults self.new }
        ensures cause { result ≡ Err DoorFault.Failed → Rose (door_faults self.old) (door_faults self.new) };

    /// A connection to a host's port. A door that tells the connections that it will make fails only behind the last of them.
    fn connect(&mut self, host: &str, port: u16) -> Result<Self::Conn, DoorFault>
        ensures dialled { IfOk result (λ conn. GivesFirst (dialled self.old) conn (dialled self.new)) }
        ensures room { OnOk result (MakesRoom (kept self.old) 1 (kept self.new)) }
        ensures err { OnErr result ((dialled self.new ≡ dialled self.old) × (kept self.new ≡ kept self.old)) }
        ensures beside { (heard self.new ≡ heard self.old) × (gathered self.new ≡ gathered self.old) }
        ensures end { result ≡ Err DoorFault.Failed → IfSome (dialled self.old) (λ conns. conns ≡ []) }
        ensures later { door_faults self.old ≤ door_faults self.new }
        ensures cause { result ≡ Err DoorFault.Failed → Rose (door_faults self.old) (door_faults self.new) };

    /// Takes a connection that is done with. Takes no memory.
    fn leave(&mut self, conn: Self::Conn)
        ensures kept { Keeps (kept self.old) (conn ∷ []) (kept self.new) }
        ensures told { (heard self.new ≡ heard self.old) × (dialled self.new ≡ dialled self.old) }
        ensures gathered { gathered self.new ≡ gathered self.old }
        ensures faults { door_faults self.new ≡ door_faults self.old };

    /// Takes the ears back, in order. Takes no memory.
    fn gather(&mut self, ears: Vec<Self::Ear>)
        ensures gathered { Keeps (gathered self.old) ears.items (gathered self.new) }
        ensures told { (heard self.new ≡ heard self.old) × (dialled self.new ≡ dialled self.old) }
        ensures kept { kept self.new ≡ kept self.old }
        ensures faults { door_faults self.new ≡ door_faults self.old };
}
