// Connections: a source and a sink in one, of which neither touches what the other tells.
ghost use Rattle.std.specs.Prelude.{◌≡◌, ℕ, List, Option, is_some};

use crate::{Sink, Source};

/// A source and a sink in one. What it reads and what it writes leave one another alone.
pub trait Duplex: Source + Sink + Drop {
    ghost reads_apart: { (c : Self) → Self.beside_read c ≡ (Self.taken c, Self.write_faults c) };

    ghost writes_apart: { (c : Self) → Self.beside_write c ≡ (Self.left c, Self.read_faults c) };
}

/// A connection to a peer, which a thread may take over. It always tells what it took, or never does.
pub trait Conn: Duplex + Send {
    ghost steady: { (a b : Self) → is_some (Self.taken a) ≡ is_some (Self.taken b) };
}
