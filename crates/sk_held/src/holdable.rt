// What may be held back.
ghost use Rattle.std.specs.Prelude.{◌≡◌, is_some};

use sk_base::{Conn, Duplex};

/// What always tells what it took, or never does: so what stands gathered before it can be told behind that. Each connection is so.
pub trait Holdable: Duplex {
    ghost steady: { (a b : Self) → is_some (Self.taken a) ≡ is_some (Self.taken b) };
}

impl<C: Conn> Holdable for C {
    ghost steady = { λ a b. C.steady a b };
}
