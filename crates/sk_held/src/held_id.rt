// What names a connection that is held back: how it stood at first.

use std::marker::Brand;

/// Names a held connection, for contracts alone. A function over an id is called with `Brand` for it.
pub trait HeldId {
    ghost use Rattle.std.specs.Prelude.{List, Option, ℕ};

    /// What the connection had taken at first, where it told that.
    ghost first: { Option (List ℕ) };

    /// How often its settler had settled then.
    ghost count: { ℕ };
}

impl HeldId for Brand {
    ghost use Rattle.std.specs.Prelude.{None};

    ghost first = { None };

    ghost count = { 0 };
}
