// What follows from what a link over a connection carries.
ghost use Rattle.std.specs.Prelude.{List};
ghost use Rattle.sk_link.specs.Call.{Call};
ghost use Rattle.sk_link.specs.Wire.{Carries, WireTells};
ghost use Rattle.sk_link.specs.WireWhole.{CarriesAll};

/// The calls of a link over a connection, told of its first state and its last alone: which requests were taken, which replies were given, and why a
/// request was lost.
pub fn a_link_is_told_by_its_first_and_last_state()
    ensures { (before after : WireTells) (calls : List Call) → Carries before after calls → CarriesAll before after calls }
{}
