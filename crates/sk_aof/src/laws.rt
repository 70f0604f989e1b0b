// What holds of the bodies of events.
ghost use Rattle.sk_aof.specs.Bodies.{OneEvent};

/// No two events have the same body.
pub fn a_body_has_one_event()
    ensures { OneEvent }
{}
