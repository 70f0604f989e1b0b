// What holds of every run in which a limiter's keys are its own.
ghost use Rattle.sk_limit.specs.Others.{OthersLeave};
ghost use Rattle.sk_limit.specs.Slots.{MostHolds, OneHold, OneHoldASlot};
ghost use Rattle.sk_limit.specs.Windows.{FewGrants, LivesLast};

/// Between two holds of one slot the moment rose by the milliseconds that the first asked for, or the first was given back.
pub fn one_hold_of_a_slot()
    ensures { OneHold }
{}

/// At each moment, of the holds of a name with a slot below a number at most that many stand: their time isn't over, and they weren't given back.
pub fn as_many_holds_as_slots()
    ensures { OneHoldASlot }
{}

/// Where each hold of a name has a slot below one number, as those of calls with one `most` have, at most so many of all its holds stand.
pub fn at_most_that_many_holds()
    ensures { MostHolds }
{}

/// Each life of a window's key that has ended lasted the milliseconds.
pub fn windows_last()
    ensures { LivesLast }
{}

/// Within one life of a window's key at most `most` answers of INCRBY are from 1 to `most`.
pub fn few_grants_in_a_window()
    ensures { FewGrants }
{}

/// An event leaves a key alone where its words aren't read as a command that names the key in a write, or as FLUSHALL: so those alone can come between a
/// limiter and its keys.
pub fn others_leave_the_key()
    ensures { OthersLeave }
{}
