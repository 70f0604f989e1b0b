// What the two clocks of a machine tell of one moment.
ghost use Rattle.std.specs.Prelude.{◌≡◌, ◌≤◌, ◌↔◌, IsTrue};
ghost use Rattle.sk_edge.specs.Discipline.{expected, GoesOn};

/// How far off the wall clock may be and still counts as right, in milliseconds: a second, as a leap second is one. NTP slews what is less.
pub(crate) const STEP_THRESHOLD: u64 = 1_000;

/// Two readings of one moment, in milliseconds.
#[derive(Clone, Copy)]
pub(crate) struct Reading {
    /// Since 1970 (UTC), by the clock that the system may set.
    pub wall: u64,
    /// Since any start, by the clock that only goes on.
    pub steady: u64,
}

impl Reading {
    /// What the wall clock tells later, if it goes on as the steady one.
    pub(crate) fn expected(&self, steady: u64) -> u64
        ensures same { result ≡ expected self.now steady }
        ensures later { self.now.wall ≤ result }
    {
        self.wall.saturating_add(steady.saturating_sub(self.steady))
    }

    /// Whether the wall clock went on from this reading to that one as the steady clock did.
    pub(crate) fn goes_on(&self, now: Reading) -> bool
        ensures { IsTrue result ↔ GoesOn self.now now }
    {
        let expected = self.expected(now.steady);
        now.wall.saturating_sub(expected) <= STEP_THRESHOLD
            && expected.saturating_sub(now.wall) <= STEP_THRESHOLD
    }
}
