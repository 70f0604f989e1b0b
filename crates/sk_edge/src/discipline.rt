// What time it is by two clocks, as NTP's daemons discipline a clock: small differences of the wall clock are followed at once, a step only where it
// lasts. A step back can't be followed, since no time goes back: then the steady clock goes on alone, until the wall clock has come up with it.
ghost use Rattle.std.specs.Prelude.{◌≡◌, ◌≤◌, ◌↔◌, Some, None, max, IsTrue};
ghost use Rattle.sk_edge.specs.Discipline.{expected, GoesOn, IsOther, Lasts};

use crate::reading::Reading;
use std::marker::Model;

/// How long the wall clock has to tell another time until that is followed, in milliseconds of the steady clock: ten seconds, since no wrong reading
/// lasts that long, and it is less than a lease or a heartbeat.
pub(crate) const STEPOUT: u64 = 10_000;

/// Tells the time, which never goes back.
#[derive(Drop)]
pub(crate) struct Discipline {
    told: Reading,
    other: Option<Reading>,
}

impl Model for Discipline {
    ghost use Rattle.sk_edge.specs.Discipline.{Disciplined};

    ghost Value = { Disciplined };

    ghost view = { λ d. record { told = d.told; other = d.other } };
}

impl Discipline {
    /// The first reading is taken as it is.
    pub(crate) fn new(first: Reading) -> Discipline
        ensures { result ≡ record { told = first; other = None } }
    {
        Discipline {
            told: first,
            other: None,
        }
    }

    /// The same once more, for another thread.
    pub(crate) fn twin(&self) -> Discipline
        ensures { result ≡ self.now }
    {
        Discipline {
            told: self.told,
            other: self.other,
        }
    }

    // Whether the other time has lasted.
    fn lasts(&self, now: Reading) -> bool
        ensures { IsTrue result ↔ Lasts self.now.other now }
    {
        match self.other {
            Some(first) => first.goes_on(now) && now.steady.saturating_sub(first.steady) >= STEPOUT,
            None => false,
        }
    }

    // The first reading of another time, where this one goes on from it, and else this one.
    fn other_at(&self, now: Reading) -> Reading
        ensures { IsOther self.now.other now (Some result) }
    {
        match self.other {
            Some(first) => if first.goes_on(now) { first } else { now },
            None => now,
        }
    }

    // The moment, where the wall clock tells another time than expected.
    fn off(&mut self, now: Reading) -> u64
        ensures later { self.old.told.wall ≤ result }
        ensures steps { Lasts self.old.other now → result ≡ max (expected self.old.told now.steady) now.wall }
        ensures stays { (Lasts self.old.other now → ⊥) → result ≡ expected self.old.told now.steady }
        ensures told { self.new.told ≡ self.old.told }
        ensures other { IsOther self.old.other now self.new.other }
    {
        let lasts = self.lasts(now);
        self.other = Some(self.other_at(now));
        let expected = self.told.expected(now.steady);
        if lasts {
            expected.max(now.wall)
        } else {
            expected
        }
    }

    // The moment by these readings.
    fn judge(&mut self, now: Reading) -> u64
        ensures later { self.old.told.wall ≤ result }
        ensures follows { GoesOn self.old.told now → result ≡ max self.old.told.wall now.wall }
        ensures steps { (GoesOn self.old.told now → ⊥) → Lasts self.old.other now → result ≡ max (expected self.old.told now.steady) now.wall }
        ensures stays { (GoesOn self.old.told now → ⊥) → (Lasts self.old.other now → ⊥) → result ≡ expected self.old.told now.steady }
        ensures right { GoesOn self.old.told now → self.new.other ≡ None }
        ensures other { (GoesOn self.old.told now → ⊥) → IsOther self.old.other now self.new.other }
    {
        if self.told.goes_on(now) {
            self.other = None;
            return self.told.wall.max(now.wall);
        }
        self.off(now)
    }

    /// The moment by these readings, in milliseconds since 1970 (UTC).
    pub(crate) fn tell(&mut self, now: Reading) -> u64
        // No moment is before one that was told.
        ensures later { self.old.told.wall ≤ result }

        // What the wall clock tells near the time that is expected is followed at once,
        ensures follows { GoesOn self.old.told now → result ≡ max self.old.told.wall now.wall }

        // another time where it lasts, if it is ahead,
        ensures steps { (GoesOn self.old.told now → ⊥) → Lasts self.old.other now → result ≡ max (expected self.old.told now.steady) now.wall }

        // and any else is passed over, as a single wrong reading is.
        ensures stays { (GoesOn self.old.told now → ⊥) → (Lasts self.old.other now → ⊥) → result ≡ expected self.old.told now.steady }
        ensures told { self.new.told ≡ record { wall = result; steady = now.steady } }
        ensures right { GoesOn self.old.told now → self.new.other ≡ None }
        ensures other { (GoesOn self.old.told now → ⊥) → IsOther self.old.other now self.new.other }
    {
        let wall = self.judge(now);
        self.told = Reading {
            wall,
            steady: now.steady,
        };
        wall
    }
}
