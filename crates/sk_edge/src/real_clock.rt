// The system's clock: the time goes on by its steady clock, and follows its wall clock where that is right, or has told another time for a while.
ghost use Rattle.std.specs.Prelude.{◌≡◌, ◌≤◌, None};

use crate::discipline::Discipline;
use crate::reading::Reading;
use sk_base::Clock;
use std::marker::Model;
use std::thread;
use std::time::{self, Duration};

/// The system's clock. Contracts see the last moment that it told, which no later one is before; it tells nothing of those to come.
#[derive(Drop)]
pub struct RealClock<R: time::Clock + Copy + Drop> {
    rt: R,
    discipline: Discipline,
}

impl<R: time::Clock + Copy + Drop> Model for RealClock<R> {
    ghost use Rattle.std.specs.Prelude.{ℕ};

    ghost Value = { ℕ };

    ghost view = { λ c. c.discipline.told.wall };
}

// The whole milliseconds, as far as 64 bits tell them.
fn millis(time: Duration) -> u64 {
    u64::try_from(time.as_millis()).unwrap_or(u64::MAX)
}

// What the clocks tell. The wall clock counts as at 0 where it stands before 1970 or can't be read, and where there is no steady clock it stands for
// that one, too.
fn read<R: time::Clock>(rt: &R) -> Reading {
    let wall = rt.since_1970().map_or(0, millis);
    let steady = rt.monotonic().map_or(wall, millis);
    Reading { wall, steady }
}

impl<R: time::Clock + Copy + Drop> RealClock<R> {
    pub fn new(rt: R) -> RealClock<R> {
        let discipline = Discipline::new(read(&rt));
        RealClock { rt, discipline }
    }
}

impl<R: time::Clock + Copy + Drop> Clock for RealClock<R> {
    ghost moments = { λ _. None };

    /// The milliseconds since 1970 (UTC). They never go back. A wall clock that is ahead or back by more than a second is followed after ten seconds in
    /// which it has told that time; one that is back is followed once the time has come up with it.
    fn now(&mut self) -> u64
        ensures later { self.old ≤ result }
        ensures told { self.new ≡ result }
    {
        self.discipline.tell(read(&self.rt))
    }

    /// Lets the thread sleep so many milliseconds.
    fn pause(&mut self, millis: u64) {
        thread::sleep(&self.rt, Duration::from_millis(millis));
    }

    fn twin(&self) -> RealClock<R> {
        RealClock {
            rt: self.rt,
            discipline: self.discipline.twin(),
        }
    }
}
