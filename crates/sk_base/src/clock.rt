// What tells the time: the trait, and a clock in memory.
ghost use Rattle.std.specs.Prelude.{◌≡◌, ◌+◌, ◌*◌, ◌-◌, ◌^◌, ℕ, Option, Some, min};
ghost use Rattle.sk_base.specs.Yields.{Yields};

/// A clock. Its moments are milliseconds since 1970 (UTC).
pub trait Clock: Drop {
    /// What its next calls of `now` are going to answer, counted from 0, where it tells them. A clock in memory does, and a real one doesn't.
    ghost moments: { Self → Option (ℕ → ℕ) };

    /// The moment.
    fn now(&mut self) -> u64
        ensures { Yields (moments self.old) result (moments self.new) };

    /// Waits so many milliseconds, where it can. A caller may rely on no time having gone by.
    fn pause(&mut self, millis: u64)
        ensures { moments self.new ≡ moments self.old };

    /// A clock of the same kind, for another thread. Takes no memory.
    fn twin(&self) -> Self
    where
        Self: Sized;
}

/// A clock in memory, for tests. It answers `now`, then `now + step` and so on, in milliseconds, and from 2^64 - 1 on that. It waits for nothing.
#[derive(Clone, Copy)]
pub struct StepClock {
    pub now: u64,
    pub step: u64,
}

impl Clock for StepClock {
    ghost moments = { λ c. Some (λ n. min (c.now + n * c.step) (2 ^ 64 - 1)) };

    fn now(&mut self) -> u64 {
        let now = self.now;
        self.now = now.saturating_add(self.step);
        now
    }

    fn pause(&mut self, _millis: u64) {}

    /// The same clock once more.
    fn twin(&self) -> Self
        ensures { result ≡ self.entry.now }
    {
        *self
    }
}
