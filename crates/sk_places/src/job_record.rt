// What is recorded of a job, and the number that it is kept as.
ghost use Rattle.std.specs.Prelude.{◌≡◌, ◌+◌, ◌-◌, ◌<◌, ◌&&◌, false, nat_eq, not};
ghost use Rattle.sk_places.specs.JobRecords.{is_live, live_mark, number_of, rows_noted};

// In the number of a job that is live.
const LIVE: u32 = 1 << 31;

// The most rows that may name a job. With one more the number of a live job would be the greatest, and of that nothing can be changed in a step.
const MOST_ROWS: u32 = LIVE - 2;

/// How many rows name a job, and whether it is live.
#[derive(Clone, Copy, Drop)]
pub struct JobRecord {
    pub rows: u32,
    pub live: bool,
}

impl JobRecord {
    /// No row names the job, and it isn't live.
    pub fn none() -> JobRecord
        ensures rows { result.rows ≡ 0 }
        ensures live { result.live ≡ false }
    {
        JobRecord {
            rows: 0,
            live: false,
        }
    }

    /// What a number says.
    pub fn of(number: u32) -> JobRecord
        ensures rows { result.rows ≡ rows_noted number }
        ensures live { result.live ≡ is_live number }
        ensures few { result.rows < live_mark }
    {
        if number < LIVE {
            return JobRecord {
                rows: number,
                live: false,
            };
        }
        JobRecord {
            rows: number - LIVE,
            live: true,
        }
    }

    /// The number that says this.
    pub fn number(self) -> u32
        requires { self.rows < live_mark }
        ensures { result ≡ number_of self.rows self.live }
    {
        if self.live {
            self.rows + LIVE
        } else {
            self.rows
        }
    }

    /// Whether no row names the job, and it isn't live.
    pub fn is_none(self) -> bool
        ensures { result ≡ (nat_eq self.rows 0 && not self.live) }
    {
        self.rows == 0 && !self.live
    }

    /// Whether no more rows may name the job.
    pub fn is_full(self) -> bool
        ensures { result ≡ false → self.rows + 1 < live_mark }
    {
        self.rows >= MOST_ROWS
    }

    /// Whether no row names the job, and no worker has it in its hands.
    pub fn is_new(self, held: bool) -> bool
        ensures { result ≡ (nat_eq self.rows 0 && not held) }
    {
        self.rows == 0 && !held
    }

    /// One more row names it, and it lives from now on or doesn't.
    pub fn pushed(self, live: bool) -> JobRecord
        requires { self.rows + 1 < live_mark }
        ensures rows { result.rows ≡ self.rows + 1 }
        ensures live { result.live ≡ live }
    {
        JobRecord {
            rows: self.rows + 1,
            live,
        }
    }

    /// One more row names it.
    pub fn more(self) -> JobRecord
        requires { self.rows + 1 < live_mark }
        ensures rows { result.rows ≡ self.rows + 1 }
        ensures live { result.live ≡ self.live }
    {
        JobRecord {
            rows: self.rows + 1,
            live: self.live,
        }
    }

    /// One row less names it, if any does.
    pub fn less(self) -> JobRecord
        ensures rows { result.rows ≡ self.rows - 1 }
        ensures live { result.live ≡ self.live }
    {
        JobRecord {
            rows: self.rows.saturating_sub(1),
            live: self.live,
        }
    }

    /// It has ended.
    pub fn ended(self) -> JobRecord
        ensures rows { result.rows ≡ self.rows }
        ensures live { result.live ≡ false }
    {
        JobRecord {
            rows: self.rows,
            live: false,
        }
    }
}
