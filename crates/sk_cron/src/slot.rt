// The latest slot of a periodic job: the start of a minute that matches.
ghost use Rattle.std.specs.Prelude.{◌≡◌, ◌≤◌, ◌-◌, ◌%◌, min};
ghost use Rattle.sk_cron.specs.Offset.{IsOffset};
ghost use Rattle.sk_base.specs.Score.{last_moment};
ghost use Rattle.sk_cron.specs.Slot.{IsLastSlot};

use crate::Cron;
use crate::civil::civil_at;
use sk_base::limits::{LAST_MOMENT, SLOT_LIFE};

// Milliseconds of a minute.
const MINUTE: u64 = 60_000;

impl Cron {
    // The latest slot of a moment that the calendar has.
    fn slot_before(&self, now: u64, offset: i32) -> Option<u64>
        requires early { now ≤ last_moment }
        requires offset { IsOffset offset }
        ensures { IsLastSlot self.now offset now result }
    {
        let mut slot = now - now % MINUTE;
        'back: while now - slot <= SLOT_LIFE {
            if self.matches(&civil_at(slot, offset)) {
                return Some(slot);
            }
            if slot < MINUTE {
                return None;
            }
            slot -= MINUTE;
        }
        None
    }

    /// The latest start of a matching minute that is at most `now`, and at most ten minutes before it, as a clock shows it that is `offset` minutes
    /// ahead of UTC; None where there is none. Moments are milliseconds since 1970, and one past the year 9998 counts as its end. Takes no memory.
    pub fn last_slot(&self, now: u64, offset: i32) -> Option<u64>
        requires { IsOffset offset }
        ensures { IsLastSlot self.now offset (min now last_moment) result }
    {
        self.slot_before(now.min(LAST_MOMENT), offset)
    }
}
