// The day of a moment, in UTC, and the name that a counter has for it.
ghost use Rattle.std.specs.Prelude.{◌≡◌, ◌≤◌, ◌/◌, pos, IfOk};
ghost use Rattle.jiff_core.specs.Date.{epoch_day};
ghost use Rattle.sk_base.specs.Score.{last_moment};
ghost use Rattle.sk_counters.specs.Counters.{of_day};
ghost use Rattle.sk_counters.specs.Date.{day_millis};

use crate::Memory;
use jiff_core::civil::Date;
use jiff_fmt::temporal::DateTimePrinter;
use sk_resp::Word;
use std::alloc::Global;

// Milliseconds of a day.
const DAY_MILLIS: u64 = 86_400_000;

// How many bytes stand behind the name: a colon, and the date.
const BEHIND: usize = 11;

// The days from 1970-01-01 to the day of a moment.
fn day_of(moment: u64) -> u64
    ensures { result ≡ moment / day_millis }
{
    moment / DAY_MILLIS
}

// The date that many days after 1970-01-01.
fn date_of(day: u64) -> Date
    requires { day ≤ last_moment / day_millis }
    ensures { epoch_day result ≡ pos day }
{
    match Date::from_unix_epoch_day(day as i64) {
        Ok(date) => date,
        Err(_) => unreachable!(), // The calendar goes to the year 9999.
    }
}

/// The name of a counter for the day of a moment, as `processed:2023-11-14`.
pub fn of_day(alloc: Global, name: &[u8], moment: u64) -> Result<Word, Memory>
    requires { moment ≤ last_moment }
    ensures { IfOk result (λ word. word ≡ of_day name.now moment) }
{
    let date = DateTimePrinter::new().date_text(date_of(day_of(moment)));
    let mut bytes = Vec::with_capacity(alloc, name.len().saturating_add(BEHIND))?;
    bytes.extend_from_slice(name)?;
    bytes.push(b':')?;
    bytes.extend_from_slice(date.as_str().as_bytes())?;
    Ok(Word::new(bytes))
}
