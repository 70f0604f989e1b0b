// A cron text as the numbers of its five fields: how it is read, and which civil minutes match it.
ghost use Rattle.std.specs.Prelude.{◌≡◌, IfErr, IfOk};
ghost use Rattle.sk_cron.specs.Fault.{IsFault};
ghost use Rattle.sk_cron.specs.Read.{HasRead};
ghost use Rattle.sk_cron.specs.Times.{Means, is_day, is_weekday, matches};

use crate::field::Field;
use crate::reader::Reader;
use crate::{Civil, CronFault};
use std::marker::Model;

/// When a periodic job runs: the numbers of the five fields of a cron text (POSIX, "crontab").
#[derive(Drop)]
pub struct Cron {
    fields: [Field; 5],
}

impl Model for Cron {
    ghost use Rattle.sk_cron.specs.Times.{Times};

    ghost Value = { Times };

    ghost use Rattle.sk_cron.specs.Read.{times_of};

    ghost view = { λ c. times_of c.fields };
}

// Reads the bytes of a text.
fn read(text: &[u8]) -> Result<Reader, CronFault>
    ensures ok { IfOk result (λ reader. HasRead text.now reader.fields) }
    ensures err { IfErr result (IsFault text.now) }
{
    let mut reader = Reader::new();
    for (place, byte) in text.iter().enumerate() {
        let field = reader.at as u8;
        if !reader.take(*byte) {
            return Err(CronFault { field, place });
        }
    }
    let field = reader.at as u8;
    if reader.finish() {
        Ok(reader)
    } else {
        Err(CronFault {
            field,
            place: text.len(),
        })
    }
}

impl Cron {
    /// The times of a text: minute 0 to 59, hour 0 to 23, day of the month 1 to 31, month 1 to 12 and weekday 0 to 7, where 0 and 7 are Sunday, with
    /// one or more spaces between them. A field is one or more parts with commas between them: a number of one or two digits, `a-b`, or `*`, and
    /// behind the latter two `/` and a step from 1 to the field's greatest number. Takes no memory.
    ///
    /// Errors: a [`CronFault`] exactly where the text is none of these; it tells the first byte with which no such text goes on.
    pub fn read(text: &str) -> Result<Cron, CronFault>
        ensures ok { IfOk result (λ cron. Means text.now cron) }
        ensures err { IfErr result (IsFault text.now) }
    {
        let reader = read(text.as_bytes())?;
        let fields = reader.fields;
        Ok(Cron { fields })
    }

    // Sunday is 0, and 7 as well.
    fn is_weekday(&self, weekday: u8) -> bool
        ensures { result ≡ is_weekday self.now weekday }
    {
        (weekday <= 6 && self.fields[4].has(weekday)) || (weekday == 0 && self.fields[4].has(7))
    }

    // Where both day fields are restricted, either of them may match.
    fn is_day(&self, civil: &Civil) -> bool
        ensures { result ≡ is_day self.now civil.now }
    {
        let day = self.fields[2].has(civil.day);
        let weekday = self.is_weekday(civil.weekday);
        if self.fields[2].is_restricted && self.fields[4].is_restricted {
            day || weekday
        } else {
            day && weekday
        }
    }

    /// Whether the minute is one of them: minute, hour and month are, and the day is; where both the day of the month and the weekday are restricted,
    /// that is other than `*`, one of the two is enough. Takes no memory.
    pub fn matches(&self, civil: &Civil) -> bool
        ensures { result ≡ matches self.now civil.now }
    {
        self.fields[0].has(civil.minute)
            && self.fields[1].has(civil.hour)
            && self.fields[3].has(civil.month)
            && self.is_day(civil)
    }
}
