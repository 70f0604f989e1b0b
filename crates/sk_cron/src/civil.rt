// The fields of a civil minute, and which minute it is at a moment.
ghost use Rattle.std.specs.Prelude.{◌≡◌, ◌≤◌, ◌+ℤ◌, ◌*ℤ◌, pos};
ghost use Rattle.jiff.specs.Words.{civil_nanos};
ghost use Rattle.sk_base.specs.Score.{last_moment};
ghost use Rattle.sk_cron.specs.Civil.{IsCivilAt};
ghost use Rattle.sk_cron.specs.Offset.{IsOffset};

use jiff::Timestamp;
use jiff::civil::DateTime;
use jiff::tz::Offset;

/// A civil minute, as a clock on the wall shows it.
#[derive(Clone, Copy)]
pub struct Civil {
    /// 0 to 59.
    pub minute: u8,
    /// 0 to 23.
    pub hour: u8,
    /// The day of the month, 1 to 31.
    pub day: u8,
    /// 1 to 12.
    pub month: u8,
    /// 0 to 6, from Sunday on.
    pub weekday: u8,
}

// What a clock shows that is so many minutes ahead of UTC.
fn shown(moment: u64, offset: i32) -> DateTime
    requires moment { moment ≤ last_moment }
    requires offset { IsOffset offset }
    ensures { civil_nanos result ≡ (pos moment +ℤ offset *ℤ pos 60_000) *ℤ pos 1_000_000 }
{
    let at = Timestamp::from_millisecond(moment as i64).unwrap();
    Offset::from_seconds(offset * 60).unwrap().to_datetime(at)
}

/// The minute that such a clock shows.
pub fn civil_at(moment: u64, offset: i32) -> Civil
    requires moment { moment ≤ last_moment }
    requires offset { IsOffset offset }
    ensures { IsCivilAt moment offset result }
{
    let shown = shown(moment, offset);
    Civil {
        minute: shown.minute() as u8,
        hour: shown.hour() as u8,
        day: shown.day() as u8,
        month: shown.month() as u8,
        weekday: shown.weekday().to_sunday_zero_offset() as u8,
    }
}
