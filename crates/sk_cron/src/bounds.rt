// The least and the greatest number of a field.
ghost use Rattle.std.specs.Prelude.{◌≡◌, ◌<◌, get_or};
ghost use Rattle.sk_cron.specs.CronText.{five, minutes};

/// The least and the greatest number of a field.
#[derive(Clone, Copy)]
pub struct Bounds {
    pub low: u8,
    pub high: u8,
}

/// Those of the field with this place: minute, hour, day of the month, month and weekday, from 0.
pub fn bounds_of(field: usize) -> Bounds
    requires { field < 5 }
    ensures { result ≡ get_or five field minutes }
{
    let (low, high) = match field {
        0 => (0, 59),
        1 => (0, 23),
        2 => (1, 31),
        3 => (1, 12),
        _ => (0, 7),
    };
    Bounds { low, high }
}
