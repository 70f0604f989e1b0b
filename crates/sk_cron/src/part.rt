// What stands between two commas of a field.
ghost use Rattle.std.specs.Prelude.{◌≡◌, ◌≤◌};
ghost use Rattle.sk_cron.specs.Times.{has, step_of};

use crate::Bounds;

/// What stands between two commas of a field.
#[derive(Clone, Copy, PartialEq, Eq)]
pub enum Part {
    Number(u8),
    /// From the first number to the last, and how far apart.
    Range(u8, u8, u8),
    /// `*`: all numbers of the field.
    Star,
    /// All numbers of the field so far apart, from its least one on.
    StarStep(u8),
}

impl Part {
    // Whether the part of a field has the number.
    pub(crate) fn has(self, bounds: Bounds, number: u8) -> bool
        requires { 1 ≤ step_of self }
        ensures { result ≡ has bounds self number }
    {
        match self {
            Part::Number(n) => number == n,
            Part::Range(first, last, step) => first <= number
                && number <= last
                && (number - first) % step == 0,
            Part::Star => bounds.low <= number && number <= bounds.high,
            Part::StarStep(step) => {
                bounds.low <= number && number <= bounds.high && (number - bounds.low) % step == 0
            }
        }
    }
}
