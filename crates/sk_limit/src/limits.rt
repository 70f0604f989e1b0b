// What limiters take.

/// The most bytes of a limiter's name.
pub const LONGEST_LIMITER: usize = 100;

/// The most holds of a name at one time, and the most grants in a window. A hold may ask for each slot in turn.
pub const MOST_SLOTS: u32 = 1_000;

/// The longest time that a hold stands, and the longest window, in milliseconds: eleven days and a half.
pub const LONGEST_HOLD: u64 = 1_000_000_000;
