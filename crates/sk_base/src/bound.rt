// The ends of a range of scores.
use crate::Score;

/// A lower or an upper bound of scores, as `ZRANGEBYSCORE` takes it.
#[derive(Clone, Copy)]
pub enum Bound {
    /// `-inf`: below every score
    Low,
    /// `+inf` or `inf`: above every score
    High,
    /// The score itself is within the range.
    At(Score),
    /// `(` and the score: the score itself is without.
    Past(Score),
}
