// What is kept of a batch beside what it was made of: it changes, and the batch doesn't.
use crate::Fired;
use crate::numbers::Numbers;

/// Which callbacks of a batch were fired, and its numbers.
#[derive(Clone, Copy, Drop)]
pub struct State {
    pub fired: Fired,
    pub numbers: Numbers,
}
