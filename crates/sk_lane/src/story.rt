// All that happened at one seat.
use sk_desk::Ask;

/// The transcript of one seat, as its link kept it.
#[derive(Drop)]
pub struct Story {
    /// 0 for the thread that pushes, 1 for the poller's, and one more than its number for a worker's.
    pub thread: u32,
    /// The number of the seat.
    pub seat: u32,
    /// What was asked there and answered, in order.
    pub asks: Vec<Ask>,
    /// For each turn that was begun there, the number of asks before it.
    pub marks: Vec<u64>,
}
