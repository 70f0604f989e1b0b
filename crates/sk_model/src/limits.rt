// How much a store takes.

/// How much a store takes before it refuses a push.
#[derive(Clone, Copy)]
pub struct Limits {
    /// The most rows in queues, private lists and sets together.
    pub rows: u64,
    /// The most bytes of their texts together.
    pub bytes: u64,
    /// The most batches.
    pub batches: u64,
}
