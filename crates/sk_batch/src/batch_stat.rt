// The numbers of a batch.

/// How many members a batch has, and what came of them.
#[derive(Clone, Copy, Drop)]
pub struct BatchStat {
    /// Its own members.
    pub members: u64,
    /// Its own members that haven't returned.
    pub pending: u64,
    /// Its own members that weren't reported.
    pub unreported: u64,
    /// Whether a member of this batch or of one within it was buried.
    pub died: bool,
    /// The members of this batch and of those within it that haven't returned.
    pub pending_under: u64,
}
