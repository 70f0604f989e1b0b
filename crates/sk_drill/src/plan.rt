// What each thread of a drill knows of it.

/// What each thread of a drill knows of it.
#[derive(Clone, Copy)]
pub struct Plan {
    /// What the words of crashes and dices are made from.
    pub seed: u64,
    /// How many jobs are pushed.
    pub jobs: u64,
    /// How many crashes each worker may have.
    pub crashes: u32,
}
