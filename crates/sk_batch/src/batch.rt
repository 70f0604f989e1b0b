// A batch, and which of its callbacks were fired.
use crate::Callbacks;
use sk_resp::Word;

/// Which callbacks of a batch were fired, whether they have a job or not.
#[derive(Clone, Copy, Drop)]
pub struct Fired {
    pub complete: bool,
    pub success: bool,
    pub death: bool,
}

/// A batch as it was made.
#[derive(Drop)]
pub struct Batch {
    pub bid: Word,
    /// The batch that it is in.
    pub parent: Option<Word>,
    pub callbacks: Callbacks,
}
