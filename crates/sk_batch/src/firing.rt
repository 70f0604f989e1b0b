// What is fired when something comes of a batch.
use sk_payload::JobText;
use sk_resp::Word;

/// What comes of a batch (Sidekiq's wiki, "Batches").
#[derive(Clone, Copy, Drop)]
pub enum Kind {
    /// Each job of the batch was reported.
    Complete,
    /// Each job of the batch has returned.
    Success,
    /// A job of the batch, or of one within it, was buried.
    Death,
}

/// What came of a batch, with a copy of the job that is to be pushed for it, where the batch has one.
#[derive(Drop)]
pub struct Firing {
    pub bid: Word,
    pub kind: Kind,
    pub payload: Option<JobText>,
}
