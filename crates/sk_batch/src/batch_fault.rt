// Why a batch isn't made, or gets no jobs.
use thiserror::Error;

/// The first rule that making a batch, or adding jobs to one, would break. Nothing has changed then.
#[derive(Clone, Copy, Debug, Drop, Error)]
pub enum BatchFault {
    /// The batch that jobs are added to, or the parent of the new batch, isn't there.
    #[error("no such batch")]
    NoBatch,
    /// A batch of the new bid is there.
    #[error("repeated bid")]
    RepeatedBid,
    /// The batch that jobs are added to, or the parent of the new batch, has no open job.
    #[error("batch settled")]
    Settled,
    /// A jid comes twice, or is a member of the batch.
    #[error("repeated jid")]
    RepeatedJid,
    /// There are as many batches as there may be.
    #[error("full")]
    Full,
    /// There was no memory.
    #[error("no memory")]
    Memory,
}
