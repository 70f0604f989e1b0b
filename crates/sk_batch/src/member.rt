// A member of a batch, and what came of it.
use sk_resp::Word;

/// What may come of a member.
#[derive(Clone, Copy, Drop)]
pub enum Mark {
    /// A run of the job has ended, well or not, or the job was buried.
    Reported,
    /// A run of the job has ended well.
    Returned,
}

/// What has come of a member.
#[derive(Clone, Copy, Drop)]
pub struct Progress {
    pub reported: bool,
    pub returned: bool,
}

/// A job in a batch.
#[derive(Drop)]
pub struct Member {
    pub bid: Word,
    pub jid: Word,
}
