// How a turn of a worker ends.
use sk_link::LinkFault;
use sk_resp::Reply;

/// What a turn did.
#[derive(Clone, Copy)]
pub enum Turn {
    /// It held no job, and each queue was empty.
    Empty,
    /// The job's run returned.
    Done,
    /// The job's run raised an error, and it is tried again later.
    Retried,
    /// The job's run raised an error, or it has no head, and it is a dead job now.
    Buried,
    /// The job's run raised an error, and it is forgotten.
    Discarded,
}

/// Why a worker has ended.
#[derive(Drop)]
pub enum WorkFault {
    /// The link had this fault.
    Link(LinkFault),
    /// A request had this reply, which is an error or of another kind than the request wants.
    Refused(Reply),
    /// The job's run raised an error, and its `retry_count` is 999,999,999, the greatest that a job may have. The job stays in the private list.
    GenLimit,
    /// The worker had a fault before.
    Ended,
    /// There was no memory.
    Memory,
}
