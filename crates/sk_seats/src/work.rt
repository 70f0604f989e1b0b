// A job in a worker's hands, and how far it has come.
use sk_payload::JobText;

/// How a worker is done with a job.
#[derive(Clone, Copy, Debug, PartialEq, Eq)]
pub enum End {
    /// The job has run, and returned.
    Returned,
    /// The job was given up.
    Discarded,
}

/// How far a job in a worker's hands has come.
#[derive(Clone, Copy, Debug, PartialEq, Eq)]
pub enum Stage {
    /// It was fetched. A row of it went to its process's private list.
    Held,
    /// It has failed, and went to the set of retries or to the dead set. Its row in the private list is still to be released.
    Put,
    /// The worker is done with it. Its row in the private list is still to be released.
    Settled(End),
}

/// A job in a worker's hands.
#[derive(Drop)]
pub struct Work {
    /// The job as it was fetched.
    pub payload: JobText,
    /// How far it has come.
    pub stage: Stage,
}
