// A lock: the job that holds it, and when it is over.
use sk_resp::Text;

/// The lock of a unique job.
#[derive(Drop)]
pub struct Lock {
    /// The id of the job that holds it.
    pub jid: Text,
    /// The moment from which on it no longer stands, in milliseconds since 1970.
    pub deadline: u64,
}
