// What a FLUSHALL or a DEL took out, until it is freed.

use sk_keys::RemovedKeys;
use sk_places::RemovedRows;

/// The rows, names, ids of live jobs and plain keys that a FLUSHALL took out of the store, or the rows of queues or the large value of a plain key that
/// a DEL did. To drop it gives their memory back, in time for each of them: so who holds a lock round the store lets that go first.
#[derive(Drop)]
pub struct Removed {
    pub(crate) rows: RemovedRows,
    pub(crate) keys: Option<RemovedKeys>,
}
