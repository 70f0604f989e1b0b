// How many records were read from the file of a store: the file counts them, and the door tells of them.
use std::alloc::{AllocError, Global};
use std::sync::Arc;
use std::sync::atomic::{AtomicU64, Ordering};

/// A number of records that several holders share.
#[derive(Drop)]
pub struct ReadRecords {
    number: Arc<AtomicU64, Global>,
}

impl ReadRecords {
    /// None were read yet.
    pub fn new(alloc: Global) -> Result<ReadRecords, AllocError> {
        let number = Arc::new(alloc, AtomicU64::new(0))?;
        Ok(ReadRecords { number })
    }

    /// The same number, for another holder.
    pub fn share(&self) -> Result<ReadRecords, AllocError> {
        let number = Arc::try_clone(&self.number)?;
        Ok(ReadRecords { number })
    }

    pub fn set(&self, number: u64) {
        self.number.store(number, Ordering::SeqCst);
    }

    pub fn get(&self) -> u64 {
        self.number.load(Ordering::SeqCst)
    }
}
