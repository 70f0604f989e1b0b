// Whose turn it is among ears that are short of descriptors or memory.
use std::alloc::{AllocError, Global};
use std::sync::Arc;
use std::sync::atomic::{AtomicBool, Ordering};
use std::thread;
use std::time::{Clock, Duration};

/// A turn that several ears share. One of them has it at a time.
#[derive(Drop)]
pub(crate) struct Turn {
    taken: Arc<AtomicBool, Global>,
}

impl Turn {
    pub(crate) fn new(alloc: Global) -> Result<Turn, AllocError> {
        let taken = Arc::new(alloc, AtomicBool::new(false))?;
        Ok(Turn { taken })
    }

    /// The same turn, for another ear.
    pub(crate) fn share(&self) -> Result<Turn, AllocError> {
        let taken = Arc::try_clone(&self.taken)?;
        Ok(Turn { taken })
    }

    /// Takes the turn. As long as another has it, this asks again after each pause.
    pub(crate) fn take<R: Clock>(&self, rt: &R, pause: Duration) {
        for _again in 0..u64::MAX {
            if !self.taken.swap(true, Ordering::SeqCst) {
                return;
            }
            thread::sleep(rt, pause);
        }
    }

    pub(crate) fn give_back(&self) {
        self.taken.store(false, Ordering::SeqCst);
    }
}
