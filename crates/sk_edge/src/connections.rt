// The connections that the ears of a port serve, so that one ear can end the sessions of the others. The system gives the number of a descriptor
// again once it is closed. So a connection takes its number back before that, and waits as long as an ear is shutting it down.
use libc::net::{SHUT_RD, SHUT_RDWR, shutdown};
use std::alloc::{AllocError, Global};
use std::hint;
use std::sync::Arc;
use std::sync::atomic::{AtomicI32, Ordering};

// The ear serves nobody.
const NONE: i32 = -1;

// An ear is shutting the connection down.
const HELD: i32 = -2;

/// What is ended of a connection.
#[derive(Clone, Copy)]
pub(crate) enum Ending {
    /// Its reads give what came before, and then the end.
    Reads,
    /// Its writes fail, too.
    All,
}

/// The descriptors of the connections that are being served, one for each ear of a port.
#[derive(Drop)]
pub(crate) struct Connections {
    descriptors: Arc<Vec<AtomicI32>, Global>,
}

// Shuts the connection down, unless there is none, or another ear does.
fn end_one(descriptor: &AtomicI32, how: i32) {
    let number = descriptor.load(Ordering::SeqCst);
    if number < 0 {
        return;
    }
    let held = descriptor.compare_exchange(number, HELD, Ordering::SeqCst, Ordering::SeqCst);
    if held.is_ok() {
        let _ = shutdown(number, how);
        descriptor.store(number, Ordering::SeqCst);
    }
}

impl Connections {
    /// Of so many ears, which serve nobody yet.
    pub(crate) fn new(alloc: Global, ears: usize) -> Result<Connections, AllocError> {
        let mut descriptors = Vec::with_capacity(alloc, ears)?;
        while descriptors.len() < ears {
            descriptors.push_reserved(AtomicI32::new(NONE));
        }
        let descriptors = Arc::new(alloc, descriptors)?;
        Ok(Connections { descriptors })
    }

    /// The same, for another holder.
    pub(crate) fn share(&self) -> Result<Connections, AllocError> {
        let descriptors = Arc::try_clone(&self.descriptors)?;
        Ok(Connections { descriptors })
    }

    /// Ends so much of each connection.
    pub(crate) fn end(&self, ending: Ending) {
        let how = match ending {
            Ending::Reads => SHUT_RD,
            Ending::All => SHUT_RDWR,
        };
        for it in self.descriptors.iter() {
            end_one(it, how);
        }
    }

    /// Whether each has been left.
    pub(crate) fn are_left(&self) -> bool {
        self.descriptors
            .iter()
            .all(|it| it.load(Ordering::SeqCst) == NONE)
    }

    // The ear serves the connection with this descriptor.
    fn put(&self, ear: usize, descriptor: i32) {
        if let Some(it) = self.descriptors.get(ear) {
            it.store(descriptor, Ordering::SeqCst);
        }
    }

    // The ear serves it no more.
    fn take(&self, ear: usize, descriptor: i32) {
        let Some(it) = self.descriptors.get(ear) else {
            return;
        };
        for _again in 0..u64::MAX {
            let taken = it.compare_exchange(descriptor, NONE, Ordering::SeqCst, Ordering::SeqCst);
            if taken.is_ok() {
                return;
            }
            hint::spin_loop();
        }
    }
}

/// The place of a connection among those that are being served. It is dropped before the connection is closed.
pub(crate) struct Place {
    connections: Connections,
    ear: usize,
    descriptor: i32,
}

impl Place {
    /// The ear serves the connection with this descriptor.
    pub(crate) fn new(connections: Connections, ear: usize, descriptor: i32) -> Place {
        connections.put(ear, descriptor);
        Place {
            connections,
            ear,
            descriptor,
        }
    }
}

/// The ear serves it no more.
impl Drop for Place {
    fn drop(self) {
        let Place {
            connections,
            ear,
            descriptor,
        } = self;
        connections.take(ear, descriptor);
    }
}
