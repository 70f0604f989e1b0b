// Room for threads: whether the system gives as many as a program starts. Where it gives fewer, what should go on side by side would go on one after
// another, and a poller or a connection could wait for ever.
use std::sync::Arc;
use std::sync::atomic::{AtomicBool, Ordering};
use std::thread::{JoinHandle, Threads};
use std::time::Duration;
use std::{io, thread};

/// How often a thread looks whether it may end, in milliseconds.
const LOOK: u64 = 1;

/// Waits until it is told to end.
fn stay(rt: &HostRuntime, over: &AtomicBool) {
    for _again in 0..u64::MAX {
        if over.load(Ordering::SeqCst) {
            return;
        }
        thread::sleep(rt, Duration::from_millis(LOOK));
    }
}

/// Starts threads that stay until they are told to end, as many as there is room for, or as can be had.
fn fill<R: Threads>(
    rt: HostRuntime,
    threads: &R,
    over: &Arc<AtomicBool>,
    started: &mut Vec<JoinHandle<()>>,
) {
    for _more in started.len()..started.capacity() {
        let Ok(over) = Arc::try_clone(over) else {
            return;
        };
        let Ok(thread) = thread::spawn(threads, move || stay(&rt, &over)) else {
            return;
        };
        if started.push(thread).is_err() {
            return;
        }
    }
}

/// Whether so many threads can be had beside this one, all at a time. They are started, and have ended when this returns.
pub fn has_room<R: Threads>(rt: HostRuntime, threads: &R, count: usize) -> io::Result<bool> {
    let over = Arc::new(rt.alloc(), AtomicBool::new(false))?;
    let mut started = Vec::with_capacity(rt.alloc(), count)?;
    fill(rt, threads, &over, &mut started);
    let all = started.len() >= count;
    over.store(true, Ordering::SeqCst);
    for thread in started {
        thread.join(threads);
    }
    Ok(all)
}
