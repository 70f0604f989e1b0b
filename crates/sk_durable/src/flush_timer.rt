// When what is logged is stored at times of its own, and the thread that does so.
ghost use Rattle.std.specs.Prelude.{false};
ghost use Rattle.sk_durable.specs.Writes.{TellsOf};

use crate::{HubBacklog, LogBook, LogSettler, SyncMode};
use sk_commit::{Committer, LogId};
use sk_desk::{Hub, HubId};
use sk_disk::Disk;
use std::sync::atomic::{AtomicBool, Ordering};
use std::sync::{Condvar, Mutex, Wait};
use std::time::{self, Duration};

/// The times at which a thread of a server stores what is logged, so many milliseconds after one another. The server's threads share it. No clause says
/// when a time comes: that is tested.
#[derive(Drop)]
pub struct FlushTimer {
    every: Duration,
    runs: AtomicBool,
    ended: Mutex<bool>,
    changed: Condvar,
}

impl FlushTimer {
    /// A timer that nobody waits for yet.
    pub fn new(millis: u32) -> FlushTimer {
        FlushTimer {
            every: Duration::from_millis(u64::from(millis)),
            runs: AtomicBool::new(false),
            ended: Mutex::new(false),
            changed: Condvar::new(),
        }
    }

    // A thread does so from now on, or no more.
    fn set_running(&self, runs: bool) {
        self.runs.store(runs, Ordering::SeqCst);
    }

    /// No more times come: the server has ended.
    pub(crate) fn end<R: Wait>(&self, rt: &R) {
        *self.ended.lock(rt) = true;
        self.changed.notify_all();
    }

    // Sleeps until the next time has come. False where none comes any more.
    fn rest<R: Wait + time::Clock>(&self, rt: &R) -> bool {
        let ended = self.ended.lock(rt);
        let (_ended, rest) = self
            .changed
            .wait_timeout_while(rt, ended, self.every, |ended| !*ended);
        rest.timed_out()
    }
}

impl SyncMode for FlushTimer {
    ghost waits = { false };

    /// Whether a thread stores what is logged at these times.
    fn only_looks(&self) -> bool {
        self.runs.load(Ordering::SeqCst)
    }
}

/// Stores what is logged in the hub at the timer's times, until none comes any more or the log has ended. Replies don't wait meanwhile.
pub(crate) fn flush<I: HubId, J: LogId, R: Wait + time::Clock, D: Disk + Drop>(
    rt: &R,
    hub: &Hub<I, LogBook<J>>,
    committer: &Committer<D, J>,
    timer: &FlushTimer,
)
    requires { TellsOf I.start J.holds }
{
    let backlog = HubBacklog::new(hub);
    let settler = LogSettler::new(rt, &backlog, committer, timer);
    timer.set_running(true);
    for _ in rt.forever() {
        if !timer.rest(rt) || settler.store(0).is_none() {
            break;
        }
    }
    timer.set_running(false);
}
