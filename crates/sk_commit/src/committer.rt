// Who writes: one of those that wait for the file leads, and the others sleep until it has stored what they wait for, or the log has ended. They sleep in
// two crowds by turns: those whose records the leader has, who wake once it is done, and those whose records come next, of whom one leads then.
ghost use Rattle.std.specs.Prelude.{IfOk, IfSome};
ghost use mathlib.Core.List.{IsPrefix};

use crate::{Backlog, Broken, Durable, HaltToken, LogId, Prefix, Stored};
use sk_disk::Disk;
use sk_log::Group;
use std::sync::atomic::{AtomicBool, AtomicU64, Ordering};
use std::sync::{Mutex, Wait};

// A file that nobody writes just now, and a group for the next leader to leave behind.
#[derive(Drop)]
struct Idle<D: Disk + Drop, I: LogId> {
    stored: Stored<D, I>,
    spare: Group,
}

// The file, unless a leader has it; or the file that takes no more.
#[derive(Drop)]
struct Slot<D: Disk + Drop, I: LogId> {
    file: Option<Idle<D, I>>,
    broken: Option<Broken<D, I>>,
    /// How many records are stored once the last leader is done,
    led: u64,
    /// and whether those who wait for that sleep in the second crowd.
    second: bool,
}

impl<D: Disk + Drop, I: LogId> Slot<D, I> {
    // Whether who waits for so many records sleeps in the second crowd.
    fn sleeps_in_second(&self, records: u64) -> bool {
        if records <= self.led {
            self.second
        } else {
            !self.second
        }
    }
}

// What a thread does next that waits for the file.
#[derive(Drop)]
enum Turn<D: Disk + Drop, I: LogId> {
    /// It leads,
    Leads(Idle<D, I>),
    /// or sleeps in a crowd that has been woken so often, modulo 2^32,
    Sleeps { second: bool, woken: u32 },
    /// or the log has ended.
    Ended(HaltToken<D, I>),
}

/// A log that many threads share. A leader takes the file out of its lock, and holds none while it writes.
#[derive(Drop)]
pub struct Committer<D: Disk + Drop, I: LogId> {
    // what is in the file
    durable: Mutex<Durable<I>>,
    slot: Mutex<Slot<D, I>>,
    ended: AtomicBool,
    // how often each crowd has been woken
    first: AtomicU64,
    second: AtomicU64,
}

impl<D: Disk + Drop, I: LogId> Committer<D, I> {
    /// Shares a file. The group is for the first leader to leave behind; what stands in it is taken out.
    pub fn new(stored: Stored<D, I>, spare: Group) -> Committer<D, I> {
        let durable = stored.durable();
        let slot = Slot {
            file: Some(Idle { stored, spare }),
            broken: None,
            led: 0,
            second: false,
        };
        Committer {
            durable: Mutex::new(durable),
            slot: Mutex::new(slot),
            ended: AtomicBool::new(false),
            first: AtomicU64::new(0),
            second: AtomicU64::new(0),
        }
    }

    // One of the two crowds.
    fn crowd(&self, second: bool) -> &AtomicU64 {
        if second { &self.second } else { &self.first }
    }

    // Wakes one who leads next, if it has come to that.
    fn wake_one(&self, second: bool) {
        let crowd = self.crowd(second);
        crowd.fetch_add(1, Ordering::SeqCst);
        crowd.wake_one();
    }

    fn wake_all(&self, second: bool) {
        let crowd = self.crowd(second);
        crowd.fetch_add(1, Ordering::SeqCst);
        crowd.wake_all();
    }

    // Tells how many records the leader has, with all that were stored before: who waits for one of them is of the other crowd now.
    fn announce<R: Wait>(&self, rt: &R, records: u64) {
        let mut slot = self.slot.lock(rt);
        slot.led = records;
        slot.second = !slot.second;
    }

    // Puts the file back with what was stored, and wakes those who wait for that, and one who leads next.
    fn put_back<R: Wait>(&self, rt: &R, stored: Stored<D, I>, spare: Group) {
        *self.durable.lock(rt) = stored.durable();
        let mut slot = self.slot.lock(rt);
        slot.file = Some(Idle { stored, spare });
        let second = slot.second;
        drop(slot);
        self.wake_all(second);
        self.wake_one(!second);
    }

    // Ends the log, and wakes all that sleep.
    fn end<R: Wait>(&self, rt: &R, broken: Broken<D, I>) {
        self.slot.lock(rt).broken = Some(broken);
        self.ended.store(true, Ordering::SeqCst);
        self.wake_all(false);
        self.wake_all(true);
    }

    // Takes what waits, and stores it, or ends the log.
    fn lead<R: Wait, B: Backlog<I>>(&self, rt: &R, backlog: &B, idle: Idle<D, I>) {
        let Idle { stored, spare } = idle;
        let Some(taken) = backlog.take(rt, spare) else {
            self.end(rt, stored.give_up());
            return;
        };
        self.announce(rt, taken.len());
        match stored.store(taken) {
            Ok((stored, spare)) => self.put_back(rt, stored, spare),
            Err(broken) => self.end(rt, broken),
        }
    }

    // What who waits for so many records does next.
    fn turn<R: Wait>(&self, rt: &R, records: u64) -> Turn<D, I> {
        let mut slot = self.slot.lock(rt);
        if let Some(broken) = &slot.broken {
            return Turn::Ended(HaltToken::of(broken));
        }
        if let Some(idle) = slot.file.take() {
            return Turn::Leads(idle);
        }
        let second = slot.sleeps_in_second(records);
        let woken = self.crowd(second).load(Ordering::SeqCst);
        Turn::Sleeps {
            second,
            woken: (woken & 0xffff_ffff) as u32,
        }
    }

    // What is in the file, where it has all that was seen.
    fn found<R: Wait>(&self, rt: &R, me: &Prefix<I>) -> Option<Durable<I>>
        ensures has { IfSome result (λ durable. IsPrefix me.now durable) }
        ensures holds { IfSome result (λ durable. I.holds durable) }
    {
        let durable = self.durable.lock(rt);
        if durable.reaches(me) {
            Some(durable.again())
        } else {
            None
        }
    }

    /// Waits until all that was seen is in the file, and leads where nobody does. Answers what is in the file then, or why the log has ended: the disk
    /// failed, the file is full, or nothing can be logged any more. Waits for ever for what has never waited in this backlog.
    pub fn settle<R: Wait, B: Backlog<I>>(
        &self,
        rt: &R,
        backlog: &B,
        me: &Prefix<I>,
    ) -> Result<Durable<I>, HaltToken<D, I>>
        ensures has { IfOk result (λ durable. IsPrefix me.now durable) }
        ensures holds { IfOk result (λ durable. I.holds durable) }
    {
        for _ in rt.forever() {
            if let Some(durable) = self.found(rt, me) {
                return Ok(durable);
            }
            match self.turn(rt, me.len()) {
                Turn::Leads(idle) => self.lead(rt, backlog, idle),
                Turn::Sleeps { second, woken } => self.crowd(second).park(rt, woken),
                Turn::Ended(end) => return Err(end),
            }
        }
        unreachable!()
    }

    // Why the log has ended. None where it goes on.
    fn end_of<R: Wait>(&self, rt: &R) -> Option<HaltToken<D, I>> {
        if !self.ended.load(Ordering::SeqCst) {
            return None;
        }
        self.slot.lock(rt).broken.as_ref().map(HaltToken::of)
    }

    /// What is in the file just now, or why the log has ended.
    pub fn stored<R: Wait>(&self, rt: &R) -> Result<Durable<I>, HaltToken<D, I>>
        ensures { IfOk result (λ durable. I.holds durable) }
    {
        match self.end_of(rt) {
            Some(end) => Err(end),
            None => Ok(self.durable.lock(rt).again()),
        }
    }

    /// The file, once nobody shares the log; or the one that takes no more, where the log has ended. Neither is there only where a leader has it, and no
    /// leader is left then.
    pub fn close(self) -> Result<Stored<D, I>, Option<Broken<D, I>>> {
        let Committer {
            durable: _,
            slot,
            ended: _,
            first: _,
            second: _,
        } = self;
        let Slot {
            file,
            broken,
            led: _,
            second: _,
        } = slot.into_inner();
        match file {
            Some(idle) => Ok(idle.stored),
            None => Err(broken),
        }
    }
}
