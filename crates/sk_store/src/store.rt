// All that the store keeps, and the step over what a command changes of it.
ghost use Rattle.std.specs.Prelude.{◌≡◌, ◌<◌, ◌^◌, List, OnErr, OnOk, length};
ghost use Rattle.sk_resp.specs.Spelling.{Bytes};
ghost use Rattle.sk_model.specs.Change.{passed};
ghost use Rattle.sk_model.specs.Room.{bytes_of, is_full};
ghost use Rattle.sk_model.specs.World.{first};
ghost use Rattle.sk_store.specs.Stored.{IsOpen, IsReady, begun_in, committed_in, undone_in, world};

use crate::Removed;
use crate::room::have_no_bytes;
use sk_base::limits::{LAST_MOMENT, MOST_PUSHES};
use sk_batch::Batches;
use sk_counters::Counters;
use sk_keys::Keys;
use sk_leases::Leases;
use sk_model::Limits;
use sk_places::Places;
use sk_resp::Memory;
use sk_seats::Seats;
use std::alloc::Global;

/// All that the store keeps. A step is open over the places, the leases, the batches and the counters together, or over none of them.
#[derive(Drop)]
pub struct Store {
    /// Where all of it comes from.
    pub alloc: Global,
    /// How much the store takes.
    pub limits: Limits,
    /// The greatest moment that it was handed, in milliseconds since 1970.
    pub moment: u64,
    /// The rows of queues, private lists and sets of jobs, and which jobs are live.
    pub places: Places,
    /// The heartbeats of processes, and the recoveries of jobs.
    pub leases: Leases,
    /// The batches, and what came of their members.
    pub batches: Batches,
    /// How many jobs ran, and how many runs failed.
    pub counters: Counters,
    /// What the seats are doing.
    pub seats: Seats,
    /// The plain keys.
    pub keys: Keys,
}

impl Store {
    /// Nothing, with these limits, at moment 0. Takes no memory.
    pub fn new(alloc: Global, limits: Limits) -> Store
        ensures world { world result ≡ first limits }
        ensures ready { IsReady result }
    {
        Store {
            alloc,
            limits,
            moment: 0,
            places: Places::new(alloc),
            leases: Leases::new(alloc),
            batches: Batches::new(alloc, limits.batches),
            counters: Counters::new(alloc),
            seats: Seats::new(alloc),
            keys: Keys::new(alloc),
        }
    }

    /// The store is handed a moment, in milliseconds since 1970. The greatest counts, and what is over then goes. Takes no memory.
    pub fn pass(&mut self, now: u64)
        requires { IsReady self.old }
        ensures world { world self.new ≡ passed now (world self.old) }
        ensures ready { IsReady self.new }
    {
        self.moment = self.moment.max(now.min(LAST_MOMENT));
        self.keys.purge(self.moment);
        self.leases.purge(self.moment);
    }

    // Whether something that was taken out isn't freed yet.
    fn has_removed(&self) -> bool {
        self.places.has_removed() || self.keys.has_removed()
    }

    /// Hands out what a FLUSHALL took out, or a DEL of queues or of a large value, to be freed. None where there is nothing. Constant time, and takes
    /// no memory.
    pub fn take_removed(&mut self) -> Option<Removed>
        ensures { self.new ≡ self.old }
    {
        if !self.has_removed() {
            return None;
        }
        Some(Removed {
            rows: self.places.take_removed(),
            keys: self.keys.take_removed(),
        })
    }

    /// Frees it, in time for each row and each key. Takes no memory.
    pub fn free_removed(&mut self)
        ensures { self.new ≡ self.old }
    {
        if self.has_removed() {
            self.free_all_removed();
        }
    }

    // Apart from its caller, which each step calls, so that a step that finds nothing doesn't pay for the room that this takes.
    #[inline(never)]
    fn free_all_removed(&mut self)
        ensures { self.new ≡ self.old }
    {
        self.take_removed();
    }

    /// With so many texts of so many bytes, all counted as new, there would be more than the store takes. Takes no memory.
    #[tactic(auto, using(crate::proofs::Bytes::bytes_are))]
    pub fn is_full(&self, count: usize, bytes: u128) -> bool
        requires { count < 2 ^ 63 }
        ensures { (texts : List Bytes) → count ≡ length texts → bytes ≡ bytes_of texts → result ≡ is_full (world self.now) texts }
    {
        self.places.row_count() as u64 + count as u64 > self.limits.rows
            || have_no_bytes(self.limits.bytes, self.places.byte_count(), bytes)
            || self.places.push_count().saturating_add(count as u64) > MOST_PUSHES
    }

    /// Opens a step. Takes no memory.
    pub fn begin(&mut self)
        requires { IsReady self.old }
        ensures { self.new ≡ begun_in self.old }
    {
        self.places.begin();
        self.leases.begin();
        self.batches.begin();
        self.counters.begin();
    }

    // What stood at the begin of the step stands again.
    fn undo(&mut self)
        requires { IsOpen self.old }
        ensures { self.new ≡ undone_in self.old }
    {
        self.places.undo();
        self.leases.undo();
        self.batches.undo();
        self.counters.undo();
    }

    // What stands now stays.
    fn commit(&mut self)
        requires { IsOpen self.old }
        ensures { self.new ≡ committed_in self.old }
    {
        self.places.commit();
        self.leases.commit();
        self.batches.commit();
        self.counters.commit();
    }

    /// Closes the step: what was done stays, and where memory ran out it leaves no trace. Takes no memory.
    pub fn close<T: Drop>(&mut self, done: Result<T, Memory>) -> Result<T, Memory>
        requires { IsOpen self.old }
        ensures same { result ≡ done }
        ensures ok { OnOk result (self.new ≡ committed_in self.old) }
        ensures err { OnErr result (self.new ≡ undone_in self.old) }
    {
        match done {
            Ok(value) => {
                self.commit();
                Ok(value)
            }
            Err(_) => {
                self.undo();
                Err(Memory)
            }
        }
    }
}
