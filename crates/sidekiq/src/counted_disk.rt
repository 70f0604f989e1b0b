// The file of a store. While a server reads it, the records are counted that its reads give.
ghost use Rattle.std.specs.Prelude.{◌≡◌};

use crate::read_records::ReadRecords;
use crate::record_count::RecordCount;
use sk_base::Failed;
use sk_disk::{Disk, FileDisk};

// The records that have passed, and who is told of them.
#[derive(Drop)]
struct Counting {
    count: RecordCount,
    told: ReadRecords,
}

impl Counting {
    // These bytes were read from that place on.
    fn pass(&mut self, at: u64, bytes: &[u8]) {
        self.count.pass(at, bytes);
        self.told.set(self.count.records());
    }
}

/// A file of the system that tells how many records were read from it before anything was written to it, if it is to tell that.
#[derive(Drop)]
pub struct CountedDisk {
    disk: FileDisk,
    /// None: no further records are counted.
    counting: Option<Counting>,
}

impl CountedDisk {
    /// This file, whose records are told there.
    pub fn new(disk: FileDisk, told: Option<ReadRecords>) -> CountedDisk {
        let counting = match told {
            Some(told) => Some(Counting {
                count: RecordCount::new(),
                told,
            }),
            None => None,
        };
        CountedDisk { disk, counting }
    }

    /// The file alone.
    pub fn into_disk(self) -> FileDisk {
        let CountedDisk {
            disk,
            counting: _counting,
        } = self;
        disk
    }

    // These bytes were read from that place on.
    fn pass(&mut self, at: u64, bytes: &[u8])
        ensures { self.new.disk ≡ self.old.disk }
    {
        if let Some(counting) = &mut self.counting {
            counting.pass(at, bytes);
        }
    }
}

impl Disk for CountedDisk {
    ghost reads = { λ _ _. ⊥ };

    ghost may_leave = { λ _ _. ⊥ };

    ghost moment = { λ _. 0 };

    ghost left_since = { λ _ _ _. ⊥ };

    ghost disk_faults = { λ d. d.disk };

    ghost reads_left = { λ _ _ none. none };

    ghost counts_now = { λ _ _ _ _ none. none };

    ghost only_now = { λ _ _ none. none };

    fn size(&mut self) -> Result<u64, Failed> {
        self.disk.size()
    }

    fn read(&mut self, at: u64, buf: &mut [u8]) -> Result<usize, Failed> {
        let n = self.disk.read(at, buf)?;
        self.pass(at, &buf[..n]);
        Ok(n)
    }

    /// From the first write on nothing is counted: the server writes once it has read all.
    fn write_at(&mut self, at: u64, bytes: &[u8]) -> Result<(), Failed> {
        self.counting = None;
        self.disk.write_at(at, bytes)
    }

    fn sync(&mut self) -> Result<(), Failed> {
        self.disk.sync()
    }
}
