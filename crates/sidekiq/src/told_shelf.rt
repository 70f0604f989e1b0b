// The shelf of the program. Where a server is to read a store from a file, it tells people how large that is, and has its records counted.
ghost use Rattle.std.specs.Prelude.{None};

use crate::counted_disk::CountedDisk;
use crate::grouped::grouped;
use crate::read_records::ReadRecords;
use sk_base::Failed;
use sk_disk::{Disk, FileDisk, FileShelf, Shelf};
use std::io;

/// A shelf of the system's files that tells, on standard error, how large the first file is that it opens, if it is to tell that.
#[derive(Drop)]
pub struct ToldShelf {
    rt: HostRuntime,
    shelf: FileShelf<HostRuntime>,
    /// Where the records of the next file are told; none: nothing is told of it.
    records: Option<ReadRecords>,
}

impl ToldShelf {
    pub fn new(rt: HostRuntime, records: Option<ReadRecords>) -> ToldShelf {
        ToldShelf {
            rt,
            shelf: FileShelf::new(rt),
            records,
        }
    }

    /// The error of the system with which an opening failed last.
    pub fn last_error(&self) -> Option<&io::Error> {
        self.shelf.last_error()
    }

    // Tells how large the file is, where the system says it.
    fn tell_size(&self, path: &str, disk: &mut FileDisk) {
        let Ok(size) = disk.size() else {
            return;
        };
        if let Ok(size) = grouped(self.rt.alloc(), size) {
            let _untold = eprintln!(self.rt; "sidekiq: {path} has {size} bytes");
        }
    }
}

impl Shelf for ToldShelf {
    type Disk = CountedDisk;

    ghost stands = { λ _. None };

    ghost shelf_faults = { λ s. s.shelf };

    /// Opens the file as the shelf of files does.
    fn open(&mut self, path: &str) -> Result<CountedDisk, Failed> {
        let mut disk = self.shelf.open(path)?;
        let records = self.records.take();
        if records.is_some() {
            self.tell_size(path, &mut disk);
        }
        Ok(CountedDisk::new(disk, records))
    }

    fn leave(&mut self, disk: CountedDisk) {
        self.shelf.leave(disk.into_disk());
    }
}
