// A shelf in memory, for tests: one file, whatever its path.
ghost use Rattle.std.specs.Prelude.{◌≡◌, Some};

use crate::{MemDisk, Shelf};
use sk_base::Failed;
use std::marker::Model;

/// A shelf with one file in memory. It is seen as that file, and as how often it has failed.
#[derive(Drop)]
pub struct MemShelf {
    disk: Option<MemDisk>,
    faults: u64,
}

impl Model for MemShelf {
    ghost use Rattle.sk_disk.specs.Shelves.{Shelved};

    ghost Value = { Shelved };

    ghost view = { λ s. record { disk = s.disk; faults = s.faults } };
}

impl MemShelf {
    /// A shelf with this file.
    pub fn new(disk: MemDisk) -> MemShelf
        ensures { result ≡ record { disk = Some disk; faults = 0 } }
    {
        MemShelf {
            disk: Some(disk),
            faults: 0,
        }
    }
}

impl Shelf for MemShelf {
    type Disk = MemDisk;

    ghost stands = { λ s. Some s.disk };

    ghost shelf_faults = { λ s. s.faults };

    /// Any path will do. Fails where the file was given away and not left again.
    fn open(&mut self, _path: &str) -> Result<MemDisk, Failed> {
        match self.disk.take() {
            Some(disk) => Ok(disk),
            None => {
                self.faults = self.faults.saturating_add(1);
                Err(Failed)
            }
        }
    }

    fn leave(&mut self, disk: MemDisk) {
        self.disk = Some(disk);
    }
}
