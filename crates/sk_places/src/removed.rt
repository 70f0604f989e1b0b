// What was deleted at once, until it is freed. No contract speaks of it.
ghost use Rattle.std.specs.Prelude.{◌≡◌};

use crate::Rows;
use crate::gone_rows::GoneRows;
use crate::names::Names;
use std::alloc::Global;
use std::mem;

/// All rows, what was recorded of their jobs, and all names.
#[derive(Drop)]
pub struct AllRows {
    pub rows: Rows,
    pub names: Names,
}

/// What a FLUSHALL or a DEL took out. To drop it gives the memory back, in time for each row.
#[derive(Drop)]
pub struct RemovedRows {
    all: Option<AllRows>,
    places: Vec<GoneRows>,
}

impl RemovedRows {
    /// Takes no memory.
    pub fn new(alloc: Global) -> RemovedRows {
        RemovedRows {
            all: None,
            places: Vec::new(alloc),
        }
    }

    pub fn is_empty(&self) -> bool {
        self.all.is_none() && self.places.is_empty()
    }

    /// Keeps all rows and names.
    pub fn keep_all(&mut self, all: AllRows) {
        self.all = Some(all);
    }

    /// Keeps the rows of a place. Wants no memory: where there is none for their place here, they are freed at once.
    pub fn keep(&mut self, rows: GoneRows) {
        let _kept = self.places.push(rows);
    }

    /// Hands all of it out. Takes no memory.
    pub fn take(&mut self) -> RemovedRows {
        let none = RemovedRows::new(*self.places.allocator());
        mem::replace(self, none)
    }
}
