// A file to which nothing more is written.
ghost use Rattle.std.specs.Prelude.{◌≡◌};
ghost use Rattle.sk_base.specs.Outside.{Rose};
ghost use Rattle.sk_commit.specs.Shared.{HasFailed, KeepsSome, Overflows};

use crate::LogId;
use sk_disk::Disk;
use std::marker::{Model, PhantomData};

/// Why no more records are stored.
#[derive(Clone, Copy)]
pub enum Halt {
    /// The disk failed: its count of faults rose.
    Disk,
    /// The file would have more than 2^50 bytes.
    Full,
    /// Nothing more can be logged, or what was taken isn't what comes next in the file. No clause says when this comes.
    Astray,
}

/// The file of a log that has ended. Contracts see why it has. Whatever a crash may have left since the file was handed over is a log of what stood in it
/// then, and of records of which holds what holds of all that leaders take.
#[derive(Drop)]
pub struct Broken<D: Disk + Drop, I: LogId> {
    disk: D,
    why: Halt,
    of: PhantomData<I>,
}

impl<D: Disk + Drop, I: LogId> Model for Broken<D, I> {
    ghost use Rattle.std.specs.Prelude.{◌≡◌};
    ghost use Rattle.sk_base.specs.Outside.{Rose};
    ghost use Rattle.sk_commit.specs.Shared.{KeepsSome, Overflows};
    ghost use Rattle.sk_commit.specs.declared.broken.Halt.{Halt};
    ghost use Rattle.sk_commit.specs.declared.broken.Halt.TheVariants as halt;

    ghost Value = { Halt };

    ghost view = { λ b. b.why };

    ghost invariant = { λ b. (b.why ≡ halt.Disk → Rose I.faults (D.disk_faults b.disk)) × (b.why ≡ halt.Full → Overflows I.starts I.holds)
        × KeepsSome D.moment D.left_since I.starts I.holds I.since b.disk };
}

impl<D: Disk + Drop, I: LogId> Broken<D, I> {
    /// The log ends, whose file is on this disk.
    pub(crate) fn new(disk: D, why: Halt) -> Broken<D, I>
        requires cause { why ≡ Halt.Disk → Rose I.faults (D.disk_faults disk) }
        requires full { why ≡ Halt.Full → Overflows I.starts I.holds }
        requires left { KeepsSome D.moment D.left_since I.starts I.holds I.since disk }
        ensures { result ≡ why }
    {
        Broken {
            disk,
            why,
            of: PhantomData,
        }
    }

    /// Why the log ended.
    pub(crate) fn why(&self) -> Halt
        ensures why { result ≡ self.now }
        ensures cause { result ≡ Halt.Disk → HasFailed D.disk_faults I.faults }
        ensures full { result ≡ Halt.Full → Overflows I.starts I.holds }
    {
        self.why
    }

    /// The disk, and why the log ended. Where the disk failed, its count of faults rose since it was handed over; where the file is full, the next
    /// records would have made it longer than 2^50 bytes.
    pub fn into_parts(self) -> (D, Halt)
        ensures why { result.1 ≡ self }
        ensures cause { result.1 ≡ Halt.Disk → Rose I.faults (D.disk_faults result.0) }
        ensures full { result.1 ≡ Halt.Full → Overflows I.starts I.holds }
        ensures left { KeepsSome D.moment D.left_since I.starts I.holds I.since result.0 }
    {
        let Broken { disk, why, of: _ } = self;
        (disk, why)
    }
}
