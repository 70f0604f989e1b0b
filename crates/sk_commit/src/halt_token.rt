// What tells that a log has ended.
ghost use Rattle.std.specs.Prelude.{◌≡◌};
ghost use Rattle.sk_commit.specs.Shared.{HasFailed, Overflows};

use crate::{Broken, Halt, LogId};
use sk_disk::Disk;
use std::marker::{Model, PhantomData};

/// That a log has ended. Only the file that takes no more makes one, so nobody says so of a log that goes on. Contracts see why it has ended: where the
/// disk failed, its count of faults rose; where the file is full, there is no room for the next records.
#[derive(Drop)]
pub struct HaltToken<D: Disk + Drop, I: LogId> {
    why: Halt,
    of: PhantomData<(D, I)>,
}

impl<D: Disk + Drop, I: LogId> Model for HaltToken<D, I> {
    ghost use Rattle.std.specs.Prelude.{◌≡◌};
    ghost use Rattle.sk_commit.specs.Shared.{HasFailed, Overflows};
    ghost use Rattle.sk_commit.specs.declared.broken.Halt.{Halt};
    ghost use Rattle.sk_commit.specs.declared.broken.Halt.TheVariants as halt;

    ghost Value = { Halt };

    ghost view = { λ e. e.why };

    ghost invariant = { λ e. (e.why ≡ halt.Disk → HasFailed D.disk_faults I.faults) × (e.why ≡ halt.Full → Overflows I.starts I.holds) };
}

impl<D: Disk + Drop, I: LogId> HaltToken<D, I> {
    /// Of the log whose file this is.
    pub fn of(broken: &Broken<D, I>) -> HaltToken<D, I>
        ensures { result ≡ broken.now }
    {
        HaltToken {
            why: broken.why(),
            of: PhantomData,
        }
    }

    /// Why it has ended.
    pub fn why(&self) -> Halt
        ensures why { result ≡ self.now }
        ensures cause { result ≡ Halt.Disk → HasFailed D.disk_faults I.faults }
        ensures full { result ≡ Halt.Full → Overflows I.starts I.holds }
    {
        self.why
    }
}
