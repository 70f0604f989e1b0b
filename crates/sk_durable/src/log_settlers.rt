// The settlers of a server whose events are logged.
ghost use Rattle.std.specs.Prelude.{◌≡◌, IfSome, IsSome, true, false};

use crate::{HubBacklog, LogSettler, SyncMode};
use sk_commit::{Committer, LogId};
use sk_desk::HubId;
use sk_disk::Disk;
use sk_held::Settlers;
use std::sync::Wait;

/// Gives each session a settler of its own, over one store and one file.
#[derive(Drop)]
pub struct LogSettlers<'a, R: Wait, D: Disk + Drop, I: HubId, J: LogId, M: SyncMode> {
    rt: &'a R,
    backlog: &'a HubBacklog<'a, I, J>,
    committer: &'a Committer<D, J>,
    mode: &'a M,
}

impl<'a, R: Wait, D: Disk + Drop, I: HubId, J: LogId, M: SyncMode> LogSettlers<'a, R, D, I, J, M> {
    /// The settlers of what is logged in this store.
    pub fn new(
        rt: &'a R,
        backlog: &'a HubBacklog<'a, I, J>,
        committer: &'a Committer<D, J>,
        mode: &'a M,
    ) -> LogSettlers<'a, R, D, I, J, M> {
        LogSettlers {
            rt,
            backlog,
            committer,
            mode,
        }
    }
}

impl<'a, R: Wait, D: Disk + Drop, I: HubId, J: LogId, M: SyncMode> Settlers
    for LogSettlers<'a, R, D, I, J, M> {
    type Settler = LogSettler<'a, R, D, I, J, M>;

    ghost holds_back = { true };

    fn settler(&self) -> Option<LogSettler<'a, R, D, I, J, M>> {
        Some(LogSettler::new(self.rt, self.backlog, self.committer, self.mode))
    }
}
