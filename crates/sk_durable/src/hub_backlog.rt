// A shared store as the place where a leader finds what waits to be stored.
ghost use Rattle.std.specs.Prelude.{◌≡◌, IfSome};
ghost use Rattle.sk_durable.specs.Writes.{TellsOf};

mod mark;

use crate::LogBook;
pub use mark::Mark;
use sk_commit::{Backlog, LogId, Taken};
use sk_desk::{Hub, HubId};
use sk_log::Group;
use std::marker::Model;
use std::sync::Wait;

/// The backlog of a store whose events are logged. What holds of each history that leaders take is that it is what a log keeps of a run from the start.
#[derive(Drop)]
pub struct HubBacklog<'a, I: HubId, J: LogId> {
    hub: &'a Hub<I, LogBook<J>>,
}

impl<'a, I: HubId, J: LogId> Model for HubBacklog<'a, I, J> {
    ghost use Rattle.sk_durable.specs.Writes.{TellsOf};

    ghost Value = { Unit {0} };

    ghost view = { λ b. tt };

    ghost invariant = { λ b. TellsOf I.start J.holds };
}

impl<'a, I: HubId, J: LogId> HubBacklog<'a, I, J> {
    /// The backlog of this store.
    pub fn new(hub: &'a Hub<I, LogBook<J>>) -> HubBacklog<'a, I, J>
        requires { TellsOf I.start J.holds }
    {
        HubBacklog { hub }
    }

    /// What holds of a history that leaders take.
    pub fn sound(&self)
        ensures { TellsOf I.start J.holds }
    {
        let _ = &self.hub;
    }

    /// All that was logged so far, under this number. None where nothing can be logged any more.
    pub fn mark<R: Wait>(&self, rt: &R, number: u64) -> Option<Mark<I, J>>
        ensures { IfSome result (λ mark. mark.number ≡ number) }
    {
        let prefix = self.hub.mark(rt)?;
        Some(Mark::new(prefix, number))
    }
}

impl<'a, I: HubId, J: LogId> Backlog<J> for HubBacklog<'a, I, J> {
    fn take<R: Wait>(&self, rt: &R, spare: Group) -> Option<Taken<J>> {
        self.hub.take(rt, spare)
    }
}
