// The thread of a worker.
ghost use Rattle.std.specs.Prelude.{◌≡◌, IfSome};
ghost use Rattle.sk_lane.specs.Lane.{WorksAt};
ghost use Rattle.sk_drill.specs.Crews.{CanWork, IsReady, Worked, task_of};

use crate::plan::Plan;
use sk_lane::{Seats, Story, lane};
use sk_policy::DelayRule;
use sk_worker::Registry;
use std::alloc::Global;

// The worker takes its turns at one seat after another. None where there was no memory.
fn work<S: Seats>(
    alloc: Global,
    seats: &mut S,
    plan: Plan,
    number: u32,
    registry: &mut Registry,
    rule: DelayRule,
) -> Option<Vec<Story>>
    requires { CanWork (S.free seats.old) (S.left seats.old) plan.jobs number }
    ensures told { IfSome result (λ s. WorksAt S.Seats runs (task_of plan number) rule registry.old seats.old registry.new seats.new s.items) }
    ensures classes { registry.new.classes ≡ registry.old.classes }
{
    match lane(
        alloc,
        seats,
        plan.seed,
        plan.jobs,
        number,
        plan.crashes,
        registry,
        rule,
    ) {
        Ok(stories) => Some(stories),
        Err(_) => None,
    }
}

/// A worker takes its turns ([`lane`]), and keeps its stories, where there was memory.
#[derive(Drop)]
pub(crate) struct WorkDuty<S: Drop> {
    pub seats: S,
    pub plan: Plan,
    /// From 1 on.
    pub number: u32,
    pub registry: Registry,
    /// The plain rule, up to when the worker begins.
    pub rule: Option<DelayRule>,
    pub stories: Option<Vec<Story>>,
}

impl<S: Seats + Drop> WorkDuty<S> {
    /// It works from its first seat to its last turn.
    pub fn run(&mut self, alloc: Global)
        requires { IsReady S.Seats self.old }
        ensures { Worked S.Seats runs self.old self.new }
    {
        let Some(rule) = self.rule.take() else {
            self.stories = None;
            return;
        };
        self.stories = work(
            alloc,
            &mut self.seats,
            self.plan,
            self.number,
            &mut self.registry,
            rule,
        );
    }
}
