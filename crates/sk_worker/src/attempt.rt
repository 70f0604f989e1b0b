// An attempt at a job that was started: its run, by the job of its class.
ghost use Rattle.std.specs.Prelude.{◌≡◌, ◌<◌, [], ◌∷◌, Some, IfOk, OnErr, length, map};
ghost use Rattle.sk_base.specs.Outside.{Takes};
ghost use Rattle.sk_worker.specs.Promises.{Attempts, IsRuleOf, told};
ghost use Rattle.sk_worker.specs.Run.{RunTold, RunsTold, place_of};
ghost use Rattle.sk_worker.specs.Stage.{unknown as unknown_class};

use crate::Memory;
use crate::job::{Outcome, Raised};
use crate::registry::{Classes, Registry, Slot};
use sk_payload::Head;
use sk_policy::DelayRule;
use sk_resp::Text;
use std::alloc::Global;

// Runs the job.
fn run_one(alloc: Global, slot: &mut Slot, head: &Head) -> Result<Outcome, Memory>
    ensures ran { IfOk result (λ outcome. Takes (runs slot.old.job) (record { head = head.now; outcome = outcome } ∷ []) (runs slot.new.job)) }
    ensures err { OnErr result (Takes (runs slot.old.job) [] (runs slot.new.job)) }
{
    slot.job.run(alloc, head)
}

// Runs the job at the place of the head's class.
fn run_at(
    alloc: Global,
    classes: &Classes,
    slots: &mut [Slot],
    place: usize,
    head: &Head,
) -> Result<Outcome, Memory>
    requires there { place < length slots.old }
    requires place { place_of classes.now head.now.class ≡ Some place }
    ensures ran { IfOk result (RunTold classes.now head.now (map (λ slot. runs slot.job) slots.old) (map (λ slot. runs slot.job) slots.new)) }
    ensures err { OnErr result (RunsTold classes.now [] (map (λ slot. runs slot.job) slots.old) (map (λ slot. runs slot.job) slots.new)) }
{
    run_one(alloc, &mut slots[place], head)
}

// The error of a job whose class has none.
fn unknown(alloc: Global, head: &Head) -> Result<Outcome, Memory>
    ensures { IfOk result (λ outcome. outcome ≡ Outcome.Raised (unknown_class head.now)) }
{
    Ok(Outcome::Raised(Raised {
        class: Text::new(String::from_str(alloc, "UnknownClass")?),
        message: head.class.copy()?,
    }))
}

impl Registry {
    /// Runs the job of the head's class, or answers the error of a class that has none.
    pub(crate) fn attempt(&mut self, alloc: Global, head: &Head) -> Result<Outcome, Memory>
        ensures ran { IfOk result (Attempts runs self.old self.new head.now) }
        ensures err { OnErr result (RunsTold self.old.classes [] (told runs self.old) (told runs self.new)) }
        ensures classes { self.new.classes ≡ self.old.classes }
        ensures rules { self.new.rules ≡ self.old.rules }
    {
        match self.classes.find(&head.class) {
            None => unknown(alloc, head),
            Some(place) => run_at(alloc, &self.classes, &mut self.slots, place, head),
        }
    }

    /// The delay rule of the class, or the plain one where the class has no job.
    pub(crate) fn rule_of<'a>(&'a self, class: &Text, plain: &'a DelayRule) -> &'a DelayRule
        ensures { IsRuleOf self.now class.now plain.now result.now }
    {
        match self.classes.find(class) {
            None => plain,
            Some(place) => &self.rules[place],
        }
    }
}
