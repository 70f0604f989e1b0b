// An iterable job, which a worker can run as any other.
ghost use Rattle.std.specs.Prelude.{◌≡◌, ◌≤◌, ◌<◌, ℕ, Ok, true, false, IfOk, codes};
ghost use Rattle.sk_iter.specs.JobRun.{ComesTo, is_in_range, raises};

use crate::call::{MOST_EVERY, MOST_ITEMS};
use crate::iteration::iterate_any;
use crate::{Items, IterEnd, IterFault, Memory};
use sk_link::Link;
use sk_payload::Head;
use sk_resp::Text;
use sk_worker::{Job, Outcome, Raised};
use std::alloc::Global;

/// A job that runs its items from its cursor on, over a link of its own (Sidekiq's wiki, "Iteration").
#[derive(Drop)]
pub struct IterJob<L: Link + Send + Drop, I: Items + Send + Drop> {
    /// The link over which it reads and saves its cursor.
    pub link: L,
    /// Its items.
    pub items: I,
    /// The cursor is saved after so many items, 1 to 1,000.
    pub every: u32,
}

// A run that raised an error of this class, without a message.
fn raised(alloc: Global, class: &str) -> Result<Outcome, Memory>
    ensures { IfOk result (λ outcome. outcome ≡ raises class.now) }
{
    Ok(Outcome::Raised(Raised {
        class: Text::new(String::from_str(alloc, class)?),
        message: Text::new(String::new(alloc)),
    }))
}

// What a run comes to whose call had this result.
fn outcome_of(alloc: Global, found: Result<IterEnd, IterFault>) -> Result<Outcome, Memory>
    requires { (next : ℕ) → found ≡ Ok (IterEnd.Paused next) → ⊥ }
    ensures { ComesTo found result }
{
    match found {
        Ok(IterEnd::Done) => Ok(Outcome::Returned),
        Ok(IterEnd::Raised(_, it)) => Ok(Outcome::Raised(it)),
        Ok(IterEnd::Paused(_)) => unreachable!(),
        Err(IterFault::Cursor(_)) => raised(alloc, "CursorFault"),
        Err(IterFault::Link(_)) => raised(alloc, "LinkFault"),
        Err(IterFault::Refused(_)) => raised(alloc, "RefusedFault"),
        Err(IterFault::Memory) => Err(Memory),
    }
}

fn is_in_range(every: u32, len: u64) -> bool
    ensures { result ≡ is_in_range every len }
{
    1 <= every && every <= MOST_EVERY && len < MOST_ITEMS
}

impl<L: Link + Send + Drop, I: Items + Send + Drop> Job for IterJob<L, I> {
    ghost use Rattle.std.specs.Prelude.{◌≡◌, [], None, IfOk, OnErr};
    ghost use Rattle.sk_base.specs.Outside.{Takes};
    ghost use Rattle.sk_iter.specs.JobRun.{RunsJob, TellsRun};

    ghost runs = { λ job. None };

    /// Runs its items from the cursor of the head's job on, without a bound. The run returned where every item has. It raised what an item raised; or an
    /// error without a message, of the class `CursorFault`, `LinkFault` or `RefusedFault`, exactly where [`crate::iterate`] answers that fault, and
    /// `RangeFault`, exactly where `every` or the number of items is outside its range: then nothing is sent or run.
    fn run(&mut self, alloc: Global, head: &Head) -> Result<Outcome, Memory>
        ensures ran { IfOk result (λ o. TellsRun (⟦<IterJob<L, I> as Job>⟧.runs self.old) head.now o (⟦<IterJob<L, I> as Job>⟧.runs self.new)) }
        ensures err { OnErr result (Takes (⟦<IterJob<L, I> as Job>⟧.runs self.old) [] (⟦<IterJob<L, I> as Job>⟧.runs self.new)) }
        ensures items { RunsJob L.carried I.told I.count self.old.link self.new.link self.old.items self.new.items self.old.every head.now.jid result }
        ensures every { self.new.every ≡ self.old.every }
        ensures count { I.count self.new.items ≡ I.count self.old.items }
    {
        if !is_in_range(self.every, self.items.len()) {
            return raised(alloc, "RangeFault");
        }
        let jid = head.jid.text();
        let link = &mut self.link;
        let found = iterate_any(alloc, link, jid, &mut self.items, self.every, u64::MAX);
        outcome_of(alloc, found)
    }
}
