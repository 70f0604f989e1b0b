// What is due where a member gets marks, told by the numbers of its batch and of those that this one is in, whose places are given.
ghost use Rattle.std.specs.Prelude.{◌≡◌, ◌++◌, IfOk, OnOk};
ghost use Rattle.sk_batch.specs.Due.{due, later_due};
ghost use Rattle.sk_batch.specs.Numbers.{left_after};
ghost use Rattle.sk_batch.specs.Places.{Climb, climbed};
ghost use Rattle.sk_batch.specs.declared.numbers.Change.TheVariants.{Got};

use crate::ancestors::fire_where;
use crate::batch_list::BatchList;
use crate::event::Event;
use crate::numbers::{Change, Left};
use crate::state::State;
use crate::{Batch, Firing, Kind, Memory, Progress};
use sk_undo::Predicate;
use std::alloc::Global;

// What is left under a batch once a member under it has got these marks.
fn left_after(entry: &(State, Batch), gained: Progress) -> Left
    ensures { result ≡ left_after (Got gained) entry.now.0.numbers.under }
{
    entry.0.numbers.under.after(Change::Got(gained))
}

// Passes the batches that weren't complete and whose members are all reported then.
#[derive(Drop)]
struct Completes {
    gained: Progress,
}

impl Predicate<(State, Batch)> for Completes {
    ghost use Rattle.sk_batch.specs.Due.{completes_by};

    ghost passes = { λ t b. completes_by t.gained b };

    fn test(&self, entry: &(State, Batch)) -> bool {
        !entry.0.fired.complete && left_after(entry, self.gained).unreported == 0
    }
}

// Passes the batches whose last open members return by this.
#[derive(Drop)]
struct Settles {
    gained: Progress,
}

impl Predicate<(State, Batch)> for Settles {
    ghost use Rattle.sk_batch.specs.Due.{settles_by};

    ghost passes = { λ t b. settles_by t.gained b };

    fn test(&self, entry: &(State, Batch)) -> bool {
        left_after(entry, self.gained).unreturned == 0 && entry.0.numbers.under.unreturned != 0
    }
}

// Passes the batches of which no member, and none of a batch within, was buried before.
#[derive(Drop)]
struct Dies;

impl Predicate<(State, Batch)> for Dies {
    ghost use Rattle.sk_batch.specs.Due.{dies_yet};

    ghost passes = { λ t b. dies_yet b };

    fn test(&self, entry: &(State, Batch)) -> bool {
        !entry.0.fired.death
    }
}

// Adds what is fired behind the completes.
fn add_later(
    batches: &BatchList,
    places: &[usize],
    event: Event,
    gained: Progress,
    firings: &mut Vec<Firing>,
) -> Result<(), Memory>
    requires { Climb places.now batches.now.list.current }
    ensures { OnOk result (firings.new.items ≡ firings.old.items ++ later_due event gained (climbed places.now batches.now.list.current)) }
{
    match event {
        Event::Reported => Ok(()),
        Event::Returned => fire_where(batches, places, Kind::Success, &Settles { gained }, firings),
        Event::Died => fire_where(batches, places, Kind::Death, &Dies, firings),
    }
}

/// What is fired where a member of a batch, at the first of these places, gets these marks by an event.
pub fn due(
    alloc: Global,
    batches: &BatchList,
    places: &[usize],
    event: Event,
    gained: Progress,
) -> Result<Vec<Firing>, Memory>
    requires { Climb places.now batches.now.list.current }
    ensures { IfOk result (λ firings. firings.items ≡ due event gained (climbed places.now batches.now.list.current)) }
{
    let mut firings = Vec::new(alloc);
    let completes = Completes { gained };
    fire_where(batches, places, Kind::Complete, &completes, &mut firings)?;
    add_later(batches, places, event, gained, &mut firings)?;
    Ok(firings)
}
