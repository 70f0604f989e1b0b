// The way from a batch outwards: its parent, the parent's parent and so on. Parents stand behind their children in the list. The way is walked once,
// by the bids; what is done on it goes by the places that were found.
ghost use Rattle.std.specs.Prelude.{◌≡◌, ◌++◌, ◌≤◌, IfOk, OnOk, length, true};
ghost use Rattle.sk_undo.specs.Versions.{edited};
ghost use Rattle.sk_batch.specs.Along.{along};
ghost use Rattle.sk_batch.specs.Due.{fires_where};
ghost use Rattle.sk_batch.specs.Fires.{firing};
ghost use Rattle.sk_batch.specs.Places.{AreAncestors, Climb, climbed, each_once};
ghost use Rattle.sk_batch.specs.States.{with_change};

use crate::batch_list::BatchList;
use crate::numbers::Change;
use crate::state::State;
use crate::{Batch, Firing, Kind, Memory};
use sk_payload::JobText;
use sk_undo::Predicate;
use std::alloc::Global;

/// The places of a batch and of those that it is in, the inner first. Each parent is looked up once.
pub fn ancestor_places(alloc: Global, batches: &BatchList, bid: &[u8]) -> Result<Vec<usize>, Memory>
    ensures { IfOk result (λ places. AreAncestors bid.now places.items batches.now.list.current) }
{
    let mut places = Vec::new(alloc);
    let mut at = batches.find(bid);
    'outwards: while at < batches.len() {
        places.push(at)?;
        let (_, above) = batches.climb(at);
        at = above;
    }
    Ok(places)
}

/// What is fired of a batch, with a copy of its callback.
pub fn firing(kind: Kind, batch: &Batch) -> Result<Firing, Memory>
    ensures { IfOk result (λ f. f ≡ firing kind batch.now) }
{
    let callback = match kind {
        Kind::Complete => &batch.callbacks.complete,
        Kind::Success => &batch.callbacks.success,
        Kind::Death => &batch.callbacks.death,
    };
    Ok(Firing {
        bid: batch.bid.copy()?,
        kind,
        payload: callback.as_ref().map(JobText::copy).transpose()?,
    })
}

/// Adds the firings of this kind of the batches that pass, of a batch and those that it is in.
pub fn fire_where<F: Predicate<(State, Batch)>>(
    batches: &BatchList,
    places: &[usize],
    kind: Kind,
    test: &F,
    firings: &mut Vec<Firing>,
) -> Result<(), Memory>
    requires { Climb places.now batches.now.list.current }
    ensures { OnOk result (firings.new.items ≡ firings.old.items ++ fires_where kind (F.passes test.now) (climbed places.now batches.now.list.current)) }
{
    for place in places {
        let entry = batches.get(*place);
        if test.test(entry) {
            firings.push(firing(kind, &entry.1)?)?;
        }
    }
    Ok(())
}

// The state of a batch after a change that comes to this bid.
fn with_change(change: Change, bid: &[u8], entry: &(State, Batch)) -> State
    ensures { result ≡ with_change change bid.now entry.now }
{
    let state = entry.0;
    State {
        numbers: state.numbers.after(change, entry.1.bid.bytes() == bid),
        ..state
    }
}

/// Changes the numbers of the batch of this bid and of those that it is in, which stand at these places.
pub fn change_ancestors(batches: &mut BatchList, bid: &[u8], places: &[usize], change: Change)
    requires places { AreAncestors bid.now places.now batches.old.list.current }
    requires room { length places.now ≤ batches.old.room }
    ensures list { batches.new.list ≡ edited (along (with_change change bid.now) batches.old.list.current bid.now) batches.old.list }
    ensures once { each_once batches.old.list.current ≡ true }
{
    let _len = batches.len(); // its contract says that each bid stands once
    for place in places {
        let state = with_change(change, bid, batches.get(*place));
        batches.set_state(*place, state);
    }
}
