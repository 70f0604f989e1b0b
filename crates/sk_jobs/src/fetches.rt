// LMOVE queue:name sq:ident RIGHT LEFT from a worker's seat (Sidekiq's wiki, "Reliability"): super_fetch.
ghost use Rattle.std.specs.Prelude.{◌≡◌, Some, false, length, nat_lt, not};
ghost use Rattle.sk_seats.specs.Phases.{is_plain, works_of};
ghost use Rattle.sk_seats.specs.Works.{most_works};
ghost use Rattle.sk_model.specs.Workers.{fetch};
ghost use Rattle.sk_model.specs.World.{phase_of};
ghost use Rattle.sk_store.specs.Stored.{IsReady, Executes, world};

use sk_base::Score;
use sk_cmd::Side;
use sk_places::Place;
use sk_resp::{Memory, Refusal, Reply, Text, Word};
use sk_seats::Phase;
use sk_store::Store;
use sk_value::refused;

// The seat has as many jobs in its hands as it may have.
fn are_hands_full(phase: &Phase) -> bool
    ensures { result ≡ not (nat_lt (length (works_of phase.now)) most_works) }
{
    match phase {
        Phase::Plain => false,
        Phase::Joined(_, works) => works.are_full(),
    }
}

/// The job at the right end of the queue goes to the left of the private list of the seat's process, and the seat holds a copy of it, unless its
/// hands are full. Its text is copied for the reply, and isn't parsed again. The copies are made first, so that the job is never in the seat's
/// hands alone.
pub fn fetch(store: &mut Store, seat: u32, ident: Word, queue: Text) -> Result<Reply, Memory>
    requires ready { IsReady store.old }
    requires joined { is_plain (phase_of (world store.old) seat) ≡ false }
    ensures { Executes store.old (fetch (world store.old) seat (phase_of (world store.old) seat) ident (Some queue)) result store.new }
{
    if are_hands_full(store.seats.get(seat)) {
        return Ok(refused(Refusal::HandsFull));
    }
    let queue = Place::Queue(queue);
    let Some((_, payload)) = store.places.end(&queue, Side::Right) else {
        return Ok(Reply::Null);
    };
    let text = payload.text().copy()?;
    let held = payload.copy()?;
    let (list, score) = (Place::Private(ident), Score::of_moment(0));
    store
        .places
        .shift(&queue, Side::Right, list, score, Side::Left)?;
    store.seats.hold(seat, held);
    Ok(Reply::Bulk(text))
}
