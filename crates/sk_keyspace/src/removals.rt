// LREM key count text on a queue (Redis, "LREM"). It takes no memory.
ghost use Rattle.std.specs.Prelude.{◌≡◌};
ghost use Rattle.sk_places.specs.declared.row.Place.TheVariants.{Queue};
ghost use Rattle.sk_model.specs.Outcome.{Realizes};
ghost use Rattle.sk_model.specs.Queues.{remove};
ghost use Rattle.sk_store.specs.Stored.{IsReady, world};

use sk_places::Place;
use sk_resp::{Reply, Text, Word};
use sk_store::Store;
use sk_value::counted;

/// Takes away jobs of that text, and answers how many: the first `count` from the left, all where it is 0, and the first `-count` from the right
/// where it is below 0.
#[tactic(auto, using(crate::proofs::Scores::taken_fewer))]
pub fn remove(store: &mut Store, queue: Text, count: i64, text: &Word) -> Reply
    requires { IsReady store.old }
    ensures done { Realizes (world store.old) (remove (world store.old) (Queue queue) count text.now) result (world store.new) }
    ensures ready { IsReady store.new }
{
    let _count = store.places.row_count(); // for what it says of their number
    let place = Place::Queue(queue);
    counted(store.places.remove_texts(&place, count, text))
}
