// LMOVE source destination LEFT|RIGHT LEFT|RIGHT (Redis, "LMOVE")
ghost use Rattle.std.specs.Prelude.{◌≡◌};
ghost use Rattle.sk_places.specs.declared.row.Place.TheVariants.{Queue};
ghost use Rattle.sk_key.specs.Class.{class_of};
ghost use Rattle.sk_model.specs.Queues.{move};
ghost use Rattle.sk_model.specs.Step.{moves};
ghost use Rattle.sk_store.specs.Stored.{IsReady, Executes, world};

use crate::plain::{do_on_keys, managed_key};
use sk_base::Score;
use sk_cmd::Side;
use sk_key::{KeyClass, class_of, queue_of};
use sk_places::Place;
use sk_resp::{Memory, Reply, Text, Word};
use sk_store::Store;
use sk_value::Action;

// Moves the job at one end of the source to an end of the destination, which may be the same queue, and answers its text. The text is copied for
// the reply alone, and isn't parsed again.
fn move_job(
    store: &mut Store,
    source: Text,
    destination: Text,
    from: Side,
    to: Side,
) -> Result<Reply, Memory>
    requires { IsReady store.old }
    ensures { Executes store.old (move (world store.old) (Queue source) (Queue destination) from to) result store.new }
{
    let source = Place::Queue(source);
    let Some((_, payload)) = store.places.end(&source, from) else {
        return Ok(Reply::Null);
    };
    let text = payload.text().copy()?;
    store.places.shift(
        &source,
        from,
        Place::Queue(destination),
        Score::of_moment(0),
        to,
    )?;
    Ok(Reply::Bulk(text))
}

/// An element, or a job, goes from the end `from` of one key to the end `to` of another, or of the same: both plain, or both queues. Between
/// others it is refused.
pub fn move_text(
    store: &mut Store,
    source: Word,
    destination: Word,
    from: Side,
    to: Side,
) -> Result<Reply, Memory>
    requires { IsReady store.old }
    ensures { Executes store.old (moves (world store.old) source destination from to (class_of source) (class_of destination)) result store.new }
{
    let other = class_of(destination.bytes());
    match class_of(source.bytes()) {
        KeyClass::Plain => match other {
            KeyClass::Plain => do_on_keys(store, Action::Move(source, destination, from, to)),
            _ => Ok(managed_key()),
        },
        KeyClass::Queue => match other {
            KeyClass::Queue => move_job(store, queue_of(source), queue_of(destination), from, to),
            _ => Ok(managed_key()),
        },
        _ => Ok(managed_key()),
    }
}
