// ZADD retry score payload from a worker's seat: the text of a job that has failed waits for its next run.
ghost use Rattle.std.specs.Prelude.{◌≡◌, IfOk, OnErr, OnOk, Some, false, not};
ghost use Rattle.std.specs.Option.{is_some};
ghost use Rattle.sk_places.specs.Rows.{row_of};
ghost use Rattle.sk_model.specs.Change.{changed};
ghost use Rattle.sk_seats.specs.Phases.{is_plain};
ghost use Rattle.sk_model.specs.Sets.{put_back};
ghost use Rattle.sk_model.specs.Workers.{retry};
ghost use Rattle.sk_model.specs.World.{phase_of};
ghost use Rattle.sk_store.specs.Stored.{InStep, IsReady, Executes, world};
ghost use Rattle.sk_jobs.specs.Routing.{set_rows};

use crate::in_flight::find_retried;
use sk_base::Score;
use sk_cmd::{Scored, Side};
use sk_payload::JobText;
use sk_places::Place;
use sk_resp::{Memory, Reply, Word};
use sk_seats::Stage;
use sk_store::Store;
use sk_value::{one_if, refused};

/// The payload goes into the set, and a text that is there gets the score. The answer tells whether it is new.
pub fn put_back(
    store: &mut Store,
    set: Scored,
    score: Score,
    payload: JobText,
) -> Result<bool, Memory>
    ensures answer { IfOk result (λ new. new ≡ not (is_some (row_of payload (set_rows set (world store.old))))) }
    ensures ok { OnOk result (world store.new ≡ changed (world store.old) (put_back (world store.old) set (score, payload))) }
    ensures step { InStep store.old store.new }
    ensures err { OnErr result (store.new ≡ store.old) }
{
    let place = Place::Set(set);
    let places = &mut store.places;
    let text = payload.text().bytes();
    if places.shift_text(&place, text, Place::Set(set), score, Side::Left)? {
        return Ok(false);
    }
    places.put_back(place, score, Side::Left, payload)?;
    Ok(true)
}

/// The text of a failed job goes into `retry`, where it follows a job that the seat holds. The seat has still to release that job. The answer tells
/// how many are new. The text is parsed here, once.
pub fn retry(store: &mut Store, seat: u32, pair: (Score, Word)) -> Result<Reply, Memory>
    requires ready { IsReady store.old }
    requires joined { is_plain (phase_of (world store.old) seat) ≡ false }
    ensures { Executes store.old (retry (world store.old) seat (phase_of (world store.old) seat) (Some pair)) result store.new }
{
    let (score, text) = pair;
    let payload = JobText::of(store.alloc, text)?;
    let at = match find_retried(store.seats.get(seat), &payload) {
        Ok(at) => at,
        Err(refusal) => return Ok(refused(refusal)),
    };
    let new = put_back(store, Scored::Retry, score, payload)?;
    store.seats.stage(seat, at, Stage::Put);
    Ok(one_if(new))
}
