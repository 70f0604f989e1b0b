// SK.BURY payload: a job that has failed for the last time goes to the dead set.
ghost use Rattle.std.specs.Prelude.{◌≡◌, ◌≤◌, IfOk};
ghost use Rattle.sk_base.specs.Score.{last_moment};
ghost use Rattle.sk_model.specs.Outcome.{Realizes};
ghost use Rattle.sk_model.specs.Workers.{bury};
ghost use Rattle.sk_model.specs.World.{phase_of};
ghost use Rattle.sk_store.specs.Stored.{InStep, IsReady, Executes, world};
ghost use Rattle.sk_jobs.specs.Callbacks.{AreCovered};
ghost use Rattle.sk_jobs.specs.Routing.{buries_text};

use crate::callbacks::member_of;
use crate::dead::bury_put;
use crate::in_flight::find_buried;
use crate::retries::put_back;
use sk_base::Score;
use sk_cmd::Scored;
use sk_payload::JobText;
use sk_resp::{Memory, Reply, Word};
use sk_seats::Stage;
use sk_store::Store;
use sk_value::refused;

// The payload goes to the dead set, which drops what it keeps no longer, and its batch is told. After want of memory a part of it is done.
fn bury_payload(store: &mut Store, payload: JobText) -> Result<Reply, Memory>
    requires early { store.old.moment ≤ last_moment }
    requires covered { AreCovered store.old }
    ensures ok { IfOk result (λ reply. Realizes (world store.old) (buries_text (world store.old) payload) reply (world store.new)) }
    ensures step { InStep store.old store.new }
{
    let member = member_of(store.alloc, &payload)?;
    let score = Score::of_moment(store.moment);
    put_back(store, Scored::Dead, score, payload)?;
    let report = bury_put(store, member)?;
    report.into_reply(store.alloc)
}

/// SK.BURY: the text of a failed job that the seat holds goes to the dead set, which drops what it keeps no longer, its batch is told, and the seat
/// has still to release that job. The answer is the report. The text is parsed here, once.
pub fn bury(store: &mut Store, seat: u32, text: Word) -> Result<Reply, Memory>
    requires ready { IsReady store.old }
    requires covered { AreCovered store.old }
    ensures { Executes store.old (bury (world store.old) seat (phase_of (world store.old) seat) text) result store.new }
{
    let payload = JobText::of(store.alloc, text)?;
    let at = match find_buried(store.seats.get(seat), &payload) {
        Ok(at) => at,
        Err(refusal) => return Ok(refused(refusal)),
    };
    store.begin();
    let done = bury_payload(store, payload);
    let reply = store.close(done)?;
    store.seats.stage(seat, at, Stage::Put);
    Ok(reply)
}
