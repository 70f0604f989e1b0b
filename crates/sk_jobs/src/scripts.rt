// SK.DUE set limit, SK.REVIVE set text, SK.KILL set text, SK.RESCUE: jobs that go from a set, or from the private lists of processes that are gone,
// to their queues or to the dead set. Each is one step, whole or not at all, and is refused from a worker's seat.
ghost use Rattle.std.specs.Prelude.{◌≡◌, ◌≤◌, false, nat_abs, IfOk, OnErr, length, take};
ghost use Rattle.std.specs.Ordering.{is_eq};
ghost use Rattle.sk_base.specs.Score.{last_moment};
ghost use Rattle.sk_cmd.specs.declared.argument.Scored.TheVariants.{Dead};
ghost use Rattle.sk_places.specs.Rows.{place_cmp};
ghost use Rattle.sk_places.specs.declared.row.Place.TheVariants.{Set};
ghost use Rattle.sk_model.specs.Jobs.{due, kill, revive};
ghost use Rattle.sk_model.specs.Outcome.{Realizes};
ghost use Rattle.sk_model.specs.Rescue.{rescue};
ghost use Rattle.sk_model.specs.Seats.{where_plain};
ghost use Rattle.sk_model.specs.World.{phase_of};
ghost use Rattle.sk_store.specs.Stored.{InStep, IsReady, Executes, world};
ghost use Rattle.sk_jobs.specs.Callbacks.{AreCovered};
ghost use Rattle.sk_jobs.specs.Routing.{due_in, due_sent, killed_in, set_rows};

use crate::callbacks::member_of;
use crate::dead::bury;
use crate::promotion::promote_front;
use crate::report::Report;
use crate::rescues::rescue_open;
use sk_base::{Bound, Score};
use sk_cmd::{Scored, Side};
use sk_places::Place;
use sk_resp::{Memory, Refusal, Reply, Word};
use sk_seats::Phase;
use sk_store::Store;
use sk_value::{counted, refused};

// ## SK.DUE

// How many of a set's jobs are sent on: those whose moment has come, and at most so many.
fn due_count(store: &Store, set: Scored, limit: i64) -> usize
    requires { store.now.moment ≤ last_moment }
    ensures is { due_in set (nat_abs limit) (world store.now) ≡ take result (set_rows set (world store.now)) }
    ensures within { result ≤ length (set_rows set (world store.now)) }
{
    let now = Bound::At(Score::of_moment(store.moment));
    let (_, end) = store.places.range_of(set, Bound::Low, now);
    end.min(limit.unsigned_abs() as usize)
}

// Jobs whose moment has come go to their queues, at most so many.
fn promote_due(store: &mut Store, set: Scored, limit: i64) -> Result<Reply, Memory>
    requires early { store.old.moment ≤ last_moment }
    requires alive { is_eq (place_cmp (Set Dead) (Set set)) ≡ false }
    requires covered { AreCovered store.old }
    ensures ok { IfOk result (λ reply. Realizes (world store.old) (due_sent set (nat_abs limit) (world store.old)) reply (world store.new)) }
    ensures step { InStep store.old store.new }
{
    let _count = store.places.len(&Place::Set(set)); // for what it says of their number
    let count = due_count(store, set, limit);
    let report = promote_front(store, set, count)?;
    report.into_reply(store.alloc)
}

// Jobs of the dead set wait for no moment.
fn due_open(store: &mut Store, set: Scored, limit: i64) -> Result<Reply, Memory>
    requires early { store.old.moment ≤ last_moment }
    requires covered { AreCovered store.old }
    ensures ok { IfOk result (λ reply. Realizes (world store.old) (due (world store.old) set (nat_abs limit)) reply (world store.new)) }
    ensures step { InStep store.old store.new }
{
    match set {
        Scored::Schedule => promote_due(store, Scored::Schedule, limit),
        Scored::Retry => promote_due(store, Scored::Retry, limit),
        Scored::Dead => Report::nothing(store.alloc).into_reply(store.alloc),
    }
}

/// SK.DUE: the jobs of a set whose moment has come go to the left ends of their queues, at most so many. Those without a head go to the dead set. The
/// answer is the report.
pub fn due(store: &mut Store, seat: u32, set: Scored, limit: i64) -> Result<Reply, Memory>
    requires ready { IsReady store.old }
    requires covered { AreCovered store.old }
    ensures { Executes store.old (where_plain (phase_of (world store.old) seat) (due (world store.old) set (nat_abs limit))) result store.new }
{
    match store.seats.get(seat) {
        Phase::Plain => {
            store.begin();
            let done = due_open(store, set, limit);
            store.close(done)
        }
        _ => Ok(refused(Refusal::OutOfTurn)),
    }
}

// ## SK.KILL

// The job is buried, where it is there.
fn bury_one(store: &mut Store, set: Scored, text: &Word) -> Result<Reply, Memory>
    requires early { store.old.moment ≤ last_moment }
    requires alive { is_eq (place_cmp (Set Dead) (Set set)) ≡ false }
    requires covered { AreCovered store.old }
    ensures ok { IfOk result (λ reply. Realizes (world store.old) (killed_in set text.now (world store.old)) reply (world store.new)) }
    ensures step { InStep store.old store.new }
{
    let place = Place::Set(set);
    let Some((_, payload)) = store.places.find(&place, text.bytes()) else {
        return Report::nothing(store.alloc).into_reply(store.alloc);
    };
    let member = member_of(store.alloc, payload)?;
    let report = bury(store, &place, text, member)?;
    report.into_reply(store.alloc)
}

// Jobs of the dead set are there already.
fn kill_open(store: &mut Store, set: Scored, text: &Word) -> Result<Reply, Memory>
    requires early { store.old.moment ≤ last_moment }
    requires covered { AreCovered store.old }
    ensures ok { IfOk result (λ reply. Realizes (world store.old) (kill (world store.old) set text.now) reply (world store.new)) }
    ensures step { InStep store.old store.new }
{
    match set {
        Scored::Schedule => bury_one(store, Scored::Schedule, text),
        Scored::Retry => bury_one(store, Scored::Retry, text),
        Scored::Dead => Report::nothing(store.alloc).into_reply(store.alloc),
    }
}

/// SK.KILL: the first job of the text in a set goes to the dead set. The answer is the report.
pub fn kill(store: &mut Store, seat: u32, set: Scored, text: &Word) -> Result<Reply, Memory>
    requires ready { IsReady store.old }
    requires covered { AreCovered store.old }
    ensures { Executes store.old (where_plain (phase_of (world store.old) seat) (kill (world store.old) set text.now)) result store.new }
{
    match store.seats.get(seat) {
        Phase::Plain => {
            store.begin();
            let done = kill_open(store, set, text);
            store.close(done)
        }
        _ => Ok(refused(Refusal::OutOfTurn)),
    }
}

// ## SK.REVIVE

// The first job of the text goes from the set to the left end of its queue.
fn revive_one(store: &mut Store, set: Scored, text: &Word) -> Result<Reply, Memory>
    requires { IsReady store.old }
    ensures { Executes store.old (revive (world store.old) set text.now) result store.new }
{
    let place = Place::Set(set);
    let Some((_, payload)) = store.places.find(&place, text.bytes()) else {
        return Ok(counted(0));
    };
    let Some(head) = payload.head() else {
        return Ok(refused(Refusal::BadPayload));
    };
    let queue = Place::Queue(head.queue_text(store.alloc)?);
    let score = Score::of_moment(0);
    store
        .places
        .shift_text(&place, text.bytes(), queue, score, Side::Left)?;
    Ok(counted(1))
}

/// SK.REVIVE: the first job of the text in a set goes to the left end of its queue. One without a head stays, and is refused. The answer tells how
/// many went.
pub fn revive(store: &mut Store, seat: u32, set: Scored, text: &Word) -> Result<Reply, Memory>
    requires { IsReady store.old }
    ensures { Executes store.old (where_plain (phase_of (world store.old) seat) (revive (world store.old) set text.now)) result store.new }
{
    match store.seats.get(seat) {
        Phase::Plain => revive_one(store, set, text),
        _ => Ok(refused(Refusal::OutOfTurn)),
    }
}

// ## SK.RESCUE

/// SK.RESCUE: the jobs in the private lists of processes without a heartbeat go to the right ends of their queues, and those that were recovered too
/// often, or have no head, to the dead set. The answer is the report.
pub fn rescue(store: &mut Store, seat: u32) -> Result<Reply, Memory>
    requires ready { IsReady store.old }
    requires covered { AreCovered store.old }
    ensures { Executes store.old (where_plain (phase_of (world store.old) seat) (rescue (world store.old))) result store.new }
{
    match store.seats.get(seat) {
        Phase::Plain => {
            store.begin();
            let done = rescue_open(store);
            store.close(done)
        }
        _ => Ok(refused(Refusal::OutOfTurn)),
    }
}
