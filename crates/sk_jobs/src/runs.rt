// What a worker tells of the run of its job: SK.START payload, SK.FAIL payload, SK.OK payload, SK.DROP payload.
ghost use Rattle.std.specs.Prelude.{◌≡◌, ◌≤◌, IfOk};
ghost use Rattle.sk_base.specs.Score.{last_moment};
ghost use Rattle.sk_model.specs.Outcome.{Realizes};
ghost use Rattle.sk_model.specs.Workers.{drop, fail, ok, start};
ghost use Rattle.sk_model.specs.World.{phase_of};
ghost use Rattle.sk_seats.specs.Works.{is_held_as};
ghost use Rattle.sk_store.specs.Stored.{InStep, IsReady, Executes, world};
ghost use Rattle.sk_jobs.specs.Callbacks.{AreCovered, member_of, run_failed, run_returned};
ghost use Rattle.sk_jobs.specs.Seated.{IsFound};

use crate::callbacks::{member_of, notify};
use crate::in_flight::find_held;
use crate::locking::{held_lock_at, let_go};
use sk_batch::{Event, Member};
use sk_counters::Counted;
use sk_payload::Until;
use sk_resp::{Memory, Reply, Say, Word};
use sk_seats::{End, Phase, Stage};
use sk_store::Store;
use sk_value::{as_reply, refused};

/// SK.START: a job that the seat holds is about to run. It lets go of a lock that it holds until then.
pub fn start(store: &mut Store, seat: u32, text: &Word) -> Result<Reply, Memory>
    requires { IsReady store.old }
    ensures { Executes store.old (start (phase_of (world store.old) seat) text.now) result store.new }
{
    let at = match find_held(store.seats.get(seat), text) {
        Ok(at) => at,
        Err(refusal) => return Ok(refused(refusal)),
    };
    let lock = held_lock_at(store, Until::Start, seat, text, at)?;
    let_go(store, lock);
    Ok(Reply::Say(Say::Ok))
}

// The member that a job of this text in the seat's hands is, where its head names a batch.
fn member_at(store: &Store, seat: u32, text: &Word, at: usize) -> Result<Option<Member>, Memory>
    requires { IsFound (is_held_as text.now) (phase_of (world store.now) seat) at }
    ensures { IfOk result (λ member. member ≡ member_of text.now) }
{
    match store.seats.get(seat) {
        Phase::Plain => unreachable!(),
        Phase::Joined(_, works) => member_of(store.alloc, &works.get(at).payload),
    }
}

// The run of a job that the seat holds has ended: it counts, and its batch is told. After want of memory a part of it is done.
fn fail_open(store: &mut Store, seat: u32, text: &Word, at: usize) -> Result<Reply, Memory>
    requires early { store.old.moment ≤ last_moment }
    requires covered { AreCovered store.old }
    requires found { IsFound (is_held_as text.now) (phase_of (world store.old) seat) at }
    ensures ok { IfOk result (λ reply. Realizes (world store.old) (run_failed text.now (world store.old)) reply (world store.new)) }
    ensures step { InStep store.old store.new }
{
    let member = member_at(store, seat, text, at)?;
    store.counters.raise(Counted::Processed, store.moment)?;
    store.counters.raise(Counted::Failed, store.moment)?;
    let fired = notify(store, Event::Reported, member)?;
    as_reply(store.alloc, fired)
}

/// SK.FAIL: a job that the seat holds has raised. The answer names what its batch fired.
pub fn fail(store: &mut Store, seat: u32, text: &Word) -> Result<Reply, Memory>
    requires ready { IsReady store.old }
    requires covered { AreCovered store.old }
    ensures { Executes store.old (fail (world store.old) (phase_of (world store.old) seat) text.now) result store.new }
{
    let at = match find_held(store.seats.get(seat), text) {
        Ok(at) => at,
        Err(refusal) => return Ok(refused(refusal)),
    };
    store.begin();
    let done = fail_open(store, seat, text, at);
    store.close(done)
}

// The run of a job has ended well, in the same way. The seat turns then.
fn succeed_open(store: &mut Store, seat: u32, text: &Word, at: usize) -> Result<Reply, Memory>
    requires early { store.old.moment ≤ last_moment }
    requires covered { AreCovered store.old }
    requires found { IsFound (is_held_as text.now) (phase_of (world store.old) seat) at }
    ensures ok { IfOk result (λ reply. Realizes (world store.old) (run_returned text.now (world store.old)) reply (world store.new)) }
    ensures step { InStep store.old store.new }
{
    let member = member_at(store, seat, text, at)?;
    store.counters.raise(Counted::Processed, store.moment)?;
    let fired = notify(store, Event::Returned, member)?;
    as_reply(store.alloc, fired)
}

/// SK.OK: the first job of this text that the seat holds has returned, and the seat has still to release it. The answer names what its batch fired.
/// It lets go of a lock that it holds until then.
pub fn succeed(store: &mut Store, seat: u32, text: &Word) -> Result<Reply, Memory>
    requires ready { IsReady store.old }
    requires covered { AreCovered store.old }
    ensures { Executes store.old (ok (world store.old) seat (phase_of (world store.old) seat) text.now) result store.new }
{
    let at = match find_held(store.seats.get(seat), text) {
        Ok(at) => at,
        Err(refusal) => return Ok(refused(refusal)),
    };
    let lock = held_lock_at(store, Until::Success, seat, text, at)?;
    store.begin();
    let done = succeed_open(store, seat, text, at);
    let reply = store.close(done)?;
    store.seats.stage(seat, at, Stage::Settled(End::Returned));
    let_go(store, lock);
    Ok(reply)
}

/// SK.DROP: the first job of this text that the seat holds is given up, and the seat has still to release it. Takes no memory.
pub fn discard(store: &mut Store, seat: u32, text: &Word) -> Reply
    requires { IsReady store.old }
    ensures done { Realizes (world store.old) (drop seat (phase_of (world store.old) seat) text.now) result (world store.new) }
    ensures ready { IsReady store.new }
{
    let at = match find_held(store.seats.get(seat), text) {
        Ok(at) => at,
        Err(refusal) => return refused(refusal),
    };
    store.seats.stage(seat, at, Stage::Settled(End::Discarded));
    Reply::Say(Say::Ok)
}
