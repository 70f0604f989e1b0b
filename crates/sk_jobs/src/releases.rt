// How a worker lets go of a job: LREM sq:ident 1 payload, and SK.BACK payload. The job has stood in the private list all the while.
ghost use Rattle.std.specs.Prelude.{◌≡◌, IfOk, List, None, option_map};
ghost use Rattle.sk_payload.specs.Head.{head};
ghost use Rattle.sk_seats.specs.Works.{is_held_as};
ghost use Rattle.sk_model.specs.Outcome.{Realizes};
ghost use Rattle.sk_model.specs.Workers.{back};
ghost use Rattle.sk_model.specs.World.{phase_of};
ghost use Rattle.sk_seats.specs.declared.phase.Phase.TheVariants as Phase;
ghost use Rattle.sk_seats.specs.declared.work.Work.{Work};
ghost use Rattle.sk_model.specs.Change.{ending_of};
ghost use Rattle.sk_undo.specs.Versions.{edited};
ghost use Rattle.sk_store.specs.Stored.{IsReady, Executes, world};
ghost use Rattle.sk_jobs.specs.Seated.{IsFound, ended_by, ident_in, released};

use crate::callbacks::word_of;
use crate::in_flight::find_held;
use sk_base::Score;
use sk_cmd::Side;
use sk_payload::JobText;
use sk_places::{Ending, Place, Places};
use sk_resp::{Memory, Refusal, Reply, Text, Word};
use sk_seats::{End, Phase, Stage, Work};
use sk_store::Store;
use sk_value::{one_if, refused};
use std::alloc::Global;

// How a worker that is done with a job ends it.
fn ending_of(end: End) -> Ending
    ensures { result ≡ ending_of end }
{
    match end {
        End::Returned => Ending::Returned,
        End::Discarded => Ending::Discarded,
    }
}

// A seat that is done with a job ends it.
fn end_job(places: &mut Places, work: &Work)
    requires { places.old.saved ≡ None }
    ensures { places.new ≡ edited (ended_by work.now places.old.current) places.old }
{
    if let Stage::Settled(end) = work.stage {
        places.end_job(&work.payload, ending_of(end));
    }
}

/// The release of the first job of this text that the seat has put back or is done with: of the rows of the text in the private list of its process
/// the leftmost goes. It is out of turn where the seat has none. The answer tells whether there was a row, which a rescue may have taken. Takes no
/// memory.
pub fn release(store: &mut Store, seat: u32, ident: Word, text: &Word) -> Reply
    requires ready { IsReady store.old }
    requires joined { (works : List Work) × (phase_of (world store.old) seat ≡ Phase.Joined ident works) }
    ensures done { Realizes (world store.old) (released (world store.old) seat ident text.now) result (world store.new) }
    ensures ready { IsReady store.new }
{
    let Phase::Joined(_, works) = store.seats.get(seat) else {
        unreachable!();
    };
    let Some(at) = works.find_done(text.bytes()) else {
        return refused(Refusal::OutOfTurn);
    };
    let work = works.get(at);
    end_job(&mut store.places, work);
    let list = Place::Private(ident);
    let was = store.places.take_copy(&list, &work.payload);
    store.seats.release(seat, at);
    one_if(was)
}

// The process of a seat that holds a job of this text, and the queue that the job's head names.
fn way_back(
    alloc: Global,
    phase: &Phase,
    text: &Word,
    at: usize,
) -> Result<Option<(Word, Text)>, Memory>
    requires { IsFound (is_held_as text.now) phase.now at }
    ensures { IfOk result (λ way. way ≡ option_map (λ h. (ident_in phase.now, h.queue)) (head text.now)) }
{
    let Phase::Joined(ident, works) = phase else {
        unreachable!();
    };
    let Some(head) = works.get(at).payload.head() else {
        return Ok(None);
    };
    Ok(Some((
        word_of(alloc, ident.text().as_bytes())?,
        head.queue_text(alloc)?,
    )))
}

// The payload of a job of this text that a seat holds.
fn held_payload<'a>(phase: &'a Phase, text: &Word, at: usize) -> &'a JobText
    requires { IsFound (is_held_as text.now) phase.now at }
    ensures { result.now ≡ text.now }
{
    let Phase::Joined(_, works) = phase else {
        unreachable!();
    };
    &works.get(at).payload
}

/// SK.BACK: the first job of this text that the seat holds goes back to the right end of its queue, and is fetched first. It is refused without a
/// head. The answer tells whether it was still in the private list.
pub fn back(store: &mut Store, seat: u32, text: &Word) -> Result<Reply, Memory>
    requires { IsReady store.old }
    ensures { Executes store.old (back (world store.old) seat (phase_of (world store.old) seat) text.now) result store.new }
{
    let at = match find_held(store.seats.get(seat), text) {
        Ok(at) => at,
        Err(refusal) => return Ok(refused(refusal)),
    };
    let way = way_back(store.alloc, store.seats.get(seat), text, at)?;
    let Some((ident, queue)) = way else {
        return Ok(refused(Refusal::BadPayload));
    };
    let payload = held_payload(store.seats.get(seat), text, at);
    let (from, to) = (Place::Private(ident), Place::Queue(queue));
    let was = store
        .places
        .shift_payload(&from, payload, to, Score::of_moment(0), Side::Right)?;
    store.seats.release(seat, at);
    Ok(one_if(was))
}
