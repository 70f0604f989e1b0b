// The commands that write on a set of jobs: ZADD on `schedule`; ZREM, ZREMRANGEBYRANK and ZREMRANGEBYSCORE on each (Redis, "Sorted sets").
ghost use Rattle.std.specs.Prelude.{◌≡◌, ◌≤◌, ◌+◌, OnOk, length};
ghost use Rattle.sk_model.specs.Change.{changed, perform};
ghost use Rattle.sk_model.specs.Outcome.{Realizes};
ghost use Rattle.sk_model.specs.Sets.{add, add_each, add_one, add_to, edit_jobs};
ghost use Rattle.sk_model.specs.Room.{HasRoom};
ghost use Rattle.sk_places.specs.Totals.{IsCountable, pushes_in};
ghost use Rattle.sk_places.specs.declared.origin.Origin.TheVariants.{Outside};
ghost use Rattle.sk_store.specs.Stored.{InStep, IsAtomic, IsReady, Executes, world};
ghost use Rattle.sk_value.specs.declared.write_op.WriteOp.TheVariants as WriteOp;

use crate::plain::managed_key;
use sk_base::{Bound, Score};
use sk_cmd::{Scored, Scores, Side};
use sk_payload::JobText;
use sk_places::{Origin, Place};
use sk_resp::{Memory, Refusal, Reply, Word, Words};
use sk_store::{Store, bytes_scored};
use sk_value::{counted, end_index, first_index, refused};

// Gives the text its score in the set. A text that is there is moved, and isn't parsed again.
fn add_one(store: &mut Store, set: Scored, score: Score, text: Word) -> Result<(), Memory>
    requires { IsCountable Outside (world store.old).tally }
    ensures ok { OnOk result (world store.new ≡ changed (world store.old) (add_one (world store.old) set (score, text))) }
    ensures few { OnOk result (pushes_in (world store.new).tally ≤ pushes_in (world store.old).tally + 1) }
    ensures step { InStep store.old store.new }
{
    let place = Place::Set(set);
    let places = &mut store.places;
    if places.shift_text(&place, text.bytes(), Place::Set(set), score, Side::Left)? {
        return Ok(());
    }
    let payload = JobText::of(store.alloc, text)?;
    let held = store.seats.have(&payload);
    places.push(place, score, Side::Left, payload, Origin::Outside, held)
}

// Gives each text in turn its score. After want of memory some of them have it.
fn add_each(store: &mut Store, set: Scored, pairs: Vec<(Score, Word)>) -> Result<(), Memory>
    requires { HasRoom (length pairs.items) (world store.old).tally }
    ensures ok { OnOk result (world store.new ≡ perform (world store.old) (add_each (world store.old) set pairs.items)) }
    ensures step { InStep store.old store.new }
{
    for (score, text) in pairs {
        add_one(store, set, score, text)?;
    }
    Ok(())
}

// Gives each text in turn its score, all of them or none.
fn add_all(store: &mut Store, set: Scored, pairs: Vec<(Score, Word)>) -> Result<(), Memory>
    requires ready { IsReady store.old }
    requires room { HasRoom (length pairs.items) (world store.old).tally }
    ensures { IsAtomic store.old (add_each (world store.old) set pairs.items) result store.new }
{
    store.begin();
    let done = add_each(store, set, pairs);
    store.close(done)
}

// Gives each text in turn its score in the set, and answers how many are new. Where that is more than the store takes, nothing is done.
fn add(store: &mut Store, set: Scored, scores: Scores) -> Result<Reply, Memory>
    requires { IsReady store.old }
    ensures { Executes store.old (add (world store.old) set scores) result store.new }
{
    let pairs = scores.into_list();
    if store.is_full(pairs.len(), bytes_scored(&pairs)) {
        return Ok(refused(Refusal::Full));
    }
    let before = store.places.len(&Place::Set(set));
    add_all(store, set, pairs)?;
    let after = store.places.len(&Place::Set(set));
    Ok(counted(after.saturating_sub(before)))
}

/// Gives each text in turn its score in `schedule`, and answers how many are new. Where that is more than the store takes nothing is done. On
/// another set it is refused.
pub fn add_to(store: &mut Store, set: Scored, scores: Scores) -> Result<Reply, Memory>
    requires { IsReady store.old }
    ensures { Executes store.old (add_to (world store.old) scores set) result store.new }
{
    match set {
        Scored::Schedule => add(store, Scored::Schedule, scores),
        _ => Ok(managed_key()),
    }
}

/// Takes the texts' jobs out of the set, and answers how many they were. Takes no memory.
#[tactic(auto, using(sk_value::proofs::Ranks::fewer))]
pub fn remove_members(store: &mut Store, set: Scored, members: &Words) -> Reply
    requires { IsReady store.old }
    ensures done { Realizes (world store.old) (edit_jobs (world store.old) set (WriteOp.Zrem members.now)) result (world store.new) }
    ensures ready { IsReady store.new }
{
    let _count = store.places.len(&Place::Set(set)); // for what it says of their number
    counted(store.places.remove_members(set, members))
}

/// Takes the jobs from index `first` to index `last` out of the set, both included, and answers how many they were. Takes no memory.
#[tactic(auto, using(crate::proofs::Scores::part_fewer))]
pub fn remove_range(store: &mut Store, set: Scored, first: i64, last: i64) -> Reply
    requires { IsReady store.old }
    ensures done { Realizes (world store.old) (edit_jobs (world store.old) set (WriteOp.Zremrangebyrank first last)) result (world store.new) }
    ensures ready { IsReady store.new }
{
    let count = store.places.len(&Place::Set(set));
    let (start, end) = (first_index(first, count), end_index(last, count));
    counted(store.places.remove_range(set, start, end))
}

/// Takes the jobs with a score within the bounds out of the set, and answers how many they were. Takes no memory.
#[tactic(auto, using(sk_value::proofs::Ranks::fewer))]
pub fn remove_scores(store: &mut Store, set: Scored, least: Bound, greatest: Bound) -> Reply
    requires { IsReady store.old }
    ensures done { Realizes (world store.old) (edit_jobs (world store.old) set (WriteOp.Zremrangebyscore least greatest)) result (world store.new) }
    ensures ready { IsReady store.new }
{
    let _count = store.places.len(&Place::Set(set)); // for what it says of their number
    counted(store.places.remove_scores(set, least, greatest))
}
