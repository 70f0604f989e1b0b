// Batches and members that come.
ghost use Rattle.std.specs.Prelude.{◌≡◌, ◌^◌, ◌<◌, ◌≤◌, ◌∷◌, false, true, IfOk, List, OnErr, OnOk, length, vec_len};
ghost use Rattle.std.specs.List.{list_any};
ghost use Rattle.sk_resp.specs.Spelling.{Bytes};
ghost use Rattle.sk_batch.specs.Batched.{has_bid, is_there};
ghost use Rattle.sk_batch.specs.Events.{made_fires, members_of, unfired};
ghost use Rattle.sk_batch.specs.Fires.{after_fires};
ghost use Rattle.sk_batch.specs.Order.{put_all};
ghost use Rattle.sk_batch.specs.Places.{AreAncestors, Climb, first_place, parent_place};
ghost use Rattle.sk_batch.specs.States.{AreEdited, BatchInvariant, new_state, seen_of};
ghost use Rattle.sk_undo.specs.Balance.{most};
ghost use Rattle.sk_undo.specs.Versions.{edited};

use crate::ancestors::{ancestor_places, change_ancestors, firing};
use crate::batch_list::BatchList;
use crate::edits::add_members;
use crate::numbers::{Change, Numbers};
use crate::state::State;
use crate::{Batch, Fired, Firing, Kind, Member, Memory, Progress};
use sk_resp::Word;
use sk_undo::UndoList;
use std::alloc::Global;

// New members of a batch.
fn new_members(
    alloc: Global,
    bid: &[u8],
    jids: Vec<Word>,
) -> Result<Vec<(Progress, Member)>, Memory>
    ensures { IfOk result (λ news. news.items ≡ members_of bid.now jids.items) }
{
    let mut news = Vec::new(alloc);
    for jid in jids {
        let marks = Progress {
            reported: false,
            returned: false,
        };
        let bid = Word::new(bid.to_vec(alloc)?);
        news.push((marks, Member { bid, jid }))?;
    }
    Ok(news)
}

// New members come to a batch, and to the numbers of those that it is in.
fn enter(
    batches: &mut BatchList,
    members: &mut UndoList<Progress, Member>,
    bid: &[u8],
    places: &[usize],
    news: Vec<(Progress, Member)>,
)
    requires places { AreAncestors bid.now places.now batches.old.list.current }
    requires batches { length places.now ≤ batches.old.room }
    requires members { vec_len news ≤ members.old.room }
    requires kept { BatchInvariant batches.old.list.current members.old.list.current }
    requires there { is_there bid.now (seen_of batches.old.list.current) ≡ true }
    ensures batches { AreEdited batches.old.list batches.new.list (seen_of batches.old.list.current) }
    ensures members { members.new.list ≡ edited (put_all news.items members.old.list.current) members.old.list }
    ensures kept { (jids : List Bytes) → news.items ≡ members_of bid.now jids → vec_len news ≤ most → BatchInvariant batches.new.list.current members.new.list.current }
{
    let _len = members.len(); // its contract says that there are no more than 2^60
    change_ancestors(batches, bid, places, Change::Came(news.len() as u64));
    add_members(members, news);
}

/// Jobs are added to a batch.
pub fn join(
    alloc: Global,
    batches: &mut BatchList,
    members: &mut UndoList<Progress, Member>,
    bid: &[u8],
    jids: Vec<Word>,
) -> Result<(), Memory>
    requires kept { BatchInvariant batches.old.list.current members.old.list.current }
    requires there { is_there bid.now (seen_of batches.old.list.current) ≡ true }
    ensures batches { OnOk result (AreEdited batches.old.list batches.new.list (seen_of batches.old.list.current)) }
    ensures members { OnOk result (members.new.list ≡ edited (put_all (members_of bid.now jids.items) members.old.list.current) members.old.list) }
    ensures kept { OnOk result (BatchInvariant batches.new.list.current members.new.list.current) }
    ensures err_batches { OnErr result (batches.new.list ≡ batches.old.list) }
    ensures err_members { OnErr result (members.new.list ≡ members.old.list) }
{
    let news = new_members(alloc, bid, jids)?;
    let places = ancestor_places(alloc, batches, bid)?;
    batches.reserve(places.len())?;
    members.reserve(news.len())?;
    enter(batches, members, bid, &places, news);
    Ok(())
}

// What is fired where a batch is made.
fn made_fires(alloc: Global, batch: &Batch, jids: &[Word]) -> Result<Vec<Firing>, Memory>
    ensures { IfOk result (λ firings. firings.items ≡ made_fires batch.now jids.now) }
{
    let mut firings = Vec::new(alloc);
    if jids.is_empty() {
        firings.push(firing(Kind::Complete, batch)?)?;
        firings.push(firing(Kind::Success, batch)?)?;
    }
    Ok(firings)
}

// The state of a new batch, whose complete and success are fired where it has no jobs.
fn new_state(empty: bool) -> State
    ensures { result ≡ new_state empty }
{
    State {
        fired: Fired {
            complete: empty,
            success: empty,
            death: false,
        },
        numbers: Numbers::none(),
    }
}

// The places of a parent and of those that it is in, where there is one.
fn parent_places(
    alloc: Global,
    batches: &BatchList,
    parent: &Option<Word>,
) -> Result<Vec<usize>, Memory>
    ensures first { IfOk result (λ places. first_place places.items batches.now.list.current ≡ parent_place parent.now batches.now.list.current) }
    ensures climb { IfOk result (λ places. Climb places.items batches.now.list.current) }
{
    match parent {
        Some(parent) => ancestor_places(alloc, batches, parent.bytes()),
        None => Ok(Vec::new(alloc)),
    }
}

// The places of a new batch and of those that it is in, once it stands before the others.
fn new_places(alloc: Global, batches: &BatchList, batch: &Batch) -> Result<Vec<usize>, Memory>
    ensures { IfOk result (λ places. (state : State) → AreAncestors batch.now.bid places.items ((state, batch.now) ∷ batches.now.list.current)) }
{
    let _len = batches.len(); // its contract says that there are no more than 2^60
    let above = parent_places(alloc, batches, &batch.parent)?;
    let mut places = Vec::new(alloc);
    places.push(0)?;
    for place in &above {
        places.push(*place + 1)?;
    }
    Ok(places)
}

// Puts in a new batch with its state, and takes all memory for it, for this many changes behind it and for this many members.
fn add_batch(
    batches: &mut BatchList,
    members: &mut UndoList<Progress, Member>,
    entry: (State, Batch),
    changes: usize,
    count: usize,
) -> Result<(), Memory>
    requires new { list_any (has_bid entry.1.bid) batches.old.list.current ≡ false }
    requires few { changes < 2 ^ 63 }
    ensures batches { OnOk result (batches.new.list ≡ edited (entry ∷ batches.old.list.current) batches.old.list) }
    ensures room { OnOk result (changes ≤ batches.new.room) }
    ensures members { OnOk result (count ≤ members.new.room) }
    ensures same { members.new.list ≡ members.old.list }
    ensures err { OnErr result (batches.new.list ≡ batches.old.list) }
{
    let (state, batch) = entry;
    let bid = batch.bid.copy()?;
    batches.reserve(changes + 1)?;
    members.reserve(count)?;
    batches.put_first(bid, state, batch);
    Ok(())
}

/// A batch is made, with its first jobs. Answers what is fired.
#[tactic(auto, using(crate::proofs::Making::made_at_front))]
pub fn make(
    alloc: Global,
    batches: &mut BatchList,
    members: &mut UndoList<Progress, Member>,
    batch: Batch,
    jids: Vec<Word>,
) -> Result<Vec<Firing>, Memory>
    requires kept { BatchInvariant batches.old.list.current members.old.list.current }
    requires new { is_there batch.bid (seen_of batches.old.list.current) ≡ false }
    ensures fires { IfOk result (λ firings. firings.items ≡ made_fires batch jids.items) }
    ensures batches { OnOk result (AreEdited batches.old.list batches.new.list (after_fires (made_fires batch jids.items) ((unfired, batch) ∷ seen_of batches.old.list.current))) }
    ensures members { OnOk result (members.new.list ≡ edited (put_all (members_of batch.bid jids.items) members.old.list.current) members.old.list) }
    ensures kept { OnOk result (BatchInvariant batches.new.list.current members.new.list.current) }
    ensures err_batches { OnErr result (batches.new.list ≡ batches.old.list) }
    ensures err_members { OnErr result (members.new.list ≡ members.old.list) }
{
    let firings = made_fires(alloc, &batch, &jids)?;
    let state = new_state(jids.is_empty());
    let bid = batch.bid.copy()?;
    let news = new_members(alloc, bid.bytes(), jids)?;
    let places = new_places(alloc, batches, &batch)?;
    add_batch(batches, members, (state, batch), places.len(), news.len())?;
    enter(batches, members, bid.bytes(), &places, news);
    Ok(firings)
}
