// Edits of the batches and of the members, once there is room for them.
ghost use Rattle.std.specs.Prelude.{◌≡◌, ◌+◌, ◌<◌, ◌≤◌, Bool, true, length, vec_len};
ghost use Rattle.std.specs.List.{position_or_len};
ghost use Rattle.sk_batch.specs.Batched.{MemberEntry, has_bid};
ghost use Rattle.sk_batch.specs.Fires.{retagged, with_kind};
ghost use Rattle.sk_batch.specs.Open.{with_mark};
ghost use Rattle.sk_batch.specs.Order.{is_ordered, put_all};
ghost use Rattle.sk_batch.specs.States.{all_fired, with_fired};
ghost use Rattle.sk_undo.specs.Versions.{edited};

use crate::batch_list::BatchList;
use crate::members::place_for;
use crate::state::State;
use crate::{Fired, Firing, Kind, Mark, Member, Progress};
use sk_undo::UndoList;

fn with_mark(mark: Mark, marks: Progress) -> Progress
    ensures { result ≡ with_mark mark marks }
{
    match mark {
        Mark::Reported => Progress {
            reported: true,
            ..marks
        },
        Mark::Returned => Progress {
            reported: true,
            returned: true,
        },
    }
}

/// Gives the member at a place the mark.
pub fn mark_member(members: &mut UndoList<Progress, Member>, at: usize, mark: Mark)
    requires within { at < length members.old.list.current }
    requires room { 0 < members.old.room }
    ensures { (test : MemberEntry → Bool) → at ≡ position_or_len test members.old.list.current → members.new.list ≡ edited (retagged test (with_mark mark) members.old.list.current) members.old.list }
{
    let marks = members.get(at).0;
    members.shift(at, at, with_mark(mark, marks));
}

fn with_kind(kind: Kind, fired: Fired) -> Fired
    ensures { result ≡ with_kind kind fired }
{
    match kind {
        Kind::Complete => Fired {
            complete: true,
            ..fired
        },
        Kind::Success => Fired {
            success: true,
            ..fired
        },
        Kind::Death => Fired {
            death: true,
            ..fired
        },
    }
}

// Marks that this was fired of a batch.
#[tactic(auto, using(crate::proofs::Places::retagged_none, crate::proofs::Places::no_position))]
fn mark_one(batches: &mut BatchList, bid: &[u8], kind: Kind)
    requires { 0 < batches.old.room }
    ensures list { batches.new.list ≡ edited (retagged (has_bid bid.now) (with_fired kind) batches.old.list.current) batches.old.list }
    ensures room { batches.old.room ≤ batches.new.room + 1 }
{
    let at = batches.find(bid);
    if at < batches.len() {
        let state = batches.get(at).0;
        let fired = with_kind(kind, state.fired);
        batches.set_state(at, State { fired, ..state });
    }
}

/// Marks what was fired.
pub fn mark_fired(batches: &mut BatchList, firings: &[Firing])
    requires { length firings.now ≤ batches.old.room }
    ensures list { batches.new.list ≡ edited (all_fired firings.now batches.old.list.current) batches.old.list }
    ensures room { batches.old.room ≤ batches.new.room + length firings.now }
{
    for firing in firings {
        mark_one(batches, firing.bid.bytes(), firing.kind);
    }
}

/// Puts each of these members in at its place.
#[tactic(auto, using(crate::proofs::Order::insert_put, crate::proofs::Order::ordered_put))]
pub fn add_members(members: &mut UndoList<Progress, Member>, news: Vec<(Progress, Member)>)
    requires room { vec_len news ≤ members.old.room }
    requires ordered { is_ordered members.old.list.current ≡ true }
    ensures { members.new.list ≡ edited (put_all news.items members.old.list.current) members.old.list }
{
    for new in news {
        let at = place_for(members, &new);
        members.insert(at, new);
    }
}
