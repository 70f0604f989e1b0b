// Whether a batch may be made, or may get jobs.
ghost use Rattle.std.specs.Prelude.{◌≡◌, ◌<◌, IfOk, List, None, Some, length, option_map, true};
ghost use Rattle.std.specs.List.{position_or_len};
ghost use Rattle.std.specs.Result.{result_err};
ghost use Rattle.sk_resp.specs.Spelling.{Bytes};
ghost use Rattle.sk_batch.specs.Batched.{BatchEntry, MemberEntry, has_bid, is_member, is_there};
ghost use Rattle.sk_batch.specs.Faults.{batch_fault, bid_fault, has_repeated, jids_fault};
ghost use Rattle.sk_batch.specs.Open.{is_settled};
ghost use Rattle.sk_batch.specs.Order.{is_ordered};
ghost use Rattle.sk_batch.specs.States.{BatchInvariant, of_lists, seen_of};

use crate::batch_list::BatchList;
use crate::members::member_at;
use crate::{BatchFault, Member, Memory, Progress};
use sk_resp::Word;
use sk_undo::UndoList;
use std::alloc::Global;
use std::collections::BTreeSet;

#[tactic(auto, using(crate::proofs::Places::any_position, crate::proofs::Places::no_position))]
fn is_member(members: &UndoList<Progress, Member>, bid: &[u8], jid: &[u8]) -> bool
    requires { is_ordered members.now.list.current ≡ true }
    ensures { result ≡ is_member bid.now jid.now members.now.list.current }
{
    member_at(members, bid, jid) < members.len()
}

#[tactic(auto, using(crate::proofs::Places::any_position, crate::proofs::Places::no_position, crate::proofs::Along::any_retag))]
fn is_there(batches: &BatchList, bid: &[u8]) -> bool
    ensures { result ≡ is_there bid.now (seen_of batches.now.list.current) }
{
    batches.find(bid) < batches.len()
}

// Whether the batch at a place has no open member.
fn is_settled(batches: &BatchList, at: usize) -> bool
    requires { at < length batches.now.list.current }
    ensures { (members : List MemberEntry) (bid : Bytes) → BatchInvariant batches.now.list.current members → at ≡ position_or_len (has_bid bid) batches.now.list.current → result ≡ is_settled (of_lists (seen_of batches.now.list.current) members) bid }
{
    batches.get(at).0.numbers.under.unreturned == 0
}

/// The rules on the batch that jobs are added to.
pub fn check_batch(batches: &BatchList, bid: &[u8]) -> Result<(), BatchFault>
    ensures { (members : List MemberEntry) → BatchInvariant batches.now.list.current members → result_err result ≡ batch_fault bid.now (of_lists (seen_of batches.now.list.current) members) None }
{
    let at = batches.find(bid);
    if at == batches.len() {
        Err(BatchFault::NoBatch)
    } else if is_settled(batches, at) {
        Err(BatchFault::Settled)
    } else {
        Ok(())
    }
}

// The rules on the bid of a new batch that has a parent.
fn check_parent(batches: &BatchList, bid: &[u8], parent: &[u8]) -> Result<(), BatchFault>
    ensures { (members : List MemberEntry) → BatchInvariant batches.now.list.current members → result_err result ≡ bid_fault bid.now (Some parent.now) (of_lists (seen_of batches.now.list.current) members) None }
{
    let at = batches.find(parent);
    if at == batches.len() {
        Err(BatchFault::NoBatch)
    } else if is_there(batches, bid) {
        Err(BatchFault::RepeatedBid)
    } else if is_settled(batches, at) {
        Err(BatchFault::Settled)
    } else {
        Ok(())
    }
}

/// The rules on the bid and the parent of a new batch.
pub fn check_bid(batches: &BatchList, bid: &[u8], parent: Option<&[u8]>) -> Result<(), BatchFault>
    ensures { (members : List MemberEntry) → BatchInvariant batches.now.list.current members → result_err result ≡ bid_fault bid.now (option_map (λ p. p.now) parent.entry) (of_lists (seen_of batches.now.list.current) members) None }
{
    if let Some(parent) = parent {
        check_parent(batches, bid, parent)
    } else if is_there(batches, bid) {
        Err(BatchFault::RepeatedBid)
    } else {
        Ok(())
    }
}

// The same, by looking at all jids behind each one. Takes no memory.
fn scan_repeated(members: &UndoList<Progress, Member>, bid: &[u8], jids: &[Word]) -> bool
    requires { is_ordered members.now.list.current ≡ true }
    ensures { result ≡ has_repeated bid.now members.now.list.current jids.now }
{
    let mut left = jids;
    'jids: while let [jid, rest @ ..] = left {
        if is_member(members, bid, jid.bytes()) || rest.contains(jid) {
            return true;
        }
        left = rest;
    }
    false
}

// Whether a jid comes twice, or is a member. One look-up a jid, among the members and among the jids before it.
#[tactic(auto, using(crate::proofs::Repeats::none_seen))]
fn find_repeated(
    alloc: Global,
    members: &UndoList<Progress, Member>,
    bid: &[u8],
    jids: &[Word],
) -> Result<bool, Memory>
    requires { is_ordered members.now.list.current ≡ true }
    ensures { IfOk result (λ found. found ≡ has_repeated bid.now members.now.list.current jids.now) }
{
    let mut seen: BTreeSet<&[u8]> = BTreeSet::new(alloc);
    for jid in jids {
        let bytes = jid.bytes();
        if is_member(members, bid, bytes) {
            return Ok(true);
        }
        let new = seen.insert(bytes)?;
        if !new {
            return Ok(true);
        }
    }
    Ok(false)
}

fn has_repeated(
    alloc: Global,
    members: &UndoList<Progress, Member>,
    bid: &[u8],
    jids: &[Word],
) -> bool
    requires { is_ordered members.now.list.current ≡ true }
    ensures { result ≡ has_repeated bid.now members.now.list.current jids.now }
{
    match find_repeated(alloc, members, bid, jids) {
        Ok(found) => found,
        Err(_) => scan_repeated(members, bid, jids),
    }
}

/// The rule on the jids of new members. Where there is no memory for the jids in order, each is compared with all behind it.
pub fn check_jids(
    alloc: Global,
    members: &UndoList<Progress, Member>,
    bid: &[u8],
    jids: &[Word],
) -> Result<(), BatchFault>
    requires { is_ordered members.now.list.current ≡ true }
    ensures { (batches : List BatchEntry) → result_err result ≡ jids_fault bid.now jids.now (of_lists batches members.now.list.current) None }
{
    if has_repeated(alloc, members, bid, jids) {
        Err(BatchFault::RepeatedJid)
    } else {
        Ok(())
    }
}
