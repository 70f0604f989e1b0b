// The members, in order: where one stands, and where a new one is to stand.
ghost use Rattle.std.specs.Prelude.{◌≡◌, ◌≤◌, true, not, length};
ghost use Rattle.std.specs.List.{position_or_len};
ghost use Rattle.sk_batch.specs.Batched.{is_job};
ghost use Rattle.sk_batch.specs.Order.{is_ordered, precedes};

use crate::{Member, Progress};
use sk_undo::{Predicate, UndoList};

// Passes the members that are this job in this batch.
#[derive(Drop)]
struct IsJob<'a> {
    bid: &'a [u8],
    jid: &'a [u8],
}

impl<'a> Predicate<(Progress, Member)> for IsJob<'a> {
    ghost passes = { λ t m. is_job t.bid.now t.jid.now m };

    fn test(&self, entry: &(Progress, Member)) -> bool {
        entry.1.bid.bytes() == self.bid && entry.1.jid.bytes() == self.jid
    }
}

// Passes the members that don't stand before this job in this batch.
#[derive(Drop)]
struct NotBefore<'a> {
    bid: &'a [u8],
    jid: &'a [u8],
}

impl<'a> Predicate<(Progress, Member)> for NotBefore<'a> {
    ghost use Rattle.sk_batch.specs.Order.{precedes};

    ghost passes = { λ t m. not (precedes m.1 (record { bid = t.bid.now; jid = t.jid.now })) };

    fn test(&self, entry: &(Progress, Member)) -> bool {
        !entry
            .1
            .bid
            .bytes()
            .cmp(self.bid)
            .then(entry.1.jid.bytes().cmp(self.jid))
            .is_lt()
    }
}

// Passes the members that a new one is to stand before.
#[derive(Drop)]
struct Behind<'a> {
    new: &'a (Progress, Member),
}

impl<'a> Predicate<(Progress, Member)> for Behind<'a> {
    ghost use Rattle.sk_batch.specs.Order.{precedes};

    ghost passes = { λ t m. precedes t.new.now.1 m.1 };

    fn test(&self, entry: &(Progress, Member)) -> bool {
        self.new
            .1
            .bid
            .cmp(&entry.1.bid)
            .then(self.new.1.jid.cmp(&entry.1.jid))
            .is_lt()
    }
}

/// The place of the job among the members; the number of members where it is none of this batch. Logarithmic.
#[tactic(auto, using(crate::proofs::Order::found_here))]
pub fn member_at(members: &UndoList<Progress, Member>, bid: &[u8], jid: &[u8]) -> usize
    requires { is_ordered members.now.list.current ≡ true }
    ensures is { result ≡ position_or_len (is_job bid.now jid.now) members.now.list.current }
    ensures within { result ≤ length members.now.list.current }
{
    let at = members.partition_point(&NotBefore { bid, jid });
    let end = members.len();
    if at == end {
        return end;
    }
    if (IsJob { bid, jid }).test(members.get(at)) {
        at
    } else {
        end
    }
}

/// The place that a new member is to have. Logarithmic.
pub fn place_for(members: &UndoList<Progress, Member>, new: &(Progress, Member)) -> usize
    requires { is_ordered members.now.list.current ≡ true }
    ensures is { result ≡ position_or_len (λ m. precedes new.now.1 m.1) members.now.list.current }
    ensures within { result ≤ length members.now.list.current }
{
    members.partition_point(&Behind { new })
}
