// Sorted sets (Redis, "Sorted sets"): pairs of a score and a member over `ZSet`, with no open step. A ZADD of several pairs is one step, which
// is taken back where memory runs out; what takes pairs out takes no memory.
ghost use Rattle.std.specs.Prelude.{◌≡◌, ◌<◌, ◌^◌, [], None, true, length, IfOk, OnErr, OnOk};
ghost use Rattle.sk_undo.specs.Versions.{edited};
ghost use Rattle.sk_value.specs.Answer.{AnswersWith, UpdatesTo};
ghost use Rattle.sk_value.specs.Sorted.{all_added, all_without, edit_sorted, look_sorted, remaining, without_between, without_range};

use crate::items::{end_index, first_index};
use crate::pairs::look_sorted;
use crate::replies::counted;
use crate::{KeysFault, ReadOp, WriteOp};
use sk_base::{Bound, Score};
use sk_resp::{Memory, Reply, Word, Words};
use sk_zset::ZSet;
use std::alloc::Global;
use std::marker::Model;

/// A sorted set, in a block of its own: so a key without one takes a fraction of its bytes. Contracts see the list of its pairs of a score, in millionths,
/// and a member, by score and then by the members' bytes.
#[derive(Drop)]
pub struct Sorted {
    alloc: Global,
    // None: it never had a pair.
    set: Option<Box<ZSet>>,
}

impl Model for Sorted {
    ghost use Rattle.std.specs.Prelude.{◌≡◌, IfSome, List, None};
    ghost use Rattle.sk_zset.specs.Pair.{Pair};
    ghost use Rattle.sk_value.specs.Sorted.{pairs_in};

    ghost Value = { List Pair };

    ghost view = { λ sorted. pairs_in (λ b. b.value.current) sorted.set };

    ghost invariant = { λ sorted. IfSome sorted.set (λ b. b.value.saved ≡ None) };
}

// Puts a set into a block of its own.
fn boxed(alloc: Global, set: ZSet) -> Result<Box<ZSet>, Memory>
    ensures { IfOk result (λ b. b.value ≡ set) }
{
    Ok(Box::new(alloc, set)?)
}

// Edits a set. An edit of a set that isn't there yet takes the memory of its block.
#[tactic(auto, unfolding(crate::specs::Sorted::edit_sorted))]
fn edit_set(set: &mut ZSet, edit: WriteOp) -> Result<Reply, KeysFault>
    requires { set.old.saved ≡ None }
    ensures done { UpdatesTo (edit_sorted edit set.old.current) result set.new.current }
    ensures closed { set.new.saved ≡ None }
    ensures err { OnErr result (set.new ≡ set.old) }
{
    let before = set.len();
    match edit {
        WriteOp::Zadd(more) => {
            add_all(set, more.into_list())?;
            Ok(counted(set.len().saturating_sub(before) as usize))
        }
        WriteOp::Zrem(members) => {
            remove_all(set, &members);
            Ok(counted(before.saturating_sub(set.len()) as usize))
        }
        WriteOp::Zremrangebyrank(first, last) => {
            remove_range(set, first, last);
            Ok(counted(before.saturating_sub(set.len()) as usize))
        }
        WriteOp::Zremrangebyscore(least, greatest) => {
            set.remove_scores(least, greatest);
            Ok(counted(before.saturating_sub(set.len()) as usize))
        }
        _ => Err(KeysFault::WrongType),
    }
}

impl Sorted {
    /// Takes no memory.
    pub fn new(alloc: Global) -> Sorted
        ensures { result ≡ [] }
    {
        Sorted { alloc, set: None }
    }

    pub fn len(&self) -> usize
        ensures is { result ≡ length self.now }
        ensures small { result < 2 ^ 63 }
    {
        match &self.set {
            Some(set) => set.len() as usize,
            None => 0,
        }
    }

    /// What `ZCARD key`, `ZSCORE key member`, `ZRANGE key first last [WITHSCORES]` and `ZRANGEBYSCORE key min max [WITHSCORES] [LIMIT skip count]`
    /// answer (Redis, "Sorted sets"). Another command is `WrongType`.
    pub fn look(&self, alloc: Global, look: &ReadOp) -> Result<Reply, KeysFault>
        ensures { AnswersWith (look_sorted look.now self.now) result }
    {
        match &self.set {
            Some(set) => look_sorted(alloc, &**set, look),
            None => look_sorted(alloc, &ZSet::new(alloc), look),
        }
    }

    /// Whether the edit takes out all pairs, from the first rank to the last or by their scores. Logarithmic. An answer of no says nothing.
    pub fn is_emptied_by(&self, edit: &WriteOp) -> bool
        ensures { result ≡ true → edit_sorted edit.now self.now ≡ remaining self.now [] }
    {
        match &self.set {
            Some(set) => is_emptied_by(&**set, edit),
            None => false,
        }
    }

    // What an edit of a set without a block answers. The set gets one where it has pairs then.
    fn edit_first(&mut self, edit: WriteOp) -> Result<Reply, KeysFault>
        requires { self.old ≡ [] }
        ensures done { UpdatesTo (edit_sorted edit self.old) result self.new }
        ensures err { OnErr result (self.new ≡ self.old) }
    {
        let mut set = ZSet::new(self.alloc);
        let reply = edit_set(&mut set, edit)?;
        if set.len() == 0 {
            self.set = None;
        } else {
            self.set = Some(boxed(self.alloc, set)?);
        }
        Ok(reply)
    }

    /// What `ZADD key score member ..`, `ZREM key member ..`, `ZREMRANGEBYRANK key first last` and `ZREMRANGEBYSCORE key min max` answer, and the
    /// sorted set afterwards. Another command is `WrongType`. All but ZADD take no memory.
    pub fn edit(&mut self, edit: WriteOp) -> Result<Reply, KeysFault>
        ensures done { UpdatesTo (edit_sorted edit self.old) result self.new }
        ensures err { OnErr result (self.new ≡ self.old) }
    {
        match &mut self.set {
            Some(set) => edit_set(&mut **set, edit),
            None => self.edit_first(edit),
        }
    }
}

// Whether all pairs stand from index `first` to index `last`, both included.
#[tactic(auto, using(crate::proofs::Emptied::all_ranks))]
fn has_all(set: &ZSet, first: i64, last: i64) -> bool
    ensures { result ≡ true → without_range first last set.now.current ≡ [] }
{
    let count = set.len() as usize;
    first_index(first, count) == 0 && end_index(last, count) == count
}

// Whether all pairs have a score within the bounds.
#[tactic(auto, using(crate::proofs::Emptied::all_scores))]
fn are_between(set: &ZSet, least: Bound, greatest: Bound) -> bool
    ensures { result ≡ true → without_between least greatest set.now.current ≡ [] }
{
    set.count_between(least, greatest) == set.len()
}

// Whether the edit takes out all pairs, from the first rank to the last or by their scores.
#[tactic(auto, unfolding(crate::specs::Sorted::edit_sorted))]
fn is_emptied_by(set: &ZSet, edit: &WriteOp) -> bool
    ensures { result ≡ true → edit_sorted edit.now set.now.current ≡ remaining set.now.current [] }
{
    match edit {
        WriteOp::Zremrangebyrank(first, last) => has_all(set, *first, *last),
        WriteOp::Zremrangebyscore(least, greatest) => are_between(set, *least, *greatest),
        _ => false,
    }
}

// Adds each pair in turn, all of them or none.
fn add_all(set: &mut ZSet, pairs: Vec<(Score, Word)>) -> Result<(), Memory>
    requires { set.old.saved ≡ None }
    ensures ok { OnOk result (set.new ≡ edited (all_added pairs.items set.old.current) set.old) }
    ensures err { OnErr result (set.new ≡ set.old) }
{
    set.begin();
    match add_each(set, pairs) {
        Ok(()) => {
            set.commit();
            Ok(())
        }
        Err(_) => {
            set.undo();
            Err(Memory)
        }
    }
}

// Adds each pair in turn. After want of memory some of them stand.
fn add_each(set: &mut ZSet, pairs: Vec<(Score, Word)>) -> Result<(), Memory>
    ensures ok { OnOk result (set.new ≡ edited (all_added pairs.items set.old.current) set.old) }
    ensures step { set.new.saved ≡ set.old.saved }
{
    for (score, member) in pairs {
        set.add(score, member)?;
    }
    Ok(())
}

// Takes each member's pair out.
fn remove_all(set: &mut ZSet, members: &Words)
    requires { set.old.saved ≡ None }
    ensures { set.new ≡ edited (all_without members.now set.old.current) set.old }
{
    for member in members.list() {
        set.take(member.bytes());
    }
}

// Takes the pairs from index `first` to index `last` out, both included.
#[tactic(auto, using(crate::proofs::Ranks::ranks_taken))]
fn remove_range(set: &mut ZSet, first: i64, last: i64)
    requires { set.old.saved ≡ None }
    ensures { set.new ≡ edited (without_range first last set.old.current) set.old }
{
    let count = set.len() as usize;
    let start = first_index(first, count);
    let end = end_index(last, count);
    set.remove_ranks(start as u64, end.saturating_sub(start) as u64);
}
