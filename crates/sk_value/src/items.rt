// Lists (Redis, "Lists"): texts in a deque, cheap at both ends. A push of many is whole or not at all, and LREM turns the deque once and
// takes no memory.
ghost use Rattle.std.specs.Prelude.{◌≡◌, ◌≤◌, ◌<◌, ◌^◌, ◌+◌, ◌-◌, ◌++◌, ◌∷◌, [], drop, length, map, min, take, vec_len, IfOk, IfSome, IfNone, OnOk, OnErr, MatchOption, Some, None};
ghost use Rattle.std.specs.Option.{option_copied};
ghost use Rattle.std.specs.VecDeque.{deque_capacity, deque_len};
ghost use Rattle.sk_resp.specs.Reply.{wire};
ghost use Rattle.sk_resp.specs.Spelling.{bulk};
ghost use Rattle.sk_value.specs.Answer.{AnswersWith, UpdatesTo, texts};
ghost use Rattle.sk_value.specs.Lists.{edit_list, end_index, end_of, first_index, look_list, push_all, push_one, range_of, read_from, take_one, without_first, without_some};

use crate::replies::counted;
use crate::{KeysFault, ReadOp, WriteOp};
use sk_cmd::Side;
use sk_resp::{Memory, Replies, Reply, Word, Words};
use std::alloc::Global;
use std::collections::VecDeque;
use std::marker::Model;

/// A list of texts. Contracts see the list, from left to right.
#[derive(Drop)]
pub struct Items {
    list: VecDeque<Word>,
}

impl Model for Items {
    ghost use Rattle.std.specs.Prelude.{List, ℕ};

    ghost Value = { List (List ℕ) };

    ghost view = { λ items. items.list.items };
}

impl Items {
    /// Takes no memory.
    pub fn new(alloc: Global) -> Items
        ensures { result ≡ [] }
    {
        Items {
            list: VecDeque::new(alloc),
        }
    }

    pub fn len(&self) -> usize
        ensures is { result ≡ length self.now }
        ensures small { result < 2 ^ 63 }
    {
        self.list.len()
    }

    /// What `LRANGE key first last` and `LLEN key` answer (Redis, "Lists"). Another command is `WrongType`.
    pub fn look(&self, alloc: Global, look: &ReadOp) -> Result<Reply, KeysFault>
        ensures { AnswersWith (look_list look.now self.now) result }
    {
        match look {
            ReadOp::Lrange(first, last) => Ok(self.range(alloc, *first, *last)?),
            ReadOp::Llen => Ok(counted(self.len())),
            _ => Err(KeysFault::WrongType),
        }
    }

    /// What `LPUSH key element ..`, `RPUSH key element ..` and `LREM key count element` answer, and the list afterwards. Another command is
    /// `WrongType`. LREM takes no memory.
    #[tactic(auto, unfolding(crate::specs::Lists::edit_list))]
    pub fn edit(&mut self, edit: WriteOp) -> Result<Reply, KeysFault>
        ensures done { UpdatesTo (edit_list edit self.old) result self.new }
        ensures err { OnErr result (self.new ≡ self.old) }
    {
        match edit {
            WriteOp::Push(side, texts) => {
                self.push_all(side, texts)?;
                Ok(counted(self.len()))
            }
            WriteOp::Lrem(count, text) => Ok(counted(self.remove_some(count, &text))),
            _ => Err(KeysFault::WrongType),
        }
    }

    /// Puts the text at that end.
    pub fn push(&mut self, side: Side, text: Word) -> Result<(), Memory>
        ensures ok { OnOk result (self.new ≡ push_one side text self.old) }
        ensures err { OnErr result (self.new ≡ self.old) }
    {
        let pushed = match side {
            Side::Left => self.list.push_front(text),
            Side::Right => self.list.push_back(text),
        };
        match pushed {
            Ok(()) => Ok(()),
            Err(_) => Err(Memory),
        }
    }

    /// Takes the text from that end, if there is one. Takes no memory.
    #[tactic(auto, using(crate::proofs::Ends::taken, crate::proofs::Ends::none_taken))]
    pub fn take(&mut self, side: Side) -> Option<Word>
        ensures { MatchOption result ((take_one side self.old ≡ None) × (self.new ≡ self.old)) (λ text. take_one side self.old ≡ Some (text, self.new)) }
    {
        pop(&mut self.list, side)
    }

    /// An equal text to that at the end, if there is one.
    pub fn copy_end(&self, side: Side) -> Result<Option<Word>, Memory>
        ensures { IfOk result (λ found. found ≡ end_of side self.now) }
    {
        match self.end(side) {
            None => Ok(None),
            Some(text) => Ok(Some(text.copy()?)),
        }
    }

    // The text at that end, if there is one.
    #[tactic(auto, using(crate::proofs::Ends::first_end, crate::proofs::Ends::last_end, crate::proofs::Ends::no_end))]
    fn end(&self, side: Side) -> Option<&Word>
        ensures { option_copied result ≡ end_of side self.now }
    {
        match side {
            Side::Left => self.list.front(),
            Side::Right => self.list.back(),
        }
    }

    // Puts each text in turn at that end, all of them or none.
    fn push_all(&mut self, side: Side, texts: Words) -> Result<(), Memory>
        ensures ok { OnOk result (self.new ≡ push_all side texts self.old) }
        ensures err { OnErr result (self.new ≡ self.old) }
    {
        let texts = texts.into_list();
        self.list.reserve(texts.len())?;
        push_reserved(&mut self.list, side, texts);
        Ok(())
    }

    // The elements from index `first` to index `last`, both included.
    fn range(&self, alloc: Global, first: i64, last: i64) -> Result<Reply, Memory>
        ensures { IfOk result (λ reply. reply ≡ texts (range_of first last self.now)) }
    {
        let count = self.list.len();
        let start = first_index(first, count);
        let end = end_index(last, count);
        Ok(Reply::Array(Replies::new(self.part(alloc, start, end)?)))
    }

    // The elements from index `start` to the one before `end`, as replies.
    #[tactic(auto, using(crate::proofs::Parts::drop_past))]
    fn part(&self, alloc: Global, start: usize, end: usize) -> Result<Vec<Reply>, Memory>
        requires { end ≤ length self.now }
        ensures { IfOk result (λ replies. map wire replies.items ≡ map bulk (drop start (take end self.now))) }
    {
        if start >= end {
            return Ok(Vec::new(alloc));
        }
        let mut replies = Vec::with_capacity(alloc, end - start)?;
        for at in start..end {
            replies.push(Reply::Bulk(self.list[at].copy()?))?;
        }
        Ok(replies)
    }

    // Takes away what LREM does, and tells how many. Takes no memory.
    #[tactic(auto, using(crate::proofs::Dropping::drop_all))]
    fn remove_some(&mut self, count: i64, text: &Word) -> usize
        ensures items { self.new ≡ without_some count text.now self.old }
        ensures count { result ≡ length self.old - length self.new }
        ensures small { result < 2 ^ 63 }
    {
        let before = self.list.len();
        if count < 0 {
            remove_first(
                &mut self.list,
                Side::Right,
                count.unsigned_abs() as usize,
                text,
            );
        } else if count == 0 {
            remove_first(&mut self.list, Side::Left, usize::MAX, text);
        } else {
            remove_first(&mut self.list, Side::Left, count as usize, text);
        }
        before - self.list.len()
    }
}

/// The index of the element with which a range of a list begins, where an index below zero counts from the end.
pub fn first_index(first: i64, count: usize) -> usize
    ensures { result ≡ first_index first count }
{
    if first < 0 {
        count.saturating_sub(first.unsigned_abs() as usize)
    } else {
        first as usize
    }
}

/// The index behind the element with which a range ends, within the list.
pub fn end_index(last: i64, count: usize) -> usize
    ensures { result ≡ min count (end_index last count) }
{
    if last < 0 {
        count.saturating_sub(last.unsigned_abs() as usize - 1)
    } else {
        count.min(last as usize + 1)
    }
}

// Puts each text in turn at that end, where there is room.
fn push_reserved(list: &mut VecDeque<Word>, side: Side, texts: Vec<Word>)
    requires { deque_len list.old + vec_len texts ≤ deque_capacity list.old }
    ensures { list.new.items ≡ push_all side texts.items list.old.items }
{
    for text in texts {
        match side {
            Side::Left => list.push_front_reserved(text),
            Side::Right => list.push_back_reserved(text),
        }
    }
}

// Takes the text from that end.
#[tactic(auto, using(crate::proofs::Ends::reverse_of_push))]
fn pop(list: &mut VecDeque<Word>, side: Side) -> Option<Word>
    ensures some { IfSome result (λ text. read_from side list.old.items ≡ text ∷ read_from side list.new.items) }
    ensures none { IfNone result ((list.old.items ≡ []) × (list.new.items ≡ [])) }
    ensures len { MatchOption result (deque_len list.old ≡ 0) (λ _. deque_len list.new + 1 ≡ deque_len list.old) }
    ensures capacity { deque_capacity list.new ≡ deque_capacity list.old }
{
    match side {
        Side::Left => list.pop_front(),
        Side::Right => list.pop_back(),
    }
}

// Puts the text behind all others, as they are read from that end, where there is room.
#[tactic(auto, using(crate::proofs::Ends::reverse_of_cons))]
fn put_behind(list: &mut VecDeque<Word>, side: Side, text: Word)
    requires { deque_len list.old < deque_capacity list.old }
    ensures items { read_from side list.new.items ≡ read_from side list.old.items ++ text ∷ [] }
    ensures len { deque_len list.new ≡ deque_len list.old + 1 }
    ensures capacity { deque_capacity list.new ≡ deque_capacity list.old }
{
    match side {
        Side::Left => list.push_back_reserved(text),
        Side::Right => list.push_front_reserved(text),
    }
}

// Takes away those that equal the text, as they are read from that end, at most so many. Each text leaves at that end, and comes back behind
// all others if it stays.
fn remove_first(list: &mut VecDeque<Word>, side: Side, most: usize, text: &Word)
    ensures items { list.new.items ≡ read_from side (without_first most text.now (read_from side list.old.items)) }
    ensures fewer { deque_len list.new ≤ deque_len list.old }
{
    let mut most = most;
    let mut rest = list.len();
    while rest > 0 {
        rest -= 1;
        if let Some(item) = pop(list, side) {
            if most > 0 && item == *text {
                most -= 1;
            } else {
                put_behind(list, side, item);
            }
        }
    }
}
