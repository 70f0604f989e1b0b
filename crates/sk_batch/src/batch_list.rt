// The batches in the order of their making, each found by its bid in logarithmic time. A second index keeps for each bid how many batches were made
// before its own; these stand behind it in the list.
ghost use Rattle.std.proofs.lemmas.Cmp.{nat_list_cmp_total};
ghost use Rattle.std.specs.Prelude.{◌≡◌, ◌+◌, ◌<◌, ◌≤◌, [], ◌∷◌, false, true, IsSome, None, OnOk, drop, length, slice_index_or};
ghost use Rattle.std.specs.List.{list_any, position_or_len};
ghost use Rattle.sk_resp.specs.WordOrder.{text_cmp};
ghost use Rattle.sk_undo.specs.Balance.{most};
ghost use Rattle.sk_undo.specs.Moves.{moved};
ghost use Rattle.sk_undo.specs.Queries.{key_query};
ghost use Rattle.sk_undo.specs.Versions.{begun, closed, committed, edited, undone};
ghost use Rattle.sk_batch.specs.Batched.{has_bid};
ghost use Rattle.sk_batch.specs.Ancestors.{ancestors, first_ancestors};
ghost use Rattle.sk_batch.specs.Places.{each_once, way_up};

use crate::state::State;
use crate::{Batch, Memory};
use sk_resp::Word;
use sk_undo::{Query, UndoList, UndoMap};
use std::alloc::Global;
use std::cmp::Ordering;
use std::marker::Model;

/// Batches, each bid once, the newest first, each with its state. Contracts see what stands, what stood at the begin of an open step, and how many
/// further edits can't fail.
#[derive(Drop)]
pub struct BatchList {
    entries: UndoList<State, Batch>,
    // How many batches were made before this one.
    older: UndoMap<Word, u64>,
}

impl Model for BatchList {
    ghost use Rattle.std.specs.Prelude.{List};
    ghost use Rattle.sk_undo.specs.UndoView.{UndoView};
    ghost use Rattle.sk_batch.specs.declared.batch.Batch.{Batch};
    ghost use Rattle.sk_batch.specs.declared.state.State.{State};

    ghost Value = { UndoView (List (State × Batch)) };

    ghost use Rattle.sk_batch.specs.BatchList.{is_indexed, list_in};

    ghost view = { list_in };

    ghost invariant = { is_indexed };
}

// A bid looked for by its bytes.
#[derive(Drop)]
struct ByBid<'a> {
    bid: &'a [u8],
}

impl<'a> Query<Word> for ByBid<'a> {
    ghost order = { λ query. text_cmp query.bid.now };

    fn cmp_key(&self, key: &Word) -> Ordering {
        self.bid.cmp(key.bytes())
    }

    ghost is_query = { λ query. key_query nat_list_cmp_total query.bid.now };
}

impl BatchList {
    /// Takes no memory.
    pub fn new(alloc: Global) -> BatchList
        ensures { result.list ≡ closed [] }
    {
        BatchList {
            entries: UndoList::new(alloc),
            older: UndoMap::new(alloc),
        }
    }

    /// How many batches there are.
    pub fn len(&self) -> usize
        ensures is { result ≡ length self.now.list.current }
        ensures small { result ≤ most }
        ensures once { each_once self.now.list.current ≡ true }
    {
        self.entries.len()
    }

    /// The batch at a place, and its state. Logarithmic.
    pub fn get(&self, at: usize) -> &(State, Batch)
        requires { at < length self.now.list.current }
        ensures { result.now ≡ slice_index_or self.now.list.current at result.now }
    {
        self.entries.get(at)
    }

    /// The place of the batch of this bid; the number of batches where there is none. Logarithmic.
    pub fn find(&self, bid: &[u8]) -> usize
        ensures is { result ≡ position_or_len (has_bid bid.now) self.now.list.current }
        ensures within { result ≤ length self.now.list.current }
    {
        let len = self.entries.len();
        match self.older.get(&ByBid { bid }) {
            Some(older) => len - 1 - *older as usize,
            None => len,
        }
    }

    // The place of the batch of this bid, from the place `first` on; the number of batches where there is none.
    fn find_from(&self, first: usize, bid: &[u8]) -> usize
        requires { first ≤ length self.now.list.current }
        ensures is { result ≡ first + position_or_len (has_bid bid.now) (drop first self.now.list.current) }
        ensures within { result ≤ length self.now.list.current }
    {
        let at = self.find(bid);
        if at < first { self.len() } else { at }
    }

    /// The batch at a place, and the place of its parent; the number of batches where it has none.
    pub fn climb(&self, at: usize) -> (&(State, Batch), usize)
        requires { at < length self.now.list.current }
        ensures entry { result.0.now ≡ slice_index_or self.now.list.current at result.0.now }
        ensures above { result.1 ≡ at + way_up (drop at self.now.list.current) }
        ensures ancestors { first_ancestors (drop at self.now.list.current) ≡ result.0.now ∷ first_ancestors (drop result.1 self.now.list.current) }
        ensures after { at < result.1 }
        ensures within { result.1 ≤ length self.now.list.current }
    {
        let end = self.entries.len();
        let entry = self.entries.get(at);
        let above = match &entry.1.parent {
            None => end,
            Some(parent) => self.find_from(at + 1, parent.bytes()),
        };
        (entry, above)
    }

    /// Takes the memory for so many further edits.
    pub fn reserve(&mut self, edits: usize) -> Result<(), Memory>
        ensures list { self.new.list ≡ self.old.list }
        ensures ok { OnOk result (edits ≤ self.new.room) }
    {
        self.entries.reserve(edits)?;
        self.older.reserve(edits)
    }

    /// Puts in a new batch, with a copy of its bid.
    pub fn put_first(&mut self, bid: Word, state: State, batch: Batch)
        requires bid { bid ≡ batch.bid }
        requires new { list_any (has_bid bid) self.old.list.current ≡ false }
        requires room { 0 < self.old.room }
        ensures list { self.new.list ≡ edited ((state, batch) ∷ self.old.list.current) self.old.list }
        ensures room { self.old.room ≤ self.new.room + 1 }
    {
        let older = self.entries.len() as u64;
        self.older.put(bid, older);
        self.entries.insert(0, (state, batch));
    }

    /// Gives the batch at a place another state.
    pub fn set_state(&mut self, at: usize, state: State)
        requires within { at < length self.old.list.current }
        requires room { 0 < self.old.room }
        ensures list { self.new.list ≡ edited (moved at at state self.old.list.current) self.old.list }
        ensures room { self.old.room ≤ self.new.room + 1 }
    {
        self.entries.shift(at, at, state);
    }

    /// Opens a step. Takes no memory.
    pub fn begin(&mut self)
        requires { self.old.list.saved ≡ None }
        ensures { self.new.list ≡ begun self.old.list }
    {
        self.entries.begin();
        self.older.begin();
    }

    /// Closes the step, and what stood at its begin stands again. Takes no memory.
    pub fn undo(&mut self)
        requires { IsSome self.old.list.saved }
        ensures { self.new.list ≡ undone self.old.list }
    {
        self.entries.undo();
        self.older.undo();
    }

    /// Closes the step, and what stands now stays. Takes no memory.
    pub fn commit(&mut self)
        requires { IsSome self.old.list.saved }
        ensures { self.new.list ≡ committed self.old.list }
    {
        self.entries.commit();
        self.older.commit();
    }
}
