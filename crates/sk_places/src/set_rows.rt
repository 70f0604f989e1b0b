// The rows of the sets of jobs, each in the list of its set.
ghost use Rattle.std.specs.Prelude.{◌≡◌, ◌+◌, ◌<◌, ◌≤◌, true, not, None, Some, IfOk, drop, filter, length, map, slice_get, take};
ghost use Rattle.std.specs.List.{count_by, position_or_len, remove};
ghost use Rattle.sk_undo.specs.Partitioned.{is_partitioned};
ghost use Rattle.sk_undo.specs.Versions.{edited};
ghost use Rattle.sk_places.specs.Entries.{as_rows};
ghost use Rattle.sk_places.specs.JobSets.{comes_before};
ghost use Rattle.sk_places.specs.RowLists.{AreLists, IsOneLess, is_list, listed, rows_in, start_of};
ghost use Rattle.sk_places.specs.Order.{is_ordered};
ghost use Rattle.sk_places.specs.Rows.{is_at, pair_of, put_row, rows_at};
ghost use Rattle.sk_places.specs.Scores.{HasRange};
ghost use Rattle.sk_places.specs.declared.row.Place.TheVariants.{Set};
ghost use Rattle.sk_zset.specs.Bounds.{is_below};
ghost use Rattle.sk_places.specs.TextIndex.{is_from};
ghost use Rattle.sk_places.specs.RowFilter.{selects};
ghost use Rattle.sk_places.specs.Ends.{texts_of};
ghost use Rattle.sk_places.specs.GoneRows.{texts_in};

use crate::Memory;
use crate::copies::{Pairs, Texts};
use crate::gone_rows::GoneRows;
use crate::row::Place;
use crate::row_filter::{PickedItem, RowFilter};
use crate::row_lists::RowLists;
use crate::search::{AboveOf, Behind, FromPair, ReachedBy};
use crate::text_index::TextIndex;
use sk_base::{Bound, Score};
use sk_cmd::{Scored, Side};
use sk_payload::JobText;
use sk_resp::Word;
use sk_undo::UndoList;
use std::alloc::Global;

// The index in a set at which a new row comes in.
fn place_for(items: &UndoList<Score, JobText>, end: Side, score: Score, text: &Word) -> usize
    requires { is_partitioned (λ item. not (comes_before end (score, text.now) item)) items.now.list.current ≡ true }
    ensures is { result ≡ position_or_len (λ item. not (comes_before end (score, text.now) item)) items.now.list.current }
    ensures within { result ≤ length items.now.list.current }
{
    let text = text.bytes();
    items.partition_point(&Behind { end, score, text })
}

impl RowLists {
    /// How many rows a set has.
    pub fn len_set(&self, set: Scored) -> usize
        requires { AreLists self.now }
        ensures { result ≡ length (rows_at (Set set) (rows_in self.now).current) }
    {
        self.sets.of(set).len()
    }

    /// The row of a set at an index.
    pub fn get_set(&self, set: Scored, at: usize) -> (Score, &JobText)
        requires lists { AreLists self.now }
        requires within { at < length (rows_at (Set set) (rows_in self.now).current) }
        ensures { slice_get (rows_at (Set set) (rows_in self.now).current) at ≡ Some (listed (Set set) (result.0, result.1.now)) }
    {
        let entry = self.sets.of(set).get(at);
        (entry.0, &entry.1)
    }

    /// Puts a row into a set.
    pub fn put_set(&mut self, set: Scored, score: Score, payload: JobText, end: Side)
        requires lists { AreLists self.old }
        requires ordered { is_ordered (as_rows self.old.sets.list.current) ≡ true }
        requires room { 0 < self.old.sets.room }
        ensures lists { AreLists self.new }
        ensures rows { rows_in self.new ≡ edited (put_row end (listed (Set set) (score, payload)) (rows_in self.old).current) (rows_in self.old) }
    {
        let at = place_for(self.sets.of(set), end, score, payload.text());
        self.sets.insert(set, at, (score, payload));
    }

    /// Takes a row of a set out. An open step keeps it until it is closed.
    pub fn drop_set(&mut self, set: Scored, at: usize)
        requires lists { AreLists self.old }
        requires within { at < length (rows_at (Set set) (rows_in self.old).current) }
        requires room { 0 < self.old.sets.room }
        ensures lists { AreLists self.new }
        ensures ready { IsOneLess self.old self.new }
        ensures rows { rows_in self.new ≡ edited (remove (rows_in self.old).current (start_of (Set set) (rows_in self.old).current + at)) (rows_in self.old) }
    {
        self.sets.drop_out(set, at);
    }

    /// Takes a row of a set out and gives it to the caller. Takes no memory.
    pub fn take_set(&mut self, set: Scored, at: usize) -> (Score, JobText)
        requires lists { AreLists self.old }
        requires within { at < length (rows_at (Set set) (rows_in self.old).current) }
        requires closed { (rows_in self.old).saved ≡ None }
        ensures lists { AreLists self.new }
        ensures row { slice_get (rows_at (Set set) (rows_in self.old).current) at ≡ Some (listed (Set set) result) }
        ensures rows { rows_in self.new ≡ edited (remove (rows_in self.old).current (start_of (Set set) (rows_in self.old).current + at)) (rows_in self.old) }
    {
        self.sets.take(set, at)
    }

    /// Takes all rows of a set out, and gives them to the caller beside the keys of their texts. Takes constant time, and no memory.
    pub fn take_all_set(&mut self, set: Scored, keys: TextIndex) -> GoneRows
        requires lists { AreLists self.old }
        requires closed { (rows_in self.old).saved ≡ None }
        ensures lists { AreLists self.new }
        ensures own { texts_of (rows_at (Set set) (rows_in self.old).current) ≡ texts_in result }
        ensures rows { rows_in self.new ≡ edited (filter (λ row. not (is_at (Set set) row)) (rows_in self.old).current) (rows_in self.old) }
    {
        GoneRows::Scored(self.sets.take_all(set), keys)
    }

    /// The index in a set of the first row that doesn't stand before a score and a text, or how many rows it has. Logarithmic.
    pub fn position_from(&self, set: Scored, score: Score, text: &[u8]) -> usize
        requires lists { AreLists self.now }
        requires ordered { is_ordered (as_rows self.now.sets.list.current) ≡ true }
        ensures { result ≡ position_or_len (is_from score text.now) (rows_at (Set set) (rows_in self.now).current) }
    {
        let from = FromPair { score, text };
        self.sets.of(set).partition_point(&from)
    }

    /// The index at a set of the first row that is wanted, of those from the index `first` to the one before `end`.
    pub fn wanted_in_set(&self, set: Scored, first: usize, end: usize, wanted: &RowFilter) -> usize
        requires lists { AreLists self.now }
        requires order { first ≤ end }
        requires within { end ≤ length (rows_at (Set set) (rows_in self.now).current) }
        ensures is { result ≡ first + position_or_len (selects (Set set) wanted.now) (drop first (take end (rows_at (Set set) (rows_in self.now).current))) }
        ensures within { result ≤ end }
    {
        let place = &Place::Set(set);
        let picked = PickedItem { place, wanted };
        self.sets.of(set).position_in(first, end, &picked)
    }

    /// Copies of the texts of rows of a set, from the index `start` to the one before `end`.
    pub fn texts_in_set(
        &self,
        alloc: Global,
        set: Scored,
        start: usize,
        end: usize,
    ) -> Result<Vec<Word>, Memory>
        requires { AreLists self.now }
        ensures { IfOk result (λ texts. texts.items ≡ map (λ row. row.text) (drop start (take end (rows_at (Set set) (rows_in self.now).current)))) }
    {
        let mut copies = Texts {
            texts: Vec::new(alloc),
        };
        self.sets.of(set).walk(start, end, &mut copies)?;
        Ok(copies.texts)
    }

    /// Copies of a set's pairs of a score and a text, from the index `start` to the one before `end`.
    pub fn pairs(
        &self,
        alloc: Global,
        set: Scored,
        start: usize,
        end: usize,
    ) -> Result<Vec<(Score, Word)>, Memory>
        requires { AreLists self.now }
        ensures { IfOk result (λ pairs. pairs.items ≡ map pair_of (drop start (take end (rows_at (Set set) (rows_in self.now).current)))) }
    {
        let mut copies = Pairs {
            pairs: Vec::new(alloc),
        };
        self.sets.of(set).walk(start, end, &mut copies)?;
        Ok(copies.pairs)
    }

    /// How many rows of a set are below a range of scores that begins at the bound. Logarithmic.
    pub fn count_below(&self, set: Scored, low: Bound) -> usize
        requires lists { AreLists self.now }
        requires ordered { is_ordered (as_rows self.now.sets.list.current) ≡ true }
        ensures { result ≡ count_by (λ row. is_below low row.score) (rows_at (Set set) (rows_in self.now).current) }
    {
        self.sets.of(set).partition_point(&ReachedBy { low })
    }

    /// The indexes in a set at which a range of scores begins and has ended. Logarithmic.
    pub fn range_of(&self, set: Scored, low: Bound, high: Bound) -> (usize, usize)
        requires lists { AreLists self.now }
        requires ordered { is_ordered (as_rows self.now.sets.list.current) ≡ true }
        ensures { HasRange low high result.0 result.1 (rows_at (Set set) (rows_in self.now).current) }
    {
        let items = self.sets.of(set);
        let from = items.partition_point(&ReachedBy { low });
        let to = items.partition_point(&AboveOf { high });
        (from, to.max(from))
    }
}
