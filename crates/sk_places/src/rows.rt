// The rows of all places, as one list in the order of places. Beside them are how many rows there are, how many bytes their texts have, what is
// recorded of their jobs, and the index of the sets' rows by their texts.
ghost use Rattle.std.specs.Prelude.{◌≡◌, ◌+◌, ◌^◌, ◌<◌, ◌≤◌, not, true, None, Some, [], IfOk, IfSome, IsSome, OnErr, OnOk, drop, filter, length, map, option_map, slice_get, take};
ghost use Rattle.std.specs.List.{count_by, position_or_len, remove};
ghost use Rattle.std.specs.Option.{is_some};
ghost use Rattle.sk_undo.specs.Balance.{most};
ghost use Rattle.sk_undo.specs.Versions.{begun, closed, committed, edited, undone};
ghost use Rattle.sk_places.specs.Cleared.{every_deleted};
ghost use Rattle.sk_places.specs.LiveJobs.{all_ended, ended, no_jobs, pushed};
ghost use Rattle.sk_places.specs.Totals.{IsCountable, last_outside, last_push, pushes_in};
ghost use Rattle.sk_resp.specs.WordOrder.{text_cmp};
ghost use Rattle.sk_undo.specs.Sorted.{is_sorted};
ghost use Rattle.sk_places.specs.Ends.{left_of, texts_of};
ghost use Rattle.sk_places.specs.declared.ending.Ending.TheVariants.{Deleted};
ghost use Rattle.sk_places.specs.Entries.{as_row};
ghost use Rattle.sk_places.specs.RowLists.{AreLists, is_list, listed, row_at_index, rows_in, shifted_from, start_of};
ghost use Rattle.sk_places.specs.GoneRows.{AreOwn, other_keys};
ghost use Rattle.sk_places.specs.Order.{bytes_of, is_ordered};
ghost use Rattle.sk_places.specs.Rows.{is_at, is_fresh, is_private, next_ident, pair_of, put_row, rows_at, rows_of};
ghost use Rattle.sk_places.specs.Scores.{HasRange};
ghost use Rattle.sk_places.specs.declared.row.Place.TheVariants.{Set};
ghost use Rattle.sk_zset.specs.Bounds.{is_below};
ghost use Rattle.sk_places.specs.Segments.{is_text};
ghost use Rattle.sk_places.specs.RowFilter.{selects};

use crate::gone_rows::{GoneRows, leave_all};
use crate::job_records::JobRecords;
use crate::row::{Place, RowKey};
use crate::row_filter::RowFilter;
use crate::row_lists::{RowLists, are_lists};
use crate::text_index::{TextIndex, add_key, drop_key, key_of, least_score, take_key, take_set};
use crate::{Ending, Memory, Origin, Totals};
use sk_base::limits::MOST_ROWS;
use sk_base::{Bound, Score};
use sk_cmd::{Scored, Side};
use sk_payload::JobText;
use sk_resp::Word;
use sk_undo::UndoMultiset;
use std::alloc::Global;
use std::marker::Model;

/// How many rows there are, and how many bytes their texts have.
#[derive(Clone, Copy, Drop)]
pub struct Size {
    pub rows: usize,
    pub bytes: u128,
}

/// At most 2^60 rows in the order of places, each set by score and then by the texts' bytes, and their jobs. Contracts see the list of the rows and
/// which jobs are live: what stands now, and what stood at the begin of an open step.
#[derive(Drop)]
pub struct Rows {
    lists: RowLists,
    size: Size,
    // At the begin of an open step.
    size_then: Size,
    jobs: JobRecords,
    // Of the sets' rows.
    text_index: TextIndex,
}

impl Model for Rows {
    ghost use Rattle.sk_places.specs.RowsView.{RowsView};

    ghost Value = { RowsView };

    ghost use Rattle.sk_places.specs.RowLists.{rows_in};
    ghost use Rattle.sk_places.specs.RowsView.{counts_of, rows_view};
    ghost use Rattle.sk_places.specs.Index.{IsSound};

    ghost view = { λ r. rows_view (rows_in r.lists) r.jobs };

    ghost invariant = { λ r. IsSound r.lists r.size r.size_then (counts_of r.jobs) r.text_index.list };
}

// The size with one more text.
fn raised(size: Size, text: &Word) -> Size
    requires few { size.rows < most }
    requires small { size.bytes < 2 ^ 127 }
    ensures rows { result.rows ≡ size.rows + 1 }
    ensures few { result.rows ≤ most }
    ensures bytes { result.bytes ≡ size.bytes + length text.now }
    ensures short { length text.now < 2 ^ 64 }
{
    Size {
        rows: size.rows + 1,
        bytes: size.bytes + text.bytes().len() as u128,
    }
}

/// The size without a text.
pub fn lowered(size: Size, text: &Word) -> Size
    requires some { 0 < size.rows }
    requires enough { length text.now ≤ size.bytes }
    ensures rows { result.rows + 1 ≡ size.rows }
    ensures bytes { result.bytes + length text.now ≡ size.bytes }
{
    Size {
        rows: size.rows - 1,
        bytes: size.bytes - text.bytes().len() as u128,
    }
}

// Takes all rows of a place out, and the keys of a set's out of the index of texts.
fn take_out(lists: &mut RowLists, text_index: &mut TextIndex, place: &Place) -> Option<GoneRows>
    requires lists { AreLists lists.old }
    requires ordered { is_ordered (rows_in lists.old).current ≡ true }
    requires closed { (rows_in lists.old).saved ≡ None }
    requires index { text_index.old.list.saved ≡ None }
    ensures lists { AreLists lists.new }
    ensures own { AreOwn place.now (rows_in lists.old).current result }
    ensures rows { rows_in lists.new ≡ edited (filter (λ row. not (is_at place.now row)) (rows_in lists.old).current) (rows_in lists.old) }
    ensures index { text_index.new.list ≡ edited (other_keys place.now text_index.old.list.current) text_index.old.list }
{
    match place {
        Place::Set(set) => {
            let keys = take_set(text_index, *set);
            Some(lists.take_all_set(*set, keys))
        }
        _ => lists.take_all_listed(place),
    }
}

impl Rows {
    // No row, where none is counted under any job.
    #[tactic(auto, using(crate::proofs::Indexed::none_indexed))]
    fn with(alloc: Global, jobs: JobRecords) -> Rows
        requires none { jobs.current.counts ≡ [] }
        requires closed { jobs.saved ≡ None }
        ensures list { result.list ≡ closed [] }
        ensures jobs { result.jobs ≡ closed jobs.current.lived }
    {
        let none = Size { rows: 0, bytes: 0 };
        Rows {
            lists: RowLists::new(alloc),
            size: none,
            size_then: none,
            jobs,
            text_index: UndoMultiset::new(alloc),
        }
    }

    /// Takes no memory.
    pub fn new(alloc: Global) -> Rows
        ensures list { result.list ≡ closed [] }
        ensures jobs { result.jobs ≡ closed no_jobs }
    {
        Rows::with(alloc, JobRecords::new(alloc))
    }

    /// Where all rows go, and each job that lives ends as deleted. Takes no memory.
    pub fn all_deleted(&self, alloc: Global) -> Rows
        ensures list { result.list ≡ closed [] }
        ensures jobs { result.jobs ≡ closed (every_deleted self.now.jobs.current) }
        ensures order { is_sorted text_cmp self.now.jobs.current.live ≡ true }
    {
        Rows::with(alloc, self.jobs.all_deleted(alloc))
    }

    pub fn len(&self) -> usize
        ensures is { result ≡ length self.now.list.current }
        ensures small { result ≤ most }
        ensures order { is_ordered self.now.list.current ≡ true }
    {
        self.size.rows
    }

    pub fn is_open(&self) -> bool
        ensures { result ≡ is_some self.now.list.saved }
    {
        self.lists.is_open()
    }

    /// How many bytes the texts of all rows have.
    pub fn byte_count(&self) -> u128
        ensures { result ≡ bytes_of self.now.list.current }
    {
        self.size.bytes
    }

    /// How many rows name the job.
    pub fn count_of(&self, jid: &[u8]) -> usize
        ensures is { result ≡ rows_of jid.now self.now.list.current }
        ensures small { result ≤ most }
    {
        self.jobs.count_of(jid) as usize
    }

    /// How many jobs are live.
    pub fn live_count(&self) -> usize
        ensures is { result ≡ length self.now.jobs.current.live }
        ensures small { result ≤ most }
    {
        self.jobs.live_count()
    }

    /// How many rows were ever pushed.
    pub fn push_count(&self) -> u64
        ensures is { result ≡ pushes_in self.now.jobs.current.totals }
        ensures small { result ≤ last_push }
        ensures outside { self.now.jobs.current.totals.outside ≤ last_outside }
    {
        self.jobs.push_count()
    }

    /// How many rows were ever pushed, and what became of them.
    pub fn totals(&self) -> Totals
        ensures { result ≡ self.now.jobs.current.totals }
    {
        self.jobs.totals()
    }

    /// How many rows a place has.
    pub fn len_at(&self, place: &Place) -> usize
        ensures is { result ≡ length (rows_at place.now self.now.list.current) }
        ensures small { result ≤ most }
        ensures order { is_ordered self.now.list.current ≡ true }
    {
        self.lists.len(place)
    }

    /// The row of a place at an index.
    pub fn get(&self, place: &Place, at: usize) -> (Score, &JobText)
        requires { at < length (rows_at place.now self.now.list.current) }
        ensures own { slice_get (rows_at place.now self.now.list.current) at ≡ Some (listed place.now (result.0, result.1.now)) }
        ensures there { slice_get self.now.list.current (start_of place.now self.now.list.current + at) ≡ Some (listed place.now (result.0, result.1.now)) }
    {
        self.lists.get(place, at)
    }

    // The index in a set of the first row of a text, or how many rows it has. Logarithmic.
    fn position_in_set(&self, set: Scored, text: &[u8]) -> usize
        ensures { result ≡ position_or_len (is_text text.now) (rows_at (Set set) self.now.list.current) }
    {
        match least_score(&self.text_index, set, text) {
            Some(score) => self.lists.position_from(set, score, text),
            None => self.lists.len_set(set),
        }
    }

    /// The index at a place of the first row of a text, or how many rows it has. Logarithmic in a set; looks at the rows of a queue or a private list
    /// one after another.
    pub fn position_of(&self, place: &Place, text: &[u8]) -> usize
        ensures { result ≡ position_or_len (is_text text.now) (rows_at place.now self.now.list.current) }
    {
        match place {
            Place::Set(set) => self.position_in_set(*set, text),
            _ => self.lists.position_of(place, text),
        }
    }

    /// The same of a payload's text. In a queue or a private list it reads the texts of the rows with its tag alone.
    pub fn position_of_payload(&self, place: &Place, payload: &JobText) -> usize
        ensures { result ≡ position_or_len (is_text payload.now) (rows_at place.now self.now.list.current) }
    {
        match place {
            Place::Set(set) => self.position_in_set(*set, payload.text().bytes()),
            _ => self.lists.position_of_payload(place, payload),
        }
    }

    // What `position_wanted` answers, by a look-up: where a text is wanted in a set, and doesn't stand before the index `first`.
    fn look_up_wanted(
        &self,
        place: &Place,
        first: usize,
        end: usize,
        wanted: &RowFilter,
    ) -> Option<usize>
        requires order { first ≤ end }
        requires within { end ≤ length (rows_at place.now self.now.list.current) }
        ensures { IfSome result (λ at. (at ≡ first + position_or_len (selects place.now wanted.now) (drop first (take end (rows_at place.now self.now.list.current)))) × (at ≤ end)) }
    {
        match (place, wanted) {
            (Place::Set(set), RowFilter::Member(text)) => {
                let at = self.position_in_set(*set, text.bytes()).min(end);
                if at < first { None } else { Some(at) }
            }
            _ => None,
        }
    }

    /// The index at a place of the first row that is wanted, of those from the index `first` to the one before `end`; `end` where none is. A text
    /// in a set is looked up, in logarithmic time; else it looks at these rows one after another.
    pub fn position_wanted(
        &self,
        place: &Place,
        first: usize,
        end: usize,
        wanted: &RowFilter,
    ) -> usize
        requires order { first ≤ end }
        requires within { end ≤ length (rows_at place.now self.now.list.current) }
        ensures is { result ≡ first + position_or_len (selects place.now wanted.now) (drop first (take end (rows_at place.now self.now.list.current))) }
        ensures within { result ≤ end }
    {
        match self.look_up_wanted(place, first, end, wanted) {
            Some(at) => at,
            None => self.lists.position_wanted(place, first, end, wanted),
        }
    }

    /// Copies of the texts of a place's rows, from the index `start` to the one before `end`.
    pub fn texts(
        &self,
        alloc: Global,
        place: &Place,
        start: usize,
        end: usize,
    ) -> Result<Vec<Word>, Memory>
        ensures { IfOk result (λ texts. texts.items ≡ map (λ row. row.text) (drop start (take end (rows_at place.now self.now.list.current)))) }
    {
        self.lists.texts(alloc, place, start, end)
    }

    /// A row is pushed to an end of its place. Its job is fresh where no row names it, and it isn't held in a worker's hands.
    pub fn push(
        &mut self,
        row_key: RowKey,
        payload: JobText,
        end: Side,
        from: Origin,
        held: bool,
    ) -> Result<(), Memory>
        requires { IsCountable from self.old.jobs.current.totals }
        ensures ok { OnOk result (self.new.list ≡ edited (put_row end (as_row (row_key, payload)) self.old.list.current) self.old.list) }
        ensures jobs { OnOk result (self.new.jobs ≡ edited (pushed from (is_fresh held self.old.list.current) payload self.old.jobs.current) self.old.jobs) }
        ensures err { OnErr result (self.new ≡ self.old) }
    {
        if self.size.rows == MOST_ROWS {
            return Err(Memory);
        }
        let key = key_of(&row_key, &payload)?;
        self.lists.prepare(&row_key.place, 1)?;
        self.text_index.reserve(1)?;
        self.jobs.push(&payload, from, held)?;
        self.size = raised(self.size, payload.text());
        self.lists.put(row_key, payload, end);
        add_key(&mut self.text_index, key);
        Ok(())
    }

    /// A row comes to an end of its place.
    pub fn put_back(&mut self, row_key: RowKey, payload: JobText, end: Side) -> Result<(), Memory>
        ensures ok { OnOk result (self.new.list ≡ edited (put_row end (as_row (row_key, payload)) self.old.list.current) self.old.list) }
        ensures jobs { OnOk result (self.new.jobs ≡ self.old.jobs) }
        ensures err { OnErr result (self.new ≡ self.old) }
    {
        if self.size.rows == MOST_ROWS {
            return Err(Memory);
        }
        let key = key_of(&row_key, &payload)?;
        self.lists.prepare(&row_key.place, 1)?;
        self.text_index.reserve(1)?;
        self.jobs.add(&payload)?;
        self.size = raised(self.size, payload.text());
        self.lists.put(row_key, payload, end);
        add_key(&mut self.text_index, key);
        Ok(())
    }

    // Moves a row of a queue or a private list to an end of another, or of its own. It isn't copied.
    fn shift_listed(
        &mut self,
        from: &Place,
        at: usize,
        row_key: &RowKey,
        end: Side,
    ) -> Result<(), Memory>
        requires within { at < length (rows_at from.now self.old.list.current) }
        requires from { is_list from.now ≡ true }
        requires to { is_list row_key.now.place ≡ true }
        ensures ok { OnOk result (self.new.list ≡ edited (shifted_from from.now at end row_key.now self.old.list.current) self.old.list) }
        ensures jobs { OnOk result (self.new.jobs ≡ self.old.jobs) }
        ensures err { OnErr result (self.new ≡ self.old) }
    {
        self.lists.prepare(&row_key.place, 2)?;
        self.lists.shift(from, at, row_key, end);
        Ok(())
    }

    // Moves a row by a copy of its payload.
    fn shift_copied(
        &mut self,
        from: &Place,
        at: usize,
        row_key: RowKey,
        end: Side,
    ) -> Result<(), Memory>
        requires { at < length (rows_at from.now self.old.list.current) }
        ensures ok { OnOk result (self.new.list ≡ edited (shifted_from from.now at end row_key self.old.list.current) self.old.list) }
        ensures jobs { OnOk result (self.new.jobs ≡ self.old.jobs) }
        ensures err { OnErr result (self.new ≡ self.old) }
    {
        self.lists.prepare(&row_key.place, 2)?;
        self.text_index.reserve(2)?;
        let (score, payload) = self.lists.get(from, at);
        let copy = payload.copy()?;
        let key = key_of(&row_key, &copy)?;
        drop_key(&mut self.text_index, from, score, &copy);
        add_key(&mut self.text_index, key);
        self.lists.shift_copy(from, at, row_key, copy, end);
        Ok(())
    }

    /// Moves the row of a place at an index to an end of another place, or of the same. From a queue or a private list to another it isn't copied.
    pub fn shift(
        &mut self,
        from: &Place,
        at: usize,
        row_key: RowKey,
        end: Side,
    ) -> Result<(), Memory>
        requires { at < length (rows_at from.now self.old.list.current) }
        ensures ok { OnOk result (self.new.list ≡ edited (shifted_from from.now at end row_key self.old.list.current) self.old.list) }
        ensures jobs { OnOk result (self.new.jobs ≡ self.old.jobs) }
        ensures err { OnErr result (self.new ≡ self.old) }
    {
        if are_lists(from, &row_key.place) {
            self.shift_listed(from, at, &row_key, end)
        } else {
            self.shift_copied(from, at, row_key, end)
        }
    }

    /// Takes the row of a place at an index out, and its job ends in this way, if it does and is live. An open step keeps the row until it is closed.
    pub fn drop_out(&mut self, place: &Place, at: usize, how: Option<Ending>) -> Result<(), Memory>
        requires { at < length (rows_at place.now self.old.list.current) }
        ensures ok { OnOk result (self.new.list ≡ edited (remove self.old.list.current (start_of place.now self.old.list.current + at)) self.old.list) }
        ensures jobs { OnOk result (self.new.jobs ≡ edited (left_of how (row_at_index place.now at self.old.list.current) self.old.jobs.current) self.old.jobs) }
        ensures err { OnErr result (self.new ≡ self.old) }
    {
        self.lists.reserve()?;
        self.text_index.reserve(1)?;
        let (score, payload) = self.lists.get(place, at);
        self.jobs.leave_in_step(payload, how)?;
        drop_key(&mut self.text_index, place, score, payload);
        self.size = lowered(self.size, payload.text());
        self.lists.drop_out(place, at);
        Ok(())
    }

    /// The same where no step is open. Takes no memory.
    pub fn take(&mut self, place: &Place, at: usize, how: Option<Ending>)
        requires within { at < length (rows_at place.now self.old.list.current) }
        requires closed { self.old.list.saved ≡ None }
        ensures index { start_of place.now self.old.list.current + at < length self.old.list.current }
        ensures start { start_of place.now self.new.list.current ≡ start_of place.now self.old.list.current }
        ensures fewer { length (rows_at place.now self.new.list.current) + 1 ≡ length (rows_at place.now self.old.list.current) }
        ensures rest { self.new.list ≡ edited (remove self.old.list.current (start_of place.now self.old.list.current + at)) self.old.list }
        ensures jobs { self.new.jobs ≡ edited (left_of how (row_at_index place.now at self.old.list.current) self.old.jobs.current) self.old.jobs }
    {
        let row = self.lists.take(place, at);
        self.size = lowered(self.size, row.1.text());
        self.jobs.leave(&row.1, how);
        take_key(&mut self.text_index, place, row.0, &row.1);
    }

    /// The job of this payload ends in this way, if it is live. Its rows stay. Takes no memory.
    pub fn end_job(&mut self, payload: &JobText, how: Ending)
        requires { self.old.list.saved ≡ None }
        ensures list { self.new.list ≡ self.old.list }
        ensures jobs { self.new.jobs ≡ edited (ended how payload.now self.old.jobs.current) self.old.jobs }
    {
        self.jobs.end(payload, how);
    }

    /// Takes all rows of a place out, and gives them to the caller; None where it is a queue or a private list that has no deque. The job of each
    /// ends as deleted, if it is live. Takes no memory.
    pub fn take_all(&mut self, place: &Place) -> Option<GoneRows>
        requires { self.old.list.saved ≡ None }
        ensures rest { self.new.list ≡ edited (filter (λ row. not (is_at place.now row)) self.old.list.current) self.old.list }
        ensures jobs { self.new.jobs ≡ edited (all_ended Deleted (texts_of (rows_at place.now self.old.list.current)) self.old.jobs.current) self.old.jobs }
    {
        let gone = take_out(&mut self.lists, &mut self.text_index, place)?;
        self.size = leave_all(&gone, self.size, &mut self.jobs);
        Some(gone)
    }

    /// Opens a step. Takes no memory.
    pub fn begin(&mut self)
        requires { self.old.list.saved ≡ None }
        ensures list { self.new.list ≡ begun self.old.list }
        ensures jobs { self.new.jobs ≡ begun self.old.jobs }
    {
        self.size_then = self.size;
        self.lists.begin();
        self.jobs.begin();
        self.text_index.begin();
    }

    /// Closes the step, and what stood at its begin stands again. Takes no memory.
    pub fn undo(&mut self)
        requires { IsSome self.old.list.saved }
        ensures list { self.new.list ≡ undone self.old.list }
        ensures jobs { self.new.jobs ≡ undone self.old.jobs }
    {
        self.size = self.size_then;
        self.lists.undo();
        self.jobs.undo();
        self.text_index.undo();
    }

    /// Closes the step, and what stands now stays. Wants no memory, and may give some back.
    pub fn commit(&mut self)
        requires { IsSome self.old.list.saved }
        ensures list { self.new.list ≡ committed self.old.list }
        ensures jobs { self.new.jobs ≡ committed self.old.jobs }
    {
        self.lists.commit();
        self.jobs.commit();
        self.text_index.commit();
    }
}

impl Rows {
    /// Copies of a set's pairs of a score and a text, from the index `start` to the one before `end`.
    pub fn pairs(
        &self,
        alloc: Global,
        set: Scored,
        start: usize,
        end: usize,
    ) -> Result<Vec<(Score, Word)>, Memory>
        ensures { IfOk result (λ pairs. pairs.items ≡ map pair_of (drop start (take end (rows_at (Set set) self.now.list.current)))) }
    {
        self.lists.pairs(alloc, set, start, end)
    }

    /// How many rows of a set are below a range of scores that begins at the bound. Logarithmic.
    pub fn count_below(&self, set: Scored, low: Bound) -> usize
        ensures { result ≡ count_by (λ row. is_below low row.score) (rows_at (Set set) self.now.list.current) }
    {
        self.lists.count_below(set, low)
    }

    /// The indexes in a set at which a range of scores begins and has ended. Logarithmic.
    pub fn range_of(&self, set: Scored, low: Bound, high: Bound) -> (usize, usize)
        ensures { HasRange low high result.0 result.1 (rows_at (Set set) self.now.list.current) }
    {
        self.lists.range_of(set, low, high)
    }
}

impl Rows {
    /// How many rows are in private lists. Looks at the places that have a deque.
    pub fn private_count(&self) -> usize
        ensures is { result ≡ count_by is_private self.now.list.current }
        ensures small { result ≤ most }
    {
        self.lists.private_count()
    }

    /// The first identity, by its bytes, behind this one, or of all, that has a private list with a row. Logarithmic, but for private lists that are empty.
    pub fn next_ident(&self, after: Option<&Word>) -> Option<&Word>
        ensures is { option_map (λ ident. ident.now) result ≡ next_ident (option_map (λ word. word.now) after.entry) self.now.list.current }
        ensures order { is_ordered self.now.list.current ≡ true }
    {
        self.lists.next_ident(after)
    }
}
