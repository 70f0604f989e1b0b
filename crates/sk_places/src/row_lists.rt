// The rows as they are kept. A queue and a private list is a deque under its place, which stands once; so a row comes and goes at an end, or from
// one to another, in constant time. Each set of jobs is a list by score and text. Memory is taken by `prepare`, so what follows can't fail.
ghost use Rattle.std.specs.Prelude.{◌≡◌, ◌+◌, ◌<◌, ◌≤◌, ◌&&◌, true, None, Some, [], IfOk, IsSome, OnOk, drop, length, map, option_map, slice_get, take};
ghost use Rattle.std.specs.BTreeMap.{is_at as is_key};
ghost use Rattle.std.specs.List.{position_or_len, remove};
ghost use Rattle.std.specs.Map.{lookup};
ghost use Rattle.std.specs.Option.{is_some};
ghost use Rattle.sk_undo.specs.Versions.{begun, closed, committed, edited, undone};
ghost use Rattle.sk_places.specs.Entries.{as_row, shifted};
ghost use Rattle.sk_places.specs.RowLists.{AreLists, IsOneLess, IsReady, is_list, listed, rows_in, start_of};
ghost use Rattle.sk_places.specs.Order.{is_ordered};
ghost use Rattle.sk_places.specs.Rows.{place_cmp, put_row, rows_at};
ghost use Rattle.sk_places.specs.RowFilter.{selects};

use crate::Memory;
use crate::job_sets::JobSets;
use crate::row::{Place, RowKey};
use crate::row_filter::RowFilter;
use crate::spare::Spare;
use crate::tagged_payload::TaggedPayload;
use sk_base::Score;
use sk_cmd::Side;
use sk_deques::UndoDeques;
use sk_payload::JobText;
use sk_resp::Word;
use sk_undo::UndoMap;
use std::alloc::Global;

/// All rows: each deque by its number under its place, and the sets. A deque that no place has is spare.
#[derive(Drop)]
pub struct RowLists {
    pub names: UndoMap<Place, usize>,
    pub deques: UndoDeques<Score, TaggedPayload>,
    pub sets: JobSets,
    pub spare: Spare,
}

/// The number of a place's deque.
pub fn number_of(names: &UndoMap<Place, usize>, place: &Place) -> Option<usize>
    ensures { result ≡ lookup (is_key (place_cmp place.now)) names.now.list.current }
{
    names.get(place).copied()
}

/// Whether both are queues or private lists.
pub fn are_lists(place: &Place, other: &Place) -> bool
    ensures { result ≡ (is_list place.now && is_list other.now) }
{
    place.is_list() && other.is_list()
}

impl RowLists {
    /// Takes no memory.
    pub fn new(alloc: Global) -> RowLists
        ensures lists { AreLists result }
        ensures rows { rows_in result ≡ closed [] }
    {
        RowLists {
            names: UndoMap::new(alloc),
            deques: UndoDeques::new(alloc),
            sets: JobSets::new(alloc),
            spare: Spare::new(alloc),
        }
    }

    /// How many rows a place has.
    pub fn len(&self, place: &Place) -> usize
        requires lists { AreLists self.now }
        requires ordered { is_ordered (rows_in self.now).current ≡ true }
        ensures { result ≡ length (rows_at place.now (rows_in self.now).current) }
    {
        match place {
            Place::Set(set) => self.len_set(*set),
            _ => self.len_listed(place),
        }
    }

    /// The row of a place at an index.
    pub fn get(&self, place: &Place, at: usize) -> (Score, &JobText)
        requires lists { AreLists self.now }
        requires ordered { is_ordered (rows_in self.now).current ≡ true }
        requires within { at < length (rows_at place.now (rows_in self.now).current) }
        ensures { slice_get (rows_at place.now (rows_in self.now).current) at ≡ Some (listed place.now (result.0, result.1.now)) }
    {
        match place {
            Place::Set(set) => self.get_set(*set, at),
            _ => self.get_listed(place, at),
        }
    }

    /// Takes the memory for so many further rows at a place and as many further edits.
    pub fn prepare(&mut self, place: &Place, count: usize) -> Result<(), Memory>
        requires lists { AreLists self.old }
        ensures lists { AreLists self.new }
        ensures rows { rows_in self.new ≡ rows_in self.old }
        ensures ready { OnOk result (IsReady count place.now self.new) }
    {
        self.sets.reserve(count)?;
        if place.is_list() {
            self.prepare_listed(place, count)?;
            Ok(())
        } else {
            self.deques.reserve_edits(count)?;
            Ok(())
        }
    }

    /// Puts a row in at an end of its place, which in a set is where its score and its text have it.
    pub fn put(&mut self, row_key: RowKey, payload: JobText, end: Side)
        requires lists { AreLists self.old }
        requires ordered { is_ordered (rows_in self.old).current ≡ true }
        requires ready { IsReady 1 row_key.place self.old }
        ensures lists { AreLists self.new }
        ensures rows { rows_in self.new ≡ edited (put_row end (as_row (row_key, payload)) (rows_in self.old).current) (rows_in self.old) }
    {
        match &row_key.place {
            Place::Set(set) => self.put_set(*set, row_key.score, payload, end),
            place => self.put_listed(place, row_key.score, payload, end),
        }
    }

    /// Takes a row out. An open step keeps it until it is closed.
    pub fn drop_out(&mut self, place: &Place, at: usize)
        requires lists { AreLists self.old }
        requires ordered { is_ordered (rows_in self.old).current ≡ true }
        requires within { at < length (rows_at place.now (rows_in self.old).current) }
        requires edits { 0 < self.old.deques.room }
        requires sets { 0 < self.old.sets.room }
        ensures lists { AreLists self.new }
        ensures ready { IsOneLess self.old self.new }
        ensures rows { rows_in self.new ≡ edited (remove (rows_in self.old).current (start_of place.now (rows_in self.old).current + at)) (rows_in self.old) }
    {
        match place {
            Place::Set(set) => self.drop_set(*set, at),
            _ => self.drop_listed(place, at),
        }
    }

    /// Takes a row out and gives it to the caller. Takes no memory.
    pub fn take(&mut self, place: &Place, at: usize) -> (Score, JobText)
        requires lists { AreLists self.old }
        requires ordered { is_ordered (rows_in self.old).current ≡ true }
        requires within { at < length (rows_at place.now (rows_in self.old).current) }
        requires closed { (rows_in self.old).saved ≡ None }
        ensures lists { AreLists self.new }
        ensures row { slice_get (rows_at place.now (rows_in self.old).current) at ≡ Some (listed place.now result) }
        ensures rows { rows_in self.new ≡ edited (remove (rows_in self.old).current (start_of place.now (rows_in self.old).current + at)) (rows_in self.old) }
    {
        match place {
            Place::Set(set) => self.take_set(*set, at),
            _ => self.take_listed(place, at),
        }
    }

    /// Takes a row out, and puts this copy of it in at an end of another place, or of the same.
    pub fn shift_copy(&mut self, from: &Place, at: usize, row_key: RowKey, copy: JobText, end: Side)
        requires lists { AreLists self.old }
        requires ordered { is_ordered (rows_in self.old).current ≡ true }
        requires within { at < length (rows_at from.now (rows_in self.old).current) }
        requires copy { option_map (λ row. row.text) (slice_get (rows_at from.now (rows_in self.old).current) at) ≡ Some copy }
        requires ready { IsReady 2 row_key.place self.old }
        ensures lists { AreLists self.new }
        ensures rows { rows_in self.new ≡ edited (shifted end (start_of from.now (rows_in self.old).current + at) row_key (rows_in self.old).current) (rows_in self.old) }
    {
        self.drop_out(from, at);
        self.put(row_key, copy, end);
    }

    /// Takes the memory for one further edit that puts no row in.
    pub fn reserve(&mut self) -> Result<(), Memory>
        requires lists { AreLists self.old }
        ensures lists { AreLists self.new }
        ensures rows { rows_in self.new ≡ rows_in self.old }
        ensures edits { OnOk result (0 < self.new.deques.room) }
        ensures sets { OnOk result (0 < self.new.sets.room) }
    {
        self.sets.reserve(1)?;
        self.deques.reserve_edits(1)
    }

    pub fn is_open(&self) -> bool
        requires { AreLists self.now }
        ensures { result ≡ is_some (rows_in self.now).saved }
    {
        self.deques.is_open()
    }

    /// Opens a step. Takes no memory.
    pub fn begin(&mut self)
        requires lists { AreLists self.old }
        requires closed { (rows_in self.old).saved ≡ None }
        ensures lists { AreLists self.new }
        ensures rows { rows_in self.new ≡ begun (rows_in self.old) }
    {
        self.deques.begin();
        self.sets.begin();
    }

    /// Closes the step, and what stood at its begin stands again. Takes no memory.
    pub fn undo(&mut self)
        requires lists { AreLists self.old }
        requires open { IsSome (rows_in self.old).saved }
        ensures lists { AreLists self.new }
        ensures rows { rows_in self.new ≡ undone (rows_in self.old) }
    {
        self.deques.undo();
        self.sets.undo();
    }

    /// Closes the step, and what stands now stays. Wants no memory. Some places without a row lose their deques.
    pub fn commit(&mut self)
        requires lists { AreLists self.old }
        requires open { IsSome (rows_in self.old).saved }
        ensures lists { AreLists self.new }
        ensures rows { rows_in self.new ≡ committed (rows_in self.old) }
    {
        self.deques.commit();
        self.sets.commit();
        self.sweep();
    }

    /// The index at a place of the first row that is wanted, of those from the index `first` to the one before `end`; `end` where none is. Looks at
    /// these rows one after another.
    pub fn position_wanted(
        &self,
        place: &Place,
        first: usize,
        end: usize,
        wanted: &RowFilter,
    ) -> usize
        requires lists { AreLists self.now }
        requires ordered { is_ordered (rows_in self.now).current ≡ true }
        requires order { first ≤ end }
        requires within { end ≤ length (rows_at place.now (rows_in self.now).current) }
        ensures is { result ≡ first + position_or_len (selects place.now wanted.now) (drop first (take end (rows_at place.now (rows_in self.now).current))) }
        ensures within { result ≤ end }
    {
        match place {
            Place::Set(set) => self.wanted_in_set(*set, first, end, wanted),
            _ => self.wanted_listed(place, first, end, wanted),
        }
    }

    /// Copies of the texts of a place's rows, from the index `start` to the one before `end`.
    pub fn texts(
        &self,
        alloc: Global,
        place: &Place,
        start: usize,
        end: usize,
    ) -> Result<Vec<Word>, Memory>
        requires lists { AreLists self.now }
        requires ordered { is_ordered (rows_in self.now).current ≡ true }
        ensures { IfOk result (λ texts. texts.items ≡ map (λ row. row.text) (drop start (take end (rows_at place.now (rows_in self.now).current)))) }
    {
        match place {
            Place::Set(set) => self.texts_in_set(alloc, *set, start, end),
            _ => self.texts_listed(alloc, place, start, end),
        }
    }
}
