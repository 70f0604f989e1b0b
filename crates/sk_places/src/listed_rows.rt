// The rows of queues and private lists: each place has a deque under its name.
ghost use Rattle.std.specs.Prelude.{◌≡◌, ◌+◌, ◌<◌, ◌≤◌, true, not, None, Some, IfOk, OnOk, drop, filter, length, map, slice_get, take};
ghost use Rattle.std.specs.BTreeMap.{is_at as is_key};
ghost use Rattle.std.specs.List.{position_or_len, remove};
ghost use Rattle.std.specs.Map.{lookup};
ghost use Rattle.sk_deques.specs.DequeMoves.{list_at, without_item};
ghost use Rattle.sk_undo.specs.Versions.{closed, edited};
ghost use Rattle.sk_places.specs.Entries.{shifted};
ghost use Rattle.sk_places.specs.GoneRows.{AreOwn};
ghost use Rattle.sk_places.specs.RowLists.{AreLists, HasSpace, IsOneLess, IsReady, is_list, listed, place_of, rows_in, start_of};
ghost use Rattle.sk_places.specs.Order.{is_ordered};
ghost use Rattle.sk_places.specs.Rows.{is_at, place_cmp, put_row, rows_at};
ghost use Rattle.sk_places.specs.Segments.{is_text};
ghost use Rattle.sk_places.specs.RowFilter.{selects};

use crate::Memory;
use crate::copies::Texts;
use crate::gone_rows::GoneRows;
use crate::row::{Place, RowKey};
use crate::row_filter::{PickedItem, RowFilter};
use crate::row_lists::{RowLists, number_of};
use crate::search::{Named, Tagged};
use crate::tagged_payload::{TaggedPayload, tag_of};
use sk_base::Score;
use sk_cmd::Side;
use sk_deques::UndoDeques;
use sk_payload::JobText;
use sk_resp::Word;
use std::alloc::Global;

// Where in a deque an item comes to.
fn place_in(deques: &UndoDeques<Score, TaggedPayload>, list: usize, end: Side) -> usize
    requires { list < length deques.now.lists.current }
    ensures { result ≡ place_of end (list_at list deques.now.lists.current) }
{
    match end {
        Side::Left => 0,
        Side::Right => deques.len(list),
    }
}

// Where in the deque `onto` an item comes to once the item at an index of the deque `list`, which may be the same, is taken out.
#[tactic(auto, using(crate::proofs::Shifts::behind_same, crate::proofs::Shifts::behind_other))]
fn place_behind(
    deques: &UndoDeques<Score, TaggedPayload>,
    list: usize,
    at: usize,
    onto: usize,
    end: Side,
) -> usize
    requires list { list < length deques.now.lists.current }
    requires onto { onto < length deques.now.lists.current }
    requires within { at < length (list_at list deques.now.lists.current) }
    ensures { result ≡ place_of end (list_at onto (without_item list at deques.now.lists.current)) }
{
    match end {
        Side::Left => 0,
        Side::Right => {
            let there = deques.len(onto);
            if list == onto { there - 1 } else { there }
        }
    }
}

impl RowLists {
    /// How many rows a queue or a private list has.
    pub fn len_listed(&self, place: &Place) -> usize
        requires lists { AreLists self.now }
        requires list { is_list place.now ≡ true }
        ensures { result ≡ length (rows_at place.now (rows_in self.now).current) }
    {
        match number_of(&self.names, place) {
            Some(list) => self.deques.len(list),
            None => 0,
        }
    }

    /// The row of a queue or a private list at an index.
    pub fn get_listed(&self, place: &Place, at: usize) -> (Score, &JobText)
        requires lists { AreLists self.now }
        requires list { is_list place.now ≡ true }
        requires within { at < length (rows_at place.now (rows_in self.now).current) }
        ensures { slice_get (rows_at place.now (rows_in self.now).current) at ≡ Some (listed place.now (result.0, result.1.now)) }
    {
        match number_of(&self.names, place) {
            Some(list) => {
                let entry = self.deques.get(list, at);
                (entry.0, entry.1.payload())
            }
            None => unreachable!(),
        }
    }

    // Gives a place that has none a deque, and answers its number.
    fn open(&mut self, place: Place) -> Result<usize, Memory>
        requires lists { AreLists self.old }
        requires list { is_list place ≡ true }
        requires new { lookup (is_key (place_cmp place)) self.old.names.list.current ≡ None }
        ensures lists { AreLists self.new }
        ensures rows { rows_in self.new ≡ rows_in self.old }
        ensures sets { self.new.sets ≡ self.old.sets }
        ensures found { IfOk result (λ list. lookup (is_key (place_cmp place)) self.new.names.list.current ≡ Some list) }
    {
        self.names.reserve(1)?;
        let list = self.unused()?;
        self.names.put(place, list);
        self.spare.look_further();
        let _count = self.names.len(); // for what it says of their order
        Ok(list)
    }

    /// Takes the memory for so many further items of a queue or a private list, whose deque is made where there is none.
    pub fn prepare_listed(&mut self, place: &Place, count: usize) -> Result<(), Memory>
        requires lists { AreLists self.old }
        requires list { is_list place.now ≡ true }
        ensures lists { AreLists self.new }
        ensures rows { rows_in self.new ≡ rows_in self.old }
        ensures sets { self.new.sets ≡ self.old.sets }
        ensures edits { OnOk result (count ≤ self.new.deques.room) }
        ensures space { OnOk result (HasSpace count place.now self.new.names.list.current self.new.deques.lists.current self.new.deques.spaces) }
    {
        match number_of(&self.names, place) {
            Some(list) => {
                self.deques.reserve(list, count)?;
                Ok(())
            }
            None => {
                let list = self.open(place.copy()?)?;
                self.deques.reserve(list, count)?;
                Ok(())
            }
        }
    }

    /// Puts a row in at an end of a queue or a private list.
    pub fn put_listed(&mut self, place: &Place, score: Score, payload: JobText, end: Side)
        requires lists { AreLists self.old }
        requires list { is_list place.now ≡ true }
        requires ready { IsReady 1 place.now self.old }
        ensures lists { AreLists self.new }
        ensures rows { rows_in self.new ≡ edited (put_row end (listed place.now (score, payload)) (rows_in self.old).current) (rows_in self.old) }
    {
        match number_of(&self.names, place) {
            Some(list) => {
                let at = place_in(&self.deques, list, end);
                let item = (score, TaggedPayload::of(payload));
                self.deques.insert(list, at, item);
            }
            None => unreachable!(),
        }
    }

    /// Takes a row of a queue or a private list out. An open step keeps it until it is closed.
    pub fn drop_listed(&mut self, place: &Place, at: usize)
        requires lists { AreLists self.old }
        requires list { is_list place.now ≡ true }
        requires within { at < length (rows_at place.now (rows_in self.old).current) }
        requires room { 0 < self.old.deques.room }
        ensures lists { AreLists self.new }
        ensures ready { IsOneLess self.old self.new }
        ensures rows { rows_in self.new ≡ edited (remove (rows_in self.old).current (start_of place.now (rows_in self.old).current + at)) (rows_in self.old) }
    {
        match number_of(&self.names, place) {
            Some(list) => self.deques.drop_out(list, at),
            None => unreachable!(),
        }
    }

    /// Takes a row of a queue or a private list out and gives it to the caller. Takes no memory.
    pub fn take_listed(&mut self, place: &Place, at: usize) -> (Score, JobText)
        requires lists { AreLists self.old }
        requires list { is_list place.now ≡ true }
        requires within { at < length (rows_at place.now (rows_in self.old).current) }
        requires closed { (rows_in self.old).saved ≡ None }
        ensures lists { AreLists self.new }
        ensures row { slice_get (rows_at place.now (rows_in self.old).current) at ≡ Some (listed place.now result) }
        ensures rows { rows_in self.new ≡ edited (remove (rows_in self.old).current (start_of place.now (rows_in self.old).current + at)) (rows_in self.old) }
    {
        match number_of(&self.names, place) {
            Some(list) => {
                let (score, tagged) = self.deques.take(list, at);
                (score, tagged.into_payload())
            }
            None => unreachable!(),
        }
    }

    /// Takes all rows of a queue or a private list out, and gives them to the caller; None where the place has no deque. Takes constant time, and no
    /// memory.
    pub fn take_all_listed(&mut self, place: &Place) -> Option<GoneRows>
        requires lists { AreLists self.old }
        requires list { is_list place.now ≡ true }
        requires closed { (rows_in self.old).saved ≡ None }
        ensures lists { AreLists self.new }
        ensures own { AreOwn place.now (rows_in self.old).current result }
        ensures rows { rows_in self.new ≡ edited (filter (λ row. not (is_at place.now row)) (rows_in self.old).current) (rows_in self.old) }
    {
        match number_of(&self.names, place) {
            Some(list) => Some(GoneRows::Listed(self.deques.take_all(list))),
            None => None,
        }
    }

    /// Moves a row of a queue or a private list to an end of another, or of its own. It isn't copied.
    pub fn shift(&mut self, from: &Place, at: usize, row_key: &RowKey, end: Side)
        requires lists { AreLists self.old }
        requires ordered { is_ordered (rows_in self.old).current ≡ true }
        requires from { is_list from.now ≡ true }
        requires to { is_list row_key.now.place ≡ true }
        requires within { at < length (rows_at from.now (rows_in self.old).current) }
        requires ready { IsReady 2 row_key.now.place self.old }
        ensures lists { AreLists self.new }
        ensures rows { rows_in self.new ≡ edited (shifted end (start_of from.now (rows_in self.old).current + at) row_key.now (rows_in self.old).current) (rows_in self.old) }
    {
        match number_of(&self.names, from) {
            Some(list) => match number_of(&self.names, &row_key.place) {
                Some(onto) => {
                    let there = place_behind(&self.deques, list, at, onto, end);
                    self.deques.shift(list, at, onto, there, row_key.score);
                }
                None => unreachable!(),
            },
            None => unreachable!(),
        }
    }

    /// The index at a queue or a private list of the first row of a text, or how many rows it has. Looks at its rows one after another.
    pub fn position_of(&self, place: &Place, text: &[u8]) -> usize
        requires lists { AreLists self.now }
        requires list { is_list place.now ≡ true }
        ensures { result ≡ position_or_len (is_text text.now) (rows_at place.now (rows_in self.now).current) }
    {
        match number_of(&self.names, place) {
            Some(list) => {
                let len = self.deques.len(list);
                self.deques.position_in(list, 0, len, &Named { text })
            }
            None => 0,
        }
    }

    /// The same of a payload's text. Reads the texts of the rows with its tag alone.
    pub fn position_of_payload(&self, place: &Place, payload: &JobText) -> usize
        requires lists { AreLists self.now }
        requires list { is_list place.now ≡ true }
        ensures { result ≡ position_or_len (is_text payload.now) (rows_at place.now (rows_in self.now).current) }
    {
        match number_of(&self.names, place) {
            Some(list) => {
                let len = self.deques.len(list);
                let tag = tag_of(payload);
                let text = payload.text().bytes();
                self.deques.position_in(list, 0, len, &Tagged { tag, text })
            }
            None => 0,
        }
    }

    /// The index at a queue or a private list of the first row that is wanted, of those from the index `first` to the one before `end`.
    pub fn wanted_listed(
        &self,
        place: &Place,
        first: usize,
        end: usize,
        wanted: &RowFilter,
    ) -> usize
        requires lists { AreLists self.now }
        requires list { is_list place.now ≡ true }
        requires order { first ≤ end }
        requires within { end ≤ length (rows_at place.now (rows_in self.now).current) }
        ensures is { result ≡ first + position_or_len (selects place.now wanted.now) (drop first (take end (rows_at place.now (rows_in self.now).current))) }
        ensures within { result ≤ end }
    {
        match number_of(&self.names, place) {
            Some(list) => self
                .deques
                .position_in(list, first, end, &PickedItem { place, wanted }),
            None => end,
        }
    }

    /// Copies of the texts of rows of a queue or a private list, from the index `start` to the one before `end`.
    pub fn texts_listed(
        &self,
        alloc: Global,
        place: &Place,
        start: usize,
        end: usize,
    ) -> Result<Vec<Word>, Memory>
        requires lists { AreLists self.now }
        requires list { is_list place.now ≡ true }
        ensures { IfOk result (λ texts. texts.items ≡ map (λ row. row.text) (drop start (take end (rows_at place.now (rows_in self.now).current)))) }
    {
        let mut copies = Texts {
            texts: Vec::new(alloc),
        };
        match number_of(&self.names, place) {
            Some(list) => {
                self.deques.walk(list, start, end, &mut copies)?;
                Ok(copies.texts)
            }
            None => Ok(copies.texts),
        }
    }
}
