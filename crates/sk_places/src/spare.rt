// Deques that no place has. A place that gets its first row takes one of them, or else a new one. Whenever a step ends some places are looked at in
// turn, and those without a row lose their deques: so a name that was used once leaves no memory behind. A few keep them all the same, since a queue
// that workers always empty would lose its deque with each job.
ghost use Rattle.std.specs.Prelude.{◌≡◌, ◌<◌, [], IfOk, None, length};
ghost use Rattle.sk_places.specs.RowLists.{AreLists, IsUnused, rows_in};

use crate::Memory;
use crate::row::Place;
use crate::row_lists::{RowLists, number_of};
use std::alloc::Global;

// Of so many places or fewer each keeps its deque.
const PLACES_KEPT: usize = 64;

/// Deques that no place has, and which places are looked at for further ones.
#[derive(Drop)]
pub struct Spare {
    /// Their numbers.
    pub numbers: Vec<usize>,
    // The index, among the places that have a deque, of the one that is looked at next.
    next: usize,
    // How many are looked at when the step ends.
    looks: usize,
}

impl Spare {
    /// Takes no memory.
    pub fn new(alloc: Global) -> Spare
        ensures { result.numbers.items ≡ [] }
    {
        Spare {
            numbers: Vec::new(alloc),
            next: 0,
            looks: 1,
        }
    }

    /// For each place that gets a deque two more are looked at, so that those without a row can't become more and more.
    pub fn look_further(&mut self)
        ensures { self.new.numbers ≡ self.old.numbers }
    {
        self.looks = self.looks.saturating_add(2);
    }
}

impl RowLists {
    /// A deque that no place has.
    pub fn unused(&mut self) -> Result<usize, Memory>
        requires lists { AreLists self.old }
        ensures lists { AreLists self.new }
        ensures rows { rows_in self.new ≡ rows_in self.old }
        ensures names { self.new.names ≡ self.old.names }
        ensures sets { self.new.sets ≡ self.old.sets }
        ensures unused { IfOk result (λ list. IsUnused list self.new) }
    {
        match self.spare.numbers.pop() {
            Some(list) => Ok(list),
            None => {
                self.spare.numbers.reserve(self.deques.count())?;
                let list = self.deques.add()?;
                Ok(list)
            }
        }
    }

    // A place's deque goes, where it has no row.
    fn let_go(&mut self, place: &Place)
        requires lists { AreLists self.old }
        requires closed { (rows_in self.old).saved ≡ None }
        ensures lists { AreLists self.new }
        ensures rows { rows_in self.new ≡ rows_in self.old }
    {
        match number_of(&self.names, place) {
            Some(list) => {
                let numbers = &self.spare.numbers;
                if self.deques.len(list) == 0 && numbers.len() < numbers.capacity() {
                    self.names.take(place);
                    self.deques.give_back(list);
                    self.spare.numbers.push_reserved(list);
                    let _count = self.names.len(); // for what it says of their order
                }
            }
            None => {}
        }
    }

    // A copy of the place at an index, where it has no row, and there is memory for the copy.
    fn empty_at(&self, at: usize) -> Option<Place>
        requires { AreLists self.now }
    {
        match self.names.at(at) {
            Some((place, list)) => {
                if self.deques.len(*list) == 0 {
                    place.copy().ok()
                } else {
                    None
                }
            }
            None => None,
        }
    }

    // Looks at the next place.
    fn look(&mut self)
        requires lists { AreLists self.old }
        requires closed { (rows_in self.old).saved ≡ None }
        ensures lists { AreLists self.new }
        ensures rows { rows_in self.new ≡ rows_in self.old }
    {
        let count = self.names.len();
        if count <= PLACES_KEPT {
            return;
        }
        let at = if self.spare.next < count {
            self.spare.next
        } else {
            0
        };
        match self.empty_at(at) {
            Some(place) => {
                self.spare.next = at;
                self.let_go(&place);
            }
            None => self.spare.next = at + 1,
        }
    }

    /// Looks at the places that are due, and takes the deques of those without a row. Wants no memory: where there is none, they keep them.
    pub fn sweep(&mut self)
        requires lists { AreLists self.old }
        requires closed { (rows_in self.old).saved ≡ None }
        ensures lists { AreLists self.new }
        ensures rows { rows_in self.new ≡ rows_in self.old }
    {
        let looks = self.spare.looks;
        self.spare.looks = 1;
        for _ in 0..looks {
            self.look();
        }
    }
}
