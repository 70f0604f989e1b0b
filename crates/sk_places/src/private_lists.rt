// Private lists: how many rows they have, and whose they are.
ghost use Rattle.std.specs.Prelude.{◌≡◌, ◌+◌, ◌≤◌, length, option_map};
ghost use Rattle.std.specs.List.{count_by};
ghost use Rattle.sk_undo.specs.Balance.{most};
ghost use Rattle.sk_places.specs.RowLists.{AreLists, IsIdentFrom, private_from, rows_in};
ghost use Rattle.sk_places.specs.Rows.{IsIdentPast, is_private, next_ident};

use crate::row::Place;
use crate::row_lists::RowLists;
use crate::search::Beyond;
use sk_resp::Word;

// The identity of a private list, where it stands behind this one.
fn ident_past<'a>(place: &'a Place, after: Option<&Word>) -> Option<&'a Word>
    ensures { IsIdentPast (option_map (λ word. word.now) after.entry) place.now (option_map (λ ident. ident.now) result) }
{
    match place {
        Place::Private(ident) => {
            let past = match after {
                None => true,
                Some(word) => word.cmp(ident).is_lt(),
            };
            if past { Some(ident) } else { None }
        }
        _ => None,
    }
}

impl RowLists {
    // How many rows the private list of a place has, by its index among the places that have a deque; 0 for a queue.
    fn private_at(&self, at: usize) -> usize
        requires { AreLists self.now }
        ensures { result + private_from (at + 1) self.now ≡ private_from at self.now }
    {
        match self.names.at(at) {
            Some((place, list)) => {
                if place.is_private() {
                    self.deques.len(*list)
                } else {
                    0
                }
            }
            None => 0,
        }
    }

    /// How many rows are in private lists. Looks at the places that have a deque.
    pub fn private_count(&self) -> usize
        requires lists { AreLists self.now }
        requires few { length (rows_in self.now).current ≤ most }
        ensures { result ≡ count_by is_private (rows_in self.now).current }
    {
        let len = self.names.len();
        let mut count = 0;
        let mut at = 0;
        while at < len {
            count += self.private_at(at);
            at += 1;
        }
        count
    }

    // The identity behind this one of a private list with a row, by the index of its place among those that have a deque.
    fn ident_at(&self, at: usize, after: Option<&Word>) -> Option<&Word>
        requires { AreLists self.now }
        ensures { IsIdentFrom (option_map (λ word. word.now) after.entry) at self.now (option_map (λ ident. ident.now) result) }
    {
        match self.names.at(at) {
            Some((place, list)) => {
                match ident_past(place, after) {
                    Some(ident) => {
                        if self.deques.len(*list) > 0 {
                            Some(ident)
                        } else {
                            None
                        }
                    }
                    None => None,
                }
            }
            None => None,
        }
    }

    /// The first identity, by its bytes, behind this one, or of all, that has a private list with a row. Logarithmic, but for the private lists
    /// without a row that it passes over.
    pub fn next_ident(&self, after: Option<&Word>) -> Option<&Word>
        requires { AreLists self.now }
        ensures { option_map (λ ident. ident.now) result ≡ next_ident (option_map (λ word. word.now) after.entry) (rows_in self.now).current }
    {
        let len = self.names.len();
        let mut at = self.names.rank(&Beyond { after });
        while at < len {
            match self.ident_at(at, after) {
                Some(ident) => return Some(ident),
                None => at += 1,
            }
        }
        None
    }
}
