// What is told of each seat.
ghost use Rattle.std.specs.Prelude.{◌≡◌, ◌≤◌, ◌<◌, ◌++◌, ◌+◌, ℕ, ◌^◌, [], IfOk, IfSome, OnOk, length, map, option_map};
ghost use Rattle.std.specs.List.{slice_get};
ghost use Rattle.sk_compare.specs.Alike.{told, told_at, told_by};
ghost use Rattle.sk_compare.specs.Exchange.{exchange_of};

use crate::Memory;
use sk_desk::Ask;
use sk_lane::Story;
use std::alloc::Global;
use std::marker::Model;

/// What is told of each seat, at the seat's number. Contracts see of each ask its request and its reply.
#[derive(Drop)]
pub(crate) struct Told<'a> {
    alloc: Global,
    seats: Vec<Vec<&'a Ask>>,
}

impl<'a> Model for Told<'a> {
    ghost use Rattle.std.specs.Prelude.{◌≤◌, ◌^◌, List, map, vec_len};
    ghost use Rattle.sk_compare.specs.Exchange.{Exchange, exchange_of};

    ghost Value = { List (List Exchange) };

    ghost view = { λ t. map (λ asks. map (λ a. exchange_of a.now) asks.items) t.seats.items };

    // the number of a seat has 32 bits
    ghost invariant = { λ t. vec_len t.seats ≤ 2 ^ 32 };
}

// Adds the asks behind those of the seat.
fn append<'a>(own: &mut Vec<&'a Ask>, asks: &'a [Ask]) -> Result<(), Memory>
    ensures { OnOk result (map (λ a. exchange_of a.now) own.new.items ≡ map (λ a. exchange_of a.now) own.old.items ++ map exchange_of asks.now) }
{
    for ask in asks {
        own.push(ask)?;
    }
    Ok(())
}

impl<'a> Told<'a> {
    // Nothing is told.
    fn new(alloc: Global) -> Told<'a>
        ensures { result ≡ [] }
    {
        Told {
            alloc,
            seats: Vec::new(alloc),
        }
    }

    // It has a list for this seat.
    fn reach(&mut self, seat: u32) -> Result<(), Memory>
        ensures same { (s : ℕ) → told_at self.new s ≡ told_at self.old s }
        ensures reached { OnOk result (seat < length self.new) }
    {
        for _seat in self.seats.len()..seat as usize + 1 {
            self.seats.push(Vec::new(self.alloc))?;
        }
        Ok(())
    }

    // Adds what a story tells.
    fn add(&mut self, story: &'a Story) -> Result<(), Memory>
        ensures { OnOk result ((s : ℕ) → told_at self.new s ≡ told_at self.old s ++ told_by s story.now) }
    {
        self.reach(story.seat)?;
        append(&mut self.seats[story.seat as usize], &story.asks)
    }

    /// What these stories tell.
    pub fn by(alloc: Global, stories: &'a [Story]) -> Result<Told<'a>, Memory>
        ensures { IfOk result (λ told_so. (s : ℕ) → told_at told_so s ≡ told stories.now s) }
    {
        let mut told = Told::new(alloc);
        for story in stories {
            told.add(story)?;
        }
        Ok(told)
    }

    /// For how many seats there is a list.
    pub fn len(&self) -> usize
        ensures is { result ≡ length self.now }
        ensures few { result ≤ 2 ^ 32 }
    {
        self.seats.len()
    }

    /// The ask at this place of a seat, where one is told.
    pub fn get(&self, seat: usize, place: usize) -> Option<&'a Ask>
        ensures is { option_map (λ a. exchange_of a.now) result ≡ slice_get (told_at self.now seat) place }
        ensures small { IfSome result (λ a. place < 2 ^ 63) }
    {
        if seat >= self.seats.len() {
            return None;
        }
        let asks = &self.seats[seat];
        if place >= asks.len() {
            return None;
        }
        Some(asks[place])
    }
}
