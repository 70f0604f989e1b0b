// The numbers of a field, as its parts are read.
ghost use Rattle.std.specs.Prelude.{◌≡◌, ◌<◌, ◌≤◌, ◌++◌, ◌∷◌, [], List, ℕ, get_or, false, ◌||◌};
ghost use Rattle.sk_cron.specs.Read.{Holds};
ghost use Rattle.sk_cron.specs.Times.{has, step_of};
ghost use Rattle.sk_cron.specs.declared.bounds.Bounds.{Bounds};
ghost use Rattle.sk_cron.specs.declared.part.Part.{Part};

use crate::{Bounds, Part};

/// The numbers of a field, of the parts of it that are read.
#[derive(Clone, Copy)]
pub struct Field {
    pub numbers: [bool; 60],
    pub is_empty: bool,
    /// It isn't `*`.
    pub is_restricted: bool,
}

impl Field {
    /// No part is read.
    pub fn new() -> Field
        ensures { (bounds : Bounds) → Holds bounds [] result }
    {
        Field {
            numbers: [false; 60],
            is_empty: true,
            is_restricted: true,
        }
    }

    /// Whether a part has the number.
    pub fn has(&self, number: u8) -> bool
        ensures { result ≡ get_or self.now.numbers number false }
    {
        match self.numbers.get(number as usize) {
            Some(has) => *has,
            None => false,
        }
    }

    // The numbers of one more part.
    fn put(&mut self, bounds: Bounds, part: Part)
        requires { 1 ≤ step_of part }
        ensures numbers { (n : ℕ) → n < 60 → get_or self.new.numbers n false ≡ (get_or self.old.numbers n false || has bounds part n) }
        ensures others { (self.new.is_empty ≡ self.old.is_empty) × (self.new.is_restricted ≡ self.old.is_restricted) }
    {
        for number in 0..60 {
            self.numbers[number as usize] |= part.has(bounds, number);
        }
    }

    /// One more part is read.
    pub fn add(&mut self, bounds: Bounds, part: Part)
        requires { 1 ≤ step_of part }
        ensures { (parts : List Part) → Holds bounds parts self.old → Holds bounds (parts ++ part ∷ []) self.new }
    {
        self.put(bounds, part);
        self.is_restricted = !(self.is_empty && part == Part::Star);
        self.is_empty = false;
    }
}
