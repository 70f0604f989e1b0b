// Where chance comes from: the trait, and a dice in memory.
ghost use Rattle.std.specs.Prelude.{◌≡◌, ℕ, List, Option, Some, drop, get_or};
ghost use Rattle.sk_base.specs.Yields.{Yields};

use std::marker::Model;

/// A source of words of 64 bits.
pub trait Dice {
    /// Its next words, counted from 0, where it tells them. A dice in memory does, and a real one doesn't.
    ghost words: { Self → Option (ℕ → ℕ) };

    /// The next word.
    fn word(&mut self) -> u64
        ensures { Yields (words self.old) result (words self.new) };
}

/// A dice in memory, for tests. It gives the words of its list, and then 0.
#[derive(Drop)]
pub struct ListDice {
    words: Vec<u64>,
    next: usize,
}

impl Model for ListDice {
    ghost use Rattle.std.specs.Prelude.{List, ℕ, drop};

    ghost Value = { List ℕ };

    // the words that it didn't give yet
    ghost view = { λ d. drop d.next d.words.items };
}

impl ListDice {
    pub fn new(words: Vec<u64>) -> Self
        ensures { result ≡ words.items }
    {
        ListDice { words, next: 0 }
    }
}

impl Dice for ListDice {
    ghost words = { λ d. Some (λ n. get_or d n 0) };

    fn word(&mut self) -> u64 {
        match self.words.get(self.next) {
            Some(word) => {
                self.next += 1;
                *word
            }
            None => 0,
        }
    }
}
