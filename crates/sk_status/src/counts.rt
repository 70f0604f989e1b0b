// How many jobs wait in each queue.
ghost use Rattle.std.specs.Prelude.{◌≡◌};

use sk_resp::Text;
use std::marker::Model;

/// Queues with the number of their jobs. Contracts see the list.
#[derive(Drop)]
pub struct Counts {
    list: Vec<(Text, u64)>,
}

impl Model for Counts {
    ghost use Rattle.std.specs.Prelude.{List, ℕ};

    ghost Value = { List (List ℕ × ℕ) };

    ghost view = { λ c. c.list.items };
}

impl Counts {
    /// Takes no memory.
    pub fn new(list: Vec<(Text, u64)>) -> Counts
        ensures { result ≡ list.items }
    {
        Counts { list }
    }

    pub(crate) fn list(&self) -> &[(Text, u64)]
        ensures { result.now ≡ self.now }
    {
        &self.list
    }
}
