// Where what is told and a journal differ.
ghost use Rattle.std.specs.Prelude.{◌≡◌, IfOk, string_bytes};
ghost use Rattle.sk_compare.specs.DifferenceText.{difference_text};

use crate::Memory;
use sk_resp::Word;
use std::alloc::Global;

/// The first place at which a story and a journal differ at a seat.
#[derive(Drop)]
pub struct Difference {
    /// The number of the seat.
    pub seat: u32,
    /// How many asks of the seat stand before it.
    pub place: u64,
    /// What the story has there: the request as clients write it, and the text of the reply behind it. It is empty where the story has none.
    pub told: Word,
    /// What the journal has there, in the same form.
    pub noted: Word,
}

impl Difference {
    /// A line `differs seat s place p`, and the two texts in hex, on a line each. Behind the last there is no LF.
    pub fn text(&self, alloc: Global) -> Result<String, Memory>
        ensures { IfOk result (λ text. string_bytes text ≡ difference_text self.now) }
    {
        let seat = self.seat;
        let place = self.place;
        let told = hex::encode(alloc, self.told.bytes())?;
        let noted = hex::encode(alloc, self.noted.bytes())?;
        format!(in alloc; "differs seat {seat} place {place}\n{told}\n{noted}")
    }
}
