// The reader of a cron text: where it is, and the numbers of the fields that it has read.
ghost use Rattle.std.specs.Prelude.{◌≡◌, ◌<◌, ◌≤◌, ◌++◌, ◌∷◌, [], List, MatchOption, false, length, true};
ghost use Rattle.sk_cron.specs.Read.{Agrees, AllHold, start};
ghost use Rattle.sk_cron.specs.Reading.{Machine, finish, go};
ghost use Rattle.sk_cron.specs.Times.{step_of};
ghost use Rattle.sk_cron.specs.declared.part.Part.{Part};

use crate::bounds::bounds_of;
use crate::field::Field;
use crate::parser_state::{Next, after, whole};
use crate::{ParserState, Part, Role};

/// The fields that are read, the last of them in part, and where in it the reader is.
#[derive(Clone, Copy)]
pub struct Reader {
    pub fields: [Field; 5],
    /// The field that is read, from 0.
    pub at: usize,
    pub state: ParserState,
}

impl Reader {
    /// Before the first byte.
    pub fn new() -> Reader
        ensures { Agrees start result }
    {
        Reader {
            fields: [Field::new(); 5],
            at: 0,
            state: ParserState::Ask(Role::First),
        }
    }

    // The part of the field is whole.
    fn add(&mut self, part: Part)
        requires within { self.old.at < 5 }
        requires step { 1 ≤ step_of part }
        ensures fields { (done : List (List Part)) (parts : List Part) → length done ≡ self.old.at → AllHold (done ++ parts ∷ []) self.old.fields → AllHold (done ++ (parts ++ part ∷ []) ∷ []) self.new.fields }
        ensures others { (self.new.at ≡ self.old.at) × (self.new.state ≡ self.old.state) }
    {
        self.fields[self.at].add(bounds_of(self.at), part);
    }

    /// Takes the next byte, or answers false: with it no cron text goes on.
    pub fn take(&mut self, byte: u8) -> bool
        requires { self.old.at < 5 }
        ensures is { (m : Machine) → Agrees m self.old → MatchOption (go m byte) (result ≡ false) (λ next. (result ≡ true) × Agrees next self.new) }
        ensures no { result ≡ false → self.new ≡ self.old }
    {
        match after(bounds_of(self.at), self.state, byte) {
            Next::Stays(state) => self.state = state,
            Next::Comma(part) => {
                self.add(part);
                self.state = ParserState::Ask(Role::First);
            }
            Next::Space(part) => {
                if self.at == 4 {
                    return false;
                }
                self.add(part);
                self.at += 1;
                self.state = ParserState::Gap;
            }
            Next::Fault => return false,
        }
        true
    }

    /// Ends the text, or answers false: it is no cron text.
    pub fn finish(&mut self) -> bool
        requires { self.old.at < 5 }
        ensures is { (m : Machine) → Agrees m self.old → MatchOption (finish m) (result ≡ false) (λ fields. (result ≡ true) × AllHold fields self.new.fields) }
        ensures at { self.new.at ≡ self.old.at }
    {
        if self.at < 4 {
            return false;
        }
        match whole(bounds_of(self.at), self.state) {
            Some(part) => {
                self.add(part);
                true
            }
            None => false,
        }
    }
}
