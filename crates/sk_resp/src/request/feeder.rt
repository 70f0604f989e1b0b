// The reader of requests. It keeps the part of an item that has come, and takes the stream in any pieces.
ghost use Rattle.std.specs.Prelude.{◌≡◌, ◌≢◌, ◌<◌, ◌≤◌, ◌++◌, ◌∷◌, [], ◌↔◌, ℕ, List, Some, None, IfOk, OnOk, IfErr, IsTrue, length, take};
ghost use Rattle.sk_resp.specs.Request.{Command};
ghost use Rattle.sk_resp.specs.Spelling.{IsPart};
ghost use Rattle.sk_resp.specs.Stream.{Opens, Reads, Stops};
ghost use Rattle.sk_resp.specs.Reading.{seen, IsOpen, Took, Fails, given};

use super::state::{Stage, State};
use crate::{WireFault, Words};
use std::alloc::Global;
use std::marker::Model;

impl State {
    // Takes the next byte outside a word, and gives the command that it makes whole.
    fn take_byte(&mut self, alloc: Global, byte: u8) -> Result<Option<Words>, WireFault>
        requires is_open { IsOpen self.old }
        requires outside { self.old.stage ≢ Stage.Body }
        ensures ok { IfOk result (λ found. Took (seen self.old ++ byte ∷ []) (given found) self.new) }
        ensures fault { IfErr result (Fails (seen self.old ++ byte ∷ [])) }
    {
        match self.stage {
            Stage::Start => self.take_start(alloc, byte),
            Stage::Inline => self.take_inline(alloc, byte),
            Stage::Count => self.take_count(alloc, byte),
            Stage::Mark => self.take_mark(byte),
            Stage::Length => self.take_length(byte),
            Stage::Body => unreachable!(),
            Stage::End => self.take_end(alloc, byte),
        }
    }

    // Takes the next byte, or more where it can, and gives the command that they make whole.
    fn take_some(
        &mut self,
        alloc: Global,
        input: &[u8],
    ) -> Result<(usize, Option<Words>), WireFault>
        requires is_open { IsOpen self.old }
        requires some { 0 < length input.now }
        ensures ok { IfOk result (λ r. IsPart r.0 input.now × Took (seen self.old ++ take r.0 input.now) (given r.1) self.new) }
        ensures fault { IfErr result (Fails (seen self.old ++ take 1 input.now)) }
    {
        match self.stage {
            Stage::Start => self.take_header(alloc, input),
            Stage::Mark => self.take_bulk(alloc, input),
            Stage::Body => match self.take_body(input) {
                Ok(taken) => Ok((taken, None)),
                Err(fault) => Err(fault),
            },
            _ => match self.take_byte(alloc, input[0]) {
                Ok(found) => Ok((1, found)),
                Err(fault) => Err(fault),
            },
        }
    }

    // Takes the bytes of a piece, and adds the commands that they make whole.
    fn take_all(
        &mut self,
        alloc: Global,
        piece: &[u8],
        out: &mut Vec<Words>,
    ) -> Result<(), WireFault>
        requires { IsOpen self.old }
        ensures ok { OnOk result (IsOpen self.new × ((added : List Command) × (out.new.items ≡ out.old.items ++ added)
            × Reads (seen self.old ++ piece.now) added (seen self.new))) }
        ensures fault { IfErr result (λ fault. (added : List Command) × (out.new.items ≡ out.old.items ++ added)
            × Stops (seen self.old ++ piece.now) added fault) }
    {
        let mut at = 0;
        while at < piece.len() {
            let (taken, found) = self.take_some(alloc, &piece[at..])?;
            at += taken;
            match found {
                None => {}
                Some(words) => {
                    out.push(words)?;
                }
            }
        }
        Ok(())
    }
}

/// Reads commands from a stream that comes in pieces.
#[derive(Drop)]
pub struct Feeder {
    alloc: Global,
    state: State,
    fault: Option<WireFault>,
}

impl Model for Feeder {
    ghost use Rattle.std.specs.Prelude.{IfNone};
    ghost use Rattle.sk_resp.specs.Heard.{Heard};

    ghost Value = { Heard };

    ghost use Rattle.sk_resp.specs.Reading.{seen, IsOpen};

    ghost view = { λ f. record { rest = seen f.state; fault = f.fault } };

    ghost invariant = { λ f. IfNone f.fault (IsOpen f.state) };
}

impl Feeder {
    pub fn new(alloc: Global) -> Self
        ensures { result ≡ record { rest = []; fault = None } }
    {
        Feeder {
            alloc,
            state: State::new(alloc),
            fault: None,
        }
    }

    /// Takes the next piece of the stream, and adds each command that is whole now, in order. After a fault each further call answers
    /// that fault and adds nothing.
    pub fn feed(&mut self, piece: &[u8], out: &mut Vec<Words>) -> Result<(), WireFault>
        // What was kept and the piece are items that give the commands that were added, and what is kept now.
        ensures ok { OnOk result ((self.old.fault ≡ None) × (self.new.fault ≡ None)
            × ((added : List Command) × (out.new.items ≡ out.old.items ++ added) × Reads (self.old.rest ++ piece.now) added self.new.rest)) }

        // A fault is the first of these bytes, right behind the commands that were added. After want of memory they begin with these.
        ensures fault { IfErr result (λ fault. self.old.fault ≡ None
            → (added : List Command) × (out.new.items ≡ out.old.items ++ added) × Stops (self.old.rest ++ piece.now) added fault) }
        ensures kept { IfErr result (λ fault. self.new.fault ≡ Some fault) }
        ensures ended { (fault : WireFault) → self.old.fault ≡ Some fault → (result ≡ Err fault) × (out.new.items ≡ out.old.items) }
    {
        if let Some(fault) = self.fault {
            return Err(fault);
        }
        match self.state.take_all(self.alloc, piece, out) {
            Ok(()) => Ok(()),
            Err(fault) => {
                self.fault = Some(fault);
                Err(fault)
            }
        }
    }

    /// No byte of an unfinished item is kept.
    pub fn at_rest(&self) -> bool
        ensures { self.now.fault ≡ None → (IsTrue result ↔ (self.now.rest ≡ [])) }
    {
        matches!(self.state.stage, Stage::Start)
    }
}
