// The reader of replies. It keeps the part of a reply that has come, and takes the stream in any pieces.
ghost use Rattle.std.specs.Prelude.{◌≡◌, ◌≢◌, ◌+◌, ◌<◌, ◌≤◌, ◌++◌, ◌∷◌, [], ℕ, List, Some, None, IfOk, OnOk, IfErr, length, take, get_or, map};
ghost use Rattle.sk_resp.specs.Spelling.{Bytes, IsPart};
ghost use Rattle.sk_resp.specs.Reply.{wire};
ghost use Rattle.sk_resp.specs.ReplyStream.{ReadsReplies, StopsReplies, AddsReplies};
ghost use Rattle.sk_resp.specs.ReplyMachine;
ghost use Rattle.sk_resp.specs.ReplyMachine.{go, go_within, run_within, gives, fails, levels, says, seen, given, owed, stage_needs, IsOpen, IsOpenWithin, IsSized, IsHeard, LeadsTo, AreRead, Made};
ghost use Rattle.sk_resp.specs.declared.reply.Reply.{Reply};
ghost use Rattle.sk_resp.specs.declared.reply.fault.ReplyFault.{ReplyFault};
ghost use Rattle.sk_resp.specs.declared.reply.fault.ReplyFault.TheVariants.{Memory};
ghost use Rattle.sk_base.specs.declared.limits.TheConstants.{LONGEST_REPLY};

use super::fault::ReplyFault;
use super::state::{Stage, State};
use crate::Reply;
use std::alloc::Global;
use std::marker::Model;

impl State {
    // Takes the next byte, with no look at the limit on the bytes of a whole reply. The bytes of a bulk string come elsewhere.
    fn take_byte(&mut self, alloc: Global, byte: u8) -> Result<Option<Reply>, ReplyFault>
        requires is_open { IsOpen (says self.old) }
        requires filled { (need : ℕ) → self.old.stage ≡ Stage.Body need → need ≤ length self.old.line.items }
        requires owed { owed (levels self.old.stack.items) ≤ self.old.size }
        requires small { self.old.size + stage_needs self.old.stage (length self.old.line.items) (length (levels self.old.stack.items)) ≤ LONGEST_REPLY }
        ensures ok { IfOk result (λ found. go (says self.old) byte ≡ gives (given found) (says self.new)) }
        ensures made { IfOk result (Made self.old self.new) }
        ensures fault { IfErr result (λ e. e ≢ Memory → go (says self.old) byte ≡ fails) }
    {
        match self.stage {
            Stage::Start => self.take_mark(byte),
            Stage::Simple => self.take_text(Stage::Simple, Stage::SimpleEnd, byte),
            Stage::SimpleEnd => self.end_simple(alloc, byte),
            Stage::Error => self.take_text(Stage::Error, Stage::ErrorEnd, byte),
            Stage::ErrorEnd => self.end_error(alloc, byte),
            Stage::Sign(kind) => self.take_sign(kind, byte),
            Stage::Minus(kind) => self.take_minus(kind, byte),
            Stage::Digits(kind, negative, n) => self.take_digit(kind, negative, n, byte),
            Stage::DigitsEnd(kind, negative, n) => self.take_number(alloc, kind, negative, n, byte),
            Stage::Body(need) => self.take_cr(need, byte),
            Stage::BodyEnd => self.end_bulk(alloc, byte),
        }
    }

    // Takes the next byte, and gives the reply that it makes whole.
    fn step(&mut self, alloc: Global, byte: u8) -> Result<Option<Reply>, ReplyFault>
        requires within { IsOpenWithin (says self.old) }
        requires sized { IsSized self.old }
        requires filled { (need : ℕ) → self.old.stage ≡ Stage.Body need → need ≤ length self.old.line.items }
        ensures ok { IfOk result (λ found. go_within (says self.old) byte ≡ gives (given found) (says self.new)) }
        ensures sized { IfOk result (λ _. IsSized self.new) }
        ensures read { IfOk result AreRead }
        ensures fault { IfErr result (λ e. e ≢ Memory → go_within (says self.old) byte ≡ fails) }
    {
        match self.take_byte(alloc, byte) {
            Ok(Some(reply)) => {
                self.size = 0;
                Ok(Some(reply))
            }
            Ok(None) => {
                self.size += 1;
                if !self.fits() {
                    return Err(ReplyFault::Unreadable);
                }
                Ok(None)
            }
            Err(fault) => Err(fault),
        }
    }

    // Takes the next byte, or all bytes of a text or a bulk string that are there, and gives the reply that they make whole.
    fn take_some(
        &mut self,
        alloc: Global,
        input: &[u8],
    ) -> Result<(usize, Option<Reply>), ReplyFault>
        requires within { IsOpenWithin (says self.old) }
        requires sized { IsSized self.old }
        requires some { 0 < length input.now }
        ensures ok { IfOk result (λ r. IsPart r.0 input.now × LeadsTo (run_within (says self.old) (take r.0 input.now)) r.1 self.new) }
        ensures sized { IfOk result (λ _. IsSized self.new) }
        ensures read { IfOk result (λ r. AreRead r.1) }
        ensures fault { IfErr result (λ e. e ≢ Memory → go_within (says self.old) (get_or input.now 0 0) ≡ fails) }
    {
        let taken = self.more_of_line(input);
        if taken > 0 {
            self.line.extend_from_slice(&input[..taken])?;
            self.size += taken;
            return Ok((taken, None));
        }
        match self.step(alloc, input[0]) {
            Ok(found) => Ok((1, found)),
            Err(fault) => Err(fault),
        }
    }

    // Takes the bytes of a piece, and adds the replies that they make whole.
    fn take_all(
        &mut self,
        alloc: Global,
        piece: &[u8],
        out: &mut Vec<Reply>,
    ) -> Result<(), ReplyFault>
        requires { IsHeard self.old }
        ensures ok { OnOk result (IsHeard self.new × ((added : List Reply) × AddsReplies out.old.items out.new.items added
            × ReadsReplies (seen (says self.old) ++ piece.now) (map wire added) (seen (says self.new)))) }
        ensures fault { IfErr result (λ fault. (added : List Reply) × AddsReplies out.old.items out.new.items added
            × StopsReplies (seen (says self.old) ++ piece.now) (map wire added) fault) }
    {
        let mut at = 0;
        while at < piece.len() {
            let (taken, found) = self.take_some(alloc, &piece[at..])?;
            at += taken;
            match found {
                None => {}
                Some(reply) => {
                    out.push(reply)?;
                }
            }
        }
        Ok(())
    }
}

/// Reads replies from a stream that comes in pieces. It takes integers of 64 bits, lengths and numbers of elements up to 2,147,483,648, simple
/// and error texts of at most 65,536 bytes, arrays at most eight deep, and replies of at most 4,294,967,296 bytes. An array counts as one
/// level whatever its number of elements, and a null array as none.
#[derive(Drop)]
pub struct ReplyFeeder {
    alloc: Global,
    state: State,
    fault: Option<ReplyFault>,
}

impl Model for ReplyFeeder {
    ghost use Rattle.std.specs.Prelude.{IfNone};
    ghost use Rattle.sk_resp.specs.ReplyStream.{RepliesHeard};

    ghost Value = { RepliesHeard };

    ghost use Rattle.sk_resp.specs.ReplyMachine.{says, seen, IsHeard};

    ghost view = { λ f. record { rest = seen (says f.state); fault = f.fault } };

    ghost invariant = { λ f. IfNone f.fault (IsHeard f.state) };
}

impl ReplyFeeder {
    pub fn new(alloc: Global) -> Self
        ensures { result ≡ record { rest = []; fault = None } }
    {
        ReplyFeeder {
            alloc,
            state: State::new(alloc),
            fault: None,
        }
    }

    /// Takes the next piece of the stream, and adds each reply that is whole now, in order. After a fault each further call answers that
    /// fault and adds nothing.
    pub fn feed(&mut self, piece: &[u8], out: &mut Vec<Reply>) -> Result<(), ReplyFault>
        // What was kept and the piece are the texts of the replies that were added, and what is kept now: the first part of a reply.
        ensures ok { OnOk result ((self.old.fault ≡ None) × (self.new.fault ≡ None)
            × ((added : List Reply) × AddsReplies out.old.items out.new.items added × ReadsReplies (self.old.rest ++ piece.now) (map wire added) self.new.rest)) }

        // A fault comes behind the replies that were added, at the first byte with which no list of replies begins. After want of memory
        // the bytes begin with these.
        ensures fault { IfErr result (λ fault. self.old.fault ≡ None
            → (added : List Reply) × AddsReplies out.old.items out.new.items added × StopsReplies (self.old.rest ++ piece.now) (map wire added) fault) }
        ensures kept { IfErr result (λ fault. self.new.fault ≡ Some fault) }
        ensures ended { (fault : ReplyFault) → self.old.fault ≡ Some fault → (result ≡ Err fault) × (out.new.items ≡ out.old.items) }
    {
        if let Some(fault) = self.fault {
            return Err(fault);
        }
        match self.state.take_all(self.alloc, piece, out) {
            Ok(()) => Ok(()),
            Err(fault) => {
                self.fault = Some(fault);
                Err(fault)
            }
        }
    }
}
