// The texts of replies: lines that end at a CR, and bulk strings, whose length is known.
ghost use Rattle.std.specs.Prelude.{◌≡◌, ◌≢◌, ◌+◌, ◌<◌, ◌≤◌, ◌++◌, ◌∷◌, [], ◌↔◌, ℕ, IsTrue, IfOk, IfErr, length, take};
ghost use Rattle.std.specs.List.{AllByRecursion};
ghost use Rattle.sk_resp.specs.Spelling.{cr, lf};
ghost use Rattle.sk_resp.specs.ReplyMachine;
ghost use Rattle.sk_resp.specs.ReplyMachine.{starts, lines, bodies, go_at, done_to, gives, fails, levels, says, given, owed, with_more, LeadsTo, run_within, IsOpenWithin, IsSized, Made};
ghost use Rattle.sk_resp.specs.declared.reply.fault.ReplyFault.TheVariants.{Memory};

use super::fault::ReplyFault;
use super::state::{Kind, Stage, State};
use crate::{Reply, Word};
use sk_base::limits::{LONGEST_REPLY, LONGEST_TEXT};
use std::alloc::Global;
use std::mem;

// A byte of a text.
fn is_plain(byte: u8) -> bool
    ensures { IsTrue result ↔ ((byte ≢ cr) × (byte ≢ lf)) }
{
    byte != b'\r' && byte != b'\n'
}

// How many bytes at the front of the input are bytes of a text, up to so many.
fn plain_front(input: &[u8], most: usize) -> usize
    ensures most { result ≤ most }
    ensures fits { result ≤ length input.now }
    ensures plain { AllByRecursion (λ b. (b ≢ cr) × (b ≢ lf)) (take result input.now) }
{
    let mut at = 0;
    while at < input.len() && at < most && is_plain(input[at]) {
        at += 1;
    }
    at
}

impl State {
    /// Takes the mark of a reply.
    pub fn take_mark(&mut self, byte: u8) -> Result<Option<Reply>, ReplyFault>
        requires { self.old.size ≤ LONGEST_REPLY }
        ensures ok { IfOk result (λ found. LeadsTo (done_to starts self.old byte) found self.new) }
        ensures made { IfOk result (Made self.old self.new) }
        ensures fault { IfErr result (λ e. e ≢ Memory → done_to starts self.old byte ≡ fails) }
    {
        match byte {
            b'+' => self.stage = Stage::Simple,
            b'-' => self.stage = Stage::Error,
            b':' => self.stage = Stage::Sign(Kind::Int),
            b'$' => self.stage = Stage::Sign(Kind::Bulk),
            b'*' => self.stage = Stage::Sign(Kind::Array),
            _ => return Err(ReplyFault::Unreadable),
        }
        Ok(None)
    }

    /// Takes a byte of a simple or an error text, or the CR behind it, at which the second of these stages follows.
    pub fn take_text(
        &mut self,
        stay: Stage,
        end: Stage,
        byte: u8,
    ) -> Result<Option<Reply>, ReplyFault>
        requires { self.old.size ≤ LONGEST_REPLY }
        ensures ok { IfOk result (λ found. LeadsTo (done_to (lines stay end) self.old byte) found self.new) }
        ensures made { IfOk result (Made self.old self.new) }
        ensures fault { IfErr result (λ e. e ≢ Memory → done_to (lines stay end) self.old byte ≡ fails) }
    {
        if byte == b'\r' {
            self.stage = end;
            return Ok(None);
        }
        if byte == b'\n' {
            return Err(ReplyFault::Unreadable);
        }
        if self.line.len() >= LONGEST_TEXT {
            return Err(ReplyFault::Unreadable);
        }
        self.line.push(byte)?;
        self.stage = stay;
        Ok(None)
    }

    /// How many bytes of the input are more of the open text or bulk string, as long as they are together.
    pub fn more_of_line(&self, input: &[u8]) -> usize
        requires within { IsOpenWithin (says self.now) }
        requires sized { IsSized self.now }
        requires some { 0 < length input.now }
        ensures fits { result ≤ length input.now }
        ensures goes { run_within (says self.now) (take result input.now) ≡ gives [] (with_more (take result input.now) self.now) }
        ensures filled { result ≡ 0 → (need : ℕ) → self.now.stage ≡ Stage.Body need → need ≤ length self.now.line.items }
    {
        match self.stage {
            Stage::Body(need) => (need - self.line.len()).min(input.len()),
            Stage::Simple => plain_front(input, self.text_room()),
            Stage::Error => plain_front(input, self.text_room()),
            _ => 0,
        }
    }

    // How many bytes the open text may still have.
    fn text_room(&self) -> usize
        requires short { length self.now.line.items ≤ LONGEST_TEXT }
        requires small { self.now.size + 2 ≤ LONGEST_REPLY }
        ensures short { length self.now.line.items + result ≤ LONGEST_TEXT }
        ensures small { self.now.size + 2 + result ≤ LONGEST_REPLY }
    {
        (LONGEST_TEXT - self.line.len()).min(LONGEST_REPLY - 2 - self.size)
    }

    /// Takes the CR behind the bytes of a bulk string.
    pub fn take_cr(&mut self, need: usize, byte: u8) -> Result<Option<Reply>, ReplyFault>
        requires filled { need ≤ length self.old.line.items }
        requires small { self.old.size ≤ LONGEST_REPLY }
        ensures ok { IfOk result (λ found. LeadsTo (done_to (bodies need) self.old byte) found self.new) }
        ensures made { IfOk result (Made self.old self.new) }
        ensures fault { IfErr result (λ e. e ≢ Memory → done_to (bodies need) self.old byte ≡ fails) }
    {
        if byte != b'\r' {
            return Err(ReplyFault::Unreadable);
        }
        self.stage = Stage::BodyEnd;
        Ok(None)
    }

    // Takes the LF behind a text or a bulk string, and gives its bytes.
    fn end_text(&mut self, alloc: Global, byte: u8) -> Result<Word, ReplyFault>
        ensures ok { IfOk result (λ text. (byte ≡ lf) × (text ≡ self.old.line.items)) }
        ensures same { (self.new.size ≡ self.old.size) × (self.new.stack ≡ self.old.stack) }
        ensures fault { IfErr result (λ _. byte ≢ lf) }
    {
        if byte != b'\n' {
            return Err(ReplyFault::Unreadable);
        }
        Ok(Word::new(mem::replace(&mut self.line, Vec::new(alloc))))
    }

    /// Takes the LF behind a simple text, and gives the reply that it makes whole.
    pub fn end_simple(&mut self, alloc: Global, byte: u8) -> Result<Option<Reply>, ReplyFault>
        requires owed { owed (levels self.old.stack.items) ≤ self.old.size }
        requires small { self.old.size ≤ LONGEST_REPLY }
        ensures ok { IfOk result (λ found. LeadsTo (done_to (go_at Stage.SimpleEnd) self.old byte) found self.new) }
        ensures made { IfOk result (Made self.old self.new) }
        ensures fault { IfErr result (λ e. e ≢ Memory → done_to (go_at Stage.SimpleEnd) self.old byte ≡ fails) }
    {
        match self.end_text(alloc, byte) {
            Ok(text) => self.settle(Reply::Simple(text)),
            Err(fault) => Err(fault),
        }
    }

    /// Takes the LF behind an error text, and gives the reply that it makes whole.
    pub fn end_error(&mut self, alloc: Global, byte: u8) -> Result<Option<Reply>, ReplyFault>
        requires owed { owed (levels self.old.stack.items) ≤ self.old.size }
        requires small { self.old.size ≤ LONGEST_REPLY }
        ensures ok { IfOk result (λ found. LeadsTo (done_to (go_at Stage.ErrorEnd) self.old byte) found self.new) }
        ensures made { IfOk result (Made self.old self.new) }
        ensures fault { IfErr result (λ e. e ≢ Memory → done_to (go_at Stage.ErrorEnd) self.old byte ≡ fails) }
    {
        match self.end_text(alloc, byte) {
            Ok(text) => self.settle(Reply::Error(text)),
            Err(fault) => Err(fault),
        }
    }

    /// Takes the LF behind a bulk string, and gives the reply that it makes whole.
    pub fn end_bulk(&mut self, alloc: Global, byte: u8) -> Result<Option<Reply>, ReplyFault>
        requires owed { owed (levels self.old.stack.items) ≤ self.old.size }
        requires small { self.old.size ≤ LONGEST_REPLY }
        ensures ok { IfOk result (λ found. LeadsTo (done_to (go_at Stage.BodyEnd) self.old byte) found self.new) }
        ensures made { IfOk result (Made self.old self.new) }
        ensures fault { IfErr result (λ e. e ≢ Memory → done_to (go_at Stage.BodyEnd) self.old byte ≡ fails) }
    {
        match self.end_text(alloc, byte) {
            Ok(bytes) => self.settle(Reply::Bulk(bytes)),
            Err(fault) => Err(fault),
        }
    }
}
