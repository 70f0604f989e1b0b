// Lines with a number: integers, the lengths of bulk strings and the numbers of elements of arrays. A number that can no longer be one of
// its kind in its one spelling is refused at that byte.
ghost use Rattle.std.specs.Prelude.{◌≡◌, ◌≢◌, ◌+◌, ◌*◌, ◌<◌, ◌≤◌, [], ◌∷◌, Some, None, IfOk, IfErr};
ghost use Rattle.sk_resp.specs.Reply.{wire};
ghost use Rattle.sk_resp.specs.ReplyMachine;
ghost use Rattle.sk_resp.specs.ReplyMachine.{signs, minus_digit, digits, digits_end, done_to, gives, fails, levels, says, given, owed, behind, number_text, LeadsTo, IsNumber, IsCounted, Made};
ghost use Rattle.sk_resp.specs.declared.reply.Reply.TheVariants as reply;
ghost use Rattle.sk_resp.specs.declared.reply.fault.ReplyFault.TheVariants.{Memory};
ghost use Rattle.sk_resp.specs.declared.reply.state.Kind.TheVariants as kind;
ghost use Rattle.sk_base.specs.declared.limits.TheConstants.{LONGEST_REPLY};

use super::fault::ReplyFault;
use super::state::{Kind, Level, SHORTEST_REPLY, Stage, State};
use crate::{Replies, Reply};
use std::alloc::Global;

/// The greatest number that ten times it is an integer of 64 bits.
const GREATEST_TENTH: usize = 922_337_203_685_477_580;

// The value of a digit.
fn digit_of(byte: u8) -> Option<usize>
    ensures { result ≡ ReplyMachine.digit_of byte }
{
    if byte < b'0' {
        return None;
    }
    if byte > b'9' {
        return None;
    }
    Some((byte - b'0') as usize)
}

// The integer, whose number is above 0 where it has a `-`.
fn int_of(negative: bool, n: usize) -> i64
    requires { IsNumber kind.Int negative n }
    ensures { wire (reply.Int result) ≡ number_text negative n }
{
    if negative {
        -((n - 1) as i64) - 1
    } else {
        n as i64
    }
}

impl State {
    /// Takes the first byte of a number.
    pub fn take_sign(&mut self, kind: Kind, byte: u8) -> Result<Option<Reply>, ReplyFault>
        requires { self.old.size ≤ LONGEST_REPLY }
        ensures ok { IfOk result (λ found. LeadsTo (done_to (signs kind) self.old byte) found self.new) }
        ensures made { IfOk result (Made self.old self.new) }
        ensures fault { IfErr result (λ e. e ≢ Memory → done_to (signs kind) self.old byte ≡ fails) }
    {
        if byte == b'-' {
            self.stage = Stage::Minus(kind);
            return Ok(None);
        }
        let Some(digit) = digit_of(byte) else {
            return Err(ReplyFault::Unreadable);
        };
        if kind.is_full(self.stack.len()) {
            return Err(ReplyFault::Unreadable);
        }
        self.stage = Stage::Digits(kind, false, digit);
        Ok(None)
    }

    /// Takes the first digit behind a `-`.
    pub fn take_minus(&mut self, kind: Kind, byte: u8) -> Result<Option<Reply>, ReplyFault>
        requires { self.old.size ≤ LONGEST_REPLY }
        ensures ok { IfOk result (λ found. LeadsTo (done_to (minus_digit kind) self.old (ReplyMachine.digit_of byte)) found self.new) }
        ensures made { IfOk result (Made self.old self.new) }
        ensures fault { IfErr result (λ e. e ≢ Memory → done_to (minus_digit kind) self.old (ReplyMachine.digit_of byte) ≡ fails) }
    {
        let Some(digit) = digit_of(byte) else {
            return Err(ReplyFault::Unreadable);
        };
        if digit == 0 {
            return Err(ReplyFault::Unreadable);
        }
        if digit > kind.most(true) {
            return Err(ReplyFault::Unreadable);
        }
        self.stage = Stage::Digits(kind, true, digit);
        Ok(None)
    }

    /// Takes a further digit, or the CR behind them.
    pub fn take_digit(
        &mut self,
        kind: Kind,
        negative: bool,
        n: usize,
        byte: u8,
    ) -> Result<Option<Reply>, ReplyFault>
        requires { self.old.size ≤ LONGEST_REPLY }
        ensures ok { IfOk result (λ found. LeadsTo (done_to (digits kind negative n) self.old byte) found self.new) }
        ensures made { IfOk result (Made self.old self.new) }
        ensures fault { IfErr result (λ e. e ≢ Memory → done_to (digits kind negative n) self.old byte ≡ fails) }
    {
        if byte == b'\r' {
            self.stage = Stage::DigitsEnd(kind, negative, n);
            return Ok(None);
        }
        let Some(digit) = digit_of(byte) else {
            return Err(ReplyFault::Unreadable);
        };
        if n == 0 || n > GREATEST_TENTH {
            return Err(ReplyFault::Unreadable);
        }
        let next = 10 * n + digit;
        if next > kind.most(negative) {
            return Err(ReplyFault::Unreadable);
        }
        self.stage = Stage::Digits(kind, negative, next);
        Ok(None)
    }

    // Opens an array of so many elements.
    fn open_array(&mut self, alloc: Global, count: usize) -> Result<(), ReplyFault>
        requires some { 0 < count }
        requires small { self.old.size + 3 * count ≤ LONGEST_REPLY }
        ensures ok { IfOk result (λ _. says self.new ≡ ReplyMachine.at Stage.Start [] ((count, []) ∷ levels self.old.stack.items)) }
        ensures counted { IfOk result (λ _. IsCounted self.old self.new) }
        ensures fault { IfErr result (λ e. e ≡ Memory) }
    {
        self.stack.push(Level {
            count,
            replies: Vec::new(alloc),
        })?;
        self.size += SHORTEST_REPLY * (count - 1);
        self.line.clear();
        self.stage = Stage::Start;
        Ok(())
    }

    /// Takes the LF behind a number, and gives the reply that it makes whole.
    pub fn take_number(
        &mut self,
        alloc: Global,
        kind: Kind,
        negative: bool,
        n: usize,
        byte: u8,
    ) -> Result<Option<Reply>, ReplyFault>
        requires number { IsNumber kind negative n }
        requires owed { owed (levels self.old.stack.items) ≤ self.old.size }
        requires small { self.old.size + behind kind negative n ≤ LONGEST_REPLY }
        ensures ok { IfOk result (λ found. digits_end kind negative n (levels self.old.stack.items) byte ≡ gives (given found) (says self.new)) }
        ensures made { IfOk result (Made self.old self.new) }
        ensures fault { IfErr result (λ e. e ≢ Memory → digits_end kind negative n (levels self.old.stack.items) byte ≡ fails) }
    {
        if byte != b'\n' {
            return Err(ReplyFault::Unreadable);
        }
        match kind {
            Kind::Int => self.settle(Reply::Int(int_of(negative, n))),
            Kind::Bulk => {
                if negative {
                    return self.settle(Reply::Null);
                }
                self.line.clear();
                self.stage = Stage::Body(n);
                Ok(None)
            }
            Kind::Array => {
                if negative {
                    return self.settle(Reply::NullArray);
                }
                if n == 0 {
                    return self.settle(Reply::Array(Replies::new(Vec::new(alloc))));
                }
                self.open_array(alloc, n)?;
                Ok(None)
            }
        }
    }
}
