// The part of a reply that has come, and what may come next. A number is kept as its value, and open arrays as levels, so that no reply
// is read by recursion.
ghost use Rattle.std.specs.Prelude.{◌≡◌, ◌+◌, ◌*◌, ◌^◌, ◌<◌, ◌≤◌, [], Some, None, IfOk, IfErr, length, leb};
ghost use Rattle.sk_resp.specs.Reply.{wire};
ghost use Rattle.sk_resp.specs.ReplyStream.{IsRead};
ghost use Rattle.sk_resp.specs.ReplyMachine;
ghost use Rattle.sk_resp.specs.ReplyMachine.{settled, gives, levels, says, given, owed, stage_needs, still_needs, IsOpen, IsNumber, Made};
ghost use Rattle.sk_resp.specs.declared.reply.fault.ReplyFault.TheVariants.{Memory};

use super::fault::ReplyFault;
use crate::{Replies, Reply};
use sk_base::limits::{DEEPEST_REPLY, LONGEST_BULK, LONGEST_REPLY, MOST_ELEMENTS};
use std::alloc::Global;

/// The fewest bytes of a reply: a mark and CRLF.
pub const SHORTEST_REPLY: usize = 3;

/// What the number in a line is.
#[derive(Clone, Copy)]
pub enum Kind {
    /// An integer.
    Int,
    /// The length of a bulk string.
    Bulk,
    /// The number of elements of an array.
    Array,
}

impl Kind {
    /// The greatest number of this kind, with a `-` in front or without one.
    pub fn most(self, negative: bool) -> usize
        ensures { result ≡ ReplyMachine.most self negative }
    {
        match self {
            Kind::Int => { if negative { 1 << 63 } else { (1 << 63) - 1 } }
            Kind::Bulk => { if negative { 1 } else { LONGEST_BULK } }
            Kind::Array => { if negative { 1 } else { MOST_ELEMENTS } }
        }
    }

    /// No array may be opened in so many others.
    pub fn is_full(self, depth: usize) -> bool
        ensures { result ≡ ReplyMachine.is_full self depth }
    {
        match self {
            Kind::Int => false,
            Kind::Bulk => false,
            Kind::Array => depth >= DEEPEST_REPLY,
        }
    }

    // The fewest bytes behind the mark.
    fn sign_needs(self, depth: usize) -> usize
        ensures { result ≡ ReplyMachine.sign_needs self depth }
    {
        match self {
            Kind::Int => 3,
            Kind::Bulk => 4,
            Kind::Array => { if depth < DEEPEST_REPLY { 3 } else { 4 } }
        }
    }

    // The fewest bytes behind the line with this number.
    fn behind(self, negative: bool, n: usize) -> usize
        requires { IsNumber self negative n }
        ensures value { result ≡ ReplyMachine.behind self negative n }
        ensures small { result < 2 ^ 33 }
    {
        match self {
            Kind::Int => 0,
            Kind::Bulk => { if negative { 0 } else { n + 2 } }
            Kind::Array => { if negative { 0 } else { 3 * n } }
        }
    }
}

/// What the next byte is part of.
#[derive(Clone, Copy)]
pub enum Stage {
    /// The mark of a reply.
    Start,
    /// A simple text, or the CR behind it.
    Simple,
    /// The LF behind a simple text.
    SimpleEnd,
    /// An error text, or the CR behind it.
    Error,
    /// The LF behind an error text.
    ErrorEnd,
    /// A `-`, or the first digit.
    Sign(Kind),
    /// The first digit behind a `-`.
    Minus(Kind),
    /// A further digit, or the CR behind them. The number so far has a `-` or not, and this value.
    Digits(Kind, bool, usize),
    /// The LF behind a number.
    DigitsEnd(Kind, bool, usize),
    /// The bytes of a bulk string of this length, or the CR behind them.
    Body(usize),
    /// The LF behind a bulk string.
    BodyEnd,
}

/// An array that wants more elements.
#[derive(Drop)]
pub struct Level {
    /// How many elements it has when it is whole.
    pub count: usize,
    /// The whole elements.
    pub replies: Vec<Reply>,
}

/// The part of a reply that has come.
#[derive(Drop)]
pub struct State {
    pub stage: Stage,
    /// The text or the bytes of the open line or bulk string.
    pub line: Vec<u8>,
    /// The open arrays, the innermost last.
    pub stack: Vec<Level>,
    /// The bytes that have come, and the fewest bytes of each element that no byte has come of.
    pub size: usize,
}

impl State {
    /// Before a reply.
    pub fn new(alloc: Global) -> Self
        ensures says { says result ≡ ReplyMachine.fresh }
        ensures size { result.size ≡ 0 }
    {
        State {
            stage: Stage::Start,
            line: Vec::new(alloc),
            stack: Vec::new(alloc),
            size: 0,
        }
    }

    // The fewest bytes that end what is open, the elements aside that no byte has come of.
    fn needs(&self) -> usize
        requires { IsOpen (says self.now) }
        ensures value { result ≡ stage_needs self.now.stage (length self.now.line.items) (length (levels self.now.stack.items)) }
        ensures small { result < 2 ^ 34 }
    {
        match self.stage {
            Stage::Start => SHORTEST_REPLY,
            Stage::Simple | Stage::Error => 2,
            Stage::SimpleEnd | Stage::ErrorEnd | Stage::BodyEnd => 1,
            Stage::Sign(kind) => kind.sign_needs(self.stack.len()),
            Stage::Minus(_) => 3,
            Stage::Digits(kind, negative, n) => 2 + kind.behind(negative, n),
            Stage::DigitsEnd(kind, negative, n) => 1 + kind.behind(negative, n),
            Stage::Body(need) => need - self.line.len() + 2,
        }
    }

    /// The reply can end within its limit.
    pub fn fits(&self) -> bool
        requires is_open { IsOpen (says self.now) }
        requires small { self.now.size ≤ 2 ^ 33 }
        ensures { result ≡ leb (self.now.size + still_needs self.now) LONGEST_REPLY }
    {
        self.size + self.needs() <= LONGEST_REPLY
    }

    /// Gives a whole reply to the array that wants it, and that array on to the next where it is whole now. Answers the reply that no array
    /// wants.
    pub fn settle(&mut self, reply: Reply) -> Result<Option<Reply>, ReplyFault>
        requires owed { owed (levels self.old.stack.items) ≤ self.old.size }
        requires small { self.old.size ≤ LONGEST_REPLY }
        requires read { IsRead reply }
        ensures ok { IfOk result (λ found. settled (levels self.old.stack.items) (wire reply) ≡ gives (given found) (says self.new)) }
        ensures made { IfOk result (Made self.old self.new) }
        ensures fault { IfErr result (λ e. e ≡ Memory) }
    {
        self.line.clear();
        self.stage = Stage::Start;
        let mut whole = reply;
        while let Some(mut level) = self.stack.pop() {
            level.replies.push(whole)?;
            if level.replies.len() < level.count {
                self.stack.push(level)?;
                self.size -= SHORTEST_REPLY;
                return Ok(None);
            }
            whole = Reply::Array(Replies::new(level.replies));
        }
        Ok(Some(whole))
    }
}
