// The first line of a stream, which is held back until it is known to be no request of HTTP. A page that a browser shows can make it send such a
// request to any port of the machine, with commands of the store in its body; so no byte of it is handed on. What a reader of commands refuses by
// itself passes at once: an array, and a line with more bytes than an inline command may have. A page can also have a handshake of TLS sent, with a
// session ticket that its own server made, so no byte of that is handed on either.
ghost use Rattle.std.specs.Prelude.{◌≡◌, ◌≢◌, ◌<◌, ◌≤◌, ◌++◌, ◌↔◌, [], length, slice_index, take, IsTrue, OnOk, OnErr};
ghost use Rattle.sk_edge.specs.RequestLine.{lf, star, Bytes, BeginsHttp, Lacks, NeverHttp};
ghost use Rattle.sk_edge.specs.Foreign.{BeginsTls, IsForeign, Passes};

use crate::request_line::{find, is_request};
use sk_base::limits::LONGEST_INLINE;
use std::alloc::{AllocError, Global};
use std::marker::Model;

/// What is known of a first line.
#[derive(Clone, Copy)]
pub(crate) enum Stage {
    /// It may still become a request of HTTP.
    Open,
    /// It is none, nor a handshake of TLS, whatever comes.
    Passed,
    /// It is one of these, or there was no memory to hold it. Nothing is handed on.
    Shut,
}

/// The first line of a stream, and what came behind it with its last piece.
#[derive(Drop)]
pub(crate) struct FirstLine {
    stage: Stage,
    held: Vec<u8>,
}

impl Model for FirstLine {
    ghost use Rattle.std.specs.Prelude.{◌≡◌, ◌≤◌, length};
    ghost use Rattle.sk_base.specs.declared.limits.TheConstants.{LONGEST_INLINE};
    ghost use Rattle.sk_edge.specs.RequestLine.{lf, Lacks};
    ghost use Rattle.sk_edge.specs.FirstLine.{Begun};
    ghost use Rattle.sk_edge.specs.declared.first_line.Stage.TheVariants.{Open};

    ghost Value = { Begun };

    ghost view = { λ f. record { stage = f.stage; held = f.held.items } };

    ghost invariant = { λ f. f.stage ≡ Open → Lacks lf f.held.items × (length f.held.items ≤ LONGEST_INLINE) };
}

// Whether a star stands first, as at an array of RESP2.
fn is_array(bytes: &[u8]) -> bool
    ensures star { IsTrue result → (0 < length bytes.now) × (slice_index bytes.now 0 ≡ star) }
    ensures plain { (IsTrue result → ⊥) → slice_index bytes.now 0 ≢ star }
{
    !bytes.is_empty() && bytes[0] == b'*'
}

// The first byte of a record of TLS that carries a handshake.
const HANDSHAKE: u8 = 22;

// Whether a handshake of TLS begins.
fn is_handshake(bytes: &[u8]) -> bool
    ensures { IsTrue result ↔ BeginsTls bytes.now }
{
    match bytes {
        [first, ..] => *first == HANDSHAKE,
        [] => false,
    }
}

// What is known of a first line of no handshake, by these bytes, where no LF is among so many at the front.
fn line_stage(bytes: &[u8], from: usize) -> Stage
    requires within { from ≤ length bytes.now }
    requires looked { Lacks lf (take from bytes.now) }
    ensures open { result ≡ Stage.Open → Lacks lf bytes.now × (length bytes.now ≤ LONGEST_INLINE) }
    ensures passed { result ≡ Stage.Passed → NeverHttp bytes.now }
    ensures shut { result ≡ Stage.Shut → BeginsHttp bytes.now }
{
    if is_array(bytes) {
        return Stage::Passed;
    }
    match find(bytes, from, b'\n') {
        Some(at) => if at <= LONGEST_INLINE && is_request(&bytes[..at]) {
            Stage::Shut
        } else {
            Stage::Passed
        },
        None => if bytes.len() <= LONGEST_INLINE {
            Stage::Open
        } else {
            Stage::Passed
        },
    }
}

// What is known of a first line by these bytes, where no LF is among so many at the front.
#[tactic(auto, using(crate::proofs::Foreigners::passes_both))]
fn stage_of(bytes: &[u8], from: usize) -> Stage
    requires within { from ≤ length bytes.now }
    requires looked { Lacks lf (take from bytes.now) }
    ensures open { result ≡ Stage.Open → Lacks lf bytes.now × (length bytes.now ≤ LONGEST_INLINE) }
    ensures passed { result ≡ Stage.Passed → 0 < length bytes.now → Passes bytes.now }
    ensures shut { result ≡ Stage.Shut → IsForeign bytes.now }
{
    if is_handshake(bytes) {
        return Stage::Shut;
    }
    line_stage(bytes, from)
}

impl FirstLine {
    /// Nothing came yet. Takes no memory.
    pub(crate) fn new(alloc: Global) -> FirstLine
        ensures { result ≡ record { stage = Stage.Open; held = [] } }
    {
        FirstLine {
            stage: Stage::Open,
            held: Vec::new(alloc),
        }
    }

    /// A line that isn't looked at. Takes no memory.
    pub(crate) fn passed(alloc: Global) -> FirstLine
        ensures { result ≡ record { stage = Stage.Passed; held = [] } }
    {
        FirstLine {
            stage: Stage::Passed,
            held: Vec::new(alloc),
        }
    }

    /// What is known of it.
    pub(crate) fn stage(&self) -> Stage
        ensures { result ≡ self.now.stage }
    {
        self.stage
    }

    /// Whether nothing is held.
    pub(crate) fn is_empty(&self) -> bool
        ensures { IsTrue result ↔ (self.now.held ≡ []) }
    {
        self.held.is_empty()
    }

    /// Lets the first piece of the stream pass as it is, where it may, and answers whether it did. Takes no memory. An empty piece is the stream's end.
    pub(crate) fn lets_pass(&mut self, piece: &[u8]) -> bool
        requires { self.old.stage ≡ Stage.Open }
        ensures alone { IsTrue result → self.old.held ≡ [] }
        ensures passed { IsTrue result → 0 < length piece.now → Passes piece.now }
        ensures stage { IsTrue result → self.new.stage ≡ Stage.Passed }
        ensures held { self.new.held ≡ self.old.held }
        ensures not { (IsTrue result → ⊥) → self.new ≡ self.old }
    {
        if !self.held.is_empty() {
            return false;
        }
        match stage_of(piece, 0) {
            Stage::Passed => {}
            Stage::Open if piece.is_empty() => {}
            _ => return false,
        }
        self.stage = Stage::Passed;
        true
    }

    /// Takes the next piece of the stream. An empty piece is the stream's end, which no line ends.
    #[tactic(auto, using(crate::proofs::Foreigners::foreign_more))]
    pub(crate) fn take(&mut self, piece: &[u8]) -> Result<(), AllocError>
        requires { self.old.stage ≡ Stage.Open }
        ensures held { OnOk result (self.new.held ≡ self.old.held ++ piece.now) }
        ensures open { OnOk result (self.new.stage ≡ Stage.Open → 0 < length piece.now) }
        ensures passed { OnOk result (self.new.stage ≡ Stage.Passed → 0 < length piece.now → Passes (self.old.held ++ piece.now)) }
        ensures end { OnOk result (self.new.stage ≡ Stage.Passed → piece.now ≡ [] → Lacks lf self.old.held) }
        ensures refused { OnOk result (self.new.stage ≡ Stage.Shut → (more : Bytes) → IsForeign ((self.old.held ++ piece.now) ++ more)) }
        ensures err { OnErr result (self.new.stage ≡ Stage.Shut) }
    {
        if piece.is_empty() {
            self.stage = Stage::Passed;
            return Ok(());
        }
        let looked = self.held.len();
        if self.held.extend_from_slice(piece).is_err() {
            self.stage = Stage::Shut;
            return Err(AllocError);
        }
        self.stage = stage_of(&self.held, looked);
        Ok(())
    }

    /// Hands on what is held, as much of it as fits.
    pub(crate) fn give(&mut self, buf: &mut [u8]) -> usize
        requires { self.old.stage ≡ Stage.Passed }
        ensures within { result ≤ length buf.old }
        ensures given { self.old.held ≡ take result buf.new ++ self.new.held }
        ensures some { result ≡ 0 → 0 < length buf.old → self.old.held ≡ [] }
        ensures stage { self.new.stage ≡ self.old.stage }
    {
        let n = self.held.len().min(buf.len());
        buf[..n].copy_from_slice(&self.held[..n]);
        drop(self.held.drain(..n));
        n
    }
}
