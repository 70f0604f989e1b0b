// One reply from a source. What is read goes into a buffer, and leaves it once its reply is whole, so that what is unread is what the buffer holds and
// what the source has left. The reader is given the buffer line by line, since a reply's text ends in LF: so it never reads past the end of a reply.
ghost use Rattle.std.specs.Prelude.{◌≡◌, ◌≢◌, ◌<◌, ◌≤◌, ◌+◌, ◌-◌, ◌++◌, ℕ, List, [], false, Option, Some, None, Ok, IfOk, IfErr, IfNone, IfSome, OnOk, OnErr, length, take, drop};
ghost use Rattle.sk_base.specs.Outside.{Gives};
ghost use Rattle.sk_resp.specs.Spelling.{Bytes, IsPart};
ghost use Rattle.sk_resp.specs.Reply.{wire};
ghost use Rattle.sk_resp.specs.ReplyStream.{IsReplyPart, IsReplyText};
ghost use Rattle.sk_link.specs.Fault.{IsAtEnd, IsIoCause, IsNoReply, IsReplyCause, IsStuck};
ghost use Rattle.sk_link.specs.Line.{IsLine};
ghost use Rattle.sk_link.specs.Wire.{unread_of};

use crate::{LinkFault, Memory};
use memchr::memchr;
use sk_base::limits::{CHUNK, LONGEST_SHOWN};
use sk_base::{Failed, Source};
use sk_resp::{Reply, ReplyFault, ReplyFeeder, Word, no_reply_begins_another};
use std::alloc::Global;

// Makes room for a read behind the bytes.
fn grow(buffer: &mut Vec<u8>) -> Result<(), Memory>
    ensures size { OnOk result (length buffer.new.items ≡ length buffer.old.items + CHUNK) }
    ensures front { OnOk result (take (length buffer.old.items) buffer.new.items ≡ buffer.old.items) }
    ensures err { OnErr result (buffer.new.items ≡ buffer.old.items) }
{
    buffer.resize(buffer.len() + CHUNK, 0)
}

// Takes the bytes off the front.
fn drop_front(buffer: &mut Vec<u8>, n: usize)
    requires { n ≤ length buffer.old.items }
    ensures { buffer.new.items ≡ drop n buffer.old.items }
{
    let rest = buffer.len() - n;
    buffer.rotate_left(n);
    buffer.truncate(rest);
}

// Reads some more bytes, behind those in the buffer. None come only at the end of the input.
fn read_more<S: Source>(source: &mut S, buffer: &mut Vec<u8>) -> Result<usize, LinkFault>
    ensures more { IfOk result (λ n. length buffer.new.items ≡ length buffer.old.items + n) }
    ensures kept { IfOk result (λ n. take (length buffer.old.items) buffer.new.items ≡ buffer.old.items) }
    ensures same { unread_of buffer.new.items (S.left source.new) ≡ unread_of buffer.old.items (S.left source.old) }
    ensures end { result ≡ Ok 0 → IsAtEnd (S.left source.new) }
    ensures beside { S.beside_read source.new ≡ S.beside_read source.old }
    ensures whole { OnOk result (S.read_faults source.new ≡ S.read_faults source.old) }
    ensures later { S.read_faults source.old ≤ S.read_faults source.new }
    ensures cause { IfErr result (IsIoCause (S.read_faults source.old) (S.read_faults source.new)) }
{
    let len = buffer.len();
    grow(buffer)?;
    match source.read(&mut buffer[len..]) {
        Ok(n) => {
            buffer.truncate(len + n);
            Ok(n)
        }
        Err(Failed) => {
            buffer.truncate(len);
            Err(LinkFault::Failed)
        }
    }
}

// How many bytes there are up to the first LF, with it.
fn line_end(bytes: &[u8]) -> usize
    requires { 0 < length bytes.now }
    ensures part { IsPart result bytes.now }
    ensures line { IsLine (take result bytes.now) }
{
    match memchr(b'\n', bytes) {
        Some(at) => at + 1,
        None => bytes.len(),
    }
}

// Gives the reader a line.
fn feed_line(
    alloc: Global,
    feeder: &mut ReplyFeeder,
    line: &[u8],
) -> Result<Option<Reply>, ReplyFault>
    requires open { feeder.old.fault ≡ None }
    requires part { IsReplyPart feeder.old.rest }
    requires line { IsLine line.now }
    ensures open { OnOk result (feeder.new.fault ≡ None) }
    ensures part { OnOk result (IsReplyPart feeder.new.rest) }
    ensures more { IfOk result (λ found. IfNone found (feeder.new.rest ≡ feeder.old.rest ++ line.now)) }
    ensures whole { IfOk result (λ found. IfSome found (λ reply. wire reply ≡ feeder.old.rest ++ line.now)) }
    ensures text { IfOk result (λ found. IfSome found (λ reply. IsReplyText (wire reply))) }
    ensures fault { IfErr result (λ fault. fault ≢ ReplyFault.Memory → IsStuck (feeder.old.rest ++ line.now)) }
{
    no_reply_begins_another();
    let mut out = Vec::new(alloc);
    match feeder.feed(line, &mut out) {
        Ok(()) => Ok(out.pop()),
        Err(fault) => Err(fault),
    }
}

// Gives the reader the lines of some bytes, up to a reply that they make whole, and answers that with the number of bytes given.
fn parse(
    alloc: Global,
    feeder: &mut ReplyFeeder,
    bytes: &[u8],
) -> Result<Option<(Reply, usize)>, ReplyFault>
    requires open { feeder.old.fault ≡ None }
    requires part { IsReplyPart feeder.old.rest }
    ensures open { OnOk result (feeder.new.fault ≡ None) }
    ensures part { OnOk result (IsReplyPart feeder.new.rest) }
    ensures more { IfOk result (λ found. IfNone found (feeder.new.rest ≡ feeder.old.rest ++ bytes.now)) }
    ensures whole { IfOk result (λ found. IfSome found (λ f. (f.1 ≤ length bytes.now) × (wire f.0 ≡ feeder.old.rest ++ take f.1 bytes.now))) }
    ensures text { IfOk result (λ found. IfSome found (λ f. IsReplyText (wire f.0))) }
    ensures fault { IfErr result (λ fault. fault ≢ ReplyFault.Memory → IsStuck (feeder.old.rest ++ bytes.now)) }
{
    let mut at = 0;
    while at < bytes.len() {
        let end = at + line_end(&bytes[at..]);
        let found = match feed_line(alloc, feeder, &bytes[at..end]) {
            Ok(found) => found,
            Err(fault) => return Err(fault),
        };
        at = end;
        match found {
            None => {}
            Some(reply) => return Ok(Some((reply, at))),
        }
    }
    Ok(None)
}

// Takes a reply that is whole off the front of the buffer. The reader was given the bytes up to a place.
fn take_reply(
    alloc: Global,
    feeder: &mut ReplyFeeder,
    buffer: &mut Vec<u8>,
    at: usize,
) -> Result<Option<Reply>, ReplyFault>
    requires open { feeder.old.fault ≡ None }
    requires part { IsReplyPart feeder.old.rest }
    requires within { at ≤ length buffer.old.items }
    requires given { feeder.old.rest ≡ take at buffer.old.items }
    ensures open { OnOk result (feeder.new.fault ≡ None) }
    ensures part { OnOk result (IsReplyPart feeder.new.rest) }
    ensures more { IfOk result (λ found. IfNone found ((feeder.new.rest ≡ buffer.old.items) × (buffer.new.items ≡ buffer.old.items))) }
    ensures whole { IfOk result (λ found. IfSome found (λ reply. buffer.old.items ≡ wire reply ++ buffer.new.items)) }
    ensures text { IfOk result (λ found. IfSome found (λ reply. IsReplyText (wire reply))) }
    ensures err { OnErr result (buffer.new.items ≡ buffer.old.items) }
    ensures fault { IfErr result (λ fault. fault ≢ ReplyFault.Memory → IsStuck buffer.old.items) }
{
    let found = match parse(alloc, feeder, &buffer[at..]) {
        Ok(found) => found,
        Err(fault) => return Err(fault),
    };
    match found {
        None => Ok(None),
        Some((reply, used)) => {
            drop_front(buffer, at + used);
            Ok(Some(reply))
        }
    }
}

// The first 64 bytes.
fn shown(alloc: Global, bytes: &[u8]) -> Result<Word, Memory>
    ensures { IfOk result (λ word. word ≡ take LONGEST_SHOWN bytes.now) }
{
    let n = LONGEST_SHOWN.min(bytes.len());
    Ok(Word::new(bytes[..n].to_vec(alloc)?))
}

// The fault of a stream of which these bytes were read, where they can't go on as a reply, or are all that there is and no whole one.
fn unreadable(alloc: Global, bytes: &[u8]) -> LinkFault
    ensures stuck { IsStuck bytes.now → (count : ℕ) (left : Option Bytes) → IsReplyCause count count (unread_of bytes.now left) result }
    ensures ended { IsNoReply bytes.now → (count : ℕ) (left : Option Bytes) → IsAtEnd left → IsReplyCause count count (unread_of bytes.now left) result }
{
    match shown(alloc, bytes) {
        Ok(kept) => LinkFault::Unreadable(kept),
        Err(_) => LinkFault::Memory,
    }
}

// The fault of a link whose reader has stopped in these bytes.
fn stopped(alloc: Global, bytes: &[u8], fault: ReplyFault) -> LinkFault
    requires { fault ≢ ReplyFault.Memory → IsStuck bytes.now }
    ensures { (count : ℕ) (left : Option Bytes) → IsReplyCause count count (unread_of bytes.now left) result }
{
    match fault {
        ReplyFault::Unreadable => unreadable(alloc, bytes),
        ReplyFault::Memory => LinkFault::Memory,
    }
}

/// Reads one reply, whole, and leaves in the buffer what was read behind it. Nothing is lost at a fault, and nothing is waited for behind bytes that
/// can't go on as a reply.
pub fn receive<S: Source>(
    alloc: Global,
    source: &mut S,
    buffer: &mut Vec<u8>,
) -> Result<Reply, LinkFault>
    ensures ok { IfOk result (λ r. Gives (unread_of buffer.old.items (S.left source.old)) (wire r)
        (unread_of buffer.new.items (S.left source.new))) }
    ensures text { IfOk result (λ reply. IsReplyText (wire reply)) }
    ensures err { OnErr result (unread_of buffer.new.items (S.left source.new) ≡ unread_of buffer.old.items (S.left source.old)) }
    ensures beside { S.beside_read source.new ≡ S.beside_read source.old }
    ensures whole { OnOk result (S.read_faults source.new ≡ S.read_faults source.old) }
    ensures later { S.read_faults source.old ≤ S.read_faults source.new }
    ensures cause { IfErr result (IsReplyCause (S.read_faults source.old) (S.read_faults source.new)
        (unread_of buffer.new.items (S.left source.new))) }
{
    no_reply_begins_another();
    let mut feeder = ReplyFeeder::new(alloc);
    let mut at = 0;
    loop {
        let found = match take_reply(alloc, &mut feeder, buffer, at) {
            Ok(found) => found,
            Err(fault) => return Err(stopped(alloc, buffer, fault)),
        };
        match found {
            None => at = buffer.len(),
            Some(reply) => return Ok(reply),
        }
        let more = match read_more(source, buffer) {
            Ok(more) => more,
            Err(fault) => return Err(fault),
        };
        if more == 0 {
            return Err(unreadable(alloc, buffer));
        }
    }
}
