// How a program ends: its output is written, or what its failure has to say, and its status is answered.
ghost use Rattle.std.specs.Prelude.{◌≡◌, ◌≢◌, ◌++◌, IfOk, IsSome, OnErr, codes, option_map};
ghost use Rattle.hex.specs.Hex.{encode_lower};
ghost use Rattle.sk_base.specs.Outside.{Rose};
ghost use Rattle.sk_app.specs.Ending.{Concludes, Reports, Writes, ended};
ghost use Rattle.sk_app.specs.Failures.{line_of, reply_line, status_of};

use crate::Failure;
use crate::visible_text::visible;
use sk_base::{Sink, write_all};
use sk_link::LinkFault;
use sk_resp::{Reply, Word, write_reply};
use std::alloc::{AllocError, Global};

/// The sink failed.
const NO_SINK: u8 = 4;

/// There was no memory.
pub const NO_MEMORY: u8 = 5;

/// Two texts, and LF.
pub fn line(alloc: Global, first: &[u8], second: &[u8]) -> Result<Word, AllocError>
    ensures { IfOk result (λ line. line ≡ ended (first.now ++ second.now)) }
{
    let mut line = Vec::new(alloc);
    line.extend_from_slice(first)?;
    line.extend_from_slice(second)?;
    line.push(b'\n')?;
    Ok(Word::new(line))
}

// A reply's text without its first byte, CR and LF, each control character by its number, and then LF.
fn reply_text(alloc: Global, reply: &Reply) -> Result<Word, AllocError>
    ensures { IfOk result (λ text. text ≡ ended (reply_line reply.now)) }
{
    let mut text = Vec::new(alloc);
    write_reply(alloc, reply, &mut text)?;
    text.truncate(text.len().saturating_sub(2));
    let shown = visible(alloc, text.get(1..).unwrap_or(&[]))?;
    line(alloc, &shown, b"")
}

// A name, and bytes in hex.
fn shown(alloc: Global, name: &[u8], bytes: &Word) -> Result<Word, AllocError>
    ensures { IfOk result (λ text. text ≡ ended (name.now ++ encode_lower bytes.now)) }
{
    let text = hex::encode(alloc, bytes.bytes())?;
    line(alloc, name, text.as_bytes())
}

// What a failure prints, with LF; none where it prints nothing.
fn failure_text(alloc: Global, failure: &Failure) -> Result<Option<Word>, AllocError>
    ensures ok { IfOk result (λ text. text ≡ option_map ended (line_of failure.now)) }
    ensures err { OnErr result (IsSome (line_of failure.now)) }
{
    match failure {
        Failure::Link(LinkFault::Unreadable(bytes)) => {
            Ok(Some(shown(alloc, b"unreadable ", bytes)?))
        }
        Failure::Cursor(bytes) => Ok(Some(shown(alloc, b"cursor ", bytes)?)),
        Failure::Refused(reply) => Ok(Some(reply_text(alloc, reply)?)),
        Failure::GenLimit => Ok(Some(line(alloc, b"gen limit", b"")?)),
        Failure::Seats => Ok(Some(line(alloc, b"seats spent", b"")?)),
        Failure::Differs(difference) => {
            Ok(Some(line(alloc, difference.text(alloc)?.as_bytes(), b"")?))
        }
        _ => Ok(None),
    }
}

/// Writes a text. The status is this one, where that could be done.
pub fn write<K: Sink>(sink: &mut K, text: &Word, wanted: u8) -> u8
    requires { wanted ≢ 4 }
    ensures told { Writes text.now wanted result (K.taken sink.old) (K.taken sink.new) }
    ensures cause { result ≡ 4 → Rose (K.write_faults sink.old) (K.write_faults sink.new) }
    ensures other { result ≡ 2 → wanted ≡ 2 }
{
    match write_all(sink, text.bytes()) {
        Ok(()) => wanted,
        Err(_) => NO_SINK,
    }
}

// Writes what a failure prints, and answers its status.
fn report<K: Sink>(alloc: Global, sink: &mut K, failure: &Failure) -> u8
    ensures told { Reports (line_of failure.now) (status_of failure.now) result (K.taken sink.old) (K.taken sink.new) }
    ensures cause { result ≡ 4 → Rose (K.write_faults sink.old) (K.write_faults sink.new) }
    ensures silent { result ≡ 2 → sink.new ≡ sink.old }
{
    match failure_text(alloc, failure) {
        Ok(Some(text)) => write(sink, &text, failure.status()),
        Ok(None) => failure.status(),
        Err(_) => NO_MEMORY,
    }
}

/// Writes the output, or what a failure prints, and answers the status: 0 where all was done, 4 where the sink failed, 5 where there was no memory, and
/// else the failure's own.
pub fn conclude<K: Sink>(alloc: Global, sink: &mut K, outcome: Result<Word, Failure>) -> u8
    ensures told { Concludes outcome result (K.taken sink.old) (K.taken sink.new) }
    ensures cause { result ≡ 4 → Rose (K.write_faults sink.old) (K.write_faults sink.new) }
    ensures silent { result ≡ 2 → sink.new ≡ sink.old }
{
    match outcome {
        Ok(output) => write(sink, &output, 0),
        Err(failure) => report(alloc, sink, &failure),
    }
}
