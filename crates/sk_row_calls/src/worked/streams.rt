// Streams of replies: the kinds of the replies that are read, and the byte with which nothing can go on, however a stream is cut.
//
// In a stream `~` stands for CRLF, `^` for CR, `_` for LF and `@` for 65,536 times `x`.
use crate::output::Output;
use sk_resp::{Reply, ReplyFault, ReplyFeeder};
use std::alloc::{AllocError, Global};
use std::io;

/// Streams below this length are cut at each of their bytes.
const CUT: usize = 200;

/// How much `@` stands for.
const MANY: usize = 65_536;

// Appends what a byte of a stream's text stands for.
fn add_byte(stream: &mut Vec<u8>, byte: u8) -> Result<(), AllocError> {
    match byte {
        b'~' => stream.extend_from_slice(b"\r\n"),
        b'^' => stream.extend_from_slice(b"\r"),
        b'_' => stream.extend_from_slice(b"\n"),
        b'@' => stream.resize(stream.len().saturating_add(MANY), b'x'),
        other => stream.extend_from_slice(&[other]),
    }
}

// What the text stands for.
fn stream_of(alloc: Global, text: &str) -> Result<Vec<u8>, AllocError> {
    let mut stream = Vec::new(alloc);
    for byte in text.as_bytes() {
        add_byte(&mut stream, *byte)?;
    }
    Ok(stream)
}

fn kind_of(reply: &Reply) -> &'static str {
    match reply {
        Reply::Say(_) => "?",
        Reply::Simple(_) => "S",
        Reply::Error(_) => "E",
        Reply::Int(_) => "I",
        Reply::Bulk(_) => "B",
        Reply::Null => "N",
        Reply::Array(_) => "A",
        Reply::NullArray => "Z",
    }
}

/// What was read of a stream: the kinds of its replies, a letter each, or `-`, and the replies as they are written.
#[derive(Drop)]
struct Reading {
    kinds: Output,
    again: Output,
}

impl Reading {
    fn of(alloc: Global, replies: &[Reply]) -> Reading {
        let (mut kinds, mut again) = (Output::new(alloc), Output::new(alloc));
        for reply in replies {
            kinds.say(kind_of(reply));
            again.reply(reply);
        }
        if replies.is_empty() {
            kinds.say("-");
        }
        Reading { kinds, again }
    }
}

// Whether the bytes were taken, or nothing can go on with them.
fn is_taken(feeder: &mut ReplyFeeder, bytes: &[u8], replies: &mut Vec<Reply>) -> bool {
    !matches!(
        feeder.feed(bytes, replies),
        Err(ReplyFault::Unreadable | ReplyFault::Memory)
    )
}

// Whether the stream, cut there in two, comes to the same: these kinds, and a piece is refused where it ends behind the place.
fn is_read_so(alloc: Global, first: &[u8], second: &[u8], kinds: &[u8], place: usize) -> bool {
    let mut replies = Vec::new(alloc);
    let mut feeder = ReplyFeeder::new(alloc);
    let one = is_taken(&mut feeder, first, &mut replies);
    let two = is_taken(&mut feeder, second, &mut replies);
    let whole = first.len().saturating_add(second.len());
    let as_many = Reading::of(alloc, &replies).kinds.bytes() == kinds;
    as_many && one == (first.len() <= place) && two == (whole <= place)
}

// The first cut at which the stream comes to something else.
fn first_other(alloc: Global, stream: &[u8], kinds: &[u8], place: usize) -> Option<usize> {
    let cuts = if stream.len() < CUT { stream.len() } else { 0 };
    for cut in 0..=cuts {
        let (first, second) = stream.split_at(cut);
        if !is_read_so(alloc, first, second, kinds, place) {
            return Some(cut);
        }
    }
    None
}

// The first byte that is refused, one after another, and the greatest number where none is; and what was read.
fn read_singly(alloc: Global, stream: &[u8]) -> (usize, Reading) {
    let mut replies = Vec::new(alloc);
    let mut feeder = ReplyFeeder::new(alloc);
    let mut place = usize::MAX;
    for (i, byte) in stream.iter().enumerate() {
        if !is_taken(&mut feeder, &[*byte], &mut replies) {
            place = place.min(i);
        }
    }
    (place, Reading::of(alloc, &replies))
}

// Appends the kinds of what is read of the stream. Answers the first byte that is refused; the greatest number where none is.
fn add_reading(alloc: Global, out: &mut Output, stream: &[u8]) -> usize {
    let (place, reading) = read_singly(alloc, stream);
    if !stream.starts_with(reading.again.bytes()) {
        out.say("other replies than the stream's: ");
    }
    if let Some(cut) = first_other(alloc, stream, reading.kinds.bytes(), place) {
        out.count("other in pieces, cut at ", cut as u64, ": ");
    }
    out.add(reading.kinds.bytes());
    place
}

/// Appends the line of a stream: the kinds of its replies, and the stream, with `!` before the byte with which nothing can go on, or with `?` at its
/// end where that is in the middle of what a byte stands for.
pub fn add_stream(alloc: Global, out: &mut Output, text: &str) -> io::Result<()> {
    let place = add_reading(alloc, out, &stream_of(alloc, text)?);
    out.say(" ");
    let mut before = Vec::new(alloc);
    let mut end = if place == usize::MAX { "\n" } else { "?\n" };
    for byte in text.as_bytes() {
        if before.len() == place {
            out.say("!");
            end = "\n";
        }
        out.add(&[*byte]);
        add_byte(&mut before, *byte)?;
    }
    out.say(end);
    Ok(())
}
