// How what came of a row differs from what is wanted.
ghost use Rattle.std.specs.Prelude.{◌≡◌, None};

use sk_row_calls::Output;
use sk_row_calls::text::ESCAPED;
use std::alloc::Global;

/// How many bytes of a difference are shown.
const SHOWN: usize = 60;

// Appends some bytes from there on, as text.
fn add_shown(out: &mut Output, bytes: &[u8], at: usize) {
    let rest = &bytes[at.min(bytes.len())..];
    let front = &rest[..rest.len().min(SHOWN)];
    out.say("'");
    out.escape(front, ESCAPED);
    out.say("'");
}

// How many bytes both have in common at their fronts.
fn common_front(a: &[u8], b: &[u8]) -> usize {
    let most = a.len().min(b.len());
    for i in 0..most {
        if a[i] != b[i] {
            return i;
        }
    }
    most
}

// The line of what is wanted in which a place is, counted from 1.
fn line_of(wanted: &[u8], at: usize) -> u64 {
    let mut line: u64 = 1;
    for byte in &wanted[..at.min(wanted.len())] {
        line = line.saturating_add(u64::from(*byte == b'\n'));
    }
    line
}

// From where on bytes differ, and what stands there.
fn told(alloc: Global, came: &[u8], wanted: &[u8]) -> Output {
    let at = common_front(came, wanted);
    let mut out = Output::new(alloc);
    out.count("line ", line_of(wanted, at), "");
    out.count(", from byte ", at as u64, " on ");
    add_shown(&mut out, came, at);
    out.say(", wanted ");
    add_shown(&mut out, wanted, at);
    out
}

/// How what came differs from what is wanted; nothing where both are the same.
pub fn difference(alloc: Global, came: &[u8], wanted: &[u8]) -> Option<Output>
    ensures { result ≡ None → came.now ≡ wanted.now }
{
    if came == wanted {
        return None;
    }
    Some(told(alloc, came, wanted))
}
