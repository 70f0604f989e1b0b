// The notation of long inputs and outputs: lines `COUNT TEXT`. The text stands so many times, with `%XX` for any byte; a `#` in it is the
// number of the time, from 00001 on. A `#` alone is that byte.
use crate::output::Output;
use crate::text::{bytes_of, count, halves};
use std::alloc::Global;
use std::io;

// Appends the number, in five digits.
fn add_five(out: &mut Output, number: u32) {
    for (least, zeros) in [(10_000, ""), (1_000, "0"), (100, "00"), (10, "000")] {
        if number >= least {
            return out.count(zeros, u64::from(number), "");
        }
    }
    out.count("0000", u64::from(number), "");
}

// Appends the piece for its time of this number.
fn add_piece(out: &mut Output, piece: &[u8], number: u32) {
    let is_numbered = piece.len() > 1;
    for byte in piece {
        if is_numbered && *byte == b'#' {
            add_five(out, number);
        } else {
            out.add(&[*byte]);
        }
    }
}

/// The bytes that the lines stand for, one after another. Other lines are invalid data.
pub fn expand(alloc: Global, lines: &str) -> io::Result<Vec<u8>> {
    let mut out = Output::new(alloc);
    for line in lines.lines() {
        let (times, text) = halves(line)?;
        let piece = bytes_of(alloc, text)?;
        for number in 1..=count(times)? {
            add_piece(&mut out, &piece, number);
        }
    }
    Ok(out.into_bytes()?)
}
