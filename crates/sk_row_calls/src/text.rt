// What stands in rows: numbers, words, and bytes as text.
ghost use Rattle.std.specs.Prelude.{◌≤◌, IfOk};

use percent_encoding::{AsciiSet, CONTROLS, ascii_set, percent_decode};
use sk_model::Limits;
use sk_pipe::SHIPPED_LIMITS;
use std::alloc::{AllocError, Global};
use std::io::{self, ErrorKind};

/// What stands as `%XX` in a row, beside what isn't ASCII.
pub const ESCAPED: AsciiSet = ascii_set!(CONTROLS.add(b'%'));

/// The error of a row that isn't as it must be.
pub fn invalid() -> io::Error {
    io::Error::from(ErrorKind::InvalidData)
}

/// The path of a file of this name and kind.
pub fn path_of(alloc: Global, name: &str, kind: &str) -> Result<String, AllocError> {
    let mut path = String::from_str(alloc, name)?;
    path.push_str(kind)?;
    Ok(path)
}

/// The bytes that a text stands for, in which `%XX` is any byte.
pub fn bytes_of(alloc: Global, text: &str) -> Result<Vec<u8>, AllocError> {
    let mut bytes = Vec::new(alloc);
    percent_decode(text.as_bytes()).append_to(&mut bytes)?;
    Ok(bytes)
}

/// The text that a text stands for. Bytes that aren't UTF-8 are invalid data.
pub fn word(alloc: Global, text: &str) -> io::Result<String> {
    match String::from_utf8(bytes_of(alloc, text)?) {
        Ok(word) => Ok(word),
        Err(_) => Err(invalid()),
    }
}

/// The words of a command line, with one blank between each two. No text is no words.
pub fn words(alloc: Global, text: &str) -> io::Result<Vec<String>> {
    let mut words = Vec::new(alloc);
    if text.is_empty() {
        return Ok(words);
    }
    for part in text.split(' ') {
        words.push(word(alloc, part)?)?;
    }
    Ok(words)
}

/// The text's number. Another text is invalid data.
pub fn number(text: &str) -> io::Result<u64> {
    match text.parse::<u64>() {
        Ok(number) => Ok(number),
        Err(_) => Err(invalid()),
    }
}

/// The text's number, below 2^32. Another text is invalid data.
pub fn count(text: &str) -> io::Result<u32> {
    match text.parse::<u32>() {
        Ok(count) => Ok(count),
        Err(_) => Err(invalid()),
    }
}

/// The text's number, within these bounds. Another text is invalid data.
pub fn count_within(text: &str, least: u32, most: u32) -> io::Result<u32>
    ensures { IfOk result (λ count. (least ≤ count) × (count ≤ most)) }
{
    let count = count(text)?;
    if count < least {
        return Err(invalid());
    }
    if count > most {
        return Err(invalid());
    }
    Ok(count)
}

/// The numbers, with blanks between.
pub fn numbers(alloc: Global, text: &str) -> io::Result<Vec<u64>> {
    let mut numbers = Vec::new(alloc);
    for word in text.split_whitespace() {
        numbers.push(number(word)?)?;
    }
    Ok(numbers)
}

/// What a store has room for: the rows, the bytes and the batches that the numbers tell; for none what the program's has. Others are invalid data.
pub fn limits(numbers: &[u64]) -> io::Result<Limits> {
    match numbers {
        [] => Ok(SHIPPED_LIMITS),
        [rows, bytes, batches] => {
            let (rows, bytes, batches) = (*rows, *bytes, *batches);
            Ok(Limits {
                rows,
                bytes,
                batches,
            })
        }
        _ => Err(invalid()),
    }
}

/// What stands before the first blank of a line, and what stands behind it. Another line is invalid data.
pub fn halves(line: &str) -> io::Result<(&str, &str)> {
    match line.split_once(' ') {
        Some(halves) => Ok(halves),
        None => Err(invalid()),
    }
}
