// What no clause says: which reads and writes of real streams fail, and where the pieces end.

use sk_base::{Sink, Source, StdSink, StdSource, write_all};
use std::alloc::{AllocError, Global};
use std::io::{self, ErrorKind, Read, Write};
use std::test::Fail;

// What the next reads of a source answer, each with room for so many bytes, eight at most: the bytes with a bar behind them, or a `!` for a failure.
fn reads<S: Source>(alloc: Global, source: &mut S, rooms: &[usize]) -> Result<Vec<u8>, AllocError> {
    let mut told = Vec::new(alloc);
    let mut buf = [0u8; 8];
    for room in rooms {
        let room = (*room).min(8);
        match source.read(&mut buf[..room]) {
            Ok(n) => {
                told.extend_from_slice(&buf[..n])?;
                told.push(b'|')?;
            }
            Err(_) => told.push(b'!')?,
        }
    }
    Ok(told)
}

/// A writer that takes one byte at a call, as long as it is the next one of these, and then fails.
#[derive(Drop)]
struct Expecting(&'static [u8]);

impl Write for Expecting {
    fn write(&mut self, buf: &[u8]) -> io::Result<usize> {
        match (buf, self.0) {
            ([], _) => Ok(0),
            ([byte, ..], [next, rest @ ..]) if byte == next => {
                self.0 = rest;
                Ok(1)
            }
            _ => Err(io::Error::from(ErrorKind::BrokenPipe)),
        }
    }

    fn flush(&mut self) -> io::Result<()> {
        Ok(())
    }
}

#[test]
fn a_real_sink_goes_on_after_a_short_write_and_tells_a_failed_one(rt: HostRuntime) {
    let mut sink = StdSink::new(Expecting(b"abcd"));
    assert!(rt; matches!(sink.write(b"ab"), Ok(1)));
    assert!(rt; write_all(&mut sink, b"bc").is_ok());
    assert!(rt; write_all(&mut sink, b"").is_ok());
    assert!(rt; write_all(&mut sink, b"de").is_err());
    assert!(rt; sink.write(b"d").is_err());
}

/// A reader that gives one byte at a call, and then fails.
#[derive(Drop)]
struct Giving(&'static [u8]);

impl Read for Giving {
    fn read(&mut self, buf: &mut [u8]) -> io::Result<usize> {
        match self.0 {
            [byte, rest @ ..] if !buf.is_empty() => {
                buf[0] = *byte;
                self.0 = rest;
                Ok(1)
            }
            _ => Err(io::Error::from(ErrorKind::BrokenPipe)),
        }
    }
}

#[test]
fn a_real_source_gives_what_its_reader_does_and_tells_its_failure(
    rt: HostRuntime,
) -> Result<(), Fail> {
    let mut source = StdSource::new(Giving(b"ab"));
    let told = reads(rt.alloc(), &mut source, &[8, 7, 8])?;
    assert_eq!(rt; told.as_slice(), b"a|b|!".as_slice());
    Ok(())
}
