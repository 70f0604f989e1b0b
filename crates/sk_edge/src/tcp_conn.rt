// A connection over TCP. What is written is gathered, and sent before the next read, where more comes than the buffer holds, and when the connection
// is dropped: so the replies to a batch of commands cost one call of the system, and a single one still goes out at once.
// What couldn't be sent is given up, so that nothing is sent twice. A client's first line is held back until it is known to be no request of HTTP.
ghost use Rattle.std.specs.Prelude.{◌≡◌, ◌<◌, ◌≤◌, None, length, IfSome, refl};

use crate::connections::Place;
use crate::first_line::{FirstLine, Stage};
use sk_base::limits::LARGEST_BATCH;
use sk_base::{Conn, Duplex, Failed, Sink, Source};
use std::alloc::Global;
use std::io::{ErrorKind, Read, Write};
use std::marker::Model;
use std::net::TcpStream;

/// A connection over TCP. Contracts see how often its reads and writes have failed; it tells nothing of its bytes.
pub struct TcpConn {
    stream: TcpStream,
    // of what is read
    first: FirstLine,
    // what was written and not sent yet
    gathered: Vec<u8>,
    // of a client, as long as it is served
    place: Option<Place>,
    read_faults: u64,
    write_faults: u64,
}

impl Model for TcpConn {
    ghost use Rattle.sk_edge.specs.Faults.{ConnFaults};

    ghost Value = { ConnFaults };

    ghost view = { λ c. record { reads = c.read_faults; writes = c.write_faults } };
}

// Sends some of the bytes, at least one. A call that a signal broke is made again.
fn send_some(stream: &mut TcpStream, bytes: &[u8]) -> Option<usize>
    ensures { IfSome result (λ n. (0 < n) × (n ≤ length bytes.now)) }
{
    for _again in 0..u64::MAX {
        match stream.write(bytes) {
            Ok(0) => return None,
            Ok(n) => return Some(n),
            Err(e) if e.kind() == ErrorKind::Interrupted => {}
            Err(_) => return None,
        }
    }
    None
}

// Sends all of the bytes, or answers false.
fn send_all(stream: &mut TcpStream, bytes: &[u8]) -> bool {
    let mut rest = bytes;
    while !rest.is_empty() {
        let Some(n) = send_some(stream, rest) else {
            return false;
        };
        rest = &rest[n..];
    }
    true
}

// Reads some bytes: none at the end alone. A call that a signal broke is made again.
fn read_some(stream: &mut TcpStream, buf: &mut [u8]) -> Option<usize>
    ensures { IfSome result (λ n. n ≤ length buf.old) }
{
    for _again in 0..u64::MAX {
        match stream.read(buf) {
            Ok(n) => return Some(n),
            Err(e) if e.kind() == ErrorKind::Interrupted => {}
            Err(_) => return None,
        }
    }
    None
}

// Reads on until the first line is known. Answers how many bytes of the buffer pass as they are: 0 where they are held.
fn read_first(stream: &mut TcpStream, first: &mut FirstLine, buf: &mut [u8]) -> Option<usize>
    ensures { IfSome result (λ n. n ≤ length buf.old) }
{
    for _again in 0..u64::MAX {
        let Stage::Open = first.stage() else {
            return Some(0);
        };
        let n = read_some(stream, buf)?;
        if first.lets_pass(&buf[..n]) {
            return Some(n);
        }
        first.take(&buf[..n]).ok()?;
    }
    None
}

impl TcpConn {
    /// The connection over the stream, which sends small pieces at once. Takes no memory.
    pub fn new(alloc: Global, stream: TcpStream) -> TcpConn
        ensures { result ≡ record { reads = 0; writes = 0 } }
    {
        TcpConn::over(alloc, stream, FirstLine::passed(alloc), None)
    }

    // The same to a client, of which no read gives anything where it begins with a request of HTTP.
    pub(crate) fn accepted(alloc: Global, stream: TcpStream, place: Option<Place>) -> TcpConn
        ensures { result ≡ record { reads = 0; writes = 0 } }
    {
        TcpConn::over(alloc, stream, FirstLine::new(alloc), place)
    }

    fn over(alloc: Global, stream: TcpStream, first: FirstLine, place: Option<Place>) -> TcpConn
        ensures { result ≡ record { reads = 0; writes = 0 } }
    {
        // Where the option can't be set the connection is slower, and no less right.
        let _ = stream.set_nodelay(true);
        TcpConn {
            stream,
            first,
            gathered: Vec::new(alloc),
            place,
            read_faults: 0,
            write_faults: 0,
        }
    }

    // Reads some bytes, those that were held back before others.
    fn receive(&mut self, buf: &mut [u8]) -> Option<usize>
        ensures same { self.new ≡ self.old }
        ensures within { IfSome result (λ n. n ≤ length buf.old) }
    {
        if buf.is_empty() {
            return Some(0);
        }
        let n = read_first(&mut self.stream, &mut self.first, buf)?;
        if n > 0 {
            return Some(n);
        }
        match self.first.stage() {
            Stage::Passed => if self.first.is_empty() {
                read_some(&mut self.stream, buf)
            } else {
                Some(self.first.give(buf))
            },
            _ => None,
        }
    }

    // Sends what was gathered. False where that failed; then it is given up.
    fn flush(&mut self) -> bool
        ensures { self.new ≡ self.old }
    {
        let sent = send_all(&mut self.stream, &self.gathered);
        self.gathered.clear();
        sent
    }

    // Whether these bytes fit behind what was gathered.
    fn fits(&self, bytes: &[u8]) -> bool {
        self.gathered.len().saturating_add(bytes.len()) <= LARGEST_BATCH
    }

    // Takes some of the bytes: all, into the buffer, where they fit in there and there is memory, and else as many as the system takes at once.
    fn put(&mut self, bytes: &[u8]) -> Option<usize>
        ensures same { self.new ≡ self.old }
        ensures some { 0 < length bytes.now → IfSome result (λ n. 0 < n) }
        ensures within { IfSome result (λ n. n ≤ length bytes.now) }
    {
        if !self.fits(bytes) && !self.flush() {
            return None;
        }
        if self.fits(bytes) && self.gathered.extend_from_slice(bytes).is_ok() {
            return Some(bytes.len());
        }
        if !self.flush() {
            return None;
        }
        send_some(&mut self.stream, bytes)
    }
}

impl Source for TcpConn {
    ghost left = { λ _. None };

    ghost read_faults = { λ c. c.reads };

    ghost beside_read = { λ c. (None, c.writes) };

    /// Sends first what was gathered. Where that fails, this call does, and where a client's first line is a request of HTTP, or there is no memory to
    /// hold it back: then all later calls do, too.
    fn read(&mut self, buf: &mut [u8]) -> Result<usize, Failed> {
        if self.flush() {
            if let Some(n) = self.receive(buf) {
                return Ok(n);
            }
        }
        self.read_faults = self.read_faults.saturating_add(1);
        Err(Failed)
    }
}

impl Sink for TcpConn {
    ghost taken = { λ _. None };

    ghost write_faults = { λ c. c.writes };

    ghost beside_write = { λ c. (None, c.reads) };

    fn write(&mut self, bytes: &[u8]) -> Result<usize, Failed> {
        if let Some(n) = self.put(bytes) {
            return Ok(n);
        }
        self.write_faults = self.write_faults.saturating_add(1);
        Err(Failed)
    }
}

impl Duplex for TcpConn {
    ghost reads_apart = { λ _. refl };

    ghost writes_apart = { λ _. refl };
}

impl Conn for TcpConn {
    ghost steady = { λ _ _. refl };
}

/// What was gathered is sent, where that can be. Then it is closed, and no ear shuts it down any more.
impl Drop for TcpConn {
    fn drop(self) {
        let TcpConn {
            mut stream,
            first: _,
            gathered,
            place,
            read_faults: _,
            write_faults: _,
        } = self;
        let _ = send_all(&mut stream, &gathered);
        drop(place);
    }
}
