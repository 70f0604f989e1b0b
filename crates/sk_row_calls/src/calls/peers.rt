// Who is at the other ends of the program: what each sends, in which pieces, and which reads and writes fail; and the program's file.
use crate::command::words_of;
use crate::text::{invalid, numbers};
use percent_encoding::percent_decode;
use sk_base::{Feed, MemConn, Tray};
use sk_disk::MemDisk;
use sk_resp::write_request;
use std::alloc::{AllocError, Global};
use std::io;

/// One end of the program, or its file.
#[derive(Drop)]
struct End {
    bytes: Vec<u8>,
    // the most bytes that a read gives; 0: as many as fit
    piece: usize,
    unread: Vec<u64>,
    unwritten: Vec<u64>,
    passes: u64,
}

impl End {
    // What the lines say:
    //
    // - `line`, `text` and `bytes`: he sends the bytes, or the file has them, with CR LF, with LF, or with nothing behind them;
    // - `asks`: the same with the words as a command;
    // - `pieces`: a read gives so many bytes at most;
    // - `unread`, `unwritten`: the reads or writes with these numbers fail, counted from 1;
    // - `passes`: so many calls of the file pass, and each later one fails.
    //
    // Another line is invalid data.
    fn read(alloc: Global, lines: &str) -> io::Result<End> {
        let mut end = End {
            bytes: Vec::new(alloc),
            piece: 0,
            unread: Vec::new(alloc),
            unwritten: Vec::new(alloc),
            passes: u64::MAX,
        };
        for line in lines.lines() {
            end.add(alloc, line)?;
        }
        Ok(end)
    }

    // What a line says.
    fn add(&mut self, alloc: Global, line: &str) -> io::Result<()> {
        let (key, rest) = line.split_once(' ').unwrap_or((line, ""));
        match key {
            "line" => self.send(rest, b"\r\n"),
            "text" => self.send(rest, b"\n"),
            "bytes" => self.send(rest, b""),
            "asks" => self.ask(alloc, rest),
            _ => self.set(key, numbers(alloc, rest)?),
        }
    }

    // The bytes that the text stands for are sent, and others behind them.
    fn send(&mut self, text: &str, behind: &[u8]) -> io::Result<()> {
        percent_decode(text.as_bytes()).append_to(&mut self.bytes)?;
        Ok(self.bytes.extend_from_slice(behind)?)
    }

    // A command is sent.
    fn ask(&mut self, alloc: Global, command: &str) -> io::Result<()> {
        let words = words_of(alloc, command)?;
        Ok(write_request(alloc, &words, &mut self.bytes)?)
    }

    // How reads, writes and calls go.
    fn set(&mut self, key: &str, numbers: Vec<u64>) -> io::Result<()> {
        let first = numbers.first().copied().unwrap_or(0);
        match key {
            "pieces" => self.piece = first as usize,
            "passes" => self.passes = first,
            "unread" => self.unread = numbers,
            "unwritten" => self.unwritten = numbers,
            _ => return Err(invalid()),
        }
        Ok(())
    }

    // What he sends, and what takes what is sent to him.
    fn into_ways(self, alloc: Global) -> Result<(Feed, Tray), AllocError> {
        let pieces = if self.piece == 0 {
            Vec::new(alloc)
        } else {
            vec![in alloc; self.piece; self.bytes.len()]?
        };
        let feed = Feed::new(self.bytes, pieces, self.unread);
        Ok((feed, Tray::new(alloc, self.unwritten)))
    }

    // A connection to him.
    fn into_conn(self, alloc: Global) -> Result<MemConn, AllocError> {
        let (feed, tray) = self.into_ways(alloc)?;
        Ok(MemConn::new(feed, tray))
    }
}

/// The ends of the program.
#[derive(Drop)]
pub struct Peers {
    pub source: Feed,
    pub sink: Tray,
    /// The connections that each ear hears.
    pub heard: Vec<Vec<MemConn>>,
    /// The connections that the door makes.
    pub dialled: Vec<MemConn>,
    /// The file on the shelf, where the row tells of it.
    pub file: Option<MemDisk>,
}

impl Peers {
    /// The ends that the parts say: the standard streams (`streams`), a further ear (`ear`), a further connection that the last ear hears (`heard`),
    /// or that the door makes (`dialled`), or the file (`file`). Another part is invalid data.
    pub fn read(alloc: Global, parts: &str) -> io::Result<Peers> {
        let (source, sink) = End::read(alloc, "")?.into_ways(alloc)?;
        let mut peers = Peers {
            source,
            sink,
            heard: Vec::new(alloc),
            dialled: Vec::new(alloc),
            file: None,
        };
        if !parts.is_empty() {
            for part in parts.split("\n@") {
                peers.add(alloc, part)?;
            }
        }
        Ok(peers)
    }

    // The end that a part says.
    fn add(&mut self, alloc: Global, part: &str) -> io::Result<()> {
        let (key, lines) = part.split_once('\n').unwrap_or((part, ""));
        let end = End::read(alloc, lines)?;
        match key {
            "file" => self.put(alloc, end),
            "streams" => self.stream(alloc, end),
            "ear" => Ok(self.heard.push(Vec::new(alloc))?),
            "heard" => self.hear(end.into_conn(alloc)?),
            "dialled" => self.dial(end.into_conn(alloc)?),
            _ => Err(invalid()),
        }
    }

    // The shelf has the file.
    fn put(&mut self, alloc: Global, end: End) -> io::Result<()> {
        self.file = Some(MemDisk::new(alloc, end.bytes, end.passes)?);
        Ok(())
    }

    // The standard streams.
    fn stream(&mut self, alloc: Global, end: End) -> io::Result<()> {
        let (source, sink) = end.into_ways(alloc)?;
        self.source = source;
        self.sink = sink;
        Ok(())
    }

    // The last ear hears the connection.
    fn hear(&mut self, conn: MemConn) -> io::Result<()> {
        match self.heard.last_mut() {
            Some(ear) => Ok(ear.push(conn)?),
            None => Err(invalid()),
        }
    }

    // The door makes the connection.
    fn dial(&mut self, conn: MemConn) -> io::Result<()> {
        Ok(self.dialled.push(conn)?)
    }
}
