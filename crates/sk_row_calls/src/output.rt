// What comes of a row.
use crate::text::{ESCAPED, invalid};
use percent_encoding::{AsciiSet, percent_encode};
use sk_resp::{Reply, write_reply};
use std::alloc::{AllocError, Global};
use std::io;

/// What comes of a row, as bytes. Want of memory is kept for the end, so that nothing that is told of a row has a fault of its own.
#[derive(Drop)]
pub struct Output {
    bytes: Vec<u8>,
    is_short: bool,
}

impl Output {
    pub fn new(alloc: Global) -> Output {
        Output {
            bytes: Vec::new(alloc),
            is_short: false,
        }
    }

    /// What comes of nothing.
    pub fn empty(&self) -> Output {
        Output::new(*self.bytes.allocator())
    }

    /// Appends bytes.
    pub fn add(&mut self, bytes: &[u8]) {
        if self.bytes.extend_from_slice(bytes).is_err() {
            self.is_short = true;
        }
    }

    /// Appends what comes of something else.
    pub fn append(&mut self, other: Output) {
        self.add(&other.bytes);
        self.is_short |= other.is_short;
    }

    /// Appends a text.
    pub fn say(&mut self, text: &str) {
        self.add(text.as_bytes());
    }

    /// Appends a number, in decimal digits.
    pub fn number(&mut self, number: u64) {
        match number.to_string(*self.bytes.allocator()) {
            Ok(text) => self.say(text.as_str()),
            Err(_) => self.is_short = true,
        }
    }

    /// Appends a text, a number and a text.
    pub fn count(&mut self, before: &str, number: u64, behind: &str) {
        self.say(before);
        self.number(number);
        self.say(behind);
    }

    /// Appends bytes with `%XX` for those of the set, and for what isn't ASCII.
    pub fn escape(&mut self, bytes: &[u8], set: AsciiSet) {
        let mut text = String::new(*self.bytes.allocator());
        if percent_encode(bytes, set).append_to(&mut text).is_err() {
            self.is_short = true;
        }
        self.say(text.as_str());
    }

    /// Appends a line for each piece of the bytes that ends at an LF (`line` where a CR stands before that, else `text`), and for what stands behind
    /// the last (`bytes`).
    pub fn lines(&mut self, bytes: &[u8]) {
        for piece in bytes.split_inclusive(|b| *b == b'\n') {
            let (kind, text) = match piece {
                [text @ .., b'\r', b'\n'] => ("line", text),
                [text @ .., b'\n'] => ("text", text),
                text => ("bytes", text),
            };
            self.say(kind);
            self.say(if text.is_empty() { "" } else { " " });
            self.escape(text, ESCAPED);
            self.say("\n");
        }
    }

    /// Appends a reply as it is written.
    pub fn reply(&mut self, reply: &Reply) {
        let alloc = *self.bytes.allocator();
        if write_reply(alloc, reply, &mut self.bytes).is_err() {
            self.is_short = true;
        }
    }

    /// Appends the lines of a reply.
    pub fn reply_lines(&mut self, reply: &Reply) {
        let mut own = self.empty();
        own.reply(reply);
        self.is_short |= own.is_short;
        self.lines(&own.bytes);
    }

    /// Nothing is left.
    pub fn clear(&mut self) {
        self.bytes.clear();
    }

    /// The bytes so far.
    pub fn bytes(&self) -> &[u8] {
        &self.bytes
    }

    /// The bytes as text, where there was memory for all. Bytes that aren't UTF-8 are invalid data.
    pub fn text(&self) -> io::Result<&str> {
        if self.is_short {
            return Err(io::Error::from(AllocError));
        }
        match str::from_utf8(&self.bytes) {
            Ok(text) => Ok(text),
            Err(_) => Err(invalid()),
        }
    }

    /// The bytes, where there was memory for all.
    pub fn into_bytes(self) -> Result<Vec<u8>, AllocError> {
        if self.is_short {
            return Err(AllocError);
        }
        Ok(self.bytes)
    }
}
