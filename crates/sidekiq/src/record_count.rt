// Counts the records of a log while its file is read, piece by piece. Behind `SKLOG001` stand records, and then a gate that isn't open. A record is an
// open gate, the length of its body as four bytes with the most significant first, and the body.

/// Where the first gate stands.
const FIRST: u64 = 8;

/// A gate that is open.
const OPEN: u8 = 1;

/// How many bytes of a record stand before its body: the gate and the length.
const HEAD: u32 = 5;

/// How many records have passed, by their heads: it doesn't look at their bodies.
#[derive(Drop)]
pub struct RecordCount {
    /// Where the next byte of a head stands.
    next: u64,
    /// How many bytes of that head have passed.
    seen: u32,
    /// The length of its body, as far as they tell it.
    len: u64,
    records: u64,
}

impl RecordCount {
    /// Nothing has passed yet.
    pub fn new() -> RecordCount {
        RecordCount {
            next: FIRST,
            seen: 0,
            len: 0,
            records: 0,
        }
    }

    /// How many heads have passed.
    pub fn records(&self) -> u64 {
        self.records
    }

    /// These bytes were read from that place on. What has passed before isn't counted again.
    pub fn pass(&mut self, at: u64, bytes: &[u8]) {
        for _byte in 0..bytes.len() {
            match self.next_in(at, bytes) {
                Some(byte) => self.take(byte),
                None => return,
            }
        }
    }

    // The next byte of a head, where it is one of these and no closed gate.
    fn next_in(&self, at: u64, bytes: &[u8]) -> Option<u8> {
        let skip = self.next.checked_sub(at)?;
        let byte = bytes.get(skip as usize).copied()?;
        if self.seen == 0 && byte != OPEN {
            return None;
        }
        Some(byte)
    }

    // That byte has passed.
    fn take(&mut self, byte: u8) {
        if self.seen > 0 {
            self.len = self.len.saturating_mul(256).saturating_add(u64::from(byte));
        }
        self.next = self.next.saturating_add(1);
        self.seen = self.seen.saturating_add(1);
        if self.seen >= HEAD {
            self.end_head();
        }
    }

    // A head has passed. The next one stands behind its body.
    fn end_head(&mut self) {
        self.records = self.records.saturating_add(1);
        self.next = self.next.saturating_add(self.len);
        self.seen = 0;
        self.len = 0;
    }
}
