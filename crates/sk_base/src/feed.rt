// Sources in memory, for tests: one that never fails, and one that fails when it is told to.
ghost use Rattle.std.specs.Prelude.{◌≡◌, ◌<◌, ◌≤◌, ◌++◌, ℕ, List, [], Some, drop, take, length};

use crate::{Failed, Source};
use std::marker::Model;

/// Bytes in memory, read in pieces. No read fails.
#[derive(Drop)]
pub struct SteadyFeed {
    bytes: Vec<u8>,
    at: usize,
    pieces: Vec<usize>,
    next: usize,
}

impl Model for SteadyFeed {
    ghost Value = { List ℕ };

    // The bytes that were not read yet.
    ghost view = { λ f. drop f.at f.bytes.items };
}

impl SteadyFeed {
    /// The pieces bound the reads one after another, in bytes, each by at least 1. Behind the last of them a read gives as much as fits.
    pub fn new(bytes: Vec<u8>, pieces: Vec<usize>) -> Self
        ensures { result ≡ bytes.items }
    {
        SteadyFeed {
            bytes,
            at: 0,
            pieces,
            next: 0,
        }
    }
}

// Copies as many bytes as fit, and no more than the bound.
fn copy_front(bytes: &[u8], bound: usize, buf: &mut [u8]) -> usize
    ensures within { result ≤ length buf.old }
    ensures copied { bytes.now ≡ take result buf.new ++ drop result bytes.now }
    ensures some { result ≡ 0 → 0 < bound → 0 < length buf.old → bytes.now ≡ [] }
{
    let n = bytes.len().min(bound).min(buf.len());
    buf[..n].copy_from_slice(&bytes[..n]);
    n
}

impl Source for SteadyFeed {
    ghost left = { λ f. Some f };

    ghost read_faults = { λ f. 0 };

    fn read(&mut self, buf: &mut [u8]) -> Result<usize, Failed> {
        let bound = self
            .pieces
            .get(self.next)
            .copied()
            .unwrap_or(usize::MAX)
            .max(1);
        self.next = self.next.saturating_add(1);
        let at = self.at.min(self.bytes.len());
        let n = copy_front(&self.bytes[at..], bound, buf);
        self.at = at + n;
        Ok(n)
    }
}

/// Bytes in memory, read in pieces. Some reads fail.
#[derive(Drop)]
pub struct Feed {
    steady: SteadyFeed,
    fails: Vec<u64>,
    calls: u64,
    faults: u64,
}

impl Model for Feed {
    ghost use Rattle.sk_base.specs.Memory.{Fed};

    ghost Value = { Fed };

    ghost view = { λ f. record { left = f.steady; faults = f.faults } };
}

impl Feed {
    /// The pieces are those of [`SteadyFeed::new`]. The calls of `read` with the numbers in `fails`, counted from 1, fail.
    pub fn new(bytes: Vec<u8>, pieces: Vec<usize>, fails: Vec<u64>) -> Self
        ensures { result ≡ record { left = bytes.items; faults = 0 } }
    {
        Feed {
            steady: SteadyFeed::new(bytes, pieces),
            fails,
            calls: 0,
            faults: 0,
        }
    }
}

impl Source for Feed {
    ghost left = { λ f. Some f.left };

    ghost read_faults = { λ f. f.faults };

    fn read(&mut self, buf: &mut [u8]) -> Result<usize, Failed> {
        self.calls = self.calls.saturating_add(1);
        if self.fails.contains(&self.calls) {
            self.faults = self.faults.saturating_add(1);
            return Err(Failed);
        }
        self.steady.read(buf)
    }
}
