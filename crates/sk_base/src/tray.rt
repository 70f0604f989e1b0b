// Sinks in memory, for tests: one that never fails, and one that fails when it is told to.
ghost use Rattle.std.specs.Prelude.{◌≡◌, ℕ, List, Option, [], Some, None, IfSome, if◌then◌else◌};

use crate::{Failed, Sink};
use std::alloc::Global;
use std::marker::Model;

/// Keeps what it took, as long as there is memory, and then stops telling it. No write fails.
#[derive(Drop)]
pub struct SteadyTray {
    bytes: Vec<u8>,
    lost: bool,
}

impl Model for SteadyTray {
    ghost Value = { Option (List ℕ) };

    // The bytes that were taken, where none was lost.
    ghost view = { λ t. if t.lost then None else Some t.bytes.items };
}

impl SteadyTray {
    pub fn new(alloc: Global) -> Self
        ensures { result ≡ Some [] }
    {
        SteadyTray {
            bytes: Vec::new(alloc),
            lost: false,
        }
    }

    /// The bytes that were taken, up to the first write for which there was no memory.
    pub fn taken(&self) -> &[u8]
        ensures { IfSome self.now (λ bytes. result.now ≡ bytes) }
    {
        &self.bytes
    }
}

impl Sink for SteadyTray {
    ghost taken = { λ t. t };

    ghost write_faults = { λ t. 0 };

    fn write(&mut self, bytes: &[u8]) -> Result<usize, Failed> {
        if !self.lost && self.bytes.extend_from_slice(bytes).is_err() {
            self.lost = true;
        }
        Ok(bytes.len())
    }
}

/// Keeps what it took. Some writes fail, and one for which there is no memory.
#[derive(Drop)]
pub struct Tray {
    bytes: Vec<u8>,
    fails: Vec<u64>,
    calls: u64,
    faults: u64,
}

impl Model for Tray {
    ghost use Rattle.sk_base.specs.Memory.{Taken};

    ghost Value = { Taken };

    ghost view = { λ t. record { bytes = t.bytes.items; faults = t.faults } };
}

impl Tray {
    /// The calls of `write` with the numbers in `fails`, counted from 1, fail.
    pub fn new(alloc: Global, fails: Vec<u64>) -> Self
        ensures { result ≡ record { bytes = []; faults = 0 } }
    {
        Tray {
            bytes: Vec::new(alloc),
            fails,
            calls: 0,
            faults: 0,
        }
    }

    /// The bytes that were taken.
    pub fn taken(&self) -> &[u8]
        ensures { result.now ≡ self.now.bytes }
    {
        &self.bytes
    }
}

impl Sink for Tray {
    ghost taken = { λ t. Some t.bytes };

    ghost write_faults = { λ t. t.faults };

    fn write(&mut self, bytes: &[u8]) -> Result<usize, Failed> {
        self.calls = self.calls.saturating_add(1);
        if self.fails.contains(&self.calls) || self.bytes.extend_from_slice(bytes).is_err() {
            self.faults = self.faults.saturating_add(1);
            return Err(Failed);
        }
        Ok(bytes.len())
    }
}
