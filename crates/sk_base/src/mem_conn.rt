// Connections in memory, for tests.
ghost use Rattle.std.specs.Prelude.{◌≡◌, Some, refl};

use crate::{Conn, Duplex, Failed, Feed, Sink, Source, Tray};
use std::marker::Model;

/// A connection in memory. What it reads comes from a feed, and what it writes goes to a tray; either fails as these do.
#[derive(Drop)]
pub struct MemConn {
    feed: Feed,
    tray: Tray,
}

impl Model for MemConn {
    ghost use Rattle.sk_base.specs.Memory.{Ends};

    ghost Value = { Ends };

    ghost view = { λ c. record { feed = c.feed; tray = c.tray } };
}

impl MemConn {
    pub fn new(feed: Feed, tray: Tray) -> Self
        ensures { result ≡ record { feed = feed; tray = tray } }
    {
        MemConn { feed, tray }
    }

    /// What was written.
    pub fn tray(&self) -> &Tray
        ensures { result.now ≡ self.now.tray }
    {
        &self.tray
    }
}

impl Source for MemConn {
    ghost left = { λ c. Some c.feed.left };

    ghost read_faults = { λ c. c.feed.faults };

    ghost beside_read = { λ c. (Some c.tray.bytes, c.tray.faults) };

    fn read(&mut self, buf: &mut [u8]) -> Result<usize, Failed> {
        self.feed.read(buf)
    }
}

impl Sink for MemConn {
    ghost taken = { λ c. Some c.tray.bytes };

    ghost write_faults = { λ c. c.tray.faults };

    ghost beside_write = { λ c. (Some c.feed.left, c.feed.faults) };

    fn write(&mut self, bytes: &[u8]) -> Result<usize, Failed> {
        self.tray.write(bytes)
    }
}

impl Duplex for MemConn {
    ghost reads_apart = { λ c. refl };

    ghost writes_apart = { λ c. refl };
}

impl Conn for MemConn {
    ghost steady = { λ _ _. refl };
}
