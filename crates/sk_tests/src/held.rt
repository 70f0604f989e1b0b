// What no clause says: that a peer has its replies at the read behind them, and none that no settle stands before.
ghost use Rattle.std.specs.Prelude.{◌≡◌, Some};

use sk_base::limits::LARGEST_BATCH;
use sk_base::{Failed, Feed, MemConn, Source, Tray, write_all};
use sk_held::{HeldConn, HeldId, Settler};
use std::alloc::{AllocError, Global};
use std::marker::Brand;
use std::test::Fail;

/// Settles so many times, and fails from then on.
#[derive(Drop)]
struct Passes {
    left: u64,
    settled: u64,
    faults: u64,
}

impl Settler for Passes {
    ghost settled = { λ s. s.settled };

    ghost settle_faults = { λ s. s.faults };

    ghost stored = { λ _. Unit {0} };

    fn settle(&mut self) -> Result<(), Failed> {
        if self.left == 0 {
            self.faults = self.faults.saturating_add(1);
            return Err(Failed);
        }
        self.left -= 1;
        self.settled = self.settled.saturating_add(1);
        Ok(())
    }

    fn faults(&self) -> u64 {
        self.faults
    }
}

// A connection that gives one byte at a read, whose writes with these numbers fail.
fn conn(alloc: Global, fails: Vec<u64>) -> Result<MemConn, AllocError> {
    let feed = Feed::new(
        b"xyz".to_vec(alloc)?,
        vec![in alloc; 1, 1]?,
        Vec::new(alloc),
    );
    Ok(MemConn::new(feed, Tray::new(alloc, fails)))
}

// Writes the pieces, reads once behind the first, and ends.
fn talk<I: HeldId>(alloc: Global, conn: MemConn, settler: Passes, pieces: &[&[u8]]) -> MemConn
    requires first { Some conn.tray.bytes ≡ I.first }
    requires count { settler.settled ≡ I.count }
{
    let mut held: HeldConn<MemConn, Passes, I> = HeldConn::new(alloc, conn, settler);
    let mut buf = [0u8; 8];
    for piece in pieces {
        // What fails here fails again at the end.
        let _ = write_all(&mut held, piece);
        let _ = held.read(&mut buf);
    }
    held.finish().0
}

fn after(left: u64) -> Passes {
    Passes {
        left,
        settled: 0,
        faults: 0,
    }
}

#[test]
fn a_peer_gets_what_was_settled(rt: HostRuntime) -> Result<(), Fail> {
    let alloc = rt.alloc();
    let pieces = [b"ab".as_slice(), b"c".as_slice()];
    let none = talk::<Brand>(alloc, conn(alloc, Vec::new(alloc))?, after(0), &pieces);
    assert_eq!(rt; none.tray().taken(), b"".as_slice());
    let one = talk::<Brand>(alloc, conn(alloc, Vec::new(alloc))?, after(1), &pieces);
    assert_eq!(rt; one.tray().taken(), b"ab".as_slice());
    let all = talk::<Brand>(alloc, conn(alloc, Vec::new(alloc))?, after(2), &pieces);
    assert_eq!(rt; all.tray().taken(), b"abc".as_slice());
    Ok(())
}

#[test]
fn a_peer_gets_nothing_behind_a_write_that_failed(rt: HostRuntime) -> Result<(), Fail> {
    let alloc = rt.alloc();
    let pieces = [b"ab".as_slice(), b"c".as_slice()];
    let fails = vec![in alloc; 1]?;
    let broken = talk::<Brand>(alloc, conn(alloc, fails)?, after(9), &pieces);
    assert_eq!(rt; broken.tray().taken(), b"".as_slice());
    Ok(())
}

#[test]
fn a_peer_gets_more_than_fits_behind_a_settle(rt: HostRuntime) -> Result<(), Fail> {
    let alloc = rt.alloc();
    let long = vec![in alloc; 7u8; LARGEST_BATCH + 1]?;
    let pieces = [long.as_slice()];
    let none = talk::<Brand>(alloc, conn(alloc, Vec::new(alloc))?, after(0), &pieces);
    assert!(rt; none.tray().taken().is_empty());
    let all = talk::<Brand>(alloc, conn(alloc, Vec::new(alloc))?, after(1), &pieces);
    assert!(rt; all.tray().taken() == long.as_slice());
    Ok(())
}
