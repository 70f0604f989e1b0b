// A piece of a disk that was read ahead, so that small reads one behind another make one call.
ghost use Rattle.std.specs.Prelude.{◌≡◌, ◌+◌, ◌<◌, ◌^◌, [], true, List, ℕ, length, drop, get_or, IfOk, IfSome};
ghost use Rattle.sk_base.specs.Outside.{HasCause};
ghost use Rattle.sk_log.specs.Reading.{Fills, OnlyRead};
ghost use Rattle.sk_log.specs.Window.{Shows, Stands};

use crate::reading::{read_full, zeros};
use sk_base::Failed;
use sk_disk::Disk;
use std::alloc::{AllocError, Global};
use std::marker::Model;

// How many bytes are read ahead.
const AHEAD: usize = 65_536;

/// The bytes that were read from one place of a disk on.
#[derive(Drop)]
pub(crate) struct Window {
    buf: Vec<u8>,
    from: u64,
    len: usize,
}

impl Model for Window {
    ghost use Rattle.std.specs.Prelude.{◌≤◌, length, take};
    ghost use Rattle.sk_log.specs.Window.{Piece};

    ghost Value = { Piece };

    ghost view = { λ w. record { from = w.from; bytes = take w.len w.buf.items } };

    ghost invariant = { λ w. w.len ≤ length w.buf.items };
}

impl Window {
    /// Nothing was read. Its memory is taken now.
    pub fn new(alloc: Global) -> Result<Window, AllocError>
        ensures { IfOk result (λ w. w ≡ record { from = 0; bytes = [] }) }
    {
        let buf = zeros(alloc, AHEAD)?;
        Ok(Window {
            buf,
            from: 0,
            len: 0,
        })
    }

    // So many bytes from that place on, where all of them were read.
    fn piece(&self, at: u64, len: usize) -> Option<&[u8]>
        ensures long { IfSome result (λ piece. length piece.now ≡ len) }
        ensures stands { IfSome result (λ piece. (c : List ℕ) → Stands c self.now → Fills (drop at c) piece.now true) }
    {
        if at < self.from {
            return None;
        }
        let skip = at - self.from;
        if skip > self.len as u64 {
            return None;
        }
        let skip = skip as usize;
        if len > self.len - skip {
            return None;
        }
        Some(&self.buf[skip..skip + len])
    }

    // Reads ahead from that place on.
    fn fill<D: Disk>(&mut self, disk: &mut D, at: u64) -> Result<(), Failed>
        ensures only_read { OnlyRead D.reads D.may_leave D.moment D.left_since disk.old disk.new }
        ensures shows { Shows (D.reads disk.old) self.new }
        ensures cause { HasCause (D.disk_faults disk.old) (D.disk_faults disk.new) result }
    {
        self.len = 0;
        let n = disk.read(at, &mut self.buf)?;
        self.from = at;
        self.len = n;
        Ok(())
    }

    // Reads ahead from that place on, where not all of so few bytes were read.
    fn reach<D: Disk>(&mut self, disk: &mut D, at: u64, len: usize) -> Result<(), Failed>
        requires { Shows (D.reads disk.old) self.old }
        ensures only_read { OnlyRead D.reads D.may_leave D.moment D.left_since disk.old disk.new }
        ensures shows { Shows (D.reads disk.old) self.new }
        ensures cause { HasCause (D.disk_faults disk.old) (D.disk_faults disk.new) result }
    {
        if len > AHEAD || self.piece(at, len).is_some() {
            return Ok(());
        }
        self.fill(disk, at)?;
        Ok(())
    }

    /// Fills the buffer from that place of the disk on, and answers whether there were so many bytes.
    pub fn read_full<D: Disk>(
        &mut self,
        disk: &mut D,
        at: u64,
        buf: &mut [u8],
    ) -> Result<bool, Failed>
        requires room { at + length buf.old < 2 ^ 63 }
        requires shows { Shows (D.reads disk.old) self.old }
        ensures only_read { OnlyRead D.reads D.may_leave D.moment D.left_since disk.old disk.new }
        ensures full { IfOk result (λ full. (c : List ℕ) → D.reads disk.old c → Fills (drop at c) buf.new full) }
        ensures bytes { (k : ℕ) → get_or buf.new k 0 < 2 ^ 8 }
        ensures shows { Shows (D.reads disk.new) self.new }
        ensures cause { HasCause (D.disk_faults disk.old) (D.disk_faults disk.new) result }
    {
        self.reach(disk, at, buf.len())?;
        match self.piece(at, buf.len()) {
            Some(piece) => {
                buf.copy_from_slice(piece);
                Ok(true)
            }
            None => read_full(disk, at, buf),
        }
    }
}
