// The last slot of each periodic job: a map with undo from the job's name. Memory is taken before the edit.
ghost use Rattle.std.specs.Prelude.{◌≡◌, [], length, None, IsSome, OnErr, OnOk};
ghost use Rattle.sk_undo.specs.Versions.{begun, closed, committed, edited, undone};
ghost use Rattle.sk_leases.specs.Slots.{last_slot, with_slot};

use crate::Memory;
use sk_resp::Word;
use sk_undo::UndoMap;
use std::alloc::Global;
use std::marker::Model;

/// The last slot of each loop, in milliseconds since 1970, by the bytes of the loops' names. Contracts see the list: what stands now, and what stood
/// at the begin of an open step.
#[derive(Drop)]
pub struct Slots {
    slots: UndoMap<Word, u64>,
}

impl Model for Slots {
    ghost use Rattle.sk_undo.specs.Versions.{Versions};
    ghost use Rattle.sk_leases.specs.Slots.{Slots as SlotsSeen};

    ghost Value = { Versions SlotsSeen };

    ghost view = { λ s. s.slots.list };
}

impl Slots {
    /// Takes no memory.
    pub fn new(alloc: Global) -> Slots
        ensures { result ≡ closed [] }
    {
        Slots {
            slots: UndoMap::new(alloc),
        }
    }

    /// The last slot of a loop. Logarithmic.
    pub fn last(&self, name: &Word) -> Option<u64>
        ensures { result ≡ last_slot name.now self.now.current }
    {
        self.slots.get(name).copied()
    }

    /// How many loops have a last slot.
    pub fn len(&self) -> usize
        ensures { result ≡ length self.now.current }
    {
        self.slots.len()
    }

    /// This is the last slot of the loop now.
    pub fn mark(&mut self, name: Word, slot: u64) -> Result<(), Memory>
        ensures ok { OnOk result (self.new ≡ edited (with_slot name slot self.old.current) self.old) }
        ensures err { OnErr result (self.new ≡ self.old) }
    {
        self.slots.reserve(1)?;
        self.slots.put(name, slot);
        Ok(())
    }

    pub fn begin(&mut self)
        requires { self.old.saved ≡ None }
        ensures { self.new ≡ begun self.old }
    {
        self.slots.begin();
    }

    pub fn undo(&mut self)
        requires { IsSome self.old.saved }
        ensures { self.new ≡ undone self.old }
    {
        self.slots.undo();
    }

    pub fn commit(&mut self)
        requires { IsSome self.old.saved }
        ensures { self.new ≡ committed self.old }
    {
        self.slots.commit();
    }
}
