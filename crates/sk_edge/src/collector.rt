// A list that grows without taking memory, in room that was made before. Where there is no room it is told no more.
ghost use Rattle.std.specs.Prelude.{◌≡◌, ◌∷◌, [], Some, IfOk, IfSome, OnOk, OnErr};
ghost use Rattle.sk_edge.specs.Collected.{Keeps, MakesRoom};

use std::alloc::{AllocError, Global};
use std::marker::Model;

/// Keeps what it is handed, in order, as long as there is room.
#[derive(Drop)]
pub(crate) struct Collector<T> {
    items: Vec<T>,
    // how many more are promised to fit
    room: usize,
    // something came for which there was no room
    lost: bool,
}

impl<T> Model for Collector<T> {
    ghost use Rattle.std.specs.Prelude.{◌≤◌, ◌+◌, Option, Some, None, vec_len, vec_capacity, if◌then◌else◌};
    ghost use Rattle.sk_edge.specs.Collected.{Collected};

    ghost Value = { Option (Collected T) };

    ghost view = { λ c. if c.lost then None else Some (record { items = c.items.items; room = c.room }) };

    ghost invariant = { λ c. vec_len c.items + c.room ≤ vec_capacity c.items };
}

impl<T: Drop> Collector<T> {
    /// Takes no memory, and has no room.
    pub(crate) fn new(alloc: Global) -> Collector<T>
        ensures { result ≡ Some (record { items = []; room = 0 }) }
    {
        Collector {
            items: Vec::new(alloc),
            room: 0,
            lost: false,
        }
    }

    /// An empty one with room for so many.
    pub(crate) fn with_room(alloc: Global, room: usize) -> Result<Collector<T>, AllocError>
        ensures { IfOk result (λ c. c ≡ Some (record { items = []; room = room })) }
    {
        let items = Vec::with_capacity(alloc, room)?;
        Ok(Collector {
            items,
            room,
            lost: false,
        })
    }

    /// Makes room for so many more.
    pub(crate) fn make_room(&mut self, count: usize) -> Result<(), AllocError>
        ensures ok { OnOk result (MakesRoom self.old count self.new) }
        ensures err { OnErr result (self.new ≡ self.old) }
    {
        let Some(room) = self.room.checked_add(count) else {
            return Err(AllocError);
        };
        self.items.reserve(room)?;
        self.room = room;
        Ok(())
    }

    /// Keeps one more. Takes no memory.
    pub(crate) fn keep(&mut self, item: T)
        ensures { Keeps self.old (item ∷ []) self.new }
    {
        if self.room == 0 {
            self.lost = true;
            return;
        }
        self.room -= 1;
        self.items.push_reserved(item);
    }

    /// Keeps all of these, in their order. Takes no memory.
    pub(crate) fn keep_all(&mut self, mut more: Vec<T>)
        ensures { Keeps self.old more.items self.new }
    {
        if self.room < more.len() {
            self.lost = true;
            return;
        }
        self.room -= more.len();
        let _ = self.items.append(&mut more); // There is room, so this doesn't fail.
    }

    /// What it kept, up to the first for which there was no room.
    pub(crate) fn items(&self) -> &[T]
        ensures { IfSome self.now (λ c. result.now ≡ c.items) }
    {
        &self.items
    }
}
