// A door in memory, for tests. What is left to it is kept in order, in room that is made where connections and ears are handed out.
ghost use Rattle.std.specs.Prelude.{◌≡◌, ◌≤◌, ◌∷◌, [], Some, IfOk, IfSome, OnOk, OnErr, drop, length, map, slice_index_or, vec_len, vec_capacity};
ghost use Rattle.std.specs.List.{AllZip};
ghost use Rattle.sk_edge.specs.Collected.{Keeps, MakesRoom};
ghost use Rattle.sk_edge.specs.Doors.{first_lists, IsEar, IsRoomFor, Listens};

use crate::collector::Collector;
use crate::{Door, DoorFault, MemEar};
use sk_base::MemConn;
use std::alloc::{AllocError, Global};
use std::collections::VecDeque;
use std::marker::Model;

/// A door in memory. Contracts see what it will give, and what it kept.
#[derive(Drop)]
pub struct MemDoor {
    alloc: Global,
    heard: VecDeque<Vec<MemConn>>,
    dialled: VecDeque<MemConn>,
    kept: Collector<MemConn>,
    gathered: Collector<MemEar>,
    faults: u64,
}

impl Model for MemDoor {
    ghost use Rattle.std.specs.Prelude.{map};
    ghost use Rattle.sk_edge.specs.Memory.{DoorView};

    ghost Value = { DoorView };

    ghost view = { λ d. record { heard = map (λ conns. conns.items) d.heard.items; dialled = d.dialled.items; kept = d.kept; gathered = d.gathered; faults = d.faults } };
}

impl MemDoor {
    /// The i-th ear accepts the connections of the i-th list of `heard`, in order, and `connect` gives those of `dialled`. Takes no memory.
    pub fn new(alloc: Global, heard: Vec<Vec<MemConn>>, dialled: Vec<MemConn>) -> MemDoor
        ensures heard { result.heard ≡ map (λ conns. conns.items) heard.items }
        ensures dialled { result.dialled ≡ dialled.items }
        ensures kept { result.kept ≡ Some (record { items = []; room = 0 }) }
        ensures gathered { result.gathered ≡ Some (record { items = []; room = 0 }) }
        ensures faults { result.faults ≡ 0 }
    {
        MemDoor {
            alloc,
            heard: VecDeque::from(heard),
            dialled: VecDeque::from(dialled),
            kept: Collector::new(alloc),
            gathered: Collector::new(alloc),
            faults: 0,
        }
    }

    /// The connections that were left to the door, in order, up to the first for which there was no room. It has room for as many as it made.
    pub fn kept(&self) -> &[MemConn]
        ensures { IfSome self.now.kept (λ kept. result.now ≡ kept.items) }
    {
        self.kept.items()
    }

    /// The ears that it gathered, in order, up to the first for which there was no room. It has room for as many as it gave.
    pub fn ears(&self) -> &[MemEar]
        ensures { IfSome self.now.gathered (λ ears. result.now ≡ ears.items) }
    {
        self.gathered.items()
    }

    // How many connections the i-th ear to come will hear.
    fn count_of(&self, i: usize) -> usize
        ensures { result ≡ length (slice_index_or self.now.heard i []) }
    {
        self.heard.get(i).map_or(0, |conns| conns.len())
    }

    // Room for the next ears to keep what they will hear.
    fn rooms(&self, loops: usize) -> Result<Vec<Collector<MemConn>>, AllocError>
        ensures len { IfOk result (λ rooms. vec_len rooms ≡ loops) }
        ensures fit { IfOk result (λ rooms. AllZip IsRoomFor rooms.items (first_lists loops self.now.heard)) }
    {
        let mut rooms = Vec::with_capacity(self.alloc, loops)?;
        while rooms.len() < loops {
            let count = self.count_of(rooms.len());
            rooms.push_reserved(Collector::with_room(self.alloc, count)?);
        }
        Ok(rooms)
    }

    // Takes all the memory that so many ears need: their rooms, an empty list of ears with room for them, and room to gather them.
    fn prepare(
        &mut self,
        loops: usize,
    ) -> Result<(Vec<Collector<MemConn>>, Vec<MemEar>), AllocError>
        ensures len { IfOk result (λ r. vec_len r.0 ≡ loops) }
        ensures rooms { IfOk result (λ r. AllZip IsRoomFor r.0.items (first_lists loops self.old.heard)) }
        ensures ears { IfOk result (λ r. (r.1.items ≡ []) × (loops ≤ vec_capacity r.1)) }
        ensures ok { OnOk result (MakesRoom self.old.gathered loops self.new.gathered) }
        ensures err { OnErr result (self.new ≡ self.old) }
        ensures same { self.new ≡ record self.old { gathered = self.new.gathered } }
    {
        let rooms = self.rooms(loops)?;
        let ears = Vec::with_capacity(self.alloc, loops)?;
        self.gathered.make_room(loops)?;
        Ok((rooms, ears))
    }

    // The next list of connections, the empty one where there are no more.
    fn next_list(&mut self) -> Vec<MemConn>
        ensures list { result.items ≡ slice_index_or self.old.heard 0 [] }
        ensures rest { self.new ≡ record self.old { heard = drop 1 self.old.heard } }
    {
        let next = self.heard.pop_front();
        next.unwrap_or_else(|| Vec::new(self.alloc))
    }

    // Ears with these rooms, which hear the next lists.
    fn open(&mut self, rooms: Vec<Collector<MemConn>>, mut ears: Vec<MemEar>) -> Vec<MemEar>
        requires empty { (ears.items ≡ []) × (vec_len rooms ≤ vec_capacity ears) }
        requires rooms { AllZip IsRoomFor rooms.items (first_lists (vec_len rooms) self.old.heard) }
        ensures len { vec_len result ≡ vec_len rooms }
        ensures heard { Listens (λ e. Some e.heard) (λ e. e.kept) (λ e. e.nudged) (Some self.old.heard) result.items (Some self.new.heard) }
        ensures same { self.new ≡ record self.old { heard = self.new.heard } }
    {
        for room in rooms {
            ears.push_reserved(MemEar::new(self.next_list(), room));
        }
        ears
    }
}

impl Door for MemDoor {
    type Conn = MemConn;

    type Ear = MemEar;

    ghost door_faults = { λ d. d.faults };

    ghost heard = { λ d. Some d.heard };

    ghost dialled = { λ d. Some d.dialled };

    ghost kept = { λ d. d.kept };

    ghost gathered = { λ d. d.gathered };

    /// Any port will do. Fails for want of memory alone.
    fn listen(&mut self, _port: u16, loops: usize) -> Result<Vec<MemEar>, DoorFault> {
        let (rooms, ears) = self.prepare(loops)?;
        Ok(self.open(rooms, ears))
    }

    /// Any host and port will do.
    fn connect(&mut self, _host: &str, _port: u16) -> Result<MemConn, DoorFault> {
        if self.dialled.is_empty() {
            self.faults = self.faults.saturating_add(1);
            return Err(DoorFault::Failed);
        }
        self.kept.make_room(1)?;
        self.dialled.pop_front().ok_or(DoorFault::Failed) // There is one, so this doesn't fail.
    }

    fn leave(&mut self, conn: MemConn) {
        self.kept.keep(conn);
    }

    fn gather(&mut self, ears: Vec<MemEar>)
        ensures gathered { Keeps self.old.gathered ears.items self.new.gathered }
        ensures same { self.new ≡ record self.old { gathered = self.new.gathered } }
    {
        self.gathered.keep_all(ears);
    }
}
