// The door of the program. Where workers wait for a server that is away, it tells people when that begins, and when the server is back. Where a store
// was read from a file, it tells how much that was, and how long it took.
ghost use Rattle.std.specs.Prelude.{◌≡◌, None};

use crate::reading::Reading;
use sk_edge::{Door, DoorFault, TcpConn, TcpDoor, TcpEar};
use std::io;

/// A door to the network that tells, on standard error, when its server is away and when it is back, and that it listens, if it is to tell that.
#[derive(Drop)]
pub struct ToldDoor {
    rt: HostRuntime,
    door: TcpDoor<HostRuntime>,
    /// For how many seconds the server is waited for; 0: nothing is told.
    patience: u32,
    /// The reading that ends when the door listens; none: nothing is told of it.
    reading: Option<Reading>,
    /// Connections were left: who connects again has lost them.
    was_left: bool,
    is_away: bool,
}

impl ToldDoor {
    pub fn new(
        rt: HostRuntime,
        door: TcpDoor<HostRuntime>,
        patience: u32,
        reading: Option<Reading>,
    ) -> ToldDoor {
        ToldDoor {
            rt,
            door,
            patience,
            reading,
            was_left: false,
            is_away: false,
        }
    }

    /// The error of the system with which the door failed last.
    pub fn last_error(&self) -> Option<&io::Error> {
        self.door.last_error()
    }

    // The store was read, if one was to be, and the door listens.
    fn tell_reading(&self) {
        if let Some(reading) = &self.reading {
            reading.tell();
        }
    }

    // The server is away. It is told once.
    fn miss(&mut self, host: &str, port: u16)
        ensures { self.new.door ≡ self.old.door }
    {
        self.was_left = false;
        if self.is_away || self.patience == 0 {
            return;
        }
        self.is_away = true;
        let _untold = eprintln!(self.rt;
            "sidekiq: the server at {host}:{port} is away, and is waited for, {} seconds at most",
            self.patience
        );
    }

    // The server is there, and was away.
    fn find(&mut self, host: &str, port: u16)
        ensures { self.new.door ≡ self.old.door }
    {
        if !self.is_away {
            return;
        }
        self.is_away = false;
        let _untold = eprintln!(self.rt; "sidekiq: the server at {host}:{port} is back");
    }
}

impl Door for ToldDoor {
    type Conn = TcpConn;

    type Ear = TcpEar<HostRuntime>;

    ghost door_faults = { λ d. d.door };

    ghost heard = { λ _. None };

    ghost dialled = { λ _. None };

    ghost kept = { λ _. None };

    ghost gathered = { λ _. None };

    fn listen(&mut self, port: u16, loops: usize) -> Result<Vec<TcpEar<HostRuntime>>, DoorFault> {
        let ears = self.door.listen(port, loops);
        match &ears {
            Ok(_) => self.tell_reading(),
            Err(_) => {}
        }
        ears
    }

    fn connect(&mut self, host: &str, port: u16) -> Result<TcpConn, DoorFault> {
        if self.was_left {
            self.miss(host, port);
        }
        let conn = self.door.connect(host, port);
        match &conn {
            Ok(_) => self.find(host, port),
            Err(_) => self.miss(host, port),
        }
        conn
    }

    fn leave(&mut self, conn: TcpConn) {
        self.was_left = true;
        self.door.leave(conn);
    }

    fn gather(&mut self, ears: Vec<TcpEar<HostRuntime>>)
        ensures { self.new ≡ self.old }
    {
        self.door.gather(ears);
    }
}
