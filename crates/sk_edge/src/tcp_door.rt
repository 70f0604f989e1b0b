// The door to the network. Its ears listen at one port of this machine, each over the same queue of waiting clients.
ghost use Rattle.std.specs.Prelude.{◌≡◌, ◌≤◌, None, vec_len, IfOk};
ghost use Rattle.sk_base.specs.Outside.{Rose};

use crate::connections::Connections;
use crate::turn::Turn;
use crate::{Door, DoorFault, TcpConn, TcpEar};
use sk_base::limits::BACKLOG;
use std::alloc::Global;
use std::io::{self, ErrorKind};
use std::marker::Model;
use std::net::{Ipv4Addr, Net, TcpListener, TcpStream, ToSocketAddrs};
use std::os::fd::AsRawFd;
use std::time::{Clock, Duration};

/// The door to the network. Contracts see how often it has failed; it tells nothing of its connections, and drops those and the ears that are left to it.
#[derive(Drop)]
pub struct TcpDoor<R: Net<Listener = TcpListener, Stream = TcpStream> + Clock + Copy + Drop> {
    rt: R,
    alloc: Global,
    patience: Option<Duration>,
    last: Option<io::Error>,
    faults: u64,
}

impl<R: Net<Listener = TcpListener, Stream = TcpStream> + Clock + Copy + Drop> Model
    for TcpDoor<R> {
    ghost use Rattle.std.specs.Prelude.{ℕ};

    ghost Value = { ℕ };

    ghost view = { λ d. d.faults };
}

impl<R: Net<Listener = TcpListener, Stream = TcpStream> + Clock + Copy + Drop> TcpDoor<R> {
    /// A door whose connections wait for their peers as long as these want.
    pub fn new(rt: R, alloc: Global) -> TcpDoor<R>
        ensures { result ≡ 0 }
    {
        TcpDoor {
            rt,
            alloc,
            patience: None,
            last: None,
            faults: 0,
        }
    }

    /// A door that gives up a connection to another where nothing moves for so long: no address answers, a read has no byte to give, or nothing that is
    /// written is taken. The patience is above 0.
    pub fn patient(rt: R, alloc: Global, patience: Duration) -> TcpDoor<R>
        ensures { result ≡ 0 }
    {
        TcpDoor {
            rt,
            alloc,
            patience: Some(patience),
            last: None,
            faults: 0,
        }
    }

    /// The error of the system with which the door failed last.
    pub fn last_error(&self) -> Option<&io::Error> {
        self.last.as_ref()
    }

    // Keeps the error.
    fn refused(&mut self, error: io::Error) -> DoorFault
        ensures is { result ≡ DoorFault.Failed }
        ensures same { self.new ≡ self.old }
    {
        self.last = Some(error);
        DoorFault::Failed
    }

    // An ear of its own over the one listener, with this place among the ears there.
    fn ear(
        &mut self,
        listener: &TcpListener,
        port: u16,
        turn: &Turn,
        connections: &Connections,
        place: usize,
    ) -> Result<TcpEar<R>, DoorFault>
        ensures { self.new ≡ self.old }
    {
        let turn = turn.share()?;
        let connections = connections.share()?;
        match listener.try_clone() {
            Ok(listener) => Ok(TcpEar::new(
                self.rt,
                self.alloc,
                listener,
                port,
                turn,
                connections,
                place,
            )),
            Err(error) => Err(self.refused(error)),
        }
    }

    // A listener at the port, with its queue.
    fn bind(&mut self, port: u16) -> Result<TcpListener, DoorFault>
        ensures { self.new ≡ self.old }
    {
        let listener = match TcpListener::bind(&self.rt, (Ipv4Addr::LOCALHOST, port)) {
            Ok(listener) => listener,
            Err(error) => return Err(self.refused(error)),
        };
        // Where this can't be had, the queue stays as long as the library makes it.
        let _ = libc::net::listen(listener.as_raw_fd(), BACKLOG);
        Ok(listener)
    }

    // So many ears at the port. A port that is taken is the door's fault.
    fn open(&mut self, port: u16, loops: usize) -> Result<Vec<TcpEar<R>>, DoorFault>
        ensures count { IfOk result (λ ears. vec_len ears ≡ loops) }
        ensures same { self.new ≡ self.old }
    {
        let listener = self.bind(port)?;
        let turn = Turn::new(self.alloc)?;
        let connections = Connections::new(self.alloc, loops)?;
        let mut ears = Vec::with_capacity(self.alloc, loops)?;
        while ears.len() < loops {
            ears.push_reserved(self.ear(&listener, port, &turn, &connections, ears.len())?);
        }
        Ok(ears)
    }

    // A stream to the first of the host's addresses that answers in time.
    fn dial_within(&self, host: &str, port: u16, patience: Duration) -> io::Result<TcpStream> {
        let mut last = io::Error::from(ErrorKind::AddrNotAvailable);
        for address in (host, port).to_socket_addrs(&self.rt)? {
            match TcpStream::connect_timeout(&self.rt, &address, patience) {
                Ok(stream) => return Ok(stream),
                Err(error) => last = error,
            }
        }
        Err(last)
    }

    // A stream to the host's port, as patient as the door is.
    fn dial(&self, host: &str, port: u16) -> io::Result<TcpStream> {
        let Some(patience) = self.patience else {
            return TcpStream::connect(&self.rt, (host, port));
        };
        let stream = self.dial_within(host, port, patience)?;
        stream.set_read_timeout(Some(patience))?;
        stream.set_write_timeout(Some(patience))?;
        Ok(stream)
    }

    // The fault, counted where it is the door's.
    fn counted(&mut self, fault: DoorFault) -> DoorFault
        ensures same { result ≡ fault }
        ensures later { self.old ≤ self.new }
        ensures cause { fault ≡ DoorFault.Failed → Rose self.old self.new }
    {
        if fault == DoorFault::Failed {
            self.faults = self.faults.saturating_add(1);
        }
        fault
    }
}

impl<R: Net<Listener = TcpListener, Stream = TcpStream> + Clock + Copy + Drop> Door for TcpDoor<R> {
    type Conn = TcpConn;

    type Ear = TcpEar<R>;

    ghost door_faults = { λ d. d };

    ghost heard = { λ _. None };

    ghost dialled = { λ _. None };

    ghost kept = { λ _. None };

    ghost gathered = { λ _. None };

    /// Ears at a port of 127.0.0.1.
    fn listen(&mut self, port: u16, loops: usize) -> Result<Vec<TcpEar<R>>, DoorFault> {
        match self.open(port, loops) {
            Ok(ears) => Ok(ears),
            Err(fault) => Err(self.counted(fault)),
        }
    }

    fn connect(&mut self, host: &str, port: u16) -> Result<TcpConn, DoorFault> {
        match self.dial(host, port) {
            Ok(stream) => Ok(TcpConn::new(self.alloc, stream)),
            Err(error) => {
                let fault = self.refused(error);
                Err(self.counted(fault))
            }
        }
    }

    fn leave(&mut self, conn: TcpConn) {
        drop(conn);
    }

    fn gather(&mut self, ears: Vec<TcpEar<R>>)
        ensures { self.new ≡ self.old }
    {
        drop(ears);
    }
}
