// An ear over TCP. It goes on waiting where a client went before it was accepted, and where the system is short of descriptors or memory for a while:
// then one ear after another asks, and only once a client waits, since the system keeps a descriptor for a call that waits itself.
// A nudge also ends the connections that the other ears serve: each gives what has come by then, and then its end.
ghost use Rattle.std.specs.Prelude.{◌≡◌, None};

use crate::connections::{Connections, Ending, Place};
use crate::turn::Turn;
use crate::{Ear, TcpConn};
use libc::net::{POLLIN, poll};
use libc::types::pollfd;
use libc::{EADDRNOTAVAIL, EMFILE};
use sk_base::Failed;
use sk_base::limits::SHORTAGE_PAUSE;
use std::alloc::Global;
use std::io::{self, ErrorKind};
use std::marker::Model;
use std::net::{Ipv4Addr, Net, SocketAddr, TcpListener, TcpStream};
use std::os::fd::AsRawFd;
use std::thread;
use std::time::{Clock, Duration};

// Linux's numbers of errors that neither the library nor its `libc` names: too many open files in the system, a fault of the protocol on the
// connection that was waiting, and no room for buffers.
const ENFILE: i32 = 23;

const EPROTO: i32 = 71;

const ENOBUFS: i32 = 105;

// How many pauses an ear makes between two clients that it couldn't accept, since all ears that are short of descriptors wait for the same ones.
const ACCEPT_PAUSES: u64 = 10;

// How long a nudge waits for its connection, in milliseconds. Where there is room in the queue, that stands at once.
const NUDGE_PATIENCE: u64 = 1_000;

// How many pauses a nudge makes until the connections are left whose reads it has ended. Then it ends their writes: no command takes three seconds, but a
// client that doesn't take its replies would hold its session for good.
const ENDING_PAUSES: u64 = 300;

/// An ear at a port of this machine. Contracts see how often it has failed; it tells nothing of its connections, and drops those that are left to it.
#[derive(Drop)]
pub struct TcpEar<R: Net<Listener = TcpListener, Stream = TcpStream> + Clock + Drop> {
    rt: R,
    alloc: Global,
    listener: TcpListener,
    port: u16,
    turn: Turn,
    connections: Connections,
    // its place among the ears of the port
    place: usize,
    // a nudge has ended the connections that were served
    ended: bool,
    // a nudge found the queue full
    crowded: bool,
    faults: u64,
}

impl<R: Net<Listener = TcpListener, Stream = TcpStream> + Clock + Drop> Model for TcpEar<R> {
    ghost use Rattle.std.specs.Prelude.{ℕ};

    ghost Value = { ℕ };

    ghost view = { λ e. e.faults };
}

// Whether a signal came, or only the connection that was waiting is at fault, as accept(2) has it, so that the next may be asked for at once.
fn is_passing(error: &io::Error) -> bool {
    matches!(
        error.kind(),
        ErrorKind::Interrupted
            | ErrorKind::ConnectionAborted
            | ErrorKind::HostUnreachable
            | ErrorKind::NetworkUnreachable
            | ErrorKind::NetworkDown
    ) || error.raw_os_error() == Some(EPROTO)
}

// Whether descriptors, memory or ports of the own side were wanting.
fn is_shortage(error: &io::Error) -> bool {
    error.kind() == ErrorKind::OutOfMemory
        || matches!(
            error.raw_os_error(),
            Some(ENFILE | EMFILE | ENOBUFS | EADDRNOTAVAIL)
        )
}

// What came of asking for a client.
#[derive(Drop)]
enum Came {
    Client(TcpStream),
    // None, and the next may be asked for at once.
    Nobody,
    Shortage,
    Fault,
}

// The length of so many pauses.
fn pauses(count: u64) -> Duration {
    Duration::from_millis(SHORTAGE_PAUSE.saturating_mul(count))
}

impl<R: Net<Listener = TcpListener, Stream = TcpStream> + Clock + Drop> TcpEar<R> {
    // An ear at the port that the listener is bound to. It has the turn with the others there, and this place among their connections.
    pub(crate) fn new(
        rt: R,
        alloc: Global,
        listener: TcpListener,
        port: u16,
        turn: Turn,
        connections: Connections,
        place: usize,
    ) -> TcpEar<R>
        ensures { result ≡ 0 }
    {
        TcpEar {
            rt,
            alloc,
            listener,
            port,
            turn,
            connections,
            place,
            ended: false,
            crowded: false,
            faults: 0,
        }
    }

    fn pause(&self, count: u64) {
        thread::sleep(&self.rt, pauses(count));
    }

    // Asks for a client, and waits for one where there is none.
    fn ask(&self) -> Came {
        match self.listener.accept() {
            Ok((stream, _)) => Came::Client(stream),
            Err(e) if is_passing(&e) => Came::Nobody,
            Err(e) if is_shortage(&e) => Came::Shortage,
            Err(_) => Came::Fault,
        }
    }

    // Waits until there is a client, which needs no descriptor.
    fn await_client(&self) {
        let mut asked = [pollfd {
            fd: self.listener.as_raw_fd(),
            events: POLLIN,
            revents: 0,
        }];
        // Where a signal broke it, the call behind it waits.
        let _ = poll(&mut asked, -1);
    }

    // Waits for the next client where descriptors or memory are wanting.
    fn next_in_shortage(&self) -> Option<TcpStream> {
        for _again in 0..u64::MAX {
            self.await_client();
            match self.ask() {
                Came::Client(stream) => return Some(stream),
                Came::Nobody => {}
                Came::Shortage => self.pause(ACCEPT_PAUSES),
                Came::Fault => return None,
            }
        }
        None
    }

    // The same once it is the ear's turn.
    fn next_in_turn(&self) -> Option<TcpStream> {
        self.turn.take(&self.rt, pauses(ACCEPT_PAUSES));
        let next = self.next_in_shortage();
        self.turn.give_back();
        next
    }

    // Waits for the next client.
    fn next(&self) -> Option<TcpStream> {
        for _again in 0..u64::MAX {
            match self.ask() {
                Came::Client(stream) => return Some(stream),
                Came::Nobody => {}
                Came::Shortage => return self.next_in_turn(),
                Came::Fault => return None,
            }
        }
        None
    }

    // The connection to the client, with a place among those that are being served.
    fn serve(&self, stream: TcpStream) -> TcpConn
        ensures { result ≡ record { reads = 0; writes = 0 } }
    {
        let descriptor = stream.as_raw_fd();
        let place = match self.connections.share() {
            Ok(connections) => Some(Place::new(connections, self.place, descriptor)),
            Err(_) => None,
        };
        TcpConn::accepted(self.alloc, stream, place)
    }

    // Ends the connections of the others: their reads, and where they aren't left then in time, their writes.
    fn end_connections(&self) {
        self.connections.end(Ending::Reads);
        for _again in 0..ENDING_PAUSES {
            if self.connections.are_left() {
                return;
            }
            self.pause(1);
        }
        self.connections.end(Ending::All);
    }

    // Tries to make a connection to the own port, and drops it. True where none came in time.
    fn knock(&self) -> bool {
        let own = SocketAddr::from((Ipv4Addr::LOCALHOST, self.port));
        for _again in 0..u64::MAX {
            match TcpStream::connect_timeout(
                &self.rt,
                &own,
                Duration::from_millis(NUDGE_PATIENCE),
            ) {
                Ok(_) => return false,
                Err(e) if is_shortage(&e) => self.pause(1),
                Err(e) => return e.kind() == ErrorKind::TimedOut,
            }
        }
        false
    }
}

impl<R: Net<Listener = TcpListener, Stream = TcpStream> + Clock + Drop> Ear for TcpEar<R> {
    type Conn = TcpConn;

    ghost ear_faults = { λ e. e };

    ghost heard = { λ _. None };

    ghost kept = { λ _. None };

    ghost nudged = { λ _. None };

    fn accept(&mut self) -> Result<TcpConn, Failed> {
        match self.next() {
            Some(stream) => Ok(self.serve(stream)),
            None => {
                self.faults = self.faults.saturating_add(1);
                Err(Failed)
            }
        }
    }

    /// It never fails. The first one ends the connections that the other ears serve: their sessions end behind their commands, or after some seconds.
    /// No connection comes in time where the queue is full: then each ear finds a client there, and needs no nudge.
    fn nudge(&mut self) -> Result<(), Failed> {
        if !self.ended {
            self.ended = true;
            self.end_connections();
        }
        if !self.crowded {
            self.crowded = self.knock();
        }
        Ok(())
    }

    fn leave(&mut self, conn: TcpConn) {
        drop(conn);
    }
}
