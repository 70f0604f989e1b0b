// Why a launcher has no counts.
ghost use Rattle.std.specs.Prelude.{◌≡◌};
ghost use Rattle.sk_launcher.specs.Faults.{by_door, by_poll, by_work, is_away, status_of};
ghost use Rattle.sk_launcher.specs.declared.launch_fault.LaunchFault.TheVariants.{Memory};

use sk_edge::DoorFault;
use sk_link::LinkFault;
use sk_poller::PollFault;
use sk_resp::Reply;
use sk_worker::WorkFault;
use std::alloc::AllocError;

/// Why a launcher has no counts.
#[derive(Drop)]
pub enum LaunchFault {
    /// There was no memory. Nothing says when it comes.
    Memory,
    /// The door gave no connection: its count of faults rose.
    Door,
    /// A link to the store had this fault.
    Link(LinkFault),
    /// The store answered an error, or a reply of another kind than the request wants.
    Refused(Reply),
    /// A worker held a job whose count of failures can't rise, 999,999,999.
    GenLimit,
}

impl LaunchFault {
    /// The exit status: 5 for want of memory, 6 for a connection that failed or was unreadable, and 7 for a reply that refuses and for a count that
    /// can't rise.
    pub fn status(&self) -> u8
        ensures { result ≡ status_of self.now }
    {
        match self {
            LaunchFault::Memory | LaunchFault::Link(LinkFault::Memory) => 5,
            LaunchFault::Door | LaunchFault::Link(_) => 6,
            LaunchFault::Refused(_) | LaunchFault::GenLimit => 7,
        }
    }

    /// The server is away: the door gave no connection, or a link failed, or it ended and nothing of a reply had come.
    pub(crate) fn is_away(&self) -> bool
        ensures { result ≡ is_away self.now }
    {
        match self {
            LaunchFault::Door | LaunchFault::Link(LinkFault::Failed | LinkFault::Ended) => true,
            LaunchFault::Link(LinkFault::Unreadable(read)) => read.bytes().is_empty(),
            _ => false,
        }
    }
}

impl From<AllocError> for LaunchFault {
    ghost from_gives = { λ _ e. e ≡ Memory };

    fn from(_: AllocError) -> Self {
        LaunchFault::Memory
    }
}

impl From<DoorFault> for LaunchFault {
    ghost from_gives = { λ fault e. e ≡ by_door fault };

    fn from(fault: DoorFault) -> Self {
        match fault {
            DoorFault::Failed => LaunchFault::Door,
            DoorFault::Memory => LaunchFault::Memory,
        }
    }
}

impl From<PollFault> for LaunchFault {
    ghost from_gives = { λ fault e. e ≡ by_poll fault };

    fn from(fault: PollFault) -> Self {
        match fault {
            PollFault::Link(fault) => LaunchFault::Link(fault),
            PollFault::Refused(reply) => LaunchFault::Refused(reply),
            PollFault::Memory => LaunchFault::Memory,
        }
    }
}

impl From<WorkFault> for LaunchFault {
    ghost from_gives = { λ fault e. e ≡ by_work fault };

    /// A worker's thread keeps the fault with which it ended, and asks it for no further turn: `Ended` is none of them.
    fn from(fault: WorkFault) -> Self {
        match fault {
            WorkFault::Link(fault) => LaunchFault::Link(fault),
            WorkFault::Refused(reply) => LaunchFault::Refused(reply),
            WorkFault::GenLimit => LaunchFault::GenLimit,
            WorkFault::Ended | WorkFault::Memory => LaunchFault::Memory,
        }
    }
}
