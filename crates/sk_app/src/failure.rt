// Why a program ends before it has done what its words ask for.
ghost use Rattle.std.specs.Prelude.{◌≡◌};
ghost use Rattle.sk_app.specs.Failures.{by_door, by_launch, by_line, status_of};
ghost use Rattle.sk_app.specs.declared.failure.Failure.TheVariants.{Memory};

use sk_compare::Difference;
use sk_edge::DoorFault;
use sk_launcher::LaunchFault;
use sk_line::LineFault;
use sk_link::LinkFault;
use sk_resp::{Reply, Word};
use std::alloc::{AllocError, AllocFailed};

/// Why a program ends before it has done what its words ask for.
#[derive(Drop)]
pub enum Failure {
    /// The words are no command line of the program, or what they ask for can't be written as a job.
    Line,
    /// There was no memory. Nothing says when it comes.
    Memory,
    /// The door gave no connection or no ears, or an ear failed: its count of faults rose.
    Door,
    /// A loop of a server had used up its seats' numbers when it accepted one more connection.
    Seats,
    /// A link to the store had this fault.
    Link(LinkFault),
    /// The store answered an error, or a reply of another kind than the request wants.
    Refused(Reply),
    /// Under the key of a cursor stands this text, which is no number of an item.
    Cursor(Word),
    /// A worker held a job whose count of failures can't rise, 999,999,999.
    GenLimit,
    /// The journal of a drill has another ask at a place of a seat than the threads tell, or only one of them has an ask there.
    Differs(Difference),
}

impl Failure {
    /// The exit status: 2 for words that are no command line, 5 for want of memory, 6 for a connection that failed or was unreadable and for
    /// seats that were used up, 7 for a reply that refuses, for a cursor that is none and for a count that can't rise, and 8 where a drill's journal
    /// differs from what is told.
    pub fn status(&self) -> u8
        ensures { result ≡ status_of self.now }
    {
        match self {
            Failure::Line => 2,
            Failure::Memory | Failure::Link(LinkFault::Memory) => 5,
            Failure::Door | Failure::Seats | Failure::Link(_) => 6,
            Failure::Refused(_) | Failure::Cursor(_) | Failure::GenLimit => 7,
            Failure::Differs(_) => 8,
        }
    }
}

impl From<AllocError> for Failure {
    ghost from_gives = { λ _ e. e ≡ Memory };

    fn from(_: AllocError) -> Self {
        Failure::Memory
    }
}

impl<T: Drop> From<AllocFailed<T>> for Failure {
    ghost from_gives = { λ _ e. e ≡ Memory };

    fn from(_: AllocFailed<T>) -> Self {
        Failure::Memory
    }
}

impl From<LineFault> for Failure {
    ghost from_gives = { λ fault e. e ≡ by_line fault };

    fn from(fault: LineFault) -> Self {
        match fault {
            LineFault::Refused => Failure::Line,
            LineFault::Memory => Failure::Memory,
        }
    }
}

impl From<DoorFault> for Failure {
    ghost from_gives = { λ fault e. e ≡ by_door fault };

    fn from(fault: DoorFault) -> Self {
        match fault {
            DoorFault::Failed => Failure::Door,
            DoorFault::Memory => Failure::Memory,
        }
    }
}

impl From<LaunchFault> for Failure {
    ghost from_gives = { λ fault e. e ≡ by_launch fault };

    fn from(fault: LaunchFault) -> Self {
        match fault {
            LaunchFault::Memory => Failure::Memory,
            LaunchFault::Door => Failure::Door,
            LaunchFault::Link(fault) => Failure::Link(fault),
            LaunchFault::Refused(reply) => Failure::Refused(reply),
            LaunchFault::GenLimit => Failure::GenLimit,
        }
    }
}
