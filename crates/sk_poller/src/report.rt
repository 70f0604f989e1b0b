// What a turn of a poller answers.
use crate::Memory;
use sk_link::LinkFault;
use sk_resp::Reply;

/// What a turn did.
#[derive(Clone, Copy)]
pub struct PollReport {
    /// Due jobs that went from the schedule and the retries to their queues.
    pub promoted: u64,
    /// Jobs of dead processes that went back to their queues.
    pub rescued: u64,
    /// Rows that became dead jobs meanwhile.
    pub buried: u64,
    /// Periodic jobs that were pushed.
    pub pushed: u64,
}

/// Why a turn of a poller has no report.
#[derive(Drop)]
pub enum PollFault {
    /// The last request was lost by this fault of the link. The store may have taken it all the same.
    Link(LinkFault),
    /// A request had this reply, which is an error or of another kind than the request wants.
    Refused(Reply),
    /// There was no memory for the next request, or for the job in it. Each request that went out was answered.
    Memory,
}

impl From<LinkFault> for PollFault {
    ghost use Rattle.std.specs.Prelude.{◌≡◌};
    ghost use Rattle.sk_poller.specs.declared.report.PollFault.TheVariants.{Link};

    ghost from_gives = { λ f e. e ≡ Link f };

    fn from(fault: LinkFault) -> Self {
        PollFault::Link(fault)
    }
}

impl From<Memory> for PollFault {
    ghost use Rattle.std.specs.Prelude.{◌≡◌};
    ghost use Rattle.sk_poller.specs.declared.report.PollFault.TheVariants.{Memory};

    ghost from_gives = { λ _ e. e ≡ Memory };

    fn from(_: Memory) -> Self {
        PollFault::Memory
    }
}
