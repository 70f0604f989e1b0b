// How a call of `iterate` ends.
ghost use Rattle.std.specs.Prelude.{◌≡◌};
ghost use Rattle.sk_iter.specs.Reads.{fault_in};

use sk_link::{AskFault, LinkFault};
use sk_resp::Reply;
use sk_worker::Raised;

/// Where a call stopped.
#[derive(Drop)]
pub enum IterEnd {
    /// Every item has returned.
    Done,
    /// As many items as the call might run have returned, and this is the next one.
    Paused(u64),
    /// The item with this number raised this error.
    Raised(u64, Raised),
}

/// Why a call has no end.
#[derive(Drop)]
pub enum IterFault {
    /// The bulk string under `it:jid` is no number, in its one spelling, from 0 to the number of items. No item was run.
    Cursor(Reply),
    /// The last request was lost by this fault of the link. The store may have taken it all the same.
    Link(LinkFault),
    /// The last request had this reply, which is an error or of another kind than the request wants.
    Refused(Reply),
    /// There was no memory: for an item, or for a request, which wasn't sent.
    Memory,
}

/// Why a request has no answer.
pub(crate) fn fault_of(fault: AskFault) -> IterFault
    ensures { result ≡ fault_in fault }
{
    match fault {
        AskFault::Refused(reply) => IterFault::Refused(reply),
        AskFault::Link(fault) => IterFault::Link(fault),
    }
}
