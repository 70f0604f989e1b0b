// Why a call of the client didn't push what it was given.
ghost use Rattle.std.specs.Prelude.{◌≡◌};

use sk_link::LinkFault;
use sk_payload::DraftFault;
use sk_resp::{Reply, Text};
use std::alloc::{AllocError, AllocFailed};

/// Why jobs aren't pushed, or not all of them.
#[derive(Drop)]
pub enum ClientFault {
    /// The first of the drafts that can't be built has this fault. Nothing was sent.
    Draft(DraftFault),
    /// The request was lost by this fault of the link, also by want of memory there. The store may have taken it all the same.
    Link(LinkFault),
    /// The store's reply is an error, or of a kind that it doesn't give to this request.
    Refused(Reply),
    /// The job with this id holds the lock. Nothing was pushed.
    Held(Text),
    /// There was no memory for the request. It wasn't sent.
    Memory,
}

impl From<AllocError> for ClientFault {
    ghost use Rattle.std.specs.Prelude.{◌≡◌};
    ghost use Rattle.sk_client.specs.declared.client_fault.ClientFault.TheVariants.{Memory};

    ghost from_gives = { λ _ e. e ≡ Memory };

    fn from(_: AllocError) -> Self {
        ClientFault::Memory
    }
}

impl<T: Drop> From<AllocFailed<T>> for ClientFault {
    ghost use Rattle.std.specs.Prelude.{◌≡◌};
    ghost use Rattle.sk_client.specs.declared.client_fault.ClientFault.TheVariants.{Memory};

    ghost from_gives = { λ _ e. e ≡ Memory };

    fn from(_: AllocFailed<T>) -> Self {
        ClientFault::Memory
    }
}
