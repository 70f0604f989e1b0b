// Why a call of a limiter has no answer.
ghost use Rattle.std.specs.Prelude.{◌≡◌};

use sk_link::LinkFault;
use sk_resp::Reply;
use std::alloc::{AllocError, AllocFailed};

/// Why a limiter doesn't answer.
#[derive(Drop)]
pub enum LimitFault {
    /// The name is no name of at most 100 bytes, the token is no name of at most 64, the number isn't from 1 to 1,000, or the milliseconds aren't
    /// from 1 to 1,000,000,000. Nothing was sent.
    Name,
    /// The last request was lost by this fault of the link. The store may have taken it all the same.
    Link(LinkFault),
    /// The last request had this reply, which is an error or of another kind than the request wants.
    Refused(Reply),
    /// There was no memory for the next request. Each request that went out was answered.
    Memory,
}

impl From<AllocError> for LimitFault {
    ghost use Rattle.std.specs.Prelude.{◌≡◌};
    ghost use Rattle.sk_limit.specs.declared.limit_fault.LimitFault.TheVariants.{Memory};

    ghost from_gives = { λ _ e. e ≡ Memory };

    fn from(_: AllocError) -> Self {
        LimitFault::Memory
    }
}

impl<T: Drop> From<AllocFailed<T>> for LimitFault {
    ghost use Rattle.std.specs.Prelude.{◌≡◌};
    ghost use Rattle.sk_limit.specs.declared.limit_fault.LimitFault.TheVariants.{Memory};

    ghost from_gives = { λ _ e. e ≡ Memory };

    fn from(_: AllocFailed<T>) -> Self {
        LimitFault::Memory
    }
}
