// Why a stream of replies can't be read on.
ghost use Rattle.std.specs.Prelude.{◌≡◌};
ghost use Rattle.sk_resp.specs.declared.reply.fault.ReplyFault.TheVariants.{Memory};

use std::alloc::{AllocError, AllocFailed};

/// A fault of a stream of replies. The connection ends there.
#[derive(Clone, Copy)]
pub enum ReplyFault {
    /// No list of replies within the limits begins with the bytes. It stands at the first byte of which that is so.
    Unreadable,
    /// There was no memory. It stands at no byte, and nothing says when it comes.
    Memory,
}

impl From<AllocError> for ReplyFault {
    ghost from_gives = { λ _ e. e ≡ Memory };

    fn from(_: AllocError) -> Self {
        ReplyFault::Memory
    }
}

impl<T: Drop> From<AllocFailed<T>> for ReplyFault {
    ghost from_gives = { λ _ e. e ≡ Memory };

    fn from(_: AllocFailed<T>) -> Self {
        ReplyFault::Memory
    }
}
