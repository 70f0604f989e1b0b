// Why a stream of requests can't be read on.
ghost use Rattle.std.specs.Prelude.{◌≡◌};
ghost use Rattle.sk_resp.specs.declared.wire_fault.WireFault.TheVariants.{Memory};

use std::alloc::{AllocError, AllocFailed};

/// A fault of a stream of requests. Each stands at one byte of the stream, and the connection ends there.
#[derive(Clone, Copy)]
pub enum WireFault {
    /// The line behind `*` is no canonical integer of 64 bits, or above 65,536, or has no CR before its LF, or more than 32 bytes before it.
    /// It stands at the LF, or at the first byte past 32.
    MultiLength,
    /// The line behind `$` is no canonical number from 0 to 1,048,576, or has no CR before its LF, or more than 32 bytes before it; or no CRLF
    /// follows the bytes of the word. It stands at the LF, at the first byte past 32, or at the byte that is no CR or LF.
    BulkLength,
    /// A word begins with this byte and not with `$`.
    NoDollar(u8),
    /// An inline line holds `"` or `'`.
    Quote,
    /// An inline line has more than 65,536 bytes before its LF. It stands at the first byte past them.
    InlineLong,
    /// A line with a length brings the words of this command above 16,777,216 bytes. It stands at the line's LF.
    Limit,
    /// There was no memory. It stands at no byte, and nothing says when it comes.
    Memory,
}

impl From<AllocError> for WireFault {
    ghost from_gives = { λ _ e. e ≡ Memory };

    fn from(_: AllocError) -> Self {
        WireFault::Memory
    }
}

impl<T: Drop> From<AllocFailed<T>> for WireFault {
    ghost from_gives = { λ _ e. e ≡ Memory };

    fn from(_: AllocFailed<T>) -> Self {
        WireFault::Memory
    }
}
