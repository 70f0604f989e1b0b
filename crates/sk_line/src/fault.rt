// Why words are no command line.
ghost use Rattle.std.specs.Prelude.{◌≡◌};
ghost use Rattle.sk_line.specs.declared.fault.LineFault.TheVariants.{Memory};

use std::alloc::{AllocError, AllocFailed};

/// Why words are no command line of a subcommand.
#[derive(Clone, Copy)]
pub enum LineFault {
    /// The subcommand doesn't take these words, or a value in them breaks its rule. Asking for help is no command line either.
    Refused,
    /// There was no memory.
    Memory,
}

impl From<AllocError> for LineFault {
    ghost from_gives = { λ _ e. e ≡ Memory };

    fn from(_: AllocError) -> Self {
        LineFault::Memory
    }
}

impl<T: Drop> From<AllocFailed<T>> for LineFault {
    ghost from_gives = { λ _ e. e ≡ Memory };

    fn from(_: AllocFailed<T>) -> Self {
        LineFault::Memory
    }
}
