// Why a command on plain keys is refused.
ghost use Rattle.std.specs.Prelude.{◌≡◌};
ghost use Rattle.sk_value.specs.declared.keys_fault.KeysFault.{KeysFault};
ghost use Rattle.sk_value.specs.Answer.{fault_say};

use sk_resp::{Memory, Say};

/// Why a command on plain keys is refused. All is then as before.
#[derive(Clone, Copy)]
pub enum KeysFault {
    /// The key holds a value of another kind than the command is for.
    WrongType,
    /// The string isn't an integer of 64 bits in its one spelling.
    NotInt,
    /// The sum is no integer of 64 bits.
    Overflow,
    /// The time to live of `SET` is below 1, or a deadline would be past the end of the year 9999.
    BadExpire,
    /// There was no memory. Nothing says when this comes.
    Memory,
}

impl From<Memory> for KeysFault {
    ghost from_gives = { λ _ fault. fault ≡ KeysFault.Memory };

    fn from(_fault: Memory) -> KeysFault {
        KeysFault::Memory
    }
}

impl KeysFault {
    /// The text that tells a client of it.
    pub fn say(self) -> Say
        ensures { result ≡ fault_say self }
    {
        match self {
            KeysFault::WrongType => Say::WrongType,
            KeysFault::NotInt => Say::NotInt,
            KeysFault::Overflow => Say::Overflow,
            KeysFault::BadExpire => Say::BadExpire,
            KeysFault::Memory => Say::Oom,
        }
    }
}
