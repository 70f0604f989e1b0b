// The integer that a text spells.
ghost use Rattle.std.specs.Prelude.{◌≡◌};
ghost use Rattle.sk_value.specs.Number.{int_of};

use sk_resp::read_int;

/// The integer of 64 bits whose one spelling the text is: no sign but `-`, no leading zero, no `-0`.
pub fn int_of(text: &[u8]) -> Option<i64>
    ensures { result ≡ int_of text.now }
{
    read_int(text)
}
