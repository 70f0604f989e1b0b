// Whole numbers at the front of some bytes, read digit by digit. Nothing is said of other forms: `None` isn't a fault.
ghost use Rattle.std.specs.Prelude.{◌≡◌, ◌<◌, ◌^◌, IfSome, take};
ghost use Rattle.std.specs.Fmt.{decimal};
ghost use Rattle.sk_resp.specs.Spelling.{IsPart};

// How many digits are looked at.
const MOST_DIGITS: usize = 18;

/// A whole number at the front of some bytes.
#[derive(Clone, Copy, Debug, Drop)]
pub struct Unsigned {
    /// How many bytes it has.
    pub len: usize,
    pub n: u64,
}

/// A whole number of at most 17 digits, without a sign and in its one spelling.
pub fn unsigned_front(input: &[u8]) -> Option<Unsigned>
    ensures { IfSome result (λ r. IsPart r.len input.now × (r.n < 2 ^ 63) × (take r.len input.now ≡ decimal r.n)) }
{
    let mut at = 0;
    let mut n = 0u64;
    while at < input.len() && at < MOST_DIGITS && input[at].is_ascii_digit() {
        n = 10 * n + (input[at] - b'0') as u64;
        at += 1;
    }
    if at == 0 || at == MOST_DIGITS {
        return None;
    }
    if at > 1 && input[0] == b'0' {
        return None;
    }
    Some(Unsigned { len: at, n })
}
