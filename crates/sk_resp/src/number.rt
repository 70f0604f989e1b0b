// Whole numbers in their one spelling.
ghost use Rattle.std.specs.Prelude.{◌≡◌, ◌+◌, ◌<◌, ◌^◌, ℕ, MatchOption, pos, negsuc};
ghost use Rattle.std.specs.Fmt.{decimal};
ghost use Rattle.sk_resp.specs.Number.{IsInt};

/// The number that the digits spell without a leading zero.
pub fn canonical(digits: &[u8]) -> Option<usize>
    ensures { MatchOption result ((n : ℕ) → n < 10 ^ 19 → digits.now ≡ decimal n → ⊥)
        (λ n. (n < 10 ^ 19) × (digits.now ≡ decimal n)) }
{
    if digits.is_empty() {
        return None;
    }
    if digits.len() > 19 {
        return None;
    }
    if digits[0] == b'0' && digits.len() > 1 {
        return None;
    }
    let mut n = 0usize;
    for digit in digits {
        if !digit.is_ascii_digit() {
            return None;
        }
        n = 10 * n + (*digit - b'0') as usize;
    }
    Some(n)
}

/// The integer below zero that a `-` and these digits spell.
pub fn negative(digits: &[u8]) -> Option<i64>
    ensures { MatchOption result ((n : ℕ) → n < 2 ^ 63 → digits.now ≡ decimal (n + 1) → ⊥)
        (λ z. (n : ℕ) × (n < 2 ^ 63) × (z ≡ negsuc n) × (digits.now ≡ decimal (n + 1))) }
{
    let n = canonical(digits)?;
    if n == 0 || n > 1 << 63 {
        return None;
    }
    Some(-((n - 1) as i64) - 1)
}

// The integer, not below zero, that the digits spell.
fn positive(digits: &[u8]) -> Option<i64>
    ensures { MatchOption result ((n : ℕ) → n < 2 ^ 63 → digits.now ≡ decimal n → ⊥)
        (λ z. (n : ℕ) × (n < 2 ^ 63) × (z ≡ pos n) × (digits.now ≡ decimal n)) }
{
    let n = canonical(digits)?;
    if n >= 1 << 63 {
        return None;
    }
    Some(n as i64)
}

/// The integer of 64 bits whose one spelling the text is: no sign but `-`, no leading zero, no `-0`.
pub fn read_int(text: &[u8]) -> Option<i64>
    ensures { IsInt text.now result }
{
    if text.is_empty() || text[0] != b'-' {
        return positive(text);
    }
    negative(&text[1..])
}
