// The lines behind `*` and `$`: a number in its one spelling, and CR. The LF is not among the bytes.
ghost use Rattle.std.specs.Prelude.{◌≡◌, ◌+◌, ◌<◌, ◌≤◌, ◌^◌, ◌++◌, ◌∷◌, [], ℕ, ℤ, List, length, take, IfSome, MatchOption};
ghost use Rattle.std.specs.Fmt.{decimal, signed_decimal};
ghost use Rattle.sk_resp.specs.Spelling.{cr, lf, line, minus};
ghost use Rattle.sk_resp.specs.Request.{IsCountLine, IsSkipped};

use crate::number::{canonical, negative};
use sk_base::limits::MOST_WORDS;

/// The text of a line, which a CR ends.
pub fn line_text(line: &[u8]) -> Option<&[u8]>
    ensures { MatchOption result ((text : List ℕ) → line.now ≡ text ++ cr ∷ [] → ⊥) (λ text. line.now ≡ text.now ++ cr ∷ []) }
{
    match line {
        [text @ .., b'\r'] => Some(text),
        _ => None,
    }
}

/// The number in a line.
pub fn line_number(line: &[u8]) -> Option<usize>
    ensures { MatchOption result ((n : ℕ) → n < 10 ^ 19 → line.now ≡ decimal n ++ cr ∷ [] → ⊥)
        (λ n. (n < 10 ^ 19) × (line.now ≡ decimal n ++ cr ∷ [])) }
{
    match line {
        [digits @ .., b'\r'] => canonical(digits),
        _ => None,
    }
}

// The integer below zero in a line.
fn negative_line(line: &[u8]) -> Option<i64>
    ensures { MatchOption result ((n : ℕ) → n < 2 ^ 63 → line.now ≡ minus ∷ (decimal (n + 1) ++ cr ∷ []) → ⊥)
        (λ _. (n : ℕ) × (n < 2 ^ 63) × (line.now ≡ minus ∷ (decimal (n + 1) ++ cr ∷ []))) }
{
    let text = line_text(line)?;
    if text.is_empty() {
        return None;
    }
    if text[0] != b'-' {
        return None;
    }
    negative(&text[1..])
}

/// The number in the line behind `*`, where it may stand there, and 0 for an integer below zero.
pub fn count_number(line: &[u8]) -> Option<usize>
    ensures { MatchOption result (IsCountLine line.now → ⊥)
        (λ n. (n ≤ MOST_WORDS) × (0 < n → line.now ≡ decimal n ++ cr ∷ []) × (n ≡ 0 → (z : ℤ) × IsSkipped z × (line.now ≡ signed_decimal z ++ cr ∷ []))) }
{
    match line_number(line) {
        Some(n) => {
            if n > MOST_WORDS {
                return None;
            }
            Some(n)
        }
        None => match negative_line(line) {
            Some(_) => Some(0),
            None => None,
        },
    }
}

/// A mark, a number and CRLF at the front of the input, where they are all there: how many bytes they are, and the number.
pub fn number_front(mark: u8, input: &[u8]) -> Option<(usize, usize)>
    ensures { IfSome result (λ r. (r.0 ≤ length input.now) × (r.1 < 10 ^ 19) × (take r.0 input.now ≡ line (mark ∷ decimal r.1))) }
{
    if input.is_empty() {
        return None;
    }
    if input[0] != mark {
        return None;
    }
    let mut at = 1;
    while at < input.len() && at < 10 && input[at] != b'\r' {
        at += 1;
    }
    if input.len() - at < 2 {
        return None;
    }
    if input[at] != b'\r' {
        return None;
    }
    if input[at + 1] != b'\n' {
        return None;
    }
    let Some(n) = canonical(&input[1..at]) else {
        return None;
    };
    Some((at + 2, n))
}
