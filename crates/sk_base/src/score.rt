// Scores of sorted sets: read from a text, written as the shortest one, and made of moments. They are exact, in millionths.
ghost use Rattle.std.specs.Prelude.{◌≡◌, ◌++◌, ◌*◌, ◌<◌, ◌≤◌, ◌^◌, ℕ, List, OnOk, MatchOption, IfOk, min, pos, drop, unsigned_abs, drop};
ghost use Rattle.std.specs.Str.Parse.{digits_value_after};
ghost use Rattle.std.specs.Fmt.{decimal};
ghost use Rattle.sk_base.specs.Score.{IsDecimal, IsDigits, IsMagnitude, IsScore, fraction, greatest, last_moment, score_text, six, six_digits, without_zeros};
ghost use Rattle.sk_base.specs.Digits.{IsFrontDigits};

use crate::limits::{GREATEST_SCORE, LAST_MOMENT};
use std::alloc::{AllocError as Memory, Global};
use std::marker::Model;

const MILLION: u64 = 1_000_000;

/// A score in millionths, from -9,223,372,036,854,775,807 to 9,223,372,036,854,775,807. Contracts see the number.
#[derive(Clone, Copy, Debug, PartialEq, Eq)]
pub struct Score(i64);

impl Model for Score {
    ghost use Rattle.std.specs.Prelude.{ℤ, unsigned_abs, ◌≤◌};
    ghost use Rattle.sk_base.specs.Score.{greatest};

    ghost Value = { ℤ };

    ghost view = { λ s. s.0 };

    ghost invariant = { λ s. unsigned_abs s.0 ≤ greatest };

    ghost inverse = { λ z. record { 0 = z } };
}

/// Why a text is no score.
#[derive(Clone, Copy, Debug, PartialEq, Eq)]
pub enum ScoreFault {
    /// It isn't an optional `-`, one or more digits, and optionally `.` with one or more digits.
    NotDecimal,
    /// It has that form, and is above 9,223,372,036,854,775,807 millionths or below the negative of them.
    Range,
}

// The digits in front, and what stands behind them.
fn front_digits(text: &[u8]) -> (&[u8], &[u8])
    ensures { IsFrontDigits text.now result.0.now result.1.now }
{
    let mut n = 0;
    while n < text.len() && text[n].is_ascii_digit() {
        n += 1;
    }
    text.split_at(n)
}

// The decimals behind a point, or none where there is nothing.
fn decimals_of(rest: &[u8]) -> Option<&[u8]>
    ensures { MatchOption result ((decimals : List ℕ) → IsDigits decimals → rest.now ≡ fraction decimals → ⊥)
        (λ decimals. IsDigits decimals.now × (rest.now ≡ fraction decimals.now)) }
{
    if rest.is_empty() {
        return Some(rest);
    }
    if rest[0] != b'.' {
        return None;
    }
    let (decimals, more) = front_digits(&rest[1..]);
    if decimals.is_empty() {
        return None;
    }
    if !more.is_empty() {
        return None;
    }
    Some(decimals)
}

// The whole part and the decimals.
fn parts(text: &[u8]) -> Option<(&[u8], &[u8])>
    ensures { MatchOption result ((whole decimals : List ℕ) → IsDecimal text.now whole decimals → ⊥) (λ p. IsDecimal text.now p.0.now p.1.now) }
{
    let (whole, rest) = front_digits(text);
    if whole.is_empty() {
        return None;
    }
    let Some(decimals) = decimals_of(rest) else {
        return None;
    };
    Some((whole, decimals))
}

// The number that the digits write when they follow those of n.
fn number(n: u64, digits: &[u8]) -> Option<u64>
    requires small { n ≤ greatest }
    requires digits { IsDigits digits.now }
    ensures { MatchOption result (greatest < digits_value_after 10 n digits.now) (λ m. (m ≡ digits_value_after 10 n digits.now) × (m ≤ greatest)) }
{
    let mut n = n;
    for digit in digits {
        let digit = (*digit - b'0') as u64;
        if n > (GREATEST_SCORE - digit) / 10 {
            return None;
        }
        n = 10 * n + digit;
    }
    Some(n)
}

// The first six decimals, filled with zeros.
fn six_of(decimals: &[u8]) -> [u8; 6]
    ensures { result ≡ six decimals.now }
{
    let mut digits = *b"000000";
    let n = decimals.len().min(6);
    digits[..n].copy_from_slice(&decimals[..n]);
    digits
}

// The millionths that a text without a sign is.
fn magnitude(text: &[u8]) -> Result<u64, ScoreFault>
    ensures { IsMagnitude text.now result }
{
    let Some((whole, decimals)) = parts(text) else {
        return Err(ScoreFault::NotDecimal);
    };
    let Some(whole) = number(0, whole) else {
        return Err(ScoreFault::Range);
    };
    match number(whole, &six_of(decimals)) {
        Some(n) => Ok(n),
        None => Err(ScoreFault::Range),
    }
}

// Without the zeros at the end.
fn trimmed(digits: &[u8]) -> &[u8]
    ensures { result.now ≡ without_zeros digits.now }
{
    let [front @ .., last] = digits else {
        return digits;
    };
    if *last != b'0' {
        return digits;
    }
    trimmed(front)
}

// Appends `.` and so many millionths, where there are any.
fn write_fraction(alloc: Global, n: u64, out: &mut Vec<u8>) -> Result<(), Memory>
    requires { n < 10 ^ 6 }
    ensures { OnOk result (out.new.items ≡ out.old.items ++ fraction (without_zeros (six_digits n))) }
{
    let digits = (MILLION + n).to_string(alloc)?;
    let decimals = trimmed(&digits.as_bytes()[1..]);
    if decimals.is_empty() {
        return Ok(());
    }
    out.push(b'.')?;
    out.extend_from_slice(decimals)
}

impl Score {
    /// The score that a text is: an optional `-`, one or more digits, and optionally `.` with one or more digits, of which those past the sixth
    /// are cut.
    pub fn read(text: &[u8]) -> Result<Score, ScoreFault>
        ensures { IsScore text.now result }
    {
        let [first, digits @ ..] = text else {
            return Err(ScoreFault::NotDecimal);
        };
        if *first == b'-' {
            let n = magnitude(digits)?;
            return Ok(Score(-(n as i64)));
        }
        let n = magnitude(text)?;
        Ok(Score(n as i64))
    }

    /// Appends the score's shortest text. After want of memory a part of it may stand there.
    pub fn write(&self, alloc: Global, out: &mut Vec<u8>) -> Result<(), Memory>
        ensures { OnOk result (out.new.items ≡ out.old.items ++ score_text self.now) }
    {
        let magnitude = self.0.unsigned_abs();
        if self.0 < 0 {
            out.push(b'-')?;
        }
        let whole = (magnitude / MILLION).to_string(alloc)?;
        out.extend_from_slice(whole.as_bytes())?;
        write_fraction(alloc, magnitude % MILLION, out)
    }

    /// The score of a moment, in milliseconds since 1970 (UTC). A moment above 253,370,764,799,999 is read as that.
    pub fn of_moment(now: u64) -> Score
        ensures { result ≡ pos (min now last_moment * 1000) }
    {
        Score(now.min(LAST_MOMENT) as i64 * 1000)
    }

    /// The score of so many millionths.
    pub fn of_micros(micros: i64) -> Score
        requires { unsigned_abs micros ≤ greatest }
        ensures { result ≡ micros }
    {
        Score(micros)
    }

    /// The score in millionths.
    pub fn micros(&self) -> i64
        ensures value { result ≡ self.now }
        ensures bound { unsigned_abs result ≤ greatest }
    {
        self.0
    }
}
