// Where in a field the reader is, and where a byte leads it: the grammar of a field as a machine over bytes.
ghost use Rattle.std.specs.Prelude.{◌≡◌, ◌<◌, ◌≤◌, ◌+◌, ◌*◌, MatchOption};
ghost use Rattle.sk_cron.specs.Reading.{after, after_number, after_star, asks, begins, digit_of, digits, ends, fits, least, numbers, opens, part_of, whole};

use crate::{Bounds, Part};

/// Which number of a part it is.
#[derive(Clone, Copy)]
pub enum Role {
    First,
    /// The last one of a range, whose first one is this.
    Last(u8),
    /// The step of a range.
    RangeStep(u8, u8),
    /// The step of a `*`.
    StarStep,
}

/// Where in a field the reader is.
#[derive(Clone, Copy)]
pub enum ParserState {
    /// Behind a field and a space.
    Gap,
    /// Before a number.
    Ask(Role),
    /// Behind the one digit of a number.
    Digit(Role, u8),
    /// Behind the two digits of a number.
    Number(Role, u8),
    /// Behind a `*`.
    Star,
}

/// Where a byte leads.
#[derive(Clone, Copy)]
pub enum Next {
    Stays(ParserState),
    /// The part is whole, and another one follows in its field.
    Comma(Part),
    /// The part and its field are whole.
    Space(Part),
    /// No cron text goes on so.
    Fault,
}

fn digit_of(byte: u8) -> Option<u8>
    ensures { result ≡ digit_of byte }
{
    if byte < b'0' || b'9' < byte {
        None
    } else {
        Some(byte - b'0')
    }
}

// The least that a number may be. The greatest is the field's.
fn least(bounds: Bounds, role: Role) -> u8
    ensures { result ≡ least bounds role }
{
    match role {
        Role::First => bounds.low,
        Role::Last(first) => first,
        Role::RangeStep(..) | Role::StarStep => 1,
    }
}

fn fits(bounds: Bounds, role: Role, number: u8) -> bool
    ensures { result ≡ fits bounds role number }
{
    least(bounds, role) <= number && number <= bounds.high
}

// The digit is such a number, or begins one of two digits.
fn opens(bounds: Bounds, role: Role, digit: u8) -> bool
    requires { digit ≤ 9 }
    ensures { result ≡ opens bounds role digit }
{
    fits(bounds, role, digit) || 10 * digit <= bounds.high && least(bounds, role) <= 10 * digit + 9
}

fn part_of(role: Role, number: u8) -> Part
    ensures { result ≡ part_of role number }
{
    match role {
        Role::First => Part::Number(number),
        Role::Last(first) => Part::Range(first, number, 1),
        Role::RangeStep(first, last) => Part::Range(first, last, number),
        Role::StarStep => Part::StarStep(number),
    }
}

/// The part that is whole there.
pub fn whole(bounds: Bounds, state: ParserState) -> Option<Part>
    ensures { result ≡ whole bounds state }
{
    match state {
        ParserState::Gap | ParserState::Ask(_) => None,
        ParserState::Digit(role, n) | ParserState::Number(role, n) => {
            if fits(bounds, role, n) {
                Some(part_of(role, n))
            } else {
                None
            }
        }
        ParserState::Star => Some(Part::Star),
    }
}

fn asks(bounds: Bounds, role: Role, byte: u8) -> Next
    ensures { result ≡ asks bounds role byte }
{
    match digit_of(byte) {
        Some(digit) if opens(bounds, role, digit) => Next::Stays(ParserState::Digit(role, digit)),
        _ => Next::Fault,
    }
}

// Before a part.
fn begins(bounds: Bounds, byte: u8) -> Next
    ensures { result ≡ begins bounds byte }
{
    if byte == b'*' {
        Next::Stays(ParserState::Star)
    } else {
        asks(bounds, Role::First, byte)
    }
}

fn ends(part: Part, byte: u8) -> Next
    ensures { result ≡ ends part byte }
{
    match byte {
        b',' => Next::Comma(part),
        b' ' => Next::Space(part),
        _ => Next::Fault,
    }
}

// Behind a number that may end there.
fn after_number(role: Role, number: u8, byte: u8) -> Next
    ensures { result ≡ after_number role number byte }
{
    match (role, byte) {
        (Role::First, b'-') => Next::Stays(ParserState::Ask(Role::Last(number))),
        (Role::Last(first), b'/') => Next::Stays(ParserState::Ask(Role::RangeStep(first, number))),
        _ => ends(part_of(role, number), byte),
    }
}

// Behind a number.
fn numbers(bounds: Bounds, role: Role, number: u8, byte: u8) -> Next
    ensures { result ≡ numbers bounds role number byte }
{
    if fits(bounds, role, number) {
        after_number(role, number, byte)
    } else {
        Next::Fault
    }
}

// The number of two digits.
fn tens(first: u8, second: u8) -> Option<u8>
    ensures { MatchOption result (255 < 10 * first + second) (λ n. n ≡ 10 * first + second) }
{
    first.checked_mul(10)?.checked_add(second)
}

// Behind the first digit of a number.
fn digits(bounds: Bounds, role: Role, first: u8, byte: u8) -> Next
    ensures { result ≡ digits bounds role first byte }
{
    let Some(second) = digit_of(byte) else {
        return numbers(bounds, role, first, byte);
    };
    match tens(first, second) {
        Some(number) if fits(bounds, role, number) => Next::Stays(ParserState::Number(
            role, number,
        )),
        _ => Next::Fault,
    }
}

// Behind a `*`.
fn after_star(byte: u8) -> Next
    ensures { result ≡ after_star byte }
{
    if byte == b'/' {
        Next::Stays(ParserState::Ask(Role::StarStep))
    } else {
        ends(Part::Star, byte)
    }
}

/// Where the byte leads from there.
pub fn after(bounds: Bounds, state: ParserState, byte: u8) -> Next
    ensures { result ≡ after bounds state byte }
{
    match state {
        ParserState::Gap if byte == b' ' => Next::Stays(ParserState::Gap),
        ParserState::Gap | ParserState::Ask(Role::First) => begins(bounds, byte),
        ParserState::Ask(role) => asks(bounds, role, byte),
        ParserState::Digit(role, first) => digits(bounds, role, first, byte),
        ParserState::Number(role, number) => numbers(bounds, role, number, byte),
        ParserState::Star => after_star(byte),
    }
}
