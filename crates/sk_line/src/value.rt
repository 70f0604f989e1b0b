// The values of options.
ghost use Rattle.std.specs.Prelude.{◌≡◌, ℕ, ℤ, Bool, IfOk, MatchOption, map, option_map};
ghost use Rattle.clap.specs.Words.{all_of, first_of, found_of, rows_of};
ghost use Rattle.sk_base.specs.Name.{is_name};
ghost use Rattle.sk_line.specs.Lines.{Reads};
ghost use Rattle.sk_line.specs.Values.{Has, IsArgs, IsNamed, IsNumber, IsPath, IsRetry, IsScoreText, IsSeconds, IsSeed, IsText, MayHave, within};
ghost use Rattle.sk_line.specs.Work.{IsFlag};

use crate::LineFault;
use clap::ArgMatches;
use serde_json::Value;
use sk_base::limits::{MOST_RETRIES, MOST_SECONDS};
use sk_base::{Score, is_name};
use sk_payload::{Args, Retry};
use sk_resp::{Text, read_int};
use std::alloc::{AllocError, Global};

/// The option's text, given or its own.
pub fn text_in<'a>(matches: &ArgMatches<'a>, name: &str) -> Option<&'a str>
    ensures { option_map (λ s. s.now) result ≡ first_of name.now (rows_of (found_of matches.now)) }
{
    matches.get_str(name)
}

/// An equal text.
pub fn text(alloc: Global, text: &str) -> Result<Text, AllocError>
    ensures { IfOk result (λ t. t ≡ text.now) }
{
    Ok(Text::new(String::from_str(alloc, text)?))
}

/// The text of an option.
pub fn text_of(alloc: Global, matches: &ArgMatches<'_>, name: &str) -> Result<Text, LineFault>
    ensures { Reads (Has IsText (rows_of (found_of matches.now)) name.now) result }
{
    match text_in(matches, name) {
        Some(found) => Ok(text(alloc, found)?),
        None => Err(LineFault::Refused),
    }
}

// The path that the text is.
fn path(alloc: Global, found: &str) -> Result<Text, LineFault>
    ensures { Reads (IsPath found.now) result }
{
    if found.is_empty() {
        return Err(LineFault::Refused);
    }
    Ok(text(alloc, found)?)
}

/// The path of a file that an option stands for: any text that isn't empty.
pub fn path_of(alloc: Global, matches: &ArgMatches<'_>, option: &str) -> Result<Text, LineFault>
    ensures { Reads (Has IsPath (rows_of (found_of matches.now)) option.now) result }
{
    match text_in(matches, option) {
        Some(found) => path(alloc, found),
        None => Err(LineFault::Refused),
    }
}

/// The text is a name of at most so many bytes.
pub fn is_named(text: &str, most: usize) -> bool
    ensures { result ≡ is_name most text.now }
{
    is_name(text.as_bytes(), most)
}

// The name of at most so many bytes that the text is.
fn name(alloc: Global, found: &str, most: usize) -> Result<Text, LineFault>
    ensures { Reads (IsNamed most found.now) result }
{
    if !is_named(found, most) {
        return Err(LineFault::Refused);
    }
    Ok(text(alloc, found)?)
}

/// The name of at most so many bytes that an option stands for.
pub fn name_of(
    alloc: Global,
    matches: &ArgMatches<'_>,
    option: &str,
    most: usize,
) -> Result<Text, LineFault>
    ensures { Reads (Has (IsNamed most) (rows_of (found_of matches.now)) option.now) result }
{
    match text_in(matches, option) {
        Some(found) => name(alloc, found, most),
        None => Err(LineFault::Refused),
    }
}

// Whether a flag is written, by what clap gives for it.
fn flag(text: &str) -> Option<bool>
    ensures { MatchOption result ((value : Bool) → IsFlag text.now value → ⊥) (IsFlag text.now) }
{
    if text == "true" {
        return Some(true);
    }
    if text == "false" {
        return Some(false);
    }
    None
}

/// Whether a flag is written.
pub fn flag_of(matches: &ArgMatches<'_>, name: &str) -> Result<bool, LineFault>
    ensures { Reads (Has IsFlag (rows_of (found_of matches.now)) name.now) result }
{
    match text_in(matches, name) {
        Some(text) => flag(text).ok_or(LineFault::Refused),
        None => Err(LineFault::Refused),
    }
}

/// The words without an option, where there are any.
pub fn words_in<'m, 'a>(matches: &'m ArgMatches<'a>, name: &str) -> Option<&'m [&'a str]>
    ensures { option_map (λ words. map (λ word. word.now) words.now) result ≡ all_of name.now (rows_of (found_of matches.now)) }
{
    matches.get_strs(name)
}

// The integer, where it lies within these bounds.
fn within(n: Option<i64>, least: u32, most: u32) -> Option<u32>
    ensures { result ≡ within least most n }
{
    match n {
        Some(n) if least as i64 <= n && n <= most as i64 => Some(n as u32),
        _ => None,
    }
}

/// The whole number from `least` to `most` whose one spelling the text is: digits without a leading zero.
pub fn number(text: &str, least: u32, most: u32) -> Option<u32>
    ensures { MatchOption result ((value : ℕ) → IsNumber least most text.now value → ⊥) (IsNumber least most text.now) }
{
    within(read_int(text.as_bytes()), least, most)
}

/// The number from `least` to `most` that an option stands for.
pub fn number_of(
    matches: &ArgMatches<'_>,
    name: &str,
    least: u32,
    most: u32,
) -> Result<u32, LineFault>
    ensures { Reads (Has (IsNumber least most) (rows_of (found_of matches.now)) name.now) result }
{
    match text_in(matches, name) {
        Some(text) => number(text, least, most).ok_or(LineFault::Refused),
        None => Err(LineFault::Refused),
    }
}

// The word of 64 bits whose one spelling the text is: digits without a leading zero.
fn seed(text: &str) -> Option<u64>
    ensures { MatchOption result ((value : ℕ) → IsSeed text.now value → ⊥) (IsSeed text.now) }
{
    let bytes = text.as_bytes();
    let [first, ..] = bytes else {
        return None;
    };
    if *first == b'+' {
        return None;
    }
    if *first == b'0' && bytes.len() > 1 {
        return None;
    }
    match text.parse::<u64>() {
        Ok(word) => Some(word),
        Err(_) => None,
    }
}

/// The seed that an option stands for.
pub fn seed_of(matches: &ArgMatches<'_>, name: &str) -> Result<u64, LineFault>
    ensures { Reads (Has IsSeed (rows_of (found_of matches.now)) name.now) result }
{
    match text_in(matches, name) {
        Some(text) => seed(text).ok_or(LineFault::Refused),
        None => Err(LineFault::Refused),
    }
}

/// The seconds that an option stands for, where it is written.
pub fn seconds_of(matches: &ArgMatches<'_>, name: &str) -> Result<Option<u32>, LineFault>
    ensures { Reads (MayHave IsSeconds (rows_of (found_of matches.now)) name.now) result }
{
    let Some(text) = text_in(matches, name) else {
        return Ok(None);
    };
    match number(text, 1, MOST_SECONDS) {
        Some(seconds) => Ok(Some(seconds)),
        None => Err(LineFault::Refused),
    }
}

// The score that the text is.
fn score(text: &str) -> Option<Score>
    ensures { MatchOption result ((value : ℤ) → IsScoreText text.now value → ⊥) (IsScoreText text.now) }
{
    match Score::read(text.as_bytes()) {
        Ok(score) => Some(score),
        Err(_) => None,
    }
}

/// The score that an option stands for, where it is written.
pub fn score_of(matches: &ArgMatches<'_>, name: &str) -> Result<Option<Score>, LineFault>
    ensures { Reads (MayHave IsScoreText (rows_of (found_of matches.now)) name.now) result }
{
    let Some(text) = text_in(matches, name) else {
        return Ok(None);
    };
    match score(text) {
        Some(score) => Ok(Some(score)),
        None => Err(LineFault::Refused),
    }
}

// How often a job is tried again: `true`, `false`, or a count up to 1,000,000,000.
fn retry(text: &str) -> Option<Retry>
    ensures { MatchOption result ((value : Retry) → IsRetry text.now value → ⊥) (IsRetry text.now) }
{
    if text == "true" {
        return Some(Retry::Default);
    }
    if text == "false" {
        return Some(Retry::Never);
    }
    let count = number(text, 0, MOST_RETRIES)?;
    Some(Retry::Count(count))
}

/// How often a job is tried again, as an option says.
pub fn retry_of(matches: &ArgMatches<'_>, name: &str) -> Result<Retry, LineFault>
    ensures { Reads (Has IsRetry (rows_of (found_of matches.now)) name.now) result }
{
    match text_in(matches, name) {
        Some(text) => retry(text).ok_or(LineFault::Refused),
        None => Err(LineFault::Refused),
    }
}

// The arguments that the text is as a JSON array.
fn args(alloc: Global, text: &str) -> Result<Args, LineFault>
    ensures { Reads (IsArgs text.now) result }
{
    match Value::from_str(alloc, text) {
        Ok(Value::Array(values)) => Ok(Args::new(values)),
        Ok(_) => Err(LineFault::Refused),
        Err(error) => if error.is_memory() {
            Err(LineFault::Memory)
        } else {
            Err(LineFault::Refused)
        },
    }
}

/// The arguments of a job, as a word says.
pub fn args_of(alloc: Global, matches: &ArgMatches<'_>, name: &str) -> Result<Args, LineFault>
    ensures { Reads (Has IsArgs (rows_of (found_of matches.now)) name.now) result }
{
    match text_in(matches, name) {
        Some(text) => args(alloc, text),
        None => Err(LineFault::Refused),
    }
}
