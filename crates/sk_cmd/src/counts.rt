// How many words follow a command's name. They are taken out of the vector, and nothing here takes memory.
ghost use Rattle.std.specs.Prelude.{◌≡◌, ◌+◌, ◌++◌, ◌∷◌, ◌<◌, [], length};
ghost use Rattle.sk_cmd.specs.Counts.{IsFiveAnd, IsFour, IsOne, IsOneAnd, IsSome, IsThree, IsThreeAnd, IsTwo, IsTwoAnd, IsZero, is_from as from, is_range_count as range_count};

use crate::CmdFault;
use sk_resp::{Name, Word, Words};
use std::mem;

/// Takes the first word.
pub fn shift(words: &mut Vec<Word>) -> Word
    requires { 0 < length words.old.items }
    ensures { words.old.items ≡ result ∷ words.new.items }
{
    words.remove(0)
}

// Takes the last word.
fn pop(words: &mut Vec<Word>) -> Word
    requires { 0 < length words.old.items }
    ensures items { words.old.items ≡ words.new.items ++ result ∷ [] }
    ensures fewer { length words.new.items + 1 ≡ length words.old.items }
{
    let Some(word) = words.pop() else {
        unreachable!()
    };
    word
}

// Takes all words.
fn take_all(words: &mut Vec<Word>) -> Words
    ensures { result ≡ words.old.items }
{
    let alloc = *words.allocator();
    Words::new(mem::replace(words, Vec::new(alloc)))
}

pub fn zero(name: Name, words: &mut Vec<Word>) -> Result<(), CmdFault>
    ensures { IsZero name words.old.items result }
{
    if words.is_empty() {
        return Ok(());
    }
    Err(CmdFault::Arity(name))
}

pub fn one(name: Name, words: &mut Vec<Word>) -> Result<Word, CmdFault>
    ensures { IsOne name words.old.items result }
{
    if words.len() != 1 {
        return Err(CmdFault::Arity(name));
    }
    Ok(pop(words))
}

pub fn two(name: Name, words: &mut Vec<Word>) -> Result<(Word, Word), CmdFault>
    ensures { IsTwo name words.old.items result }
{
    if words.len() != 2 {
        return Err(CmdFault::Arity(name));
    }
    let b = pop(words);
    let a = pop(words);
    Ok((a, b))
}

pub fn three(name: Name, words: &mut Vec<Word>) -> Result<(Word, Word, Word), CmdFault>
    ensures { IsThree name words.old.items result }
{
    if words.len() != 3 {
        return Err(CmdFault::Arity(name));
    }
    let c = pop(words);
    let b = pop(words);
    let a = pop(words);
    Ok((a, b, c))
}

pub fn four(name: Name, words: &mut Vec<Word>) -> Result<(Word, Word, Word, Word), CmdFault>
    ensures { IsFour name words.old.items result }
{
    if words.len() != 4 {
        return Err(CmdFault::Arity(name));
    }
    let d = pop(words);
    let c = pop(words);
    let b = pop(words);
    let a = pop(words);
    Ok((a, b, c, d))
}

/// All the words, where there is one
pub fn some(name: Name, words: &mut Vec<Word>) -> Result<Words, CmdFault>
    ensures { IsSome name words.old.items result }
{
    if words.is_empty() {
        return Err(CmdFault::Arity(name));
    }
    Ok(take_all(words))
}

/// One word and the rest, where there is one and the number fits
pub fn one_and(name: Name, fits: bool, words: &mut Vec<Word>) -> Result<(Word, Words), CmdFault>
    ensures { IsOneAnd name fits words.old.items result }
{
    if !fits {
        return Err(CmdFault::Arity(name));
    }
    if words.is_empty() {
        return Err(CmdFault::Arity(name));
    }
    let a = shift(words);
    Ok((a, take_all(words)))
}

/// Two words and the rest, where there are two and the number fits
pub fn two_and(
    name: Name,
    fits: bool,
    words: &mut Vec<Word>,
) -> Result<(Word, Word, Words), CmdFault>
    ensures { IsTwoAnd name fits words.old.items result }
{
    if !fits {
        return Err(CmdFault::Arity(name));
    }
    if words.len() < 2 {
        return Err(CmdFault::Arity(name));
    }
    let a = shift(words);
    let b = shift(words);
    Ok((a, b, take_all(words)))
}

/// Three words and the rest, where there are three and the number fits
pub fn three_and(
    name: Name,
    fits: bool,
    words: &mut Vec<Word>,
) -> Result<(Word, Word, Word, Words), CmdFault>
    ensures { IsThreeAnd name fits words.old.items result }
{
    if !fits {
        return Err(CmdFault::Arity(name));
    }
    if words.len() < 3 {
        return Err(CmdFault::Arity(name));
    }
    let a = shift(words);
    let b = shift(words);
    let c = shift(words);
    Ok((a, b, c, take_all(words)))
}

/// Five words and the rest, where there are five
pub fn five_and(
    name: Name,
    words: &mut Vec<Word>,
) -> Result<(Word, Word, Word, Word, Word, Words), CmdFault>
    ensures { IsFiveAnd name words.old.items result }
{
    if words.len() < 5 {
        return Err(CmdFault::Arity(name));
    }
    let a = shift(words);
    let b = shift(words);
    let c = shift(words);
    let d = shift(words);
    let e = shift(words);
    Ok((a, b, c, d, e, take_all(words)))
}

/// From the least to the most
pub fn is_from(least: usize, most: usize, n: usize) -> bool
    ensures { result ≡ from least most n }
{
    least <= n && n <= most
}

/// 3, 4, 6 or 7 words: a key and two bounds, with no option, with one, with the other, and with both
pub fn is_range_count(n: usize) -> bool
    ensures { result ≡ range_count n }
{
    is_from(3, 4, n) || is_from(6, 7, n)
}
