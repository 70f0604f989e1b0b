// Arguments that come in pairs: fields with values, and scores with members. These take memory.
ghost use Rattle.std.specs.Prelude.{◌≡◌, [], ℕ, List};
ghost use Rattle.sk_cmd.specs.Reading.{OrMemory};
ghost use Rattle.sk_cmd.specs.Arguments.{IsPairs, IsScores};

use crate::CmdFault;
use crate::scores::read_score;
use sk_base::Score;
use sk_resp::{Word, Words};
use std::alloc::Global;
use std::marker::Model;

/// Fields, each with its value. Contracts see them as a list of pairs.
#[derive(Drop)]
pub struct Pairs {
    list: Vec<(Word, Word)>,
}

impl Model for Pairs {
    ghost Value = { List (List ℕ × List ℕ) };

    ghost view = { λ p. p.list.items };
}

impl Pairs {
    /// Takes no memory.
    pub fn new(list: Vec<(Word, Word)>) -> Self
        ensures { result ≡ list.items }
    {
        Pairs { list }
    }

    /// Takes no memory.
    pub fn into_list(self) -> Vec<(Word, Word)>
        ensures { result.items ≡ self }
    {
        self.list
    }
}

/// Scores, each with its member. Contracts see them as a list of pairs.
#[derive(Drop)]
pub struct Scores {
    list: Vec<(Score, Word)>,
}

impl Model for Scores {
    ghost use Rattle.std.specs.Prelude.{ℕ, ℤ, List};

    ghost Value = { List (ℤ × List ℕ) };

    ghost view = { λ p. p.list.items };
}

impl Scores {
    /// Takes no memory.
    pub fn new(list: Vec<(Score, Word)>) -> Self
        ensures { result ≡ list.items }
    {
        Scores { list }
    }

    /// Takes no memory.
    pub fn into_list(self) -> Vec<(Score, Word)>
        ensures { result.items ≡ self }
    {
        self.list
    }
}

pub fn read_pairs(alloc: Global, words: Words) -> Result<Pairs, CmdFault>
    ensures { OrMemory (IsPairs words []) result }
{
    let mut list = Vec::new(alloc);
    let mut words = words.into_list().into_iter();
    while let Some(field) = words.next() {
        let Some(value) = words.next() else {
            return Err(CmdFault::Syntax);
        };
        let Ok(()) = list.push((field, value)) else {
            return Err(CmdFault::Memory);
        };
    }
    Ok(Pairs::new(list))
}

pub fn read_scores(alloc: Global, words: Words) -> Result<Scores, CmdFault>
    ensures { OrMemory (IsScores words []) result }
{
    let mut list = Vec::new(alloc);
    let mut words = words.into_list().into_iter();
    while let Some(score) = words.next() {
        let Some(member) = words.next() else {
            return Err(CmdFault::Syntax);
        };
        let score = read_score(score.bytes())?;
        let Ok(()) = list.push((score, member)) else {
            return Err(CmdFault::Memory);
        };
    }
    Ok(Scores::new(list))
}
