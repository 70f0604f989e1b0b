// The part of an item that has come, and what may come next.
ghost use Rattle.std.specs.Prelude.{◌≡◌};

use crate::Word;
use std::alloc::Global;

/// What the next byte is part of.
#[derive(Clone, Copy)]
pub enum Stage {
    /// The first byte of an item.
    Start,
    /// An inline line.
    Inline,
    /// The line behind `*`.
    Count,
    /// The first byte of a bulk string.
    Mark,
    /// The line behind `$`.
    Length,
    /// The bytes of a word, or the CR behind them.
    Body,
    /// The LF behind a word.
    End,
}

/// The part of an item that has come. Which fields count depends on the stage.
#[derive(Drop)]
pub struct State {
    pub stage: Stage,
    /// The open line, without its mark.
    pub line: Vec<u8>,
    /// How many words the header names.
    pub count: usize,
    /// The whole words.
    pub words: Vec<Word>,
    /// The bytes of the whole words together.
    pub total: usize,
    /// How many bytes the open word has when it is whole.
    pub need: usize,
    /// The bytes of the open word.
    pub word: Vec<u8>,
}

impl State {
    pub fn new(alloc: Global) -> Self
        ensures { result.stage ≡ Stage.Start }
    {
        State {
            stage: Stage::Start,
            line: Vec::new(alloc),
            count: 0,
            words: Vec::new(alloc),
            total: 0,
            need: 0,
            word: Vec::new(alloc),
        }
    }
}
