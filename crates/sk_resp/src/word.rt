// Bytes, and lists of them, as commands and replies carry them.
ghost use Rattle.std.specs.Prelude.{◌≡◌, IfOk};

use crate::Memory;
use std::marker::Model;

/// One word of a command, or the bytes of a reply: any bytes.
#[derive(Drop)]
pub struct Word {
    bytes: Vec<u8>,
}

impl Model for Word {
    ghost use Rattle.std.specs.Prelude.{List, ℕ};

    ghost Value = { List ℕ };

    ghost view = { λ w. w.bytes.items };
}

impl Word {
    /// Takes no memory.
    pub fn new(bytes: Vec<u8>) -> Self
        ensures { result ≡ bytes.items }
    {
        Word { bytes }
    }

    pub fn bytes(&self) -> &[u8]
        ensures { result.now ≡ self.now }
    {
        &self.bytes
    }

    /// Takes no memory.
    pub fn into_bytes(self) -> Vec<u8>
        ensures { result.items ≡ self }
    {
        self.bytes
    }

    /// An equal word.
    pub fn copy(&self) -> Result<Word, Memory>
        ensures { IfOk result (λ word. word ≡ self.now) }
    {
        Ok(Word {
            bytes: self.bytes.clone()?,
        })
    }
}

/// The words of one command.
#[derive(Drop)]
pub struct Words {
    words: Vec<Word>,
}

impl Model for Words {
    ghost use Rattle.std.specs.Prelude.{List, ℕ};

    ghost Value = { List (List ℕ) };

    ghost view = { λ w. w.words.items };
}

impl Words {
    /// Takes no memory.
    pub fn new(words: Vec<Word>) -> Self
        ensures { result ≡ words.items }
    {
        Words { words }
    }

    pub fn list(&self) -> &[Word]
        ensures { result.now ≡ self.now }
    {
        &self.words
    }

    /// Takes no memory.
    pub fn into_list(self) -> Vec<Word>
        ensures { result.items ≡ self }
    {
        self.words
    }

    /// Equal words.
    pub fn copy(&self) -> Result<Words, Memory>
        ensures { IfOk result (λ words. words ≡ self.now) }
    {
        let mut words = Vec::new(*self.words.allocator());
        for word in &self.words {
            words.push(word.copy()?)?;
        }
        Ok(Words { words })
    }
}
