// Inline lines: words between spaces and tabs, up to an LF.
ghost use Rattle.std.specs.Prelude.{◌≡◌, ◌++◌, ◌∷◌, [], IfOk, OnOk, IfErr};
ghost use Rattle.std.specs.List.{filter, slice_split};
ghost use Rattle.sk_resp.specs.Request.{is_some_word, is_blank, without_cr, IsInline, NoStar};
ghost use Rattle.sk_resp.specs.Reading.{Took, Fails, given};

use super::number_line::line_text;
use super::state::{Stage, State};
use crate::{Memory, WireFault, Word, Words};
use sk_base::limits::LONGEST_INLINE;
use std::alloc::Global;
use std::mem;

// Words are cut here.
fn is_cut(byte: u8) -> bool
    ensures { result ≡ is_blank byte }
{
    byte == b' ' || byte == b'\t'
}

// A line without the CR at its end.
fn drop_cr(line: &[u8]) -> &[u8]
    ensures { result.now ≡ without_cr line.now }
{
    match line_text(line) {
        Some(text) => text,
        None => line,
    }
}

// Adds the open word to the others, where it has bytes.
fn end_word(alloc: Global, word: &mut Vec<u8>, words: &mut Vec<Word>) -> Result<(), Memory>
    ensures { OnOk result ((words.new.items ≡ words.old.items ++ filter is_some_word (word.old.items ∷ [])) × (word.new.items ≡ [])) }
{
    if word.is_empty() {
        return Ok(());
    }
    words.push(Word::new(mem::replace(word, Vec::new(alloc))))?;
    Ok(())
}

// The words between the blanks.
fn cut_words(alloc: Global, text: &[u8]) -> Result<Vec<Word>, Memory>
    ensures { IfOk result (λ words. words.items ≡ filter is_some_word (slice_split is_blank text.now)) }
{
    let mut words = Vec::new(alloc);
    let mut word = Vec::new(alloc);
    for byte in text {
        if is_cut(*byte) {
            end_word(alloc, &mut word, &mut words)?;
        } else {
            word.push(*byte)?;
        }
    }
    end_word(alloc, &mut word, &mut words)?;
    Ok(words)
}

impl State {
    /// Takes a byte of an inline line.
    pub fn take_inline(&mut self, alloc: Global, byte: u8) -> Result<Option<Words>, WireFault>
        requires { IsInline self.old.line.items × NoStar (self.old.line.items ++ byte ∷ []) }
        ensures ok { IfOk result (λ found. Took (self.old.line.items ++ byte ∷ []) (given found) self.new) }
        ensures fault { IfErr result (Fails (self.old.line.items ++ byte ∷ [])) }
    {
        if byte == b'\n' {
            let words = cut_words(alloc, drop_cr(&self.line))?;
            self.stage = Stage::Start;
            if words.is_empty() {
                return Ok(None);
            }
            return Ok(Some(Words::new(words)));
        }
        if byte == b'"' || byte == b'\'' {
            return Err(WireFault::Quote);
        }
        if self.line.len() >= LONGEST_INLINE {
            return Err(WireFault::InlineLong);
        }
        self.line.push(byte)?;
        self.stage = Stage::Inline;
        Ok(None)
    }
}
