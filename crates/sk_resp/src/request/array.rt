// Arrays of bulk strings: a header, and then a line with its length before each word. Each stage takes one byte, or many where they
// stand in the input together; the plain byte decides wherever anything is unlike the usual form.
ghost use Rattle.std.specs.Prelude;
ghost use Rattle.std.specs.Prelude.{◌≡◌, ◌+◌, ◌<◌, ◌≤◌, ◌++◌, ◌∷◌, [], IfOk, IfErr, IfSome, length, take};
ghost use Rattle.sk_resp.specs.Spelling.{header, bulk, IsPart};
ghost use Rattle.sk_resp.specs.Request.{bulks, IsWord, IsWordWithin, IsWanting};
ghost use Rattle.sk_resp.specs.Reading.{seen, seen_at, IsOpen, IsOpenAt, Took, Fails, given};

use super::number_line::{count_number, line_number, number_front};
use super::state::{Stage, State};
use crate::{Memory, WireFault, Word, Words};
use sk_base::limits::{LONGEST_COMMAND, LONGEST_LENGTH_LINE, LONGEST_WORD, MOST_WORDS};
use std::alloc::Global;
use std::mem;

// Room is made at once for so many words of a command.
const USUAL_WORDS: usize = 8;

// Makes room at the first of so many words.
fn make_room(words: &mut Vec<Word>, count: usize) -> Result<(), Memory>
    ensures { words.new.items ≡ words.old.items }
{
    if words.is_empty() {
        words.reserve(count.min(USUAL_WORDS))?;
    }
    Ok(())
}

impl State {
    // Begins an array of that many words.
    fn open_array(&mut self, alloc: Global, count: usize)
        requires some { 0 < count }
        requires few { count ≤ MOST_WORDS }
        ensures is_open { IsOpen self.new }
        ensures seen { seen self.new ≡ header count }
    {
        self.count = count;
        self.total = 0;
        self.words = Vec::new(alloc);
        self.stage = Stage::Mark;
    }

    /// Takes a byte of the line behind `*`.
    pub fn take_count(&mut self, alloc: Global, byte: u8) -> Result<Option<Words>, WireFault>
        requires { IsOpenAt Stage.Count self.old }
        ensures ok { IfOk result (λ found. Took (seen_at Stage.Count self.old ++ byte ∷ []) (given found) self.new) }
        ensures fault { IfErr result (Fails (seen_at Stage.Count self.old ++ byte ∷ [])) }
    {
        if byte == b'\n' {
            let Some(n) = count_number(&self.line) else {
                return Err(WireFault::MultiLength);
            };
            if n == 0 {
                self.stage = Stage::Start;
                return Ok(None);
            }
            self.open_array(alloc, n);
            return Ok(None);
        }
        if self.line.len() >= LONGEST_LENGTH_LINE {
            return Err(WireFault::MultiLength);
        }
        self.line.push(byte)?;
        self.stage = Stage::Count;
        Ok(None)
    }

    /// Takes the first byte of a bulk string.
    pub fn take_mark(&mut self, byte: u8) -> Result<Option<Words>, WireFault>
        requires { IsOpenAt Stage.Mark self.old }
        ensures ok { IfOk result (λ found. Took (seen_at Stage.Mark self.old ++ byte ∷ []) (given found) self.new) }
        ensures fault { IfErr result (Fails (seen_at Stage.Mark self.old ++ byte ∷ [])) }
    {
        if byte != b'$' {
            return Err(WireFault::NoDollar(byte));
        }
        self.line.clear();
        self.stage = Stage::Length;
        Ok(None)
    }

    /// Takes a byte of the line behind `$`.
    pub fn take_length(&mut self, byte: u8) -> Result<Option<Words>, WireFault>
        requires { IsOpenAt Stage.Length self.old }
        ensures ok { IfOk result (λ found. Took (seen_at Stage.Length self.old ++ byte ∷ []) (given found) self.new) }
        ensures fault { IfErr result (Fails (seen_at Stage.Length self.old ++ byte ∷ [])) }
    {
        if byte == b'\n' {
            let Some(n) = line_number(&self.line) else {
                return Err(WireFault::BulkLength);
            };
            if n > LONGEST_WORD {
                return Err(WireFault::BulkLength);
            }
            if n > LONGEST_COMMAND - self.total {
                return Err(WireFault::Limit);
            }
            self.need = n;
            self.word.clear();
            self.stage = Stage::Body;
            return Ok(None);
        }
        if self.line.len() >= LONGEST_LENGTH_LINE {
            return Err(WireFault::BulkLength);
        }
        self.line.push(byte)?;
        self.stage = Stage::Length;
        Ok(None)
    }

    /// Takes the bytes of a word that are there, or the CR behind it, and answers how many it took.
    pub fn take_body(&mut self, input: &[u8]) -> Result<usize, WireFault>
        requires is_open { IsOpenAt Stage.Body self.old }
        requires some { 0 < length input.now }
        ensures ok { IfOk result (λ n. (0 < n) × (n ≤ length input.now) × Took (seen_at Stage.Body self.old ++ take n input.now) [] self.new) }
        ensures fault { IfErr result (Fails (seen_at Stage.Body self.old ++ take 1 input.now)) }
    {
        let left = self.need - self.word.len();
        if left > 0 {
            let n = left.min(input.len());
            self.word.extend_from_slice(&input[..n])?;
            self.stage = Stage::Body;
            return Ok(n);
        }
        if input[0] != b'\r' {
            return Err(WireFault::BulkLength);
        }
        self.stage = Stage::End;
        Ok(1)
    }

    /// Takes the LF behind a word, and gives the command where that word was its last.
    pub fn take_end(&mut self, alloc: Global, byte: u8) -> Result<Option<Words>, WireFault>
        requires { IsOpenAt Stage.End self.old }
        ensures ok { IfOk result (λ found. Took (seen_at Stage.End self.old ++ byte ∷ []) (given found) self.new) }
        ensures fault { IfErr result (Fails (seen_at Stage.End self.old ++ byte ∷ [])) }
    {
        if byte != b'\n' {
            return Err(WireFault::BulkLength);
        }
        let word = Word::new(mem::replace(&mut self.word, Vec::new(alloc)));
        self.add_word(alloc, word)
    }

    // Adds a whole word, and gives the command where that was its last.
    fn add_word(&mut self, alloc: Global, word: Word) -> Result<Option<Words>, WireFault>
        requires wanting { IsWanting self.old.count self.old.words.items self.old.total }
        requires fits { IsWord word × (self.old.total + Prelude.length word ≤ LONGEST_COMMAND) }
        ensures ok { IfOk result (λ found. Took ((header self.old.count ++ bulks self.old.words.items) ++ bulk word) (given found) self.new) }
        ensures fault { IfErr result (λ e. e ≡ WireFault.Memory) }
    {
        let len = word.bytes().len();
        make_room(&mut self.words, self.count)?;
        self.words.push(word)?;
        self.total += len;
        if self.words.len() < self.count {
            self.stage = Stage::Mark;
            return Ok(None);
        }
        self.stage = Stage::Start;
        Ok(Some(Words::new(mem::replace(&mut self.words, Vec::new(alloc)))))
    }

    /// Takes a whole bulk string where it is there, or else its first byte, and answers how many bytes it took.
    pub fn take_bulk(
        &mut self,
        alloc: Global,
        input: &[u8],
    ) -> Result<(usize, Option<Words>), WireFault>
        requires is_open { IsOpenAt Stage.Mark self.old }
        requires some { 0 < Prelude.length input.now }
        ensures ok { IfOk result (λ r. IsPart r.0 input.now × Took (seen_at Stage.Mark self.old ++ take r.0 input.now) (given r.1) self.new) }
        ensures fault { IfErr result (Fails (seen_at Stage.Mark self.old ++ take 1 input.now)) }
    {
        let front = bulk_front(alloc, LONGEST_COMMAND - self.total, input)?;
        match front {
            Some((taken, word)) => match self.add_word(alloc, word) {
                Ok(found) => Ok((taken, found)),
                Err(fault) => Err(fault),
            },
            None => match self.take_mark(input[0]) {
                Ok(found) => Ok((1, found)),
                Err(fault) => Err(fault),
            },
        }
    }

    /// Takes a whole header where it is there, or else the first byte of an item, and answers how many bytes it took.
    pub fn take_header(
        &mut self,
        alloc: Global,
        input: &[u8],
    ) -> Result<(usize, Option<Words>), WireFault>
        requires some { 0 < Prelude.length input.now }
        ensures ok { IfOk result (λ r. IsPart r.0 input.now × Took (seen_at Stage.Start self.old ++ take r.0 input.now) (given r.1) self.new) }
        ensures fault { IfErr result (Fails (seen_at Stage.Start self.old ++ take 1 input.now)) }
    {
        if let Some((taken, n)) = number_front(b'*', input) {
            if 0 < n && n <= MOST_WORDS {
                self.open_array(alloc, n);
                return Ok((taken, None));
            }
        }
        match self.take_start(alloc, input[0]) {
            Ok(found) => Ok((1, found)),
            Err(fault) => Err(fault),
        }
    }

    /// Takes the first byte of an item.
    pub fn take_start(&mut self, alloc: Global, byte: u8) -> Result<Option<Words>, WireFault>
        ensures ok { IfOk result (λ found. Took (seen_at Stage.Start self.old ++ byte ∷ []) (given found) self.new) }
        ensures fault { IfErr result (Fails (seen_at Stage.Start self.old ++ byte ∷ [])) }
    {
        self.line.clear();
        if byte != b'*' {
            return self.take_inline(alloc, byte);
        }
        self.stage = Stage::Count;
        Ok(None)
    }
}

// A whole bulk string at the front of the input, of no more bytes than that: how many bytes of the input it is, and its word.
fn bulk_front(alloc: Global, most: usize, input: &[u8]) -> Result<Option<(usize, Word)>, Memory>
    ensures { IfOk result (λ found. IfSome found (λ r. IsPart r.0 input.now × IsWordWithin most r.1 × (take r.0 input.now ≡ bulk r.1))) }
{
    let Some((at, n)) = number_front(b'$', input) else {
        return Ok(None);
    };
    if n > LONGEST_WORD || n > most {
        return Ok(None);
    }
    let rest = &input[at..];
    if rest.len() < n + 2 {
        return Ok(None);
    }
    if rest[n] != b'\r' {
        return Ok(None);
    }
    if rest[n + 1] != b'\n' {
        return Ok(None);
    }
    let bytes = Vec::from_slice(alloc, &rest[..n])?;
    Ok(Some((at + n + 2, Word::new(bytes))))
}
