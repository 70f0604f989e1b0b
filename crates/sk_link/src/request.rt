// The words of a request.
ghost use Rattle.std.specs.Prelude.{◌≡◌, IfOk, map};

use crate::Memory;
use sk_resp::Word;
use std::alloc::Global;

/// The words with these bytes.
pub fn words_of(alloc: Global, parts: &[&[u8]]) -> Result<Vec<Word>, Memory>
    ensures { IfOk result (λ words. words.items ≡ map (λ part. part.now) parts.now) }
{
    let mut words = Vec::new(alloc);
    for part in parts {
        words.push(Word::new(part.to_vec(alloc)?))?;
    }
    Ok(words)
}
