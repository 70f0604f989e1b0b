// The words of the requests.
ghost use Rattle.std.specs.Prelude.{◌≡◌, ◌++◌, IfOk, codes};
ghost use Rattle.sk_iter.specs.Request.{get_words, key_of, set_words};

use crate::Memory;
use sk_link::words_of;
use sk_resp::Words;
use std::alloc::Global;

// The key of a job's cursor.
fn key_of(alloc: Global, jid: &str) -> Result<Vec<u8>, Memory>
    ensures { IfOk result (λ key. key.items ≡ key_of jid.now) }
{
    let mut key = b"it:".to_vec(alloc)?;
    key.extend_from_slice(jid.as_bytes())?;
    Ok(key)
}

/// `GET it:jid`
pub(crate) fn get_request(alloc: Global, jid: &str) -> Result<Words, Memory>
    ensures { IfOk result (λ words. words ≡ get_words jid.now) }
{
    let key = key_of(alloc, jid)?;
    Ok(Words::new(words_of(alloc, &[b"GET", &key])?))
}

/// `SET it:jid next`
pub(crate) fn set_request(alloc: Global, jid: &str, next: u64) -> Result<Words, Memory>
    ensures { IfOk result (λ words. words ≡ set_words jid.now next) }
{
    let key = key_of(alloc, jid)?;
    let next = next.to_string(alloc)?;
    Ok(Words::new(words_of(alloc, &[b"SET", &key, next.as_bytes()])?))
}
