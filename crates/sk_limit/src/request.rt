// The words of a limiter's requests.
ghost use Rattle.std.specs.Prelude.{◌≡◌, IfOk, map};
ghost use Rattle.sk_limit.specs.Requests.{bucket_key as key_of_bucket, count_words, expire_words, left_words, set_words, slot_key as key_of_slot};
ghost use Rattle.sk_limit.specs.Hold.{back_words};

use crate::{HeldSlot, Memory};
use sk_link::words_of;
use sk_resp::Words;
use std::alloc::Global;

fn request(alloc: Global, parts: &[&[u8]]) -> Result<Words, Memory>
    ensures { IfOk result (λ words. words ≡ map (λ part. part.now) parts.now) }
{
    Ok(Words::new(words_of(alloc, parts)?))
}

/// The key of a slot, `limit:name:slot`.
pub(crate) fn slot_key(alloc: Global, held: &HeldSlot) -> Result<Vec<u8>, Memory>
    ensures { IfOk result (λ key. key.items ≡ key_of_slot held.now.name held.now.slot) }
{
    let slot = held.slot.to_string(alloc)?;
    let mut key = b"limit:".to_vec(alloc)?;
    key.extend_from_slice(held.name.text().as_bytes())?;
    key.extend_from_slice(b":")?;
    key.extend_from_slice(slot.as_bytes())?;
    Ok(key)
}

/// The key of a window, `bucket:name`.
pub(crate) fn bucket_key(alloc: Global, name: &str) -> Result<Vec<u8>, Memory>
    ensures { IfOk result (λ key. key.items ≡ key_of_bucket name.now) }
{
    let mut key = b"bucket:".to_vec(alloc)?;
    key.extend_from_slice(name.as_bytes())?;
    Ok(key)
}

/// `SET key text NX PX millis`
pub(crate) fn set_request(
    alloc: Global,
    key: &[u8],
    text: &[u8],
    millis: u64,
) -> Result<Words, Memory>
    ensures { IfOk result (λ words. words ≡ set_words key.now text.now millis) }
{
    let millis = millis.to_string(alloc)?;
    request(alloc, &[b"SET", key, text, b"NX", b"PX", millis.as_bytes()])
}

/// `SK.GIVE limit:name:slot token`
pub(crate) fn give_request(alloc: Global, held: &HeldSlot) -> Result<Words, Memory>
    ensures { IfOk result (λ words. words ≡ back_words held.now) }
{
    let key = slot_key(alloc, held)?;
    request(alloc, &[b"SK.GIVE", &key, held.token.text().as_bytes()])
}

/// `INCRBY key 1`
pub(crate) fn count_request(alloc: Global, key: &[u8]) -> Result<Words, Memory>
    ensures { IfOk result (λ words. words ≡ count_words key.now) }
{
    request(alloc, &[b"INCRBY", key, b"1"])
}

/// `PTTL key`
pub(crate) fn left_request(alloc: Global, key: &[u8]) -> Result<Words, Memory>
    ensures { IfOk result (λ words. words ≡ left_words key.now) }
{
    request(alloc, &[b"PTTL", key])
}

/// `PEXPIRE key millis`
pub(crate) fn expire_request(alloc: Global, key: &[u8], millis: u64) -> Result<Words, Memory>
    ensures { IfOk result (λ words. words ≡ expire_words key.now millis) }
{
    let millis = millis.to_string(alloc)?;
    request(alloc, &[b"PEXPIRE", key, millis.as_bytes()])
}
