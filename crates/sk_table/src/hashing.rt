// The hash of a text, and its address among the buckets.
ghost use Rattle.std.specs.Prelude.{◌≡◌, ◌≤◌};
ghost use Rattle.sk_table.specs.Hashing.{address, hash_of, most_half};

use std::hash::{FoldHasher, Hasher};

/// The greatest number of buckets is twice this.
pub const MOST_HALF: u32 = 1 << 30;

/// The hash of a text. Its seed is fixed, so whoever picks the texts can make them collide.
#[tactic(auto, unfolding(crate::specs::Hashing::hash_of))]
pub fn hash_of(text: &[u8]) -> u32
    ensures { result ≡ hash_of text.now }
{
    let mut hasher = FoldHasher::default();
    hasher.write(text);
    (hasher.finish() >> 32) as u32
}

/// The address of a hash among so many buckets, at least `half` of them and at most twice as many.
#[tactic(auto, unfolding(crate::specs::Hashing::address))]
pub fn address_of(half: u32, count: usize, hash: u32) -> usize
    requires low { half ≤ count }
    requires small { half ≤ most_half }
    ensures { result ≡ address half count hash }
{
    if half == 0 {
        return 0;
    }
    let at = (hash % (half + half)) as usize;
    if at < count { at } else { at - half as usize }
}
