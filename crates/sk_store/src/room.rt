// How many bytes texts have. Nothing here takes memory.
ghost use Rattle.std.specs.Prelude.{◌≡◌, ◌<◌, ◌+◌, map, nat_lt};
ghost use Rattle.sk_model.specs.Room.{bytes_of};

use sk_base::Score;
use sk_resp::Word;

/// How many bytes the texts have together.
#[tactic(auto, using(crate::proofs::Bytes::one_more))]
pub fn bytes_of(texts: &[Word]) -> u128
    ensures { result ≡ bytes_of texts.now }
{
    let mut bytes = 0;
    for text in texts {
        bytes += text.bytes().len() as u128;
    }
    bytes
}

/// The same of texts with scores.
#[tactic(auto, using(crate::proofs::Bytes::one_more))]
pub fn bytes_scored(pairs: &[(Score, Word)]) -> u128
    ensures { result ≡ bytes_of (map (λ pair. pair.1) pairs.now) }
{
    let mut bytes = 0;
    for pair in pairs {
        bytes += pair.1.bytes().len() as u128;
    }
    bytes
}

/// With so many bytes more than there are there would be more than these.
pub fn have_no_bytes(most: u64, there: u128, bytes: u128) -> bool
    ensures { result ≡ nat_lt most (there + bytes) }
{
    let most = most as u128;
    there > most || bytes > most - there
}
