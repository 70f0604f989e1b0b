// The ids of new jobs.
ghost use Rattle.std.specs.Prelude.{◌≡◌, ◌<◌, ◌^◌, ◌∷◌, [], ◌++◌, ℕ, take, IfOk};
ghost use Rattle.std.specs.Int.{w64, to_be_bytes};
ghost use Rattle.sk_base.specs.Yields.{YieldsAll};
ghost use Rattle.sk_client.specs.Jid.{jid_of_words};

use crate::Memory;
use sk_base::Dice;
use sk_resp::Text;
use std::alloc::Global;

// The bytes that an id shows.
fn id_bytes(first: u64, second: u64) -> [u8; 12]
    ensures { result ≡ to_be_bytes w64 first ++ take 4 (to_be_bytes w64 second) }
{
    let mut bytes = [0; 12];
    bytes[..8].copy_from_slice(&first.to_be_bytes());
    bytes[8..].copy_from_slice(&second.to_be_bytes()[..4]);
    bytes
}

/// The id of a new job: 24 lower-case hex digits, as Sidekiq's are. It draws two words, whether there is memory or not.
pub fn fresh_jid<D: Dice>(alloc: Global, dice: &mut D) -> Result<Text, Memory>
    ensures { (one two : ℕ) × YieldsAll (D.words dice.old) (one ∷ two ∷ []) (D.words dice.new)
        × IfOk result (λ jid. jid ≡ jid_of_words one two) }
{
    let first = dice.word();
    let second = dice.word();
    let bytes = id_bytes(first, second);
    Ok(Text::new(hex::encode(alloc, bytes.as_slice())?))
}
