// A dice over a generator of pseudo-random words.
ghost use Rattle.std.specs.Prelude.{◌≡◌, None};
ghost use Rattle.rand_pcg.specs.Lcg.{increment_of, started};
ghost use Rattle.rand_pcg.specs.Pcg.{multiplier_64, pcg32_of_seed};
ghost use Rattle.sk_edge.specs.Draw.{draw};

use rand_core::SeedableRng;
use rand_core::utils::NextWord;
use rand_pcg::Lcg64Xsh32;
use sk_base::Dice;
use std::marker::Model;

/// A dice over a PCG generator (O'Neill's XSH RR 64/32). Contracts see the generator. It is not for secrets.
#[derive(Drop)]
pub struct PcgDice {
    generator: Lcg64Xsh32,
}

impl Model for PcgDice {
    ghost use Rattle.rand_pcg.specs.Lcg.{Lcg};

    ghost Value = { Lcg };

    ghost view = { λ d. d.generator };
}

impl PcgDice {
    pub fn new(generator: Lcg64Xsh32) -> PcgDice
        ensures { result ≡ generator }
    {
        PcgDice { generator }
    }

    /// A dice seeded by two words: where the generator starts, and which stream it gives. The highest bit of `stream` is dropped.
    pub fn from_words(state: u64, stream: u64) -> PcgDice
        ensures { result ≡ started 64 multiplier_64 state (increment_of 64 stream) }
    {
        PcgDice::new(Lcg64Xsh32::new(state, stream))
    }

    /// A dice seeded by sixteen bytes, as of a source of chance of the system.
    pub fn from_seed(seed: [u8; 16]) -> PcgDice
        ensures { result ≡ pcg32_of_seed seed }
    {
        PcgDice::new(Lcg64Xsh32::from_seed(seed))
    }

    // The next word: two draws of 32 bits, the first as the high half.
    fn draw(&mut self) -> u64
        ensures { (result, self.new) ≡ draw self.old }
    {
        let high: u32 = self.generator.next_word();
        let low: u32 = self.generator.next_word();
        (high as u64) << 32 | low as u64
    }
}

impl Dice for PcgDice {
    ghost words = { λ _. None };

    /// Two draws of 32 bits, the first as the high half.
    fn word(&mut self) -> u64 {
        self.draw()
    }
}
