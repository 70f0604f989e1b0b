// When a link crashes.
ghost use Rattle.std.specs.Prelude.{◌≡◌, Ok, Err, IfErr, OnOk};
ghost use Rattle.sk_lane.specs.Drawing.{DrawsFor, Passes, at_rest as rest_of, behind_word, first_crashes, is_off as off_in, word_of};

use rand_core::SeedableRng;
use rand_core::utils::NextWord;
use rand_pcg::Lcg64Xsh32;
use sk_link::LinkFault;

/// One word in so many crashes a link.
const RATE: u32 = 16;

/// The crashes that a worker has left, and the words that say when they come.
#[derive(Drop)]
pub struct Crashes {
    pub words: Lcg64Xsh32,
    pub left: u32,
}

/// Where a link's crashes stand.
#[derive(Drop)]
pub struct Drawing {
    pub crashes: Crashes,
    /// A turn is on, so that a word is drawn before each call.
    pub in_turn: bool,
    /// The link crashed.
    pub crashed: bool,
    /// There was no memory for a call or its reply, or the store answered `-OOM`.
    pub starved: bool,
}

impl Crashes {
    /// So many, with the words of this worker. The sum of `seed` and `number` wraps.
    #[tactic(auto, unfolding(crate::specs::Drawing::first_crashes))]
    pub fn new(seed: u64, number: u32, left: u32) -> Crashes
        ensures { result ≡ first_crashes seed number left }
    {
        Crashes {
            words: Lcg64Xsh32::seed_from_u64(seed.wrapping_add(u64::from(number))),
            left,
        }
    }

    // The next word.
    #[tactic(auto, unfolding(crate::specs::Drawing::word_of, crate::specs::Drawing::behind_word))]
    fn draw(&mut self) -> u32
        ensures word { result ≡ word_of self.old.words }
        ensures behind { self.new ≡ record self.old { words = behind_word self.old.words } }
    {
        self.words.next_word()
    }
}

impl Drawing {
    /// No turn is on.
    pub fn at_rest(crashes: Crashes) -> Drawing
        ensures { result ≡ rest_of crashes }
    {
        Drawing {
            crashes,
            in_turn: false,
            crashed: false,
            starved: false,
        }
    }

    /// The link has ended.
    pub(crate) fn is_off(&self) -> bool
        ensures { result ≡ off_in self.now }
    {
        self.crashed || self.starved
    }

    /// Before a call: whether it goes on.
    pub(crate) fn pass(&mut self) -> Result<(), LinkFault>
        ensures ok { OnOk result (Passes self.old self.new) }
        ensures err { IfErr result (λ fault. DrawsFor self.old (Err fault) self.new) }
    {
        if self.is_off() {
            return Err(LinkFault::Ended);
        }
        if !self.in_turn {
            return Ok(());
        }
        if self.crashes.left == 0 {
            return Ok(());
        }
        if self.crashes.draw() % RATE != 0 {
            return Ok(());
        }
        self.crashes.left -= 1;
        self.crashed = true;
        Err(LinkFault::Failed)
    }
}
