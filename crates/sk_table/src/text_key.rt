// A key that is found by its bytes.
ghost use Rattle.std.specs.Prelude.{◌≡◌, List, ℕ};

use sk_resp::Word;

/// A key that is found by its bytes: two keys of the same bytes are one.
pub trait TextKey {
    ghost text: { Self → List ℕ };

    fn bytes(&self) -> &[u8]
        ensures { result.now ≡ text self.now };
}

impl TextKey for Word {
    ghost text = { λ word. word };

    fn bytes(&self) -> &[u8] {
        Word::bytes(self)
    }
}
