// Names of queues, jobs, batches and processes.
ghost use Rattle.std.specs.Prelude.{◌↔◌, ◌≢◌, ◌<◌, ◌≤◌, All, IsTrue};
ghost use Rattle.std.specs.Str.{IsUtf8};
ghost use Rattle.sk_base.specs.Name.{IsName};

use std::str;

// Each byte is a character of ASCII that can be shown.
fn is_shown_ascii(text: &[u8]) -> bool
    ensures { IsTrue result ↔ All (λ b. (32 ≤ b) × (b < 127)) text.now }
{
    text.iter().all(|b| *b >= 0x20 && *b < 0x7f)
}

// The bytes are UTF-8 text without control characters of ASCII.
fn is_shown(text: &[u8]) -> bool
    ensures { IsTrue result ↔ (IsUtf8 text.now × All (λ b. (32 ≤ b) × (b ≢ 127)) text.now) }
{
    let visible = text.iter().all(|b| *b >= 0x20 && *b != 0x7f);
    let Ok(_) = str::from_utf8(text) else {
        return false;
    };
    visible
}

/// The bytes are a name: UTF-8 text of at least one byte and at most so many, without the characters U+0000 to U+001F and U+007F.
#[tactic(auto, using(crate::proofs::Shown::ascii_is_shown))]
pub fn is_name(text: &[u8], most: usize) -> bool
    ensures { IsTrue result ↔ IsName most text.now }
{
    if text.is_empty() || text.len() > most {
        return false;
    }
    is_shown_ascii(text) || is_shown(text)
}
