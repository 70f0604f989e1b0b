// Texts cut at a byte.
ghost use Rattle.std.specs.Prelude.{◌≡◌, ◌<◌, IfOk, map};
ghost use Rattle.sk_line.specs.Work.{parts};

use std::alloc::{AllocError, Global};

/// The parts of a text between these characters of ASCII.
pub fn cut<'a>(alloc: Global, text: &'a str, at: char) -> Result<Vec<&'a str>, AllocError>
    requires { at < 128 }
    ensures { IfOk result (λ v. map (λ part. part.now) v.items ≡ parts at text.entry.now) }
{
    text.split(at).collect(alloc)
}
