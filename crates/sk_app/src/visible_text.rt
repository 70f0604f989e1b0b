// How the text of a server is shown: on one line, and without a character that a terminal obeys.
ghost use Rattle.std.specs.Prelude.{◌≡◌, IfOk};
ghost use Rattle.std.specs.List.{flat_map};
ghost use Rattle.sk_base.specs.Name.{is_visible};
ghost use Rattle.sk_app.specs.Visible.{shown};

use std::alloc::{AllocError, Global};

// Whether a byte is no control character of ASCII.
fn is_visible(byte: u8) -> bool
    ensures { result ≡ is_visible byte }
{
    byte >= b' ' && byte != 127
}

/// The bytes with each control character of ASCII as `\x` and its two digits.
pub fn visible(alloc: Global, bytes: &[u8]) -> Result<Vec<u8>, AllocError>
    ensures { IfOk result (λ text. text.items ≡ flat_map shown bytes.now) }
{
    let mut text = Vec::new(alloc);
    for byte in bytes {
        if is_visible(*byte) {
            text.push(*byte)?;
        } else {
            text.extend_from_slice(b"\\x")?;
            text.extend_from_slice(hex::encode(alloc, &[*byte])?.as_bytes())?;
        }
    }
    Ok(text)
}
