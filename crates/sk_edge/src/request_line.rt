// The request lines of HTTP (RFC 9112, section 3), as a browser writes them.
ghost use Rattle.std.specs.Prelude.{◌≡◌, ◌≤◌, ◌++◌, ◌∷◌, ◌↔◌, [], length, take, IsTrue, MatchOption};
ghost use Rattle.sk_edge.specs.RequestLine.{cr, Bytes, IsBeforeVersion, IsDigit, IsRequest, IsRequestLine, IsVersion, Lacks, StandsFirst};

/// Where a byte stands first, which isn't among so many at the front.
pub(crate) fn find(bytes: &[u8], from: usize, byte: u8) -> Option<usize>
    requires within { from ≤ length bytes.now }
    requires passed { Lacks byte (take from bytes.now) }
    ensures { MatchOption result (Lacks byte bytes.now) (StandsFirst byte bytes.now) }
{
    for at in from..bytes.len() {
        if bytes[at] == byte {
            return Some(at);
        }
    }
    None
}

// The bytes of a version of HTTP and the space before it.
const VERSION: usize = 9;

fn are_digits(major: u8, minor: u8) -> bool
    ensures { IsTrue result ↔ (IsDigit major × IsDigit minor) }
{
    b'0' <= major && major <= b'9' && b'0' <= minor && minor <= b'9'
}

// Whether a text is a space and a version of HTTP.
fn is_version(text: &[u8]) -> bool
    ensures { IsTrue result ↔ IsVersion text.now }
{
    if text.len() != VERSION {
        return false;
    }
    let (major, minor) = (text[6], text[8]);
    if !are_digits(major, minor) {
        return false;
    }
    text == [b' ', b'H', b'T', b'T', b'P', b'/', major, b'.', minor].as_slice()
}

// What stands before a version of HTTP and its space.
fn before_version(text: &[u8]) -> Option<&[u8]>
    ensures { MatchOption result ((front : Bytes) → IsBeforeVersion text.now front → ⊥) (λ front. IsBeforeVersion text.now front.now) }
{
    let at = text.len().checked_sub(VERSION)?;
    if is_version(&text[at..]) {
        Some(&text[..at])
    } else {
        None
    }
}

// Whether a text is a method, a target and a version.
fn is_request_line(text: &[u8]) -> bool
    ensures { IsTrue result ↔ IsRequestLine text.now }
{
    match before_version(text) {
        Some(front) => find(front, 0, b' ').is_some(),
        None => false,
    }
}

// A line without the CR that ends it.
fn without_cr(line: &[u8]) -> Option<&[u8]>
    ensures { MatchOption result ((text : Bytes) → line.now ≡ text ++ cr ∷ [] → ⊥) (λ text. line.now ≡ text.now ++ cr ∷ []) }
{
    match line {
        [text @ .., b'\r'] => Some(text),
        _ => None,
    }
}

/// Whether what stands before an LF is a request line, with or without a CR.
pub(crate) fn is_request(line: &[u8]) -> bool
    ensures { IsTrue result ↔ IsRequest line.now }
{
    match without_cr(line) {
        Some(text) => is_request_line(text) || is_request_line(line),
        None => is_request_line(line),
    }
}
