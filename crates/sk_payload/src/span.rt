// Where a part of a text stands in it.
ghost use Rattle.std.specs.Prelude.{◌≡◌, IfSome};
ghost use Rattle.sk_payload.specs.Span.{IsWithin, Stands, part};

/// Where a part of a text of less than 64 KiB stands: from which byte on, and before which one it ends.
#[derive(Clone, Copy, Debug, Drop)]
pub struct Span {
    pub start: u16,
    pub end: u16,
}

// A place in a text as 16 bits, where it fits.
fn place(at: usize) -> Option<u16>
    ensures { IfSome result (λ n. n ≡ at) }
{
    if at <= u16::MAX as usize {
        Some(at as u16)
    } else {
        None
    }
}

/// The span of a part that ends there. None where another part does, or where the text is too long for a span.
pub fn span_to(text: &[u8], part: &[u8], end: usize) -> Option<Span>
    ensures { IfSome result (λ span. Stands span text.now part.now) }
{
    if end > text.len() || part.len() > end {
        return None;
    }
    let start = end - part.len();
    if &text[start..end] != part {
        return None;
    }
    Some(Span {
        start: place(start)?,
        end: place(end)?,
    })
}

/// The part of the text at a span of it. Takes constant time.
pub fn part_at(text: &[u8], span: Span) -> &[u8]
    requires { IsWithin span text.now }
    ensures { result.now ≡ part span text.now }
{
    &text[span.start as usize..span.end as usize]
}
