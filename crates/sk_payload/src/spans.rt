// Where the parts of a head stand in a text in its usual form, so that they need not be copied.
ghost use Rattle.std.specs.Prelude.{◌≡◌, IfSome, option_map};
ghost use Rattle.sk_payload.specs.Head.{head};
ghost use Rattle.sk_payload.specs.Member.{lock_of};
ghost use Rattle.sk_payload.specs.Spans.{AreSpans, HasSpans};
ghost use Rattle.sk_payload.specs.Span.{Stands, StandsIf};
ghost use Rattle.sk_payload.specs.Usual.{head_of_sketch};
ghost use Rattle.sk_payload.specs.declared.head.Until.TheVariants.{Success};

use crate::head::{Lock, Until};
use crate::sketch::{Sketch, sketch_of};
use crate::slots::slots_of;
use crate::span::{Span, span_to};
use std::str;

/// Where the parts of a head stand in its text, and its numbers that aren't text. A lock stands until the job succeeds.
#[derive(Clone, Copy, Debug, Drop)]
pub struct Spans {
    pub jid: Span,
    pub class: Span,
    pub queue: Span,
    pub args: Span,
    pub bid: Option<Span>,
    pub gen_: u32,
    pub seconds: Option<u32>,
}

// The span of a string, behind which stands its last quote.
fn quoted_span(text: &[u8], string: &[u8], end: usize) -> Option<Span>
    ensures { IfSome result (λ span. Stands span text.now string.now) }
{
    span_to(text, string, end.checked_sub(1)?)
}

fn bid_span(text: &[u8], bid: Option<&[u8]>, end: usize) -> Option<Option<Span>>
    ensures { IfSome result (λ span. StandsIf span text.now (option_map (λ b. b.now) bid.entry)) }
{
    match bid {
        None => Some(None),
        Some(bid) => Some(Some(quoted_span(text, bid, end)?)),
    }
}

/// A lock of so many seconds, where there is one, until the job succeeds.
pub fn lock_of(seconds: Option<u32>) -> Option<Lock>
    ensures { result ≡ lock_of seconds Success }
{
    seconds.map(|seconds| Lock {
        seconds,
        until: Until::Success,
    })
}

// The spans of what a sketch shows of the text, whose members end there.
fn spans_in(text: &[u8], ends: &[usize; 13], sketch: &Sketch<'_>) -> Option<Spans>
    ensures { IfSome result (λ spans. AreSpans spans text.now (head_of_sketch sketch.now)) }
{
    let Until::Success = sketch.until else {
        return None;
    };
    Some(Spans {
        jid: quoted_span(text, sketch.jid, ends[0])?,
        class: quoted_span(text, sketch.class, ends[1])?,
        queue: quoted_span(text, sketch.queue, ends[2])?,
        args: span_to(text, sketch.args, ends[3])?,
        bid: bid_span(text, sketch.bid, ends[4])?,
        gen_: sketch.gen_,
        seconds: sketch.seconds,
    })
}

/// The spans of the head of a text in its usual form. Nothing is said of other forms: `None` isn't a fault.
pub fn usual_spans(text: &[u8]) -> Option<Spans>
    ensures { IfSome result (λ spans. HasSpans spans text.now) }
{
    let Ok(_) = str::from_utf8(text) else {
        return None;
    };
    let slots = slots_of(text)?;
    let sketch = sketch_of(&slots.found)?;
    spans_in(text, &slots.ends, &sketch)
}
