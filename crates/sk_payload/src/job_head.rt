// What the store reads of a job's head, without a copy of its parts.
ghost use Rattle.std.specs.Prelude.{◌≡◌, IfOk, Some, bytes_eq, option_map};
ghost use Rattle.std.specs.Option.{option_eq};
ghost use Rattle.std.specs.Str.{IsUtf8};
ghost use Rattle.sk_payload.specs.Digest.{digest as digest_of};
ghost use Rattle.sk_payload.specs.Follows.{head_follows};
ghost use Rattle.sk_payload.specs.Head.{head as head_of};
ghost use Rattle.sk_payload.specs.JobHead.{HasParts};

use crate::Memory;
use crate::after::{is_one_more, is_same_lock};
use crate::head::{Head, Lock};
use crate::lock_digest::digest_of_parts;
use crate::span::part_at;
use crate::spans::{Spans, lock_of};
use sk_resp::Text;
use std::alloc::Global;
use std::marker::Model;

/// Where the parts of a head are found.
#[derive(Clone, Copy, Drop)]
pub enum Parts<'a> {
    /// In the job's text, at these spans.
    Spans(&'a Spans),
    /// In a head of their own.
    Head(&'a Head),
}

/// The head of a job's text, its parts still in the text where that is in its usual form. Contracts see it as that head.
#[derive(Drop)]
pub struct JobHead<'a> {
    text: &'a [u8],
    parts: Parts<'a>,
}

impl<'a> Model for JobHead<'a> {
    ghost use Rattle.sk_payload.specs.declared.head.Head.{Head};

    ghost Value = { Head };

    ghost use Rattle.sk_payload.specs.JobHead.{head_in, HasParts};

    ghost view = { λ h. head_in h.text.now };

    ghost invariant = { λ h. HasParts h.parts h.text.now };
}

// A text of its own, of the same bytes.
fn copied(alloc: Global, bytes: &[u8]) -> Result<Text, Memory>
    requires { IsUtf8 bytes.now }
    ensures { IfOk result (λ text. text ≡ bytes.now) }
{
    Ok(Text::new(String::from_utf8_lossy(alloc, bytes)?))
}

fn is_same_bid(a: Option<&[u8]>, b: Option<&[u8]>) -> bool
    ensures { result ≡ option_eq bytes_eq (option_map (λ x. x.now) a.entry) (option_map (λ x. x.now) b.entry) }
{
    match (a, b) {
        (None, None) => true,
        (Some(a), Some(b)) => a == b,
        (None, Some(_)) | (Some(_), None) => false,
    }
}

impl<'a> JobHead<'a> {
    pub(crate) fn new(text: &'a [u8], parts: Parts<'a>) -> JobHead<'a>
        requires { HasParts parts text.now }
        ensures { head_of text.now ≡ Some result }
    {
        JobHead { text, parts }
    }

    /// The job's id.
    pub fn jid(&self) -> &'a [u8]
        ensures { result.now ≡ self.now.jid }
    {
        match self.parts {
            Parts::Spans(spans) => part_at(self.text, spans.jid),
            Parts::Head(head) => head.jid.text().as_bytes(),
        }
    }

    pub fn class(&self) -> &'a [u8]
        ensures { result.now ≡ self.now.class }
    {
        match self.parts {
            Parts::Spans(spans) => part_at(self.text, spans.class),
            Parts::Head(head) => head.class.text().as_bytes(),
        }
    }

    /// The queue where the job waits.
    pub fn queue(&self) -> &'a [u8]
        ensures { result.now ≡ self.now.queue }
    {
        match self.parts {
            Parts::Spans(spans) => part_at(self.text, spans.queue),
            Parts::Head(head) => head.queue.text().as_bytes(),
        }
    }

    /// The arguments, as a JSON array without whitespace.
    pub fn args(&self) -> &'a [u8]
        ensures { result.now ≡ self.now.args }
    {
        match self.parts {
            Parts::Spans(spans) => part_at(self.text, spans.args),
            Parts::Head(head) => head.args.text().as_bytes(),
        }
    }

    /// The batch of the job.
    pub fn bid(&self) -> Option<&'a [u8]>
        ensures { option_map (λ bid. bid.now) result ≡ self.now.bid }
    {
        match self.parts {
            Parts::Spans(spans) => spans.bid.map(|bid| part_at(self.text, bid)),
            Parts::Head(head) => head.bid.as_ref().map(|bid| bid.text().as_bytes()),
        }
    }

    /// How often a run of the job has failed.
    pub fn generation(&self) -> u32
        ensures { result ≡ self.now.gen_ }
    {
        match self.parts {
            Parts::Spans(spans) => spans.gen_,
            Parts::Head(head) => head.gen_,
        }
    }

    /// The lock of a unique job.
    pub fn lock(&self) -> Option<Lock>
        ensures { result ≡ self.now.lock }
    {
        match self.parts {
            Parts::Spans(spans) => lock_of(spans.seconds),
            Parts::Head(head) => head.lock,
        }
    }

    /// The queue, as a text of its own.
    pub fn queue_text(&self, alloc: Global) -> Result<Text, Memory>
        ensures { IfOk result (λ text. text ≡ self.now.queue) }
    {
        let _ = &self.text;
        copied(alloc, self.queue())
    }

    /// The job's id, as a text of its own.
    pub fn jid_text(&self, alloc: Global) -> Result<Text, Memory>
        ensures { IfOk result (λ text. text ≡ self.now.jid) }
    {
        let _ = &self.text;
        copied(alloc, self.jid())
    }

    /// The digest under which the lock of the job stands, as [`crate::digest`] tells.
    #[tactic(auto, unfolding(crate::specs::Digest::digest))]
    pub fn digest(&self, alloc: Global) -> Result<Text, Memory>
        ensures { IfOk result (λ text. text ≡ digest_of self.now) }
    {
        digest_of_parts(alloc, self.class(), self.queue(), self.args())
    }

    /// Whether the other is this head after one more failed run: all else that the store reads is equal. Takes no memory.
    pub(crate) fn is_followed_by(&self, next: &JobHead<'_>) -> bool
        ensures { result ≡ head_follows self.now next.now }
    {
        self.jid() == next.jid()
            && self.class() == next.class()
            && self.args() == next.args()
            && self.queue() == next.queue()
            && is_same_bid(self.bid(), next.bid())
            && is_same_lock(self.lock(), next.lock())
            && is_one_more(self.generation(), next.generation())
    }
}
