// A job's text as the store keeps it: in two blocks of memory, one of which is the text.
ghost use Rattle.std.specs.Prelude.{◌≡◌, IfOk, IfSome, option_map};
ghost use Rattle.sk_payload.specs.Follows.{follows as texts_follow};
ghost use Rattle.sk_payload.specs.Head.{head as head_of, jid_of};
ghost use Rattle.sk_payload.specs.JobText.{IsKept};

use crate::Memory;
use crate::head::Head;
use crate::job_head::{JobHead, Parts};
use crate::read::read_head;
use crate::spans::{Spans, usual_spans};
use sk_resp::Word;
use std::alloc::Global;
use std::marker::Model;
use std::sync::Arc;

// What is kept of the head of a text.
#[derive(Drop)]
enum KeptHead {
    // It has none.
    Nothing,
    // The text is in its usual form, and the parts of the head stand at these spans of it.
    Spans(Spans),
    // The head of a text in another form.
    Boxed(Box<Head>),
}

// A job's text, with what is kept of its head.
#[derive(Drop)]
struct Kept {
    text: Word,
    head: KeptHead,
}

/// The text of a job. Contracts see it as its text. Copies share it, and the last one frees it.
///
/// It is what [`crate::Payload`] is, for those who keep many texts and seldom read their heads: where the text is written as most clients write it,
/// the parts of the head stand in the text alone.
#[derive(Drop)]
pub struct JobText {
    kept: Arc<Kept>,
}

impl Model for JobText {
    ghost use Rattle.std.specs.Prelude.{List, ℕ};

    ghost Value = { List ℕ };

    ghost use Rattle.sk_payload.specs.JobText.{IsKept};

    ghost view = { λ t. t.kept.value.text };

    ghost invariant = { λ t. IsKept t.kept.value.head t.kept.value.text };
}

// What is to be kept of the head of a text.
fn kept_head(alloc: Global, text: &[u8]) -> Result<KeptHead, Memory>
    ensures { IfOk result (λ kept. IsKept kept text.now) }
{
    if let Some(spans) = usual_spans(text) {
        return Ok(KeptHead::Spans(spans));
    }
    match read_head(alloc, text)? {
        Some(head) => Ok(KeptHead::Boxed(Box::new(alloc, head)?)),
        None => Ok(KeptHead::Nothing),
    }
}

impl JobText {
    /// Any bytes are a text. It is read here, once.
    pub fn of(alloc: Global, text: Word) -> Result<JobText, Memory>
        ensures { IfOk result (λ job. job ≡ text) }
    {
        let head = kept_head(alloc, text.bytes())?;
        let kept = Arc::new(alloc, Kept { text, head })?;
        Ok(JobText { kept })
    }

    pub fn text(&self) -> &Word
        ensures { result.now ≡ self.now }
    {
        &self.kept.text
    }

    /// What the text says of its job, where it has a head, as [`crate::Payload::head`] tells. Takes no memory, and constant time.
    pub fn head(&self) -> Option<JobHead<'_>>
        ensures { result ≡ head_of self.now }
    {
        let text = self.kept.text.bytes();
        match &self.kept.head {
            KeptHead::Nothing => None,
            KeptHead::Spans(spans) => Some(JobHead::new(text, Parts::Spans(spans))),
            KeptHead::Boxed(head) => Some(JobHead::new(text, Parts::Head(head))),
        }
    }

    /// The id of its job, where it has a head.
    pub fn jid(&self) -> Option<&[u8]>
        ensures { option_map (λ jid. jid.now) result ≡ jid_of self.now }
    {
        match self.head() {
            Some(head) => Some(head.jid()),
            None => None,
        }
    }

    /// An equal text. It shares all that is kept, so that it takes no memory; there is none where 2^63 - 1 copies stand.
    pub fn copy(&self) -> Result<JobText, Memory>
        ensures { IfOk result (λ job. job ≡ self.now) }
    {
        let kept = Arc::try_clone(&self.kept)?;
        Ok(JobText { kept })
    }

    /// Whether the other text stands for this job after one more failed run, as [`crate::follows`] tells of payloads. Takes no memory.
    #[tactic(auto, unfolding(crate::specs::Follows::follows))]
    pub fn is_followed_by(&self, next: &JobText) -> bool
        ensures { result ≡ texts_follow self.now next.now }
    {
        let Some(held) = self.head() else {
            return false;
        };
        let Some(next) = next.head() else {
            return false;
        };
        held.is_followed_by(&next)
    }
}
