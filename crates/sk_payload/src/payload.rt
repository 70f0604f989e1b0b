// A job's text, kept with its head.
ghost use Rattle.std.specs.Prelude.{◌≡◌, ◌↔◌, ◌<◌, ◌≤◌, Some, None, Err, true, IfOk, IfSome, IsSomeAnd, option_map};
ghost use Rattle.sk_payload.specs.Failed.{failed as failed_in, next_head};
ghost use Rattle.sk_payload.specs.Follows.{follows as texts_follow};
ghost use Rattle.sk_payload.specs.Head.{jid_of, head as head_of};
ghost use Rattle.sk_payload.specs.declared.edit_fault.EditFault.TheVariants.{NoHead as no_head, GenLimit as gen_limit};

use crate::Memory;
use crate::edit_fault::EditFault;
use crate::failure::set_failure;
use crate::head::Head;
use crate::read::{read_head, read_members};
use serde_json::Value;
use sk_base::limits::LAST_GENERATION;
use sk_resp::{Text, Word};
use std::alloc::Global;
use std::marker::Model;
use std::sync::Arc;

// A job's text and its head, where it has one.
#[derive(Drop)]
struct Parsed {
    text: Word,
    head: Option<Head>,
}

/// The text of a job, with its head, where it has one. Contracts see it as its text. Copies share both, and the last one frees them.
#[derive(Drop)]
pub struct Payload {
    parsed: Arc<Parsed>,
}

impl Model for Payload {
    ghost use Rattle.std.specs.Prelude.{◌≡◌, List, ℕ};
    ghost use Rattle.sk_payload.specs.Head.{head as head_of};

    ghost Value = { List ℕ };

    ghost view = { λ p. p.parsed.value.text };

    ghost invariant = { λ p. p.parsed.value.head ≡ head_of p.parsed.value.text };
}

impl Payload {
    /// Any bytes are a payload. The text is parsed here, once.
    pub fn of(alloc: Global, text: Word) -> Result<Payload, Memory>
        ensures { IfOk result (λ payload. payload ≡ text) }
    {
        let head = read_head(alloc, text.bytes())?;
        Payload::keep(alloc, text, head)
    }

    // A text with its head.
    fn keep(alloc: Global, text: Word, head: Option<Head>) -> Result<Payload, Memory>
        requires { head ≡ head_of text }
        ensures { IfOk result (λ payload. payload ≡ text) }
    {
        let parsed = Arc::new(alloc, Parsed { text, head })?;
        Ok(Payload { parsed })
    }

    pub fn text(&self) -> &Word
        ensures { result.now ≡ self.now }
    {
        &self.parsed.text
    }

    /// What the text says of its job (Sidekiq's wiki, "Job Format"). It has no head, and stands as bytes, where it
    ///
    /// - isn't UTF-8 (RFC 8259, section 8.1), isn't JSON (section 2), or nests more than 127 arrays and objects in one another (section 9),
    /// - isn't an object (section 4),
    /// - holds a number that is neither an i64 nor a u64 (section 6), as a fraction, an exponent or `-0`,
    /// - has more than 1,000,000 bytes when it is written without whitespace and without `retry_count`, `failed_at`, `retried_at`,
    ///   `error_class` and `error_message`, or
    /// - lacks `jid`, `class`, `queue` or `args`, or holds another value in a member than [`Head`] says.
    ///
    /// Of members with one name only the last counts. Other members are free.
    pub fn head(&self) -> Option<&Head>
        ensures value { option_map (λ head. head.now) result ≡ head_of self.now }
        ensures generation { IfSome result (λ head. head.now.gen_ ≤ LAST_GENERATION) }
    {
        self.parsed.head.as_ref()
    }

    /// The id of its job, where it has a head.
    pub fn jid(&self) -> Option<&Text>
        ensures { option_map (λ jid. jid.now) result ≡ jid_of self.now }
    {
        match self.head() {
            Some(head) => Some(&head.jid),
            None => None,
        }
    }

    /// An equal payload. It shares the text and the head, so that it takes no memory; there is none where 2^63 - 1 copies stand.
    pub fn copy(&self) -> Result<Payload, Memory>
        ensures { IfOk result (λ payload. payload ≡ self.now) }
    {
        let parsed = Arc::try_clone(&self.parsed)?;
        Ok(Payload { parsed })
    }

    /// The payload after one more failed run, at the moment `now`, of an error of this class with this message (Sidekiq's wiki, "Job Format" and
    /// "Error Handling").
    ///
    /// It is the same object, written without whitespace, with `retry_count` set to the old generation, `failed_at` to `now` at the first failure and
    /// `retried_at` at a later one, `error_class` to the first 255 characters of the class and `error_message` to the first 1,000 characters of the
    /// message. `now` is in milliseconds since 1970, and counts as the last one of the year 9998 where it is greater.
    ///
    /// Its head is that of the old one, with one more generation, and with `first_failed` of `now` at the first failure of a job that is retried
    /// for a time.
    pub fn failed(
        &self,
        alloc: Global,
        now: u64,
        class: &str,
        message: &str,
    ) -> Result<Payload, EditFault>
        ensures text { IfOk result (λ next. failed_in self.now now class.now message.now ≡ Some next) }
        ensures head { IfOk result (λ next. head_of next ≡ option_map (next_head now) (head_of self.now)) }
        ensures follows { IfOk result (λ next. texts_follow self.now next ≡ true) }
        ensures no_head { (result ≡ Err no_head) ↔ (head_of self.now ≡ None) }
        ensures limit { (result ≡ Err gen_limit)
            ↔ IsSomeAnd (head_of self.now) (λ h. h.gen_ ≡ LAST_GENERATION) }
    {
        let Some(head) = &self.parsed.head else {
            return Err(EditFault::NoHead);
        };
        if head.gen_ >= LAST_GENERATION {
            return Err(EditFault::GenLimit);
        }
        let text = failed_text(
            alloc,
            self.parsed.text.bytes(),
            head.gen_,
            now,
            class,
            message,
        )?;
        let head = head.next(now)?;
        Ok(Payload::keep(alloc, text, Some(head))?)
    }
}

// The text after a failure of a text with a head of this generation.
fn failed_text(
    alloc: Global,
    text: &[u8],
    generation: u32,
    now: u64,
    class: &str,
    message: &str,
) -> Result<Word, Memory>
    requires { IsSomeAnd (head_of text.now)
        (λ h. (h.gen_ ≡ generation) × (generation < LAST_GENERATION)) }
    ensures text { IfOk result (λ next. failed_in text.now now class.now message.now ≡ Some next) }
    ensures head { IfOk result (λ next. head_of next ≡ option_map (next_head now) (head_of text.now)) }
{
    let mut map = read_members(alloc, text)?;
    set_failure(alloc, &mut map, generation, now, class, message)?;
    let next = Value::Object(map).to_vec(alloc)?;
    Ok(Word::new(next))
}
