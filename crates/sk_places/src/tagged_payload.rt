// A payload as queues and private lists keep it: beside it stands a tag of its text, so that a search reads the texts with the wanted tag alone.
ghost use Rattle.std.specs.Prelude.{◌≡◌};
ghost use Rattle.sk_places.specs.Tags.{number_at_end, tag_of};

use sk_payload::JobText;
use std::marker::Model;

// How many bytes at the end of an id or a text make its tag.
const TAG_BYTES: usize = 8;

/// A payload with the tag of its text. Contracts see it as its text.
#[derive(Drop)]
pub struct TaggedPayload {
    tag: u64,
    payload: JobText,
}

impl Model for TaggedPayload {
    ghost use Rattle.std.specs.Prelude.{◌≡◌, List, ℕ};
    ghost use Rattle.sk_places.specs.Tags.{tag_of};

    ghost Value = { List ℕ };

    ghost view = { λ t. t.payload };

    ghost invariant = { λ t. t.tag ≡ tag_of t.payload };
}

// The last eight bytes as a number; of fewer bytes, how many they are.
fn number_at_end(bytes: &[u8]) -> u64
    ensures { result ≡ number_at_end bytes.now }
{
    if bytes.len() < TAG_BYTES {
        return bytes.len() as u64;
    }
    let (_, end) = bytes.split_at(bytes.len() - TAG_BYTES);
    let mut last = [0; TAG_BYTES];
    last.copy_from_slice(end);
    u64::from_be_bytes(last)
}

/// The tag of a payload's text. Takes constant time.
pub fn tag_of(payload: &JobText) -> u64
    ensures { result ≡ tag_of payload.now }
{
    match payload.jid() {
        Some(jid) => number_at_end(jid),
        None => number_at_end(payload.text().bytes()),
    }
}

impl TaggedPayload {
    /// Takes no memory.
    pub fn of(payload: JobText) -> TaggedPayload
        ensures { result ≡ payload }
    {
        TaggedPayload {
            tag: tag_of(&payload),
            payload,
        }
    }

    pub fn tag(&self) -> u64
        ensures { result ≡ tag_of self.now }
    {
        self.tag
    }

    pub fn payload(&self) -> &JobText
        ensures { result.now ≡ self.now }
    {
        &self.payload
    }

    pub fn into_payload(self) -> JobText
        ensures { result ≡ self }
    {
        self.payload
    }
}
