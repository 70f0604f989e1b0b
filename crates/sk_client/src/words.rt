// The words that a client adds to a request: the key of a queue, and the texts of drafts.
ghost use Rattle.std.specs.Prelude.{◌≡◌, ◌++◌, ◌∷◌, [], IfOk, codes};
ghost use Rattle.std.specs.Option.{option_to_list};
ghost use Rattle.sk_payload.specs.Draft.{draft_text};
ghost use Rattle.sk_client.specs.Drafts.{texts};
ghost use Rattle.sk_client.specs.Making.{Adds};
ghost use Rattle.sk_client.specs.Requests.{callback_word};

use crate::{ClientFault, Memory};
use sk_payload::JobDraft;
use sk_resp::Word;
use std::alloc::Global;

/// The key of a queue.
pub fn queue_key(alloc: Global, queue: &str) -> Result<Vec<u8>, Memory>
    ensures { IfOk result (λ key. key.items ≡ codes "queue:" ++ queue.now) }
{
    let mut key = b"queue:".to_vec(alloc)?;
    key.extend_from_slice(queue.as_bytes())?;
    Ok(key)
}

/// Adds the text of the draft.
pub fn add_draft(alloc: Global, draft: &JobDraft, words: &mut Vec<Word>) -> Result<(), ClientFault>
    ensures { Adds (draft.now ∷ []) (draft_text draft.now ∷ []) words.old.items words.new.items result }
{
    let payload = draft.build(alloc).map_err(ClientFault::Draft)?;
    words.push(payload.text().copy()?)?;
    Ok(())
}

/// Adds the texts of the drafts.
pub fn add_drafts(
    alloc: Global,
    drafts: &[JobDraft],
    words: &mut Vec<Word>,
) -> Result<(), ClientFault>
    ensures { Adds drafts.now (texts drafts.now) words.old.items words.new.items result }
{
    for draft in drafts {
        add_draft(alloc, draft, words)?;
    }
    Ok(())
}

/// Adds the text of a callback, or an empty word.
pub fn add_callback(
    alloc: Global,
    callback: &Option<JobDraft>,
    words: &mut Vec<Word>,
) -> Result<(), ClientFault>
    ensures { Adds (option_to_list callback.now) (callback_word callback.now ∷ []) words.old.items words.new.items result }
{
    match callback {
        Some(draft) => add_draft(alloc, draft, words),
        None => {
            words.push(Word::new(Vec::new(alloc)))?;
            Ok(())
        }
    }
}
