// What is compared of an ask: the words of the request, and the text of the reply.
ghost use Rattle.std.specs.Prelude.{◌≡◌, ◌↔◌, IfOk, option_map, true};
ghost use Rattle.sk_compare.specs.Exchange.{FitsMemory, exchange_of, text_in, text_of};

use crate::Memory;
use sk_desk::Ask;
use sk_resp::{Word, Words, write_request};
use std::alloc::Global;

#[tactic(auto, using(crate::proofs::Same::same_words))]
fn is_same_request(told: &Words, noted: &Words) -> bool
    ensures { result ≡ true ↔ told.now ≡ noted.now }
{
    told.list() == noted.list()
}

#[tactic(auto, using(crate::proofs::Same::same_bytes))]
fn is_same_reply(told: &Option<Word>, noted: &Option<Word>) -> bool
    ensures { result ≡ true ↔ told.now ≡ noted.now }
{
    match (told, noted) {
        (Some(told), Some(noted)) => told.bytes() == noted.bytes(),
        (None, None) => true,
        _ => false,
    }
}

/// Both have the same request and the same reply.
pub(crate) fn is_same(told: &Ask, noted: &Ask) -> bool
    ensures { result ≡ true ↔ exchange_of told.entry.now ≡ exchange_of noted.entry.now }
{
    is_same_request(&told.request, &noted.request) && is_same_reply(&told.reply, &noted.reply)
}

/// The request as clients write it, and the reply behind it.
pub(crate) fn text_of(alloc: Global, ask: &Ask) -> Result<Word, Memory>
    ensures is { IfOk result (λ text. text ≡ text_of (exchange_of ask.entry.now)) }
    ensures fits { IfOk result FitsMemory }
{
    let mut text = Vec::new(alloc);
    write_request(alloc, &ask.request, &mut text)?;
    if let Some(reply) = &ask.reply {
        text.extend_from_slice(reply.bytes())?;
    }
    Ok(Word::new(text))
}

/// The text of this, or an empty one where there is none.
pub(crate) fn text_in(alloc: Global, ask: Option<&Ask>) -> Result<Word, Memory>
    ensures is { IfOk result (λ text. text ≡ text_in (option_map (λ a. exchange_of a.now) ask.entry)) }
    ensures fits { IfOk result FitsMemory }
{
    match ask {
        Some(ask) => text_of(alloc, ask),
        None => Ok(Word::new(Vec::new(alloc))),
    }
}
