// One request to a sink.
ghost use Rattle.std.specs.Prelude.{◌≡◌, ◌≤◌, Err, IfOk, IfErr, OnOk, OnErr};
ghost use Rattle.sk_base.specs.Outside.{Takes, TakesFront};
ghost use Rattle.sk_resp.specs.Request.{array};
ghost use Rattle.sk_link.specs.Fault.{IsIoCause};

use crate::{LinkFault, Memory};
use sk_base::{Failed, Sink, write_all};
use sk_resp::{Words, write_request};
use std::alloc::Global;

// The request's text.
fn request_text(alloc: Global, words: &Words) -> Result<Vec<u8>, Memory>
    ensures { IfOk result (λ text. text.items ≡ array words.now) }
{
    let mut text = Vec::new(alloc);
    write_request(alloc, words, &mut text)?;
    Ok(text)
}

/// Writes a request, whole. At a fault the sink has taken some of it, from its front; and none of it where there was no memory for its text.
pub fn send<K: Sink>(alloc: Global, sink: &mut K, words: &Words) -> Result<(), LinkFault>
    ensures ok { OnOk result (Takes (K.taken sink.old) (array words.now) (K.taken sink.new)) }
    ensures err { OnErr result (TakesFront (K.taken sink.old) (array words.now) (K.taken sink.new)) }
    ensures memory { result ≡ Err LinkFault.Memory → K.taken sink.new ≡ K.taken sink.old }
    ensures beside { K.beside_write sink.new ≡ K.beside_write sink.old }
    ensures whole { OnOk result (K.write_faults sink.new ≡ K.write_faults sink.old) }
    ensures later { K.write_faults sink.old ≤ K.write_faults sink.new }
    ensures cause { IfErr result (IsIoCause (K.write_faults sink.old) (K.write_faults sink.new)) }
{
    let text = match request_text(alloc, words) {
        Ok(text) => text,
        Err(_) => return Err(LinkFault::Memory),
    };
    match write_all(sink, &text) {
        Ok(()) => Ok(()),
        Err(Failed) => Err(LinkFault::Failed),
    }
}
