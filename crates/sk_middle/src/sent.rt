// A push of what a chain makes of a draft.
ghost use Rattle.std.specs.Prelude.{IfOk, IfErr};
ghost use Rattle.sk_middle.specs.Applied.{applied};
ghost use Rattle.sk_middle.specs.Sending.{Sends, SendFails};

use crate::chain::{ClientChain, Through};
use sk_client::{ClientFault, push};
use sk_link::Link;
use sk_payload::JobDraft;
use std::alloc::Global;

/// What came of a push through a chain.
#[derive(Clone, Copy, Drop)]
pub enum Sent {
    /// The draft that the chain gave was pushed.
    Pushed,
    /// The function at this place, from 0, stopped the draft. Nothing was sent.
    Stopped(usize),
}

/// Hands the draft to the chain, and pushes what that gives at the left end of its queue (`LPUSH`): a draft of the same job. A draft that the chain stops
/// isn't pushed, and nothing is sent for it.
pub fn push_through<L: Link>(
    alloc: Global,
    link: &mut L,
    chain: &ClientChain,
    draft: JobDraft,
) -> Result<Sent, ClientFault>
    ensures ok { IfOk result (Sends (applied chain.now draft) (L.carried link.old link.new) link.old link.new draft) }
    ensures err { IfErr result (SendFails (applied chain.now draft) (L.carried link.old link.new) draft) }
{
    match chain.apply(draft) {
        Through::Push(draft) => {
            push(alloc, link, &draft)?;
            Ok(Sent::Pushed)
        }
        Through::Stopped(place) => Ok(Sent::Stopped(place)),
    }
}
