// One request and what its reply says.
ghost use Rattle.std.specs.Prelude.{◌≡◌, ◌≢◌, ◌≤◌, Ok, IfOk, IfErr, OnOk, false};
ghost use Rattle.std.specs.Str.{IsUtf8};
ghost use Rattle.sk_client.specs.Push.{Push, Accepted, AcceptedBy, Fails};
ghost use Rattle.sk_client.specs.Making.{Makes, IsOfNoDraft};

use crate::ClientFault;
use sk_link::{Answer, AskFault, Link, ask};
use sk_resp::{Reply, Text, Word, Words};
use std::alloc::Global;

// The job that a bulk string names.
fn held(jid: Word) -> ClientFault
    requires { IsUtf8 jid }
    ensures { result ≡ ClientFault.Held jid }
{
    match String::from_utf8(jid.into_bytes()) {
        Ok(text) => ClientFault::Held(Text::new(text)),
        Err(_) => unreachable!(),
    }
}

/// Sends the request, and answers the reply where it accepts it.
pub fn request<L: Link>(
    alloc: Global,
    link: &mut L,
    words: &Words,
    wanted: Answer,
) -> Result<Reply, ClientFault>
    requires { wanted ≢ Answer.Popped }
    ensures ok { (push : Push) → Makes push (Ok words.now) → push.wanted ≡ wanted → IfOk result (AcceptedBy (L.carried link.old link.new) push) }
    ensures err { (push : Push) → Makes push (Ok words.now) → push.wanted ≡ wanted → IfErr result (Fails (L.carried link.old link.new) push) }
    ensures drafts { IfErr result IsOfNoDraft }
{
    match ask(alloc, link, words, wanted) {
        Ok(Reply::Bulk(jid)) => Err(held(jid)),
        Ok(reply) => Ok(reply),
        Err(AskFault::Refused(reply)) => Err(ClientFault::Refused(reply)),
        Err(AskFault::Link(fault)) => Err(ClientFault::Link(fault)),
    }
}

/// Sends the request.
pub fn send<L: Link>(
    alloc: Global,
    link: &mut L,
    words: &Words,
    wanted: Answer,
) -> Result<(), ClientFault>
    requires { wanted ≢ Answer.Popped }
    ensures ok { (push : Push) → Makes push (Ok words.now) → push.wanted ≡ wanted → OnOk result (Accepted (L.carried link.old link.new) push) }
    ensures err { (push : Push) → Makes push (Ok words.now) → push.wanted ≡ wanted → IfErr result (Fails (L.carried link.old link.new) push) }
    ensures drafts { IfErr result IsOfNoDraft }
{
    match request(alloc, link, words, wanted) {
        Ok(_) => Ok(()),
        Err(fault) => Err(fault),
    }
}
