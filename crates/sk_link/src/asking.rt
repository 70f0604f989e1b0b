// A request that wants an answer of a kind. A readable reply of another kind is a refusal, as an error reply is.
ghost use Rattle.std.specs.Prelude.{◌≡◌, true, Err};
ghost use Rattle.sk_link.specs.Asking.{Asked, answers, is_okay as okay_reply, is_okay_or_null as okay_or_null};
ghost use Rattle.sk_base.specs.Name.{is_name as name_test};

use crate::{Link, LinkFault, Report};
use sk_base::is_name;
use sk_base::limits::LONGEST_ID;
use sk_resp::{Reply, Say, Words};
use std::alloc::Global;

/// What a request wants as its answer.
#[derive(Clone, Copy)]
pub enum Answer {
    /// `+OK`
    Okay,
    /// `+OK` or null, as SET with NX is answered.
    OkayOrNull,
    /// An integer.
    Number,
    /// An array.
    List,
    /// A bulk string or null.
    Popped,
    /// `+OK`, or a bulk string that is a name of at most 64 bytes.
    Unique,
    /// A [`Report`].
    Report,
}

/// Why a request has no answer.
#[derive(Drop)]
pub enum AskFault {
    /// The link had a fault.
    Link(LinkFault),
    /// The reply is an error, or of another kind than the request wants.
    Refused(Reply),
}

fn is_okay(reply: &Reply) -> bool
    ensures { result ≡ okay_reply reply.now }
{
    match reply {
        Reply::Say(Say::Ok) => true,
        Reply::Simple(text) => text.bytes() == b"OK".as_slice(),
        _ => false,
    }
}

fn is_okay_or_null(reply: &Reply) -> bool
    ensures { result ≡ okay_or_null reply.now }
{
    matches!(reply, Reply::Null) || is_okay(reply)
}

// A name of at most 64 bytes, as a jid is.
fn is_jid(bytes: &[u8]) -> bool
    ensures { result ≡ name_test LONGEST_ID bytes.now }
{
    is_name(bytes, LONGEST_ID)
}

/// The reply is of this kind.
pub fn is_answer(wanted: Answer, reply: &Reply) -> bool
    ensures { result ≡ answers wanted reply.now }
{
    match wanted {
        Answer::Okay => is_okay(reply),
        Answer::OkayOrNull => is_okay_or_null(reply),
        Answer::Number => matches!(reply, Reply::Int(_)),
        Answer::List => matches!(reply, Reply::Array(_)),
        Answer::Popped => matches!(reply, Reply::Null | Reply::Bulk(_)),
        Answer::Unique => match reply {
            Reply::Bulk(bytes) => is_jid(bytes.bytes()),
            _ => is_okay(reply),
        },
        Answer::Report => Report::read(reply).is_some(),
    }
}

/// Sends the request, and answers the reply where it is of the kind wanted.
pub fn ask<L: Link>(
    alloc: Global,
    link: &mut L,
    words: &Words,
    wanted: Answer,
) -> Result<Reply, AskFault>
    ensures asked { Asked (λ calls. L.carried link.old link.new calls) words.now wanted result }
    ensures ended { L.has_ended link.old ≡ true → result ≡ Err (AskFault.Link LinkFault.Ended) }
{
    match link.call(alloc, words) {
        Ok(reply) => {
            if is_answer(wanted, &reply) {
                Ok(reply)
            } else {
                Err(AskFault::Refused(reply))
            }
        }
        Err(fault) => Err(AskFault::Link(fault)),
    }
}
