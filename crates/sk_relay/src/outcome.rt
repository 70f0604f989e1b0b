// What a run comes to by what the other program answered.
ghost use Rattle.std.specs.Prelude.{◌≡◌, IfOk, Ok};
ghost use Rattle.sk_relay.specs.Relaying.{bad_reply as unknown_reply, error_of, outcome_by, refused as refused_by, told_error as error_told, unreachable};

use sk_link::{Answer, LinkFault, is_answer};
use sk_resp::{Reply, Text};
use sk_worker::{Memory, Outcome, Raised};
use std::alloc::Global;

/// The class of the error where nobody takes the connection.
const UNREACHABLE: &str = "Unreachable";

/// The class of the error where the request went out, and no whole reply came.
const LOST: &str = "Lost";

/// The class of the error where the reply is none that a relay knows.
const BAD_REPLY: &str = "BadReply";

// The run raised this error.
fn raised(alloc: Global, class: &str, message: &str) -> Result<Outcome, Memory>
    ensures { IfOk result (λ outcome. outcome ≡ error_of class.now message.now) }
{
    Ok(Outcome::Raised(Raised {
        class: Text::new(String::from_str(alloc, class)?),
        message: Text::new(String::from_str(alloc, message)?),
    }))
}

/// Nobody takes the connection.
pub fn unreachable_run(alloc: Global) -> Result<Outcome, Memory>
    ensures { IfOk result (λ outcome. outcome ≡ unreachable) }
{
    raised(alloc, UNREACHABLE, "no program takes connections there")
}

// The reply is none that a relay knows.
fn bad_reply(alloc: Global) -> Result<Outcome, Memory>
    ensures { IfOk result (λ outcome. outcome ≡ unknown_reply) }
{
    raised(
        alloc,
        BAD_REPLY,
        "the reply is neither +OK nor an error in UTF-8",
    )
}

// The error that the text of an error reply tells.
fn told_error(alloc: Global, text: &str) -> Result<Outcome, Memory>
    ensures { IfOk result (λ outcome. outcome ≡ error_told text.now) }
{
    match text.split_once(' ') {
        Some((class, message)) => raised(alloc, class, message),
        None => raised(alloc, text, ""),
    }
}

// The reply isn't `+OK`.
fn refused(alloc: Global, reply: &Reply) -> Result<Outcome, Memory>
    ensures { IfOk result (λ outcome. outcome ≡ refused_by reply.now) }
{
    let Reply::Error(text) = reply else {
        return bad_reply(alloc);
    };
    let Ok(text) = str::from_utf8(text.bytes()) else {
        return bad_reply(alloc);
    };
    told_error(alloc, text)
}

// What the run comes to by this reply.
fn replied(alloc: Global, reply: &Reply) -> Result<Outcome, Memory>
    ensures { IfOk result (λ outcome. outcome ≡ outcome_by (Ok reply.now)) }
{
    if is_answer(Answer::Okay, reply) {
        Ok(Outcome::Returned)
    } else {
        refused(alloc, reply)
    }
}

/// What the run comes to by the reply, or by the fault in its place.
pub fn outcome_of(alloc: Global, came: Result<Reply, LinkFault>) -> Result<Outcome, Memory>
    ensures { IfOk result (λ outcome. outcome ≡ outcome_by came) }
{
    match came {
        Ok(reply) => replied(alloc, &reply),
        Err(LinkFault::Memory) => Err(Memory),
        Err(_) => raised(alloc, LOST, "no reply came, or not in time"),
    }
}
