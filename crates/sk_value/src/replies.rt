// Replies that several kinds of commands give.
ghost use Rattle.std.specs.Prelude.{◌≡◌, ◌<◌, ◌^◌, IfOk};
ghost use Rattle.sk_value.specs.Answer.{counted, one_if, texts};

use sk_resp::{Memory, Refusal, Replies, Reply, Say, Word};
use std::alloc::Global;

/// A count, as an integer.
pub fn counted(n: usize) -> Reply
    requires { n < 2 ^ 63 }
    ensures { result ≡ counted n }
{
    Reply::Int(n as i64)
}

/// 1 or 0
pub fn one_if(b: bool) -> Reply
    ensures { result ≡ one_if b }
{
    Reply::Int(i64::from(b))
}

/// Texts as a reply.
pub fn as_reply(alloc: Global, list: Vec<Word>) -> Result<Reply, Memory>
    ensures { IfOk result (λ reply. reply ≡ texts list.items) }
{
    let mut replies = Vec::with_capacity(alloc, list.len())?;
    for text in list {
        replies.push(Reply::Bulk(text))?;
    }
    Ok(Reply::Array(Replies::new(replies)))
}

/// A refusal as a reply.
pub fn refused(refusal: Refusal) -> Reply
    ensures { result ≡ Reply.Say (Say.Refused refusal) }
{
    Reply::Say(Say::Refused(refusal))
}
