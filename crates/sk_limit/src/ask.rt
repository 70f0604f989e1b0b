// One request of a limiter, and what a limiter takes.
ghost use Rattle.std.specs.Prelude.{◌≡◌};
ghost use Rattle.sk_base.specs.Name.{is_name as name_test};
ghost use Rattle.sk_limit.specs.Limiter.{is_limiter as limiter_test};
ghost use Rattle.sk_limit.specs.Asking.{Comes, number_in};

use crate::LimitFault;
use crate::limits::{LONGEST_HOLD, LONGEST_LIMITER, MOST_SLOTS};
use sk_base::is_name;
use sk_link::{Answer, AskFault, Link, ask};
use sk_resp::{Reply, Words};
use std::alloc::Global;

/// The text is a name of at most so many bytes.
pub(crate) fn is_name_within(text: &str, most: usize) -> bool
    ensures { result ≡ name_test most text.now }
{
    is_name(text.as_bytes(), most)
}

/// The name, the number and the milliseconds are those of a limiter.
pub(crate) fn is_limiter(name: &str, most: u32, millis: u64) -> bool
    ensures { result ≡ limiter_test name.now most millis }
{
    is_name_within(name, LONGEST_LIMITER)
        && (1 <= most && most <= MOST_SLOTS)
        && (1 <= millis && millis <= LONGEST_HOLD)
}

/// The number that a reply is, or 0.
pub(crate) fn number_of(reply: &Reply) -> i64
    ensures { result ≡ number_in reply.now }
{
    match reply {
        Reply::Int(n) => *n,
        _ => 0,
    }
}

/// Sends the request, and answers the reply where it is of the kind wanted.
pub(crate) fn request<L: Link>(
    alloc: Global,
    link: &mut L,
    words: &Words,
    wanted: Answer,
) -> Result<Reply, LimitFault>
    ensures { Comes (L.carried link.old link.new) words.now wanted result }
{
    match ask(alloc, link, words, wanted) {
        Ok(reply) => Ok(reply),
        Err(AskFault::Link(fault)) => Err(LimitFault::Link(fault)),
        Err(AskFault::Refused(reply)) => Err(LimitFault::Refused(reply)),
    }
}
