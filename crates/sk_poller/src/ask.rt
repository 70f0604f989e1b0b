// What the replies to a poller say.
ghost use Rattle.std.specs.Prelude.{◌≡◌};
ghost use Rattle.sk_poller.specs.Passed.{is_passed as passed, lead_of as lead_in};

use sk_resp::{Refusal, Reply, Say};

/// The reply to SK.CRON is no fault.
pub(crate) fn is_passed(reply: &Reply) -> bool
    ensures { result ≡ passed reply.now }
{
    match reply {
        Reply::Say(Say::Refused(Refusal::NotLeader)) => true,
        Reply::Say(Say::Refused(Refusal::SlotDone)) => true,
        Reply::Say(Say::Refused(Refusal::SlotTime)) => true,
        Reply::Error(text) => {
            text.bytes() == b"SK not leader".as_slice()
                || text.bytes() == b"SK slot done".as_slice()
                || text.bytes() == b"SK slot out of time".as_slice()
        }
        _ => false,
    }
}

/// Whether the reply to SK.LEAD says that the process leads, or none where it is no number.
pub(crate) fn lead_of(reply: &Reply) -> Option<bool>
    ensures { result ≡ lead_in reply.now }
{
    match reply {
        Reply::Int(1) => Some(true),
        Reply::Int(_) => Some(false),
        _ => None,
    }
}
