// Why words are no command, and the reply to them.
ghost use Rattle.std.specs.Prelude.{◌≡◌};
ghost use Rattle.sk_cmd.specs.Fault.{fault_say};
ghost use Rattle.sk_resp.specs.declared.reply.Reply.TheVariants as reply;

use sk_resp::{Name, Reply, Say};

/// The first rule that the words of a command break.
#[derive(Clone, Copy)]
pub enum CmdFault {
    /// The first word is no command.
    Unknown,
    /// The command has no form with so many words.
    Arity(Name),
    /// The argument isn't an integer of 64 bits in its one spelling.
    NotInt,
    /// The argument isn't a score.
    NotScore,
    /// The argument isn't a bound of a range of scores.
    BadBound,
    /// The argument isn't one of the words that may stand there, or the words don't come out in pairs.
    Syntax,
    /// There was no memory for the pairs of the command.
    Memory,
}

impl CmdFault {
    /// The text that tells a client of the fault.
    pub fn say(&self) -> Say
        ensures { result ≡ fault_say self.now }
    {
        match self {
            CmdFault::Unknown => Say::Unknown,
            CmdFault::Arity(name) => Say::Arity(*name),
            CmdFault::NotInt => Say::NotInt,
            CmdFault::NotScore => Say::NotScore,
            CmdFault::BadBound => Say::BadBound,
            CmdFault::Syntax => Say::Syntax,
            CmdFault::Memory => Say::Oom,
        }
    }
}

/// The reply to words with that fault. Takes no memory.
pub fn fault_reply(fault: &CmdFault) -> Reply
    ensures { result ≡ reply.Say (fault_say fault.now) }
{
    Reply::Say(fault.say())
}
