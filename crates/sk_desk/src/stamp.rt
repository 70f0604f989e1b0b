// Who sends a command, and when, and what it may do to the store: what a book is told of it beside its words.
ghost use Rattle.std.specs.Prelude.{◌≡◌, map};
ghost use Rattle.sk_resp.specs.Reply.{wire};
ghost use Rattle.sk_desk.specs.Writing.{counts_zero, effect_of, idles_at, is_null, is_zero, reports_zero};

use sk_cmd::{Command, PlainCommand, ScriptCommand};
use sk_resp::Reply;

/// Whether a command may change the store, but for its time.
#[derive(Clone, Copy)]
pub enum Effect {
    /// It never does.
    Never,
    /// It doesn't where it is answered null or with an error.
    UnlessNull,
    /// It doesn't where it reports that it moved 0 rows and buried 0, or is answered with an error.
    UnlessZero,
    /// It doesn't where it is answered with an error.
    Always,
}

/// The seat that sends a command, the moment at which it does, and the one at which the command acts: both in milliseconds since 1970.
#[derive(Clone, Copy)]
pub struct Stamp {
    pub seat: u32,
    pub sent_at: u64,
    pub acts_at: u64,
    pub effect: Effect,
}

// Whether the reply is null.
fn is_null(reply: &Reply) -> bool
    ensures { result ≡ is_null reply.now }
{
    matches!(reply, Reply::Null)
}

// Whether the reply is the integer 0.
fn is_zero(reply: &Reply) -> bool
    ensures { result ≡ is_zero reply.now }
{
    matches!(reply, Reply::Int(0))
}

// Whether a report of these elements counts no row as moved and none as buried.
fn counts_zero(elements: &[Reply]) -> bool
    ensures { result ≡ counts_zero (map wire elements.now) }
{
    let [moved, buried, ..] = elements else {
        return false;
    };
    is_zero(moved) && is_zero(buried)
}

// Whether the reply is a report of no row.
fn reports_zero(reply: &Reply) -> bool
    ensures { result ≡ reports_zero reply.now }
{
    match reply {
        Reply::Array(elements) => counts_zero(elements.list()),
        _ => false,
    }
}

impl Effect {
    /// What the command may do. SHUTDOWN and commands that only read never change the store. LMOVE doesn't where it finds nothing to move, nor SK.DUE
    /// where no job is due, nor SK.RESCUE where none was left.
    pub fn of(command: &Command) -> Effect
        ensures { result ≡ effect_of command.now }
    {
        if command.is_quiet() {
            return Effect::Never;
        }
        match command {
            Command::Plain(PlainCommand::Lmove(..)) => Effect::UnlessNull,
            Command::Script(ScriptCommand::Due(..) | ScriptCommand::Rescue) => Effect::UnlessZero,
            _ => Effect::Always,
        }
    }

    /// Whether a command of this kind that was answered so has left the store as it was, but for its time.
    pub fn idles_at(self, reply: &Reply) -> bool
        ensures { result ≡ idles_at self reply.now }
    {
        match self {
            Effect::Never => true,
            Effect::UnlessNull => reply.is_error() || is_null(reply),
            Effect::UnlessZero => reply.is_error() || reports_zero(reply),
            Effect::Always => reply.is_error(),
        }
    }
}
