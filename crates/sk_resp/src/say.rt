// The replies with a fixed text. They hold no memory.
ghost use Rattle.std.specs.Prelude.{◌≡◌, ◌++◌, OnOk};
ghost use Rattle.sk_resp.specs.Errors.{says_error};
ghost use Rattle.sk_resp.specs.Reply.{say_text, fault_text, shown};

use crate::{Kind, Memory, Name, Refusal, WireFault};

/// One of the fixed texts.
#[derive(Clone, Copy)]
pub enum Say {
    /// `+OK`
    Ok,
    /// `+PONG`
    Pong,
    /// What a key holds: `+none`, `+string`, `+list`, `+set`, `+hash` or `+zset`
    Kind(Kind),
    /// `-ERR unknown command`
    Unknown,
    /// `-ERR wrong number of arguments for 'ping' command`, with the command's name
    Arity(Name),
    /// `-ERR value is not an integer or out of range`
    NotInt,
    /// `-ERR value is not a valid float`
    NotScore,
    /// `-ERR min or max is not a float`
    BadBound,
    /// `-ERR syntax error`
    Syntax,
    /// `-WRONGTYPE Operation against a key holding the wrong kind of value`
    WrongType,
    /// `-ERR increment or decrement would overflow`
    Overflow,
    /// `-ERR invalid expire time`
    BadExpire,
    /// A refusal of the job store's own, as `-SK managed key`
    Refused(Refusal),
    /// `-OOM want of memory`: the command changed nothing.
    Oom,
    /// `-ERR Protocol error: ..`, as the stream's fault says
    Protocol(WireFault),
}

impl Say {
    /// The text is an error's: it begins with `-`.
    pub fn is_error(self) -> bool
        ensures { result ≡ says_error self }
    {
        !matches!(self, Say::Ok | Say::Pong | Say::Kind(_))
    }
}

// The byte as a text shows it.
fn visible(byte: u8) -> u8
    ensures { result ≡ shown byte }
{
    if byte >= b' ' && byte <= b'~' {
        byte
    } else {
        b'?'
    }
}

// Appends a text that quotes something.
fn write_quoting(
    front: &[u8],
    quoted: &[u8],
    behind: &[u8],
    out: &mut Vec<u8>,
) -> Result<(), Memory>
    ensures { OnOk result (out.new.items ≡ out.old.items ++ (front.now ++ quoted.now ++ behind.now)) }
{
    out.extend_from_slice(front)?;
    out.extend_from_slice(quoted)?;
    out.extend_from_slice(behind)?;
    Ok(())
}

// Appends the text of a fault.
fn write_fault(fault: WireFault, out: &mut Vec<u8>) -> Result<(), Memory>
    ensures { OnOk result (out.new.items ≡ out.old.items ++ fault_text fault) }
{
    match fault {
        WireFault::MultiLength => {
            out.extend_from_slice(b"-ERR Protocol error: invalid multibulk length")
        }
        WireFault::BulkLength => out.extend_from_slice(b"-ERR Protocol error: invalid bulk length"),
        WireFault::NoDollar(byte) => {
            let front = b"-ERR Protocol error: expected '$', got '";
            write_quoting(front, &[visible(byte)], b"'", out)
        }
        WireFault::Quote => out.extend_from_slice(b"-ERR Protocol error: quotes in inline request"),
        WireFault::InlineLong => {
            out.extend_from_slice(b"-ERR Protocol error: too big inline request")
        }
        WireFault::Limit => out.extend_from_slice(b"-ERR Protocol error: command too big"),
        WireFault::Memory => out.extend_from_slice(b"-OOM want of memory"),
    }
}

/// Appends the text, without the CRLF behind it.
pub fn write_say(say: Say, out: &mut Vec<u8>) -> Result<(), Memory>
    ensures { OnOk result (out.new.items ≡ out.old.items ++ say_text say) }
{
    match say {
        Say::Ok => out.extend_from_slice(b"+OK"),
        Say::Pong => out.extend_from_slice(b"+PONG"),
        Say::Kind(kind) => out.extend_from_slice(kind.text()),
        Say::Unknown => out.extend_from_slice(b"-ERR unknown command"),
        Say::Arity(name) => {
            let front = b"-ERR wrong number of arguments for '";
            write_quoting(front, name.spelling(), b"' command", out)
        }
        Say::NotInt => out.extend_from_slice(b"-ERR value is not an integer or out of range"),
        Say::NotScore => out.extend_from_slice(b"-ERR value is not a valid float"),
        Say::BadBound => out.extend_from_slice(b"-ERR min or max is not a float"),
        Say::Syntax => out.extend_from_slice(b"-ERR syntax error"),
        Say::WrongType => out.extend_from_slice(
            b"-WRONGTYPE Operation against a key holding the wrong kind of value",
        ),
        Say::Overflow => out.extend_from_slice(b"-ERR increment or decrement would overflow"),
        Say::BadExpire => out.extend_from_slice(b"-ERR invalid expire time"),
        Say::Refused(refusal) => out.extend_from_slice(refusal.text()),
        Say::Oom => out.extend_from_slice(b"-OOM want of memory"),
        Say::Protocol(fault) => write_fault(fault, out),
    }
}
