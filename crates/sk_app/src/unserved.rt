// What `serve --log` comes to: the summary, or why there is none; its status, and what is told of it.
ghost use Rattle.std.specs.Prelude.{◌≡◌, Err, IfOk, IsSome, OnErr, option_map};
ghost use Rattle.sk_base.specs.Outside.{Rose};
ghost use Rattle.sk_app.specs.Ending.{Reports, ended};
ghost use Rattle.sk_app.specs.LogServeOutcomes.{Tells, by_line, kept_status_of, line_of, status_of};
ghost use Rattle.sk_app.specs.declared.unserved.Unserved.TheVariants.{Line, Memory, Shelf};

use crate::ending::{NO_MEMORY, line, write};
use crate::log_outcome::{fault_status, fault_text};
use sk_base::{Failed, Sink};
use sk_durable::KeptFault;
use sk_line::LineFault;
use sk_log::LogFault;
use sk_resp::Word;
use std::alloc::{AllocError, Global};

/// Why `serve --log` ends before it is done.
#[derive(Clone, Copy)]
pub enum Unserved {
    /// The words are no line of it.
    Line,
    /// There was no memory. Nothing says when it comes.
    Memory,
    /// The shelf gave no file: its count of faults rose.
    Shelf,
    /// No store could be made ready of the file.
    Log(LogFault),
    /// A server over the store ended by this fault.
    Kept(KeptFault),
}

impl From<LineFault> for Unserved {
    ghost from_gives = { λ fault e. e ≡ by_line fault };

    fn from(fault: LineFault) -> Self {
        match fault {
            LineFault::Refused => Unserved::Line,
            LineFault::Memory => Unserved::Memory,
        }
    }
}

impl From<AllocError> for Unserved {
    ghost from_gives = { λ _ e. e ≡ Memory };

    fn from(_: AllocError) -> Self {
        Unserved::Memory
    }
}

impl From<Failed> for Unserved {
    ghost from_gives = { λ _ e. e ≡ Shelf };

    fn from(_: Failed) -> Self {
        Unserved::Shelf
    }
}

// The status of a server that ended by a fault.
fn kept_status(fault: KeptFault) -> u8
    ensures { result ≡ kept_status_of fault }
{
    match fault {
        KeptFault::Memory => NO_MEMORY,
        KeptFault::Failed | KeptFault::Spent => 6,
        KeptFault::Disk | KeptFault::Astray => 10,
        KeptFault::Full => 12,
    }
}

// The status, by the cause.
fn status(why: Unserved) -> u8
    ensures { result ≡ status_of why }
{
    match why {
        Unserved::Line => 2,
        Unserved::Memory => NO_MEMORY,
        Unserved::Shelf => 10,
        Unserved::Log(fault) => fault_status(fault),
        Unserved::Kept(fault) => kept_status(fault),
    }
}

// What a cause tells, with LF; none where it tells nothing.
fn text_of(alloc: Global, why: Unserved) -> Result<Option<Word>, AllocError>
    ensures ok { IfOk result (λ text. text ≡ option_map ended (line_of why)) }
    ensures err { OnErr result (IsSome (line_of why)) }
{
    match why {
        Unserved::Log(fault) => fault_text(alloc, fault),
        Unserved::Kept(KeptFault::Spent) => Ok(Some(line(alloc, b"seats spent", b"")?)),
        _ => Ok(None),
    }
}

// Writes what a cause tells, and answers its status.
fn report<K: Sink>(alloc: Global, sink: &mut K, why: Unserved) -> u8
    ensures told { Reports (line_of why) (status_of why) result (K.taken sink.old) (K.taken sink.new) }
    ensures silent { why ≡ Line → sink.new ≡ sink.old }
    ensures cause { result ≡ 4 → Rose (K.write_faults sink.old) (K.write_faults sink.new) }
{
    match text_of(alloc, why) {
        Ok(Some(text)) => write(sink, &text, status(why)),
        Ok(None) => status(why),
        Err(_) => NO_MEMORY,
    }
}

/// Writes the summary, or what is told of the cause, if anything is, and answers the status: 0 for a summary, and else the cause's own; 4 where the
/// sink failed, and 5 where there was no memory for the text.
pub fn settle<K: Sink>(alloc: Global, sink: &mut K, outcome: Result<Word, Unserved>) -> u8
    ensures told { Tells outcome result (K.taken sink.old) (K.taken sink.new) }
    ensures silent { outcome ≡ Err Line → sink.new ≡ sink.old }
    ensures cause { result ≡ 4 → Rose (K.write_faults sink.old) (K.write_faults sink.new) }
{
    match outcome {
        Ok(summary) => write(sink, &summary, 0),
        Err(why) => report(alloc, sink, why),
    }
}
