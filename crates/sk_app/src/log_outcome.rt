// What `pipe --log` comes to: how the pipe over its file ended, or why there was none; its status, and what is told of it.
ghost use Rattle.std.specs.Prelude.{◌≡◌, ◌⊎◌, IfOk, IsSome, OnErr, None, Ok, option_map};
ghost use Rattle.sk_base.specs.Outside.{Rose};
ghost use Rattle.sk_pipe.specs.Run.{status_of as pipe_status_of};
ghost use Rattle.sk_app.specs.Ending.{Reports, ended};
ghost use Rattle.sk_app.specs.LogOutcomes.{by_line, fault_line_of, fault_status_of, line_of, status_of, unopened_status_of};
ghost use Rattle.sk_app.specs.declared.log_outcome.Unopened.TheVariants.{Shelf};

use crate::ending::{NO_MEMORY, line, write};
use sk_aof::LogEnd;
use sk_base::{Failed, Sink};
use sk_line::LineFault;
use sk_log::LogFault;
use sk_pipe::PipeEnd;
use sk_resp::Word;
use std::alloc::{AllocError, Global};

/// Why `pipe --log` opened no file.
#[derive(Clone, Copy, Debug, PartialEq, Eq)]
pub enum Unopened {
    /// The words are no line of it.
    Line,
    /// There was no memory. Nothing says when it comes.
    Memory,
    /// The shelf gave no file: its count of faults rose.
    Shelf,
}

impl From<LineFault> for Unopened {
    ghost from_gives = { λ fault e. e ≡ by_line fault };

    fn from(fault: LineFault) -> Self {
        match fault {
            LineFault::Refused => Unopened::Line,
            LineFault::Memory => Unopened::Memory,
        }
    }
}

impl From<Failed> for Unopened {
    ghost from_gives = { λ _ e. e ≡ Shelf };

    fn from(_: Failed) -> Self {
        Unopened::Shelf
    }
}

// The status of a pipe's end.
fn pipe_status(end: PipeEnd) -> u8
    ensures { result ≡ pipe_status_of end }
{
    match end {
        PipeEnd::Done => 0,
        PipeEnd::Wire | PipeEnd::Cut => 1,
        PipeEnd::ReadFault => 3,
        PipeEnd::WriteFault => 4,
        PipeEnd::Memory => 5,
        PipeEnd::Budget => 9,
    }
}

/// The status of a log that can't be opened, or go on.
pub fn fault_status(fault: LogFault) -> u8
    ensures { result ≡ fault_status_of fault }
{
    match fault {
        LogFault::Memory => 5,
        LogFault::Disk => 10,
        LogFault::NotALog | LogFault::Damaged { at: _ } => 11,
        LogFault::Full => 12,
    }
}

// The status of words that opened no file.
fn unopened_status(why: Unopened) -> u8
    ensures { result ≡ unopened_status_of why }
{
    match why {
        Unopened::Line => 2,
        Unopened::Memory => 5,
        Unopened::Shelf => 10,
    }
}

/// What a fault tells, with LF; none where it tells nothing.
pub fn fault_text(alloc: Global, fault: LogFault) -> Result<Option<Word>, AllocError>
    ensures ok { IfOk result (λ text. text ≡ option_map ended (fault_line_of fault)) }
    ensures err { OnErr result (IsSome (fault_line_of fault)) }
{
    match fault {
        LogFault::NotALog => Ok(Some(line(alloc, b"not a log", b"")?)),
        LogFault::Damaged { at } => {
            let place = format!(in alloc; "{at}")?;
            Ok(Some(line(alloc, b"damaged at ", place.as_bytes())?))
        }
        _ => Ok(None),
    }
}

// Writes what a fault tells, and answers its status.
fn report<K: Sink>(alloc: Global, sink: &mut K, fault: LogFault) -> u8
    ensures told { Reports (fault_line_of fault) (fault_status_of fault) result (K.taken sink.old) (K.taken sink.new) }
    ensures silent { fault_line_of fault ≡ None → sink.new ≡ sink.old }
    ensures cause { result ≡ 4 → Rose (K.write_faults sink.old) (K.write_faults sink.new) }
{
    match fault_text(alloc, fault) {
        Ok(Some(text)) => write(sink, &text, fault_status(fault)),
        Ok(None) => fault_status(fault),
        Err(_) => NO_MEMORY,
    }
}

/// Writes what is told of the outcome, if anything is, and answers its status; 4 where the sink failed, and 5 where there was no memory for the text.
pub fn settle<K: Sink>(alloc: Global, sink: &mut K, outcome: Result<LogEnd, Unopened>) -> u8
    ensures told { Reports (line_of outcome) (status_of outcome) result (K.taken sink.old) (K.taken sink.new) }
    ensures silent { line_of outcome ≡ None → sink.new ≡ sink.old }
    ensures cause { result ≡ 4 → (outcome ≡ Ok (LogEnd.Pipe PipeEnd.WriteFault)) ⊎ Rose (K.write_faults sink.old) (K.write_faults sink.new) }
{
    match outcome {
        Ok(LogEnd::Pipe(end)) => pipe_status(end),
        Ok(LogEnd::Fault(fault)) => report(alloc, sink, fault),
        Err(why) => unopened_status(why),
    }
}
