// How a talk over a store whose events are logged ends, or a pipe over a file.

use sk_log::LogFault;
use sk_pipe::PipeEnd;

/// How a talk over a store whose events are logged ended.
#[derive(Clone, Copy)]
pub enum LogEnd {
    /// As a pipe does.
    Pipe(PipeEnd),
    /// The log can't go on. Once it is talked over, the reply to the last command, which it may keep or not, wasn't handed out.
    Fault(LogFault),
}
