// Worked rows: what comes of an input in each form.
mod heads;
mod lines;
mod linked;
mod repeats;
mod steps;
mod streams;

use crate::output::Output;
use crate::text::{invalid, limits, numbers};
pub use repeats::expand;
use sk_resp::ReplyFeeder;
use std::alloc::Global;
use std::io;

// `replies`: the replies of the stream as they are written, and behind them a line where the rest can't be read.
fn written_again(alloc: Global, stream: &[u8]) -> Output {
    let mut feeder = ReplyFeeder::new(alloc);
    let mut replies = Vec::new(alloc);
    let read = feeder.feed(stream, &mut replies);
    let mut out = Output::new(alloc);
    for reply in &replies {
        out.reply(reply);
    }
    if read.is_err() {
        out.say("unreadable\n");
    }
    out
}

/// What comes of an input in a form, over a store with the limits that stand behind the row's name: `steps`, `desk` and `limiters` are lines over a
/// store; `heads`, `failures`, `follows`, `crons`, `requests` and `streams` are lines by themselves; `replies` is a stream. Another form, or an input
/// that isn't as the form wants it, is invalid data.
pub fn came_of(alloc: Global, form: &str, room: &str, input: &[u8]) -> io::Result<Output> {
    let form = form.strip_prefix("repeats:").unwrap_or(form);
    if form == "replies" {
        return Ok(written_again(alloc, input));
    }
    let Ok(input) = str::from_utf8(input) else {
        return Err(invalid());
    };
    let limits = limits(&numbers(alloc, room)?)?;
    match form {
        "steps" => steps::answers(alloc, limits, input),
        "desk" | "limiters" => linked::answers(alloc, form, limits, input),
        _ => lines::answers(alloc, form, input),
    }
}
