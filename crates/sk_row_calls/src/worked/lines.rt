// Worked rows of which each line is one case, and needs no store.
ghost use Rattle.std.specs.Prelude.{IfOk};
ghost use Rattle.sk_cron.specs.Offset.{IsOffset};

use crate::command::words_of;
use crate::output::Output;
use crate::text::{ESCAPED, halves, invalid, number, word};
use crate::worked::heads::{add_head, payload_of};
use crate::worked::streams::add_stream;
use sk_base::limits::OFFSET_UTC;
use sk_cron::Cron;
use sk_payload::{EditFault, Payload, follows};
use sk_resp::write_request;
use std::alloc::Global;
use std::io;

// An offset of a clock from UTC, in minutes. Another text is invalid data.
fn offset_of(text: &str) -> io::Result<i32>
    ensures { IfOk result (λ offset. IsOffset offset) }
{
    let Ok(offset) = text.parse::<i32>() else {
        return Err(invalid());
    };
    if offset < -OFFSET_UTC || offset > OFFSET_UTC {
        return Err(invalid());
    }
    Ok(offset)
}

// `crons`, a line `MOMENT OFFSET TEXT`: the latest slot of a moment, in milliseconds since 1970, at an offset, in minutes, or where the text is
// refused.
fn add_slot(out: &mut Output, line: &str) -> io::Result<()> {
    let (moment, rest) = halves(line)?;
    let (offset, text) = halves(rest)?;
    let (moment, offset) = (number(moment)?, offset_of(offset)?);
    match Cron::read(text) {
        Ok(cron) => match cron.last_slot(moment, offset) {
            Some(slot) => out.count("", slot, "\n"),
            None => out.say("none\n"),
        },
        Err(fault) => {
            out.count("field ", u64::from(fault.field), "");
            out.count(", byte ", fault.place as u64, "\n");
        }
    }
    Ok(())
}

fn edit_fault(fault: EditFault) -> &'static str {
    match fault {
        EditFault::NoHead => "no head\n",
        EditFault::GenLimit => "the greatest count of failures\n",
        EditFault::Memory => "memory\n",
    }
}

// What a failed run with an error of this class and message makes of a text at a moment. No clause says more.
fn failed(
    alloc: Global,
    held: &Payload,
    now: u64,
    class: &str,
    message: &str,
) -> Result<Payload, EditFault> {
    held.failed(alloc, now, class, message)
}

// `failures`, a line `MOMENT CLASS MESSAGE TEXT`: what a failed run makes of the text of its job.
fn add_failed(alloc: Global, out: &mut Output, line: &str) -> io::Result<()> {
    let (now, rest) = halves(line)?;
    let (class, rest) = halves(rest)?;
    let (message, text) = halves(rest)?;
    let (now, class, message) = (number(now)?, word(alloc, class)?, word(alloc, message)?);
    let held = payload_of(alloc, text)?;
    match failed(alloc, &held, now, class.as_str(), message.as_str()) {
        Ok(payload) => {
            out.escape(payload.text().bytes(), ESCAPED);
            out.say("\n");
        }
        Err(fault) => out.say(edit_fault(fault)),
    }
    Ok(())
}

// `follows`: `yes` where the second of two texts of jobs follows the first, and else `no`.
fn add_following(alloc: Global, out: &mut Output, line: &str) -> io::Result<()> {
    let (held, next) = halves(line)?;
    let (held, next) = (payload_of(alloc, held)?, payload_of(alloc, next)?);
    out.say(if follows(&held, &next) {
        "yes\n"
    } else {
        "no\n"
    });
    Ok(())
}

// `requests`: a command as it is written.
fn add_request(alloc: Global, out: &mut Output, line: &str) -> io::Result<()> {
    let mut text = Vec::new(alloc);
    write_request(alloc, &words_of(alloc, line)?, &mut text)?;
    out.add(&text);
    Ok(())
}

// `heads`: the head of a job's text.
fn add_job(alloc: Global, out: &mut Output, line: &str) -> io::Result<()> {
    add_head(out, &payload_of(alloc, line)?);
    Ok(())
}

// Appends what comes of a line in this form: `streams` is the kinds of a stream's replies, and where reading ends.
fn add_line(alloc: Global, out: &mut Output, form: &str, line: &str) -> io::Result<()> {
    match form {
        "heads" => add_job(alloc, out, line),
        "failures" => add_failed(alloc, out, line),
        "follows" => add_following(alloc, out, line),
        "crons" => add_slot(out, line),
        "requests" => add_request(alloc, out, line),
        "streams" => add_stream(alloc, out, line),
        _ => Err(invalid()),
    }
}

/// What comes of lines that need no store.
pub fn answers(alloc: Global, form: &str, lines: &str) -> io::Result<Output> {
    let mut out = Output::new(alloc);
    for line in lines.lines() {
        add_line(alloc, &mut out, form, line)?;
    }
    Ok(out)
}
