// What the texts of jobs say of them.
use crate::output::Output;
use crate::text::bytes_of;
use percent_encoding::{AsciiSet, CONTROLS, ascii_set};
use sk_payload::{Head, Lock, Payload, Retry, Until};
use sk_resp::{Text, Word};
use std::alloc::{AllocError, Global};

/// What stands as `%XX` in a line, beside what isn't ASCII.
const ESCAPED: AsciiSet = ascii_set!(CONTROLS.add(b' ').add(b'%'));

// Appends a name and a text.
fn add_text(out: &mut Output, name: &str, text: &Text) {
    out.say(name);
    out.escape(text.text().as_bytes(), ESCAPED);
}

// Appends a name and a number, or that there is none.
fn add_number(out: &mut Output, name: &str, number: Option<u64>) {
    out.say(name);
    match number {
        Some(number) => out.number(number),
        None => out.say("none"),
    }
}

fn add_retry(out: &mut Output, retry: &Retry) {
    match retry {
        Retry::Default => out.say(" retry=default"),
        Retry::Never => out.say(" retry=never"),
        Retry::Count(count) => out.count(" retry=", u64::from(*count), ""),
    }
}

fn add_lock(out: &mut Output, lock: &Option<Lock>) {
    match lock {
        None => out.say(" lock=none"),
        Some(lock) => {
            out.count(" lock=", u64::from(lock.seconds), "s,");
            match lock.until {
                Until::Start => out.say("start"),
                Until::Success => out.say("success"),
            }
        }
    }
}

// Appends what the head says of the runs of its job.
fn add_runs(out: &mut Output, head: &Head) {
    add_retry(out, &head.retry);
    out.count(" generation=", u64::from(head.gen_), " dead=");
    out.say(if head.dead { "true" } else { "false" });
    out.count(" created=", head.created, "");
    match &head.bid {
        Some(bid) => add_text(out, " bid=", bid),
        None => out.say(" bid=none"),
    }
    add_lock(out, &head.lock);
    add_number(out, " retry_for=", head.retry_for.map(u64::from));
    add_number(out, " first_failed=", head.first_failed);
}

/// The payload of a text, in which `%XX` stands for any byte.
pub fn payload_of(alloc: Global, text: &str) -> Result<Payload, AllocError> {
    Payload::of(alloc, Word::new(bytes_of(alloc, text)?))
}

/// Appends the line of a payload: the members of its head.
pub fn add_head(out: &mut Output, payload: &Payload) {
    let Some(head) = payload.head() else {
        return out.say("no head\n");
    };
    add_text(out, "jid=", &head.jid);
    add_text(out, " class=", &head.class);
    add_text(out, " queue=", &head.queue);
    add_text(out, " args=", &head.args);
    add_runs(out, head);
    out.say("\n");
}
