// Who answers the commands of a session: a desk, at the moments that a clock tells.
ghost use Rattle.std.specs.Prelude.{◌≡◌, ◌<◌, true, false, length, Ok, Err, None, IfOk, OnErr};
ghost use Rattle.sk_model.specs.Run.{is_ok};
ghost use Rattle.sk_cmd.specs.Table.{IsRead};
ghost use Rattle.sk_model.specs.Acked.{Acknowledges};
ghost use Rattle.sk_desk.specs.Calls.{AddsCall, call_of};
ghost use Rattle.sk_talk.specs.Talk.{IsHeard};
ghost use Rattle.sk_serve.specs.Session.{Does, DoesAt, seen, stop_at, stop_of};

use sk_base::Clock;
use sk_cmd::{Command, PlainCommand, read_command};
use sk_desk::Desk;
use sk_resp::{Memory, Reply, Say, Words};
use sk_talk::{Answer, Stop, Talker};
use std::alloc::Global;
use std::vec::Drain;

// The longest text of a reply, in bytes, behind which a series goes on.
const LONGEST_KEPT: usize = 4096;

/// A desk and a clock, as a session has them.
#[derive(Drop)]
pub struct Sitting<'a, D: Desk, K: Clock> {
    pub alloc: Global,
    pub desk: &'a mut D,
    pub clock: &'a mut K,
}

fn stop_of(command: &Command) -> Option<Stop>
    ensures is { result ≡ stop_of command.now }
    ensures heard { IsHeard result }
{
    match command {
        Command::Plain(PlainCommand::Quit) => Some(Stop::Quit),
        Command::Plain(PlainCommand::Shutdown) => Some(Stop::Shutdown),
        _ => None,
    }
}

fn is_ok(reply: &Reply) -> bool
    ensures { result ≡ is_ok reply.now }
{
    matches!(reply, Reply::Say(Say::Ok))
}

// A fixed text, after which the session goes on.
fn tells(say: Say) -> Answer
    ensures { result ≡ record { reply = Reply.Say say; stop = None } }
{
    Answer {
        reply: Reply::Say(say),
        stop: None,
    }
}

// The words for the call of a desk: a copy, where it wants them.
fn words_for<D: Desk>(alloc: Global, desk: &D, words: &Words) -> Result<Words, Memory>
    ensures copy { IfOk result (λ lent. D.wants_words ≡ true → lent ≡ words.now) }
    ensures wanted { OnErr result (D.wants_words ≡ true) }
{
    if desk.wants_words() {
        words.copy()
    } else {
        Ok(Words::new(Vec::new(alloc)))
    }
}

// Calls the desk: alone, or as one call of a series.
fn call<D: Desk>(desk: &mut D, words: &Words, command: Command, now: u64, is_alone: bool) -> Reply
    requires { D.wants_words ≡ true → IsRead words.now (Ok command) }
    ensures acked { Acknowledges command result (D.acked desk.old) (D.acked desk.new) }
    ensures told { AddsCall (D.calls desk.old) (call_of words.now now result) (D.calls desk.new) }
{
    if is_alone {
        desk.call(words, command, now)
    } else {
        desk.call_in_series(words, command, now)
    }
}

// Does a command of the session at its desk: alone, or as one of a series.
fn answer_at<D: Desk, K: Clock>(
    alloc: Global,
    desk: &mut D,
    clock: &mut K,
    words: Words,
    is_alone: bool,
) -> Answer
    ensures does { DoesAt D.wants_words (seen D.calls D.acked K.moments) desk.old clock.old words result desk.new clock.new }
    ensures heard { IsHeard result.stop }
{
    if words.list().is_empty() {
        return tells(Say::Unknown);
    }
    let Ok(lent) = words_for(alloc, desk, &words) else {
        return tells(Say::Oom);
    };
    match read_command(alloc, words) {
        Ok(command) => {
            let stop = stop_of(&command);
            let now = clock.now();
            let reply = call(desk, &lent, command, now, is_alone);
            let stop = if is_ok(&reply) { stop } else { None };
            Answer { reply, stop }
        }
        Err(fault) => tells(fault.say()),
    }
}

// Whether no other reply is kept behind this one: it is long, or there was no memory for it.
fn is_long(reply: &Reply) -> bool {
    match reply {
        Reply::Simple(text) | Reply::Error(text) | Reply::Bulk(text) => {
            text.bytes().len() > LONGEST_KEPT
        }
        Reply::Array(_) | Reply::Say(Say::Oom) => true,
        _ => false,
    }
}

// Whether a series stops behind this reply.
fn is_last(stop: Option<Stop>, reply: &Reply) -> bool
    ensures { result ≡ false → stop ≡ None }
{
    stop.is_some() || is_long(reply)
}

impl<'a, D: Desk, K: Clock> Talker for Sitting<'a, D, K> {
    ghost does = { λ a words reply stop b. Does D.wants_words (seen D.calls D.acked K.moments a.desk.now a.clock.now) words reply stop (seen D.calls D.acked K.moments b.desk.now b.clock.now)
        × (b.desk.ghost_name ≡ a.desk.ghost_name) × (b.clock.ghost_name ≡ a.clock.ghost_name) };

    fn answer(&mut self, words: Words) -> Answer {
        answer_at(self.alloc, self.desk, self.clock, words, true)
    }

    fn takes_series(&self) -> bool {
        self.desk.takes_series()
    }

    fn answer_series(
        &mut self,
        commands: &mut Drain<'_, Words, Global>,
        replies: &mut Vec<Reply>,
    ) -> Option<Stop> {
        if !self.desk.takes_series() {
            return None;
        }
        'series: while replies.len() < replies.capacity() {
            let Some(words) = commands.next() else {
                return None;
            };
            let Answer { reply, stop } = answer_at(self.alloc, self.desk, self.clock, words, false);
            let is_last = is_last(stop, &reply);
            replies.push_reserved(reply);
            if is_last {
                return stop;
            }
        }
        None
    }

    fn end_series(&mut self) {
        self.desk.end_series();
    }
}
