// The link of a thread to its seat: it reads each request as a command, and lets the desk call it.
ghost use Rattle.std.specs.Prelude.{◌≡◌, [], false, Ok, IfOk, OnOk, OnErr, refl};
ghost use Rattle.sk_resp.specs.Reply.{wire};
ghost use Rattle.sk_cmd.specs.Table.{IsRead};
ghost use Rattle.sk_lane.specs.Asks.{is_oom, is_oom_text as oom_text};
ghost use Rattle.sk_lane.specs.Carrying.{AskedOf, Carries, ReadsAtMost, state_of};
ghost use Rattle.sk_lane.specs.CarryLaws.{carries_ends, carries_more};
ghost use Rattle.sk_lane.specs.Drawing.{at_rest, is_off};

use crate::{Crashes, Drawing, Memory};
use sk_base::Clock;
use sk_cmd::{Command, read_command};
use sk_desk::{Ask, Desk};
use sk_link::{Link, LinkFault};
use sk_resp::{Reply, Word, Words, write_reply};
use std::alloc::Global;

/// A link to a desk. It reads a clock of its own before each call, and keeps what was asked and answered.
pub struct SeatLink<D: Desk, C: Clock> {
    pub desk: D,
    pub clock: C,
    /// What was asked and answered, in order.
    pub asks: Vec<Ask>,
    pub drawing: Drawing,
}

impl<D: Desk, C: Clock> SeatLink<D, C> {
    /// A link that carried nothing yet. Takes no memory.
    pub fn new(alloc: Global, desk: D, clock: C, crashes: Crashes) -> SeatLink<D, C>
        ensures desk { result.desk ≡ desk }
        ensures asks { result.asks.items ≡ [] }
        ensures clock { result.clock ≡ clock }
        ensures drawing { result.drawing ≡ at_rest crashes }
    {
        SeatLink {
            desk,
            clock,
            asks: Vec::new(alloc),
            drawing: Drawing::at_rest(crashes),
        }
    }
}

// The command that the words are. The words of no worker, poller or client are none.
fn read(alloc: Global, words: &Words) -> Result<Command, Memory>
    ensures { IfOk result (λ command. IsRead words.now (Ok command)) }
{
    if words.list().is_empty() {
        return Err(Memory);
    }
    match read_command(alloc, words.copy()?) {
        Ok(command) => Ok(command),
        Err(_) => Err(Memory),
    }
}

// The text of a reply that isn't `-OOM`.
fn text_of(alloc: Global, reply: &Reply) -> Result<Word, Memory>
    ensures text { IfOk result (λ text. text ≡ wire reply.now) }
    ensures served { OnOk result (is_oom reply.now ≡ false) }
{
    let mut text = Vec::new(alloc);
    write_reply(alloc, reply, &mut text)?;
    if is_oom_text(&text) {
        return Err(Memory);
    }
    Ok(Word::new(text))
}

fn is_oom_text(text: &[u8]) -> bool
    ensures { result ≡ oom_text text.now }
{
    text == b"-OOM want of memory\r\n".as_slice()
}

// Lets the desk call the request, at the clock's moment, and keeps it with its reply.
fn ask<D: Desk, C: Clock>(
    alloc: Global,
    desk: &mut D,
    clock: &mut C,
    asks: &mut Vec<Ask>,
    words: &Words,
) -> Result<Reply, Memory>
    ensures ok { IfOk result (λ reply. AskedOf D.Desk C.Clock words.now reply asks.old.items clock.old desk.old asks.new.items clock.new desk.new) }
    ensures served { IfOk result (λ reply. is_oom reply ≡ false) }
    ensures err { OnErr result (ReadsAtMost (C.moments clock.old) (C.moments clock.new) × (asks.new.items ≡ asks.old.items)) }
{
    let request = words.copy()?;
    let command = read(alloc, words)?;
    asks.reserve(1)?;
    let now = clock.now();
    let reply = desk.call(words, command, now);
    let Ok(text) = text_of(alloc, &reply) else {
        return Err(Memory);
    };
    asks.push_reserved(Ask {
        now,
        request,
        reply: Some(text),
    });
    Ok(reply)
}

impl<D: Desk, C: Clock> Link for SeatLink<D, C> {
    ghost carried = { λ a b calls. Carries (state_of D.Desk C.Clock a) (state_of D.Desk C.Clock b) calls };

    ghost has_ended = { λ a. is_off a.drawing };

    /// It fails where it crashes. There is no memory where the store answers `-OOM`, too.
    fn call(&mut self, alloc: Global, words: &Words) -> Result<Reply, LinkFault> {
        match self.drawing.pass() {
            Ok(()) => {}
            Err(fault) => return Err(fault),
        }
        match ask(
            alloc,
            &mut self.desk,
            &mut self.clock,
            &mut self.asks,
            words,
        ) {
            Ok(reply) => Ok(reply),
            Err(_) => {
                self.drawing.starved = true;
                Err(LinkFault::Memory)
            }
        }
    }

    ghost carried_none = { λ a. refl };

    ghost carried_more = { λ a b c xs ys p q. carries_more _ _ _ xs ys p q };

    ghost carried_ends = { λ a b calls p. carries_ends _ _ calls p };
}
